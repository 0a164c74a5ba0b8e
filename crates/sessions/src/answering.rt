//! What answers the requests of a session.
ghost use Rattle.std.specs.Prelude.{◌≡◌};
ghost use Rattle.sessions.specs.Replied.{Gives, Stops};

use crate::change::reply_to_change;
use crate::command::reply_to_command;
use crate::reach::Reach;
use command_words::{Bad, Command, Reply};
use plan_schema::{Change, Name};
use request_loop::{Answers, Why};
use std::alloc::Global;

/// Answers the requests of a session, from a book that it reaches so.
#[derive(Drop)]
pub struct Session<T> {
    alloc: Global,
    reach: T,
}

impl<T> Session<T> {
    pub fn new(alloc: Global, reach: T) -> Session<T>
        ensures { result.reach ≡ reach }
    {
        Session { alloc, reach }
    }
}

impl<T: Reach> Answers for Session<T> {
    type State = T::State;

    ghost ready = { λ session state. T.ready session.reach state };

    ghost gives = { λ session old user request reply new.
        Gives (T.sight session.reach) old new user request reply };

    ghost stops = { λ session old user request why new.
        Stops (T.sight session.reach) (T.failed session.reach) (T.worn session.reach)
        old new user request why };

    fn change(
        &self,
        state: &mut T::State,
        line: u64,
        user: &Name,
        change: Change,
    ) -> Result<Reply, Why> {
        reply_to_change(&self.reach, state, user, line, change)
    }

    fn faulty(
        &self,
        _state: &mut T::State,
        _line: u64,
        _user: &Name,
        bad: Bad,
    ) -> Result<Reply, Why> {
        Ok(Reply::Bad(bad))
    }

    fn wanting(&self, _state: &mut T::State, _line: u64, _user: &Name) -> Result<Reply, Why> {
        Ok(Reply::Mem)
    }

    fn ask(
        &self,
        state: &mut T::State,
        _line: u64,
        user: &Name,
        command: &Command<'_>,
    ) -> Result<Reply, Why> {
        reply_to_command(self.alloc, &self.reach, state, user, command)
    }
}
