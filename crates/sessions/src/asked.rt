//! Answers at the state of a book, outside of any session.
ghost use Rattle.std.specs.Prelude.{◌≡◌, true, false, Some, IfOk, OnErr};
ghost use Rattle.command_words.specs.Spelling.{is_sound_command};
ghost use Rattle.session_rules.specs.Answers.{answer};
ghost use Rattle.session_rules.specs.Sessions.{needs_no_memory};
ghost use Rattle.plan_book.specs.Books.{history, IsSameStory};

use crate::alone::Alone;
use crate::command;
use crate::terms::Terms;
use command_words::{Command, Reply};
use plan_book::PlanBook;
use plan_schema::Name;
use std::alloc::{AllocError, Global};

/// What a command that is no change is answered at the state of a book that nobody else changes, whoever's session it is. An error for
/// want of memory, and for a command that has no answer: a change.
pub fn answer_at<B: PlanBook>(
    alloc: Global,
    book: &mut B,
    user: &Name,
    command: &Command<'_>,
) -> Result<Reply, AllocError>
    requires { is_sound_command command.now ≡ true }
    ensures story { IsSameStory B.story B.faults B.basis book.old book.new }
    ensures answer { IfOk result (λ reply. answer (B.basis book.old).base
        (history (B.basis book.old) (B.story book.old)) user.now command.now ≡ Some reply) }
    ensures err { OnErr result (needs_no_memory command.now ≡ false) }
{
    let alone = Alone::new(Terms {
        session: 1,
        may_change: false,
    });
    match command {
        Command::Hello(_) | Command::Point | Command::Quit => Ok(Reply::Ok(book.point())),
        _ => match command::answer(alloc, &alone, book, user, command) {
            Ok(reply) => Ok(reply),
            Err(_) => Err(AllocError),
        },
    }
}
