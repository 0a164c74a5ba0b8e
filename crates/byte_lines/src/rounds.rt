//! Desks at which sessions are served, in rounds.
ghost use Rattle.std.specs.Prelude.{◌≡◌, ◌<◌, ◌↔◌, ◌∷◌, ◌++◌, [], true, Some, length, min, OnOk, OnErr, IfErr};
ghost use Rattle.std.specs.Prelude.{IfNone, IsNone};
ghost use Rattle.std.specs.List.{slice_get};
ghost use Rattle.std.specs.Option.{option_copied_mut, option_to_list};
ghost use Rattle.std.specs.Borrow.{sem};
ghost use Rattle.byte_lines.specs.Desks.{desk_count, with_desk, all_desks, no_desks, without_last_desk};

use std::alloc::{AllocError, Global};
use std::marker::Model;

/// How a session ended.
#[derive(Clone, Copy)]
pub enum Served {
    /// The input was read to its end, or to its request to quit. Holds the number of requests.
    Ended(u64),
    /// The source failed.
    ReadFault,
    /// The sink failed.
    WriteFault,
    /// The input is longer than a session's input may be.
    Limit,
    /// The tickets are used up, so nobody gets a turn any more.
    Worn,
    /// The journal failed.
    BookFault,
    /// The sink had no memory.
    Memory,
}

/// The source and the sink of one session, and how it ended, once it did.
#[derive(Drop)]
pub struct Desk<S, K> {
    pub source: S,
    pub sink: K,
    pub served: Option<Served>,
}

// The desks of one round.
#[derive(Drop)]
struct Round<S, K> {
    desks: Vec<Desk<S, K>>,
}

impl<S, K> Model for Round<S, K> {
    ghost use Rattle.std.specs.Prelude.{List};
    ghost use Rattle.byte_lines.specs.declared.rounds.Desk.{Desk};

    ghost Value = { List (Desk S K) };

    ghost view = { λ r. r.desks.items };
}

impl<S, K> Round<S, K> {
    ghost use Rattle.byte_lines.specs.RoundLends.{LendsDesks};

    fn len(&self) -> usize
        ensures { result ≡ length self.now }
    {
        self.desks.len()
    }

    fn push(&mut self, desk: Desk<S, K>) -> Result<(), Desk<S, K>>
        ensures ok { OnOk result (self.new ≡ self.old ++ desk ∷ []) }
        ensures err { IfErr result (λ back. back ≡ desk) }
        ensures same { OnErr result (self.new ≡ self.old) }
    {
        match self.desks.push(desk) {
            Ok(()) => Ok(()),
            Err(failed) => Err(failed.value),
        }
    }

    fn pop(&mut self) -> Option<Desk<S, K>>
        ensures taken { self.old ≡ self.new ++ option_to_list result }
        ensures none { IfNone result (self.old ≡ []) }
    {
        self.desks.pop()
    }

    fn desks(&mut self) -> &mut [Desk<S, K>]
        ensures* writes_back { sem 𝓛 (LendsDesks S.row K.row self.entry result) }
        ensures value { result.now ≡ self.old }
    {
        self.desks.as_mut_slice()
    }
}

/// Desks in rounds: those of a round are served side by side, and the rounds one after the other.
#[derive(Drop)]
pub struct Rounds<S, K> {
    rounds: Vec<Round<S, K>>,
    alloc: Global,
}

impl<S, K> Model for Rounds<S, K> {
    ghost use Rattle.std.specs.Prelude.{List};
    ghost use Rattle.byte_lines.specs.declared.rounds.Desk.{Desk};

    ghost Value = { List (List (Desk S K)) };

    ghost view = { λ r. r.rounds.items };
}

impl<S, K> Rounds<S, K> {
    ghost use Rattle.byte_lines.specs.RoundsLends.{LendsRound};

    /// No rounds.
    pub fn new(alloc: Global) -> Rounds<S, K>
        ensures { result ≡ [] }
    {
        Rounds {
            rounds: Vec::new(alloc),
            alloc,
        }
    }

    /// Begins an empty round.
    pub fn start(&mut self) -> Result<(), AllocError>
        ensures ok { OnOk result (self.new ≡ self.old ++ [] ∷ []) }
        ensures err { OnErr result (self.new ≡ self.old) }
    {
        let round = Round {
            desks: Vec::new(self.alloc),
        };
        match self.rounds.push(round) {
            Ok(()) => Ok(()),
            Err(failed) => {
                let Round { desks } = failed.value;
                desks.destroy_empty();
                Err(AllocError)
            }
        }
    }

    /// Puts a desk into the last round. Hands it back where there is no memory for it.
    pub fn push(&mut self, desk: Desk<S, K>) -> Result<(), Desk<S, K>>
        requires { 0 < length self.old }
        ensures ok { OnOk result (self.new ≡ with_desk self.old desk) }
        ensures back { IfErr result (λ back. back ≡ desk) }
        ensures err { OnErr result (self.new ≡ self.old) }
    {
        let last = self.rounds.len() - 1;
        let round = &mut self.rounds[last];
        round.push(desk)
    }

    /// How many rounds there are.
    pub fn rounds(&self) -> usize
        ensures { result ≡ length self.now }
    {
        self.rounds.len()
    }

    /// How many desks there are. The count stops at the last value.
    pub fn desks(&self) -> usize
        ensures { result ≡ min (desk_count self.now) usize.MAX }
    {
        let mut count: usize = 0;
        for round in &self.rounds {
            count = count.saturating_add(round.len());
        }
        count
    }

    /// The desks of a round, from 0, which are the round's once more when the loan ends.
    pub fn round(&mut self, at: usize) -> &mut [Desk<S, K>]
        requires { at < length self.old }
        ensures* writes_back { sem 𝓛 (LendsRound S.row K.row self.entry at result) }
        ensures value { slice_get self.old at ≡ Some result.now }
    {
        let round = &mut self.rounds[at];
        round.desks()
    }

    /// Takes out the last desk of all. The rounds stay.
    pub fn pop(&mut self) -> Option<Desk<S, K>>
        ensures taken { all_desks self.old ≡ all_desks self.new ++ option_to_list result }
        ensures left { self.new ≡ without_last_desk self.old }
        ensures none { IsNone result ↔ (no_desks self.old ≡ true) }
    {
        let mut at = self.rounds.len();
        while at > 0 {
            at -= 1;
            let round = &mut self.rounds[at];
            if let Some(desk) = round.pop() {
                return Some(desk);
            }
        }
        None
    }
}
