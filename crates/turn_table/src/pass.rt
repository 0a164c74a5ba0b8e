//! Passes: what a thread has of a turn, and what it gets by it.
ghost use Rattle.std.specs.Prelude.{◌≡◌, length};

use crate::steps::TurnSeat;
use crate::storied::Storied;
use std::marker::Model;

/// A thread's right to take turns, and what it knows.
///
/// A contract sees it as a record of what it knows: `turn`, `number`, `seen`, `own` and more.
#[derive(Drop)]
pub struct Pass<T: Storied> {
    pub(crate) seat: TurnSeat<T>,
    pub(crate) number: u64,
    pub(crate) seen_len: u64,
    pub(crate) ticket: Option<u64>,
}

impl<T: Storied> Model for Pass<T> {
    ghost use Rattle.turn_table.specs.Passes.{Knowledge, known, IsSeatOf};

    ghost Value = { Knowledge T.Entry T.Basis };

    ghost view = { λ p. known p.seat.table_id p.number p.seat.me.0 };

    ghost invariant = { λ p. IsSeatOf p.number p.seen_len p.ticket p.seat.me };
}

impl<T: Storied> Pass<T> {
    /// The number that its entries have: 0 for the first pass, k for the k-th that was split off.
    pub fn number(&self) -> u64
        ensures { result ≡ self.now.number }
    {
        self.number
    }

    /// How many entries it has seen.
    pub fn seen_len(&self) -> u64
        ensures { result ≡ length self.now.seen }
    {
        self.seen_len
    }
}

/// The value, while a pass has the turn. It is given back or kept, and never dropped.
pub struct Held<T: Storied> {
    /// What was taken.
    pub value: T,
}

impl<T: Storied> Held<T> {
    /// Hands the value out for good: no pass gets a turn after it.
    pub fn keep(self) -> T
        ensures { result ≡ self.value }
    {
        let Held { value } = self;
        value
    }
}

/// A pass whose highest ticket is not served: it takes no turn any more.
#[derive(Clone, Copy, Debug, PartialEq, Eq)]
pub struct Worn {
    /// The highest ticket of the pass, 2^62 or more.
    pub ticket: u64,
}

/// There was no memory for a turn. The value comes back.
#[derive(Drop)]
pub struct TurnFault<T> {
    /// The value that was to be shared.
    pub value: T,
}
