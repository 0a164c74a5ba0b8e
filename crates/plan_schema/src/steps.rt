//! A counter without bytes.
ghost use Rattle.std.specs.Prelude.{◌≡◌, ◌+◌, ◌<◌};

use std::marker::Model;
use std::sync::ledger::{Book, Ledger, Share};

/// How many parts were netted. It takes no bytes, and only `tick` changes it: code that is generic in the ledger can't
/// make one.
#[derive(Drop)]
pub struct Steps<L: Ledger> {
    book: Book<L>,
    share: Share<L>,
}

impl<L: Ledger> Model for Steps<L> {
    ghost use Rattle.std.specs.Prelude.{ℕ, ◌<◌};

    ghost Value = { ℕ };

    ghost view = { λ s. s.book.total };

    ghost invariant = { λ s. 0 < s.share.parts };
}

impl<L: Ledger> Steps<L> {
    /// A counter at 0, from a ledger of the caller's own: its book, with one of its shares.
    pub fn new(book: Book<L>, share: Share<L>) -> Steps<L>
        requires start { book.total ≡ 0 }
        requires backed { 0 < share.parts }
        ensures { result ≡ 0 }
    {
        Steps { book, share }
    }

    /// One more.
    pub fn tick(&mut self)
        ensures { self.new ≡ self.old + 1 }
    {
        self.book.add(&mut self.share, 1);
    }
}
