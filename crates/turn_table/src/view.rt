//! What a seat knows, for contracts.
ghost use Rattle.std.specs.Borrow.{ftrue};
ghost use Rattle.std.specs.Prelude.{ℕ};
ghost use Rattle.turn_table.specs.Views.{Tickets, Numbers, Reading, Holding};

use std::marker::{Model, PhantomData};

// What a seat knows. No value of it is made.
pub struct View<E, G> {
    of: PhantomData<(E, G)>,
    pub ghost first: { ℕ },
    pub ghost tickets: { Tickets },
    pub ghost numbers: { Numbers E },
    pub ghost reading: { Reading E },
    pub ghost holding: { Holding G },
}

impl<E, G> Model for View<E, G> {
    ghost also_owns = { λ _. ftrue };
}
