//! The rule of a turn, and the kinds of step that keep it.
ghost use Rattle.turn_table.specs.Rule.{Kept};
ghost use Rattle.turn_table.specs.Steps.{beginner, left_seat, right_seat, merged, spent, Opened, Started, Drew};
ghost use Rattle.turn_table.specs.Steps.{Looked, Took, Marked, Gave, Leaves, Numbered, Compared};

use crate::storied::Storied;
use crate::view::View;
use atomic_table::{Join, Play, Split, TableRule};
use std::marker::PhantomData;

// The rule of a turn; its key is the first ticket.
pub(crate) struct TurnRule<T>(PhantomData<T>);

impl<T: Storied> TableRule<Option<T>, View<T::Entry, T::Basis>, u64> for TurnRule<T> {
    ghost holds = { Kept T.story T.faults T.basis };

    ghost first = { beginner };
}

// What each kind of step tells: the first seat takes the empty slot out, and puts the first value in.
pub(crate) struct Open;

impl<T, E, G> Play<Option<T>, View<E, G>> for Open {
    ghost then = { λ _ m n w. Opened m n w };
}

pub(crate) struct Start;

impl<T: Storied> Play<Option<T>, View<T::Entry, T::Basis>> for Start {
    ghost then = { λ _ m n w. Started T.story T.faults T.basis m n w };
}

// A ticket is drawn; a look at the turns served; a turn is left.
pub(crate) struct Draw;

impl<T, E, G> Play<Option<T>, View<E, G>> for Draw {
    ghost then = { Drew };
}

pub(crate) struct Look;

impl<T, E, G> Play<Option<T>, View<E, G>> for Look {
    ghost then = { Looked };
}

pub(crate) struct Leave;

impl<T, E, G> Play<Option<T>, View<E, G>> for Leave {
    ghost then = { Leaves };
}

// The story is noted and the value taken out; the mark is noted; the story is noted and the value put back.
pub(crate) struct TakeOut;

impl<T: Storied> Play<Option<T>, View<T::Entry, T::Basis>> for TakeOut {
    ghost then = { λ _ m n w. Took T.story T.faults T.basis m n w };
}

pub(crate) struct Mark;

impl<T: Storied> Play<Option<T>, View<T::Entry, T::Basis>> for Mark {
    ghost then = { Marked T.story T.faults T.basis };
}

pub(crate) struct PutBack;

impl<T: Storied> Play<Option<T>, View<T::Entry, T::Basis>> for PutBack {
    ghost then = { λ _ m n w. Gave T.story T.faults T.basis m n w };
}

// A number is drawn for a new seat; a look at what a join has brought together.
pub(crate) struct Number;

impl<T, E, G> Play<Option<T>, View<E, G>> for Number {
    ghost then = { Numbered };
}

pub(crate) struct Compare;

impl<T, E, G> Play<Option<T>, View<E, G>> for Compare {
    ghost then = { Compared };
}

// A seat is split, and two are joined.
pub(crate) struct Seats;

impl<E, G> Split<View<E, G>> for Seats {
    ghost left = { left_seat };

    ghost right = { right_seat };
}

impl<E, G> Join<View<E, G>> for Seats {
    ghost both = { merged };

    ghost spent = { spent };
}
