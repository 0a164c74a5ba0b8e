//! Keys and records.
ghost use Rattle.std.specs.Prelude.{◌≡◌, true};
ghost use Rattle.plan_schema.specs.Base.{is_part_key};
ghost use Rattle.plan_schema.specs.Key.{key_cmp};
ghost use Rattle.plan_schema.specs.Sound.{key_has_names, record_has_names};

use crate::day::Day;
use crate::name::Name;
use std::cmp::Ordering;

/// A whole quantity, in the part's unit.
pub type Qty = u64;

/// What a record is about. Keys are ordered by table, in the order of the variants, and then by their fields.
#[derive(Clone, Copy, PartialEq, Eq, PartialOrd, Ord)]
pub enum Key {
    /// The horizon.
    Plan,
    /// A calendar's week.
    Cal(Name),
    /// A day on which a calendar doesn't work.
    Holiday(Name, Day),
    /// A part.
    Part(Name),
    /// What is on hand of a part.
    Stock(Name),
    /// An independent demand for a part, with its order.
    Demand(Name, Name),
    /// A scheduled receipt of a part, with its order.
    Receipt(Name, Name),
    /// How much of a component one unit of a parent takes.
    Bill { parent: Name, component: Name },
}

/// How a planned order is sized from the net requirement of its day.
#[derive(Clone, Copy, PartialEq)]
pub enum Lot {
    /// Lot for lot: the net requirement itself.
    Exact,
    /// Fixed order quantity: the least multiple that is enough.
    Fixed(Qty),
    /// The least multiple of `step` that is enough and at least `least`.
    Least { least: Qty, step: Qty },
    /// Period order quantity: what that many days need from this one on.
    Period(u16),
    /// Least cost, with a setup per order and the holding of a unit for a day.
    Best { setup: Qty, hold: Qty },
}

/// The days from one to another, both of them with it.
#[derive(Clone, Copy, PartialEq)]
pub struct Span {
    pub from: Day,
    pub to: Day,
}

/// What is recorded under a key.
#[derive(Clone, Copy, PartialEq)]
pub enum Record {
    /// The horizon: its first day, and how many days it has, 1 to 400.
    Plan {
        start: Day,
        days: u16,
    },
    /// Whether each weekday works, Monday first.
    Cal {
        week: [bool; 7],
    },
    Holiday,
    /// The lead time in working days, the lot rule, the safety stock, and the calendar, if not every day works.
    Part {
        lead: u16,
        lot: Lot,
        safety: Qty,
        calendar: Option<Name>,
    },
    Stock {
        qty: Qty,
    },
    Demand {
        day: Day,
        qty: Qty,
    },
    Receipt {
        day: Day,
        qty: Qty,
    },
    /// The quantity per unit of the parent, and the days on which the bill is effective, if not all are.
    Bill {
        per: Qty,
        span: Option<Span>,
    },
}

impl Key {
    /// Where the key stands beside another in the order of keys.
    pub fn compare(&self, other: &Key) -> Ordering
        ensures { result ≡ key_cmp self.now other.now }
    {
        self.cmp(other)
    }

    /// Whether it is a part's own record.
    pub fn is_part(&self) -> bool
        ensures { result ≡ is_part_key self.now }
    {
        matches!(self, Key::Part(_))
    }

    /// Tells a caller that the names in the key are names, and its days days.
    pub fn names_hold(&self)
        ensures { key_has_names self.now ≡ true }
    {
        match self {
            Key::Plan => (),
            Key::Cal(name) | Key::Part(name) | Key::Stock(name) => name.holds(),
            Key::Holiday(name, day) => {
                name.holds();
                day.holds();
            }
            Key::Demand(part, order) | Key::Receipt(part, order) => {
                part.holds();
                order.holds();
            }
            Key::Bill { parent, component } => {
                parent.holds();
                component.holds();
            }
        }
    }
}

impl Record {
    /// Tells a caller that the names in the record are names, and its days days.
    pub fn names_hold(&self)
        ensures { record_has_names self.now ≡ true }
    {
        match self {
            Record::Plan { start, .. } => start.holds(),
            Record::Part {
                calendar: Some(name),
                ..
            } => name.holds(),
            Record::Demand { day, .. } | Record::Receipt { day, .. } => day.holds(),
            Record::Bill {
                span: Some(span),
                ..
            } => {
                span.from.holds();
                span.to.holds();
            }
            _ => (),
        }
    }
}
