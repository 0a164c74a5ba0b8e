//! Where gross requirements come from.
use plan_schema::{Name, Qty};

/// A source of gross requirements, with its quantity.
#[derive(Clone, Copy)]
pub enum Peg {
    /// An independent demand, by its order.
    Demand(Name, Qty),
    /// A parent, by its name.
    Bill(Name, Qty),
}
