//! Where units end.
use plan_schema::{Name, Qty};

/// How many units end at one end.
#[derive(Clone, Copy)]
pub enum Share {
    /// At an independent demand, by its part and its order.
    Demand { part: Name, order: Name, qty: Qty },
    /// As surplus of a part.
    Surplus { part: Name, qty: Qty },
}
