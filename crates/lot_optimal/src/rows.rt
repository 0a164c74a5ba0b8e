//! What orders cost, with the rows that prove that no orders cost less.
use plan_schema::{Qty, Series};

/// A day with a need.
#[derive(Clone, Copy)]
pub struct CostRow {
    /// The day, counted from the first.
    pub at: u16,
    /// By how much its shortage passes the greatest before it.
    pub need: Qty,
    /// What is ordered on it.
    pub quantity: Qty,
    /// The least cost of the needs from there on, where the day orders: a solution of the dual problem.
    pub potential: u128,
}

/// The days with a need, in order.
pub type CostRows = Series<CostRow>;

/// What the planned orders cost, with the rows that prove that no orders cost less.
#[derive(Drop)]
pub struct Costs {
    pub cost: u128,
    pub rows: CostRows,
}
