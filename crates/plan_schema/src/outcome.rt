//! What the planning of a part comes to.
use crate::key::Qty;
use crate::release::Release;
use crate::series::Quantities;

/// The record of a part over the horizon: a number for each day in each list, and the sum of the late orders.
#[derive(Drop)]
pub struct Outcome {
    /// Gross requirements.
    pub gross: Quantities,
    /// Scheduled receipts.
    pub sched: Quantities,
    /// Planned order receipts.
    pub planned: Quantities,
    /// The projected balance at the end of the day.
    pub balance: Quantities,
    /// Planned order releases.
    pub release: Release,
    /// What is released on the first day and should have been released before it.
    pub late: Qty,
}

/// Why the planning of a part has no outcome.
#[derive(Clone, Copy)]
pub enum NetFault {
    /// A gross requirement, a planned order or a release exceeds the limit.
    TooLarge,
    Memory,
}

/// What is known of a part that was planned.
#[derive(Drop)]
pub enum Known {
    Plan(Outcome),
    /// A number of its own plan exceeds the limit.
    TooLarge,
}
