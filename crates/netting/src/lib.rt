//! Netting: one part's record over the horizon, from its gross requirements and scheduled receipts.
#![tactic(auto)]

mod step;

pub use plan_schema::{NetFault, Outcome, Quantities};
pub use step::{Input, fill_short, net};
