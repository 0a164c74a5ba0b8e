//! What the book of a plan does, as one value: the scenarios after a history of accepted changes, the journal of these, and the memo.
#![tactic(auto)]

mod ask;
mod began;
mod behind;
mod change;
mod kept;
mod keys;
mod round;
mod tally;
mod tree;

pub use behind::BehindFault;
pub use kept::Core;
