//! Full pegging: for which independent demands, of whatever part, the planned receipts of a part are meant. What holds of its
//! definition, and its computation over a walk, which follows rows of units with a count, part by part, and no single units.
#![tactic(auto)]

mod aims;
mod at_ends;
mod cutting;
mod follow;
mod laws;
mod merging;
mod overlay;
mod part;
mod rows;
mod share;
mod shares;
mod streams;
mod target;
mod tracing;
mod trail;
mod units;

pub use cutting::{Piece, cut};
pub use laws::{shares_are_whole, units_stand_in_rows};
pub use merging::merged;
pub use overlay::{Overlay, overlaid};
pub use rows::add_units;
pub use share::Share;
pub use tracing::trace;
pub use units::{ParentUnits, Units, moved, parent_units, split_at};
