//! The records of one scenario in memory: the ids of the cells of its base and of its contents, its own changes, and what the changes of
//! scenarios make of these.
#![tactic(auto)]

mod conflicts;
mod group;
mod held;
mod laid;
mod room;
mod rows;

pub use conflicts::conflict;
pub use group::{Grouped, is_root, regroup, root_held, root_name};
pub use held::{Held, change_row, changed_rows};
pub use laid::{Laid, based, branched, given, lay_all, settled, shared};
pub use room::{one_room, own_room, rows_room};
pub use rows::row;
