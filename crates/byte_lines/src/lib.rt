//! Lines of byte streams, and the devices that streams come from and go to.
#![tactic(auto)]

mod bytes;
mod cutter;
mod files;
mod memory;
mod memory_shelf;
mod named_calls;
mod part;
mod reading;
mod rounds;
mod rows;
mod steady;
mod steady_shelf;

pub use bytes::Bytes;
pub use cutter::{
    Cut, Cutter, kept_lines_are_lines, lines_after_nothing_are_lines_of_all,
    lines_of_pieces_are_lines_of_all,
};
pub use files::{FileIn, FileOut, FileShelf};
pub use memory::{Calls, MemoryIn, MemoryOut};
pub use memory_shelf::{MemoryShelf, memory_shelves_tell};
pub use named_calls::NamedCalls;
pub use part::Part;
pub use plan_schema::outside::{Failed, Shelf, ShelfFault, Sink, SinkFault, Source, write_all};
pub use reading::{ReadAllFault, read_all};
pub use rounds::{Desk, Rounds, Served};
pub use steady::{SteadyIn, SteadyOut, steady_devices_count_no_fault};
pub use steady_shelf::{SteadyShelf, steady_shelves_tell_and_count_no_fault};
