//! A journal on a disk: its store outlives a crash at any moment.
#![tactic(auto)]

mod blocks;
mod creation;
mod disk;
mod disk_rows;
mod fault;
mod gates;
mod laws;
mod memory;
mod memory_disks;
mod recovered;
mod recovery;
mod store;

pub use creation::create;
pub use disk::{Disk, DiskShelf};
pub use fault::StoreFault;
pub use gates::block_of;
pub use laws::{
    blocks_cut_short_count_for_nothing, stores_have_room, stores_stand_for_one_history,
};
pub use memory::MemoryDisk;
pub use memory_disks::{LentDisk, MemoryDisks};
pub use recovered::Recovered;
pub use recovery::recover;
pub use store::Store;
