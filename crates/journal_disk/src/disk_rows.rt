//! The disks that a shelf has, by name.
ghost use Rattle.std.specs.Prelude.{◌≡◌, None, Some, IfOk, IfSome, IfNone};
ghost use Rattle.std.specs.Option.{option_copied, unwrap_or};
ghost use Rattle.plan_schema.specs.Outside.{StaysBut};

use crate::memory::MemoryDisk;
use byte_lines::Bytes;
use std::alloc::{AllocError, Global};
use std::mem;

/// A disk for each name. A name with no row has none. A look-up walks the rows, so they are for few names.
#[derive(Drop)]
pub(crate) enum DiskRows {
    End,
    Row {
        name: Bytes,
        disk: Option<MemoryDisk>,
        rest: Box<DiskRows>,
    },
}

/// The memory for a name's row.
#[derive(Drop)]
pub(crate) struct Room {
    pub(crate) name: Bytes,
    node: Box<DiskRows>,
}

impl Room {
    /// Takes the memory.
    pub(crate) fn new(alloc: Global, name: &str) -> Result<Room, AllocError>
        ensures { IfOk result (λ room. room.name ≡ name.now) }
    {
        let mut copy = Bytes::new(alloc);
        copy.extend(name.as_bytes())?;
        Ok(Room {
            name: copy,
            node: Box::new(alloc, DiskRows::End)?,
        })
    }
}

impl DiskRows {
    ghost use Rattle.journal_disk.specs.DiskRows.{disk_at};

    /// The disk under a name.
    pub(crate) fn find(&self, name: &str) -> Option<&MemoryDisk>
        ensures { option_copied result ≡ disk_at self.now name.now }
    {
        let mut rows = self;
        while let DiskRows::Row {
            name: other,
            disk,
            rest,
        } = rows
        {
            if other.as_slice() == name.as_bytes() {
                return disk.as_ref();
            }
            rows = rest;
        }
        None
    }

    /// Takes out the disk under a name.
    pub(crate) fn take(&mut self, name: &Bytes) -> Option<MemoryDisk>
        ensures taken { result ≡ disk_at self.old name.now }
        ensures left { disk_at self.new name.now ≡ None }
        ensures others { StaysBut name.now (disk_at self.old) (disk_at self.new) }
    {
        match self {
            DiskRows::End => None,
            DiskRows::Row {
                name: other,
                disk,
                rest,
            } => {
                if other.as_slice() == name.as_slice() {
                    disk.take()
                } else {
                    rest.take(name)
                }
            }
        }
    }

    /// Puts a disk under a name.
    pub(crate) fn put(&mut self, room: Room, disk: MemoryDisk)
        ensures here { disk_at self.new room.name ≡ Some disk }
        ensures others { StaysBut room.name (disk_at self.old) (disk_at self.new) }
    {
        if let Some(disk) = self.replace(&room.name, disk) {
            let Room { name, mut node } = room;
            *node = mem::replace(self, DiskRows::End);
            *self = DiskRows::Row {
                name,
                disk: Some(disk),
                rest: node,
            };
        }
    }

    // Puts a disk into the row of a name. Hands it back where there is none.
    fn replace(&mut self, name: &Bytes, disk: MemoryDisk) -> Option<MemoryDisk>
        ensures here { IfNone result (disk_at self.new name.now ≡ Some disk) }
        ensures others { StaysBut name.now (disk_at self.old) (disk_at self.new) }
        ensures back { IfSome result (λ back. back ≡ disk) }
    {
        match self {
            DiskRows::End => Some(disk),
            DiskRows::Row {
                name: other,
                disk: held,
                rest,
            } => {
                if other.as_slice() == name.as_slice() {
                    *held = Some(disk);
                    None
                } else {
                    rest.replace(name, disk)
                }
            }
        }
    }
}
