//! A shelf of disks in memory, of which some calls fail.
ghost use Rattle.std.specs.Prelude.{◌≡◌, Some, None, [], List, ℕ, IfOk, OnOk, OnErr, IfSome, IfNone};
ghost use Rattle.std.specs.Option.{option_copied};
ghost use Rattle.std.proofs.Common.{inl};
ghost use Rattle.plan_schema.specs.Outside.{Stays, StaysBut};
ghost use Rattle.journal_disk.specs.Memory.{leaves_bytes, leaves_now};
ghost use Rattle.journal_disk.specs.DiskRows.{held_in};

use crate::disk::{Disk, DiskShelf};
use crate::disk_rows::{DiskRows, Room};
use crate::memory::MemoryDisk;
use byte_lines::{Bytes, Calls, NamedCalls};
use plan_schema::Series;
use plan_schema::outside::{Failed, ShelfFault};
use std::alloc::{AllocError, Global};

/// A shelf of disks in memory, of which some calls fail.
#[derive(Drop)]
pub struct MemoryDisks {
    rows: DiskRows,
    opens: Calls,
    parts: NamedCalls,
    calls: u64,
    faults: u64,
    alloc: Global,
}

/// A disk that a shelf gave out under a name, with the memory that giving it back needs.
#[derive(Drop)]
pub struct LentDisk {
    disk: MemoryDisk,
    room: Room,
}

impl MemoryDisks {
    ghost use Rattle.journal_disk.specs.Shelved.{disk_under};

    /// A shelf that has no disk: each name holds nothing. The calls of `open_disk` with the numbers of `opens` fail; so do the calls
    /// of a disk, all numbered together, with the numbers that `parts` has for its name.
    pub fn new(alloc: Global, opens: Calls, parts: NamedCalls) -> MemoryDisks
        ensures none { (name : List ℕ) → disk_under result name ≡ None }
        ensures held { (name : List ℕ)
            → ⟦<MemoryDisks as DiskShelf>⟧.held result name ≡ Some [] }
        ensures faults { ⟦<MemoryDisks as DiskShelf>⟧.disk_faults result ≡ 0 }
    {
        MemoryDisks {
            rows: DiskRows::End,
            opens,
            parts,
            calls: 0,
            faults: 0,
            alloc,
        }
    }

    /// Puts a new disk with these bytes under a name.
    pub fn put(&mut self, name: &str, bytes: &[u8]) -> Result<(), AllocError>
        ensures ok { OnOk result (⟦<MemoryDisks as DiskShelf>⟧.held self.new name.now
            ≡ Some bytes.now) }
        ensures others { StaysBut name.now (⟦<MemoryDisks as DiskShelf>⟧.held self.old)
            (⟦<MemoryDisks as DiskShelf>⟧.held self.new) }
        ensures err { OnErr result (Stays (⟦<MemoryDisks as DiskShelf>⟧.held self.old)
            (⟦<MemoryDisks as DiskShelf>⟧.held self.new)) }
        ensures faults { ⟦<MemoryDisks as DiskShelf>⟧.disk_faults self.new
            ≡ ⟦<MemoryDisks as DiskShelf>⟧.disk_faults self.old }
    {
        let room = Room::new(self.alloc, name)?;
        let mut copy = Bytes::new(self.alloc);
        copy.extend(bytes)?;
        let disk = self.new_disk(name, copy)?;
        self.rows.put(room, disk);
        Ok(())
    }

    /// The disk under a name, where the shelf has it: not before it is put or given, nor while it is given out.
    pub fn disk(&self, name: &str) -> Option<&MemoryDisk>
        ensures disk { option_copied result ≡ disk_under self.now name.now }
        ensures told { IfSome result (λ disk. ⟦<MemoryDisks as DiskShelf>⟧.held self.now name.now
            ≡ (⟦<MemoryDisk as Disk>⟧.moment disk.now).told) }
        ensures none { IfNone result (⟦<MemoryDisks as DiskShelf>⟧.held self.now name.now
            ≡ Some []) }
    {
        self.rows.find(name)
    }

    // Whether this call to open a disk fails.
    fn is_failing(&mut self) -> bool
        ensures rows { self.new.rows ≡ self.old.rows }
        ensures faults { self.new.faults ≡ self.old.faults }
    {
        self.calls = self.calls.saturating_add(1);
        self.opens.as_slice().contains(&self.calls)
    }

    // A new disk with these bytes.
    fn new_disk(&self, name: &str, bytes: Bytes) -> Result<MemoryDisk, AllocError>
        ensures bytes { IfOk result (λ disk. disk.bytes ≡ bytes) }
        ensures faults { IfOk result (λ disk. disk.faults ≡ 0) }
    {
        let fails = calls_of(self.alloc, &self.parts, name)?;
        Ok(MemoryDisk::new(self.alloc, bytes, fails))
    }
}

/// The calls of one name.
fn calls_of(alloc: Global, parts: &NamedCalls, name: &str) -> Result<Calls, AllocError> {
    let mut calls = Series::new(alloc);
    for place in 0..parts.len() {
        if let Some((other, call)) = parts.get(place) {
            if other == name {
                calls.push(call)?;
            }
        }
    }
    Ok(calls)
}

impl Disk for LentDisk {
    ghost moment = { λ lent. ⟦<MemoryDisk as Disk>⟧.moment lent.disk };

    ghost leaves_told = { λ lent bytes told.
        leaves_bytes lent.disk.bytes bytes lent.disk.synced told };

    ghost counts_now = { λ lent time image le now. inl now };

    ghost only_now = { λ lent image left.
        leaves_now lent.disk.bytes image lent.disk.synced lent.disk.past.items left };

    fn size(&mut self) -> Result<u64, Failed> {
        self.disk.size()
    }

    fn read_at(&mut self, place: u64, into: &mut [u8]) -> Result<usize, Failed> {
        self.disk.read_at(place, into)
    }

    fn write_at(&mut self, place: u64, from: &[u8]) -> Result<(), Failed> {
        self.disk.write_at(place, from)
    }

    fn sync(&mut self) -> Result<(), Failed> {
        self.disk.sync()
    }
}

impl DiskShelf for MemoryDisks {
    type Disk = LentDisk;

    ghost held = { λ shelf name. Some (held_in shelf.rows name) };

    ghost disk_faults = { λ shelf. shelf.faults };

    ghost label = { λ lent. lent.room.name };

    fn open_disk(&mut self, name: &str) -> Result<LentDisk, ShelfFault> {
        let Ok(room) = Room::new(self.alloc, name) else {
            return Err(ShelfFault::Memory);
        };
        if self.is_failing() {
            self.faults = self.faults.saturating_add(1);
            return Err(ShelfFault::Failed);
        }
        let Ok(empty) = self.new_disk(name, Bytes::new(self.alloc)) else {
            return Err(ShelfFault::Memory);
        };
        let disk = match self.rows.take(&room.name) {
            Some(disk) => disk.begin_count(),
            None => empty,
        };
        Ok(LentDisk { disk, room })
    }

    fn give_disk(&mut self, _name: &str, part: LentDisk) {
        let LentDisk { disk, room } = part;
        self.faults = self.faults.saturating_add(disk.faults());
        self.rows.put(room, disk);
    }
}
