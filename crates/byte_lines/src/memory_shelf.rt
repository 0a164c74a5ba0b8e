//! A shelf in memory of which some calls fail.
ghost use Rattle.std.specs.Prelude.{◌≡◌, Some, [], List, ℕ, IsSome, IfSome, IfNone, IfOk, OnOk, OnErr};
ghost use Rattle.plan_schema.specs.Outside.{Stays, StaysBut};
ghost use Rattle.byte_lines.specs.Rows.{held_in, open_faults_in, read_faults_in, write_faults_in};

use crate::bytes::Bytes;
use crate::memory::{Calls, MemoryIn, MemoryOut};
use crate::named_calls::NamedCalls;
use crate::part::Part;
use crate::rows::{Room, Rows};
use plan_schema::outside::{Shelf, ShelfFault, Source};
use std::alloc::{AllocError, Global};

/// A shelf in memory, of which some calls fail.
#[derive(Drop)]
pub struct MemoryShelf {
    rows: Rows,
    opens: Calls,
    parts: NamedCalls,
    calls: u64,
    alloc: Global,
}

impl MemoryShelf {
    /// A shelf on which each name holds nothing. The calls of `open_in` and `make_out`, numbered together, with the numbers of
    /// `opens` fail; so do the reads and writes of a file, numbered together, with the numbers that `parts` has for its name.
    pub fn new(alloc: Global, opens: Calls, parts: NamedCalls) -> MemoryShelf
        ensures held { (name : List ℕ) → ⟦<MemoryShelf as Shelf>⟧.held result name ≡ Some [] }
        ensures opens { (name : List ℕ) → ⟦<MemoryShelf as Shelf>⟧.open_faults result name ≡ 0 }
        ensures reads { (name : List ℕ) → ⟦<MemoryShelf as Shelf>⟧.read_faults result name ≡ 0 }
        ensures writes { (name : List ℕ) → ⟦<MemoryShelf as Shelf>⟧.write_faults result name ≡ 0 }
    {
        MemoryShelf {
            rows: Rows::End,
            opens,
            parts,
            calls: 0,
            alloc,
        }
    }

    /// Makes a name hold these bytes.
    pub fn put(&mut self, name: &str, bytes: &[u8]) -> Result<(), AllocError>
        ensures ok { OnOk result (⟦<MemoryShelf as Shelf>⟧.held self.new name.now
            ≡ Some bytes.now) }
        ensures others { StaysBut name.now (⟦<MemoryShelf as Shelf>⟧.held self.old)
            (⟦<MemoryShelf as Shelf>⟧.held self.new) }
        ensures err { OnErr result (Stays (⟦<MemoryShelf as Shelf>⟧.held self.old)
            (⟦<MemoryShelf as Shelf>⟧.held self.new)) }
        ensures opens { Stays (⟦<MemoryShelf as Shelf>⟧.open_faults self.old)
            (⟦<MemoryShelf as Shelf>⟧.open_faults self.new) }
        ensures reads { Stays (⟦<MemoryShelf as Shelf>⟧.read_faults self.old)
            (⟦<MemoryShelf as Shelf>⟧.read_faults self.new) }
        ensures writes { Stays (⟦<MemoryShelf as Shelf>⟧.write_faults self.old)
            (⟦<MemoryShelf as Shelf>⟧.write_faults self.new) }
    {
        let room = Room::new(self.alloc, name)?;
        let mut copy = Bytes::new(self.alloc);
        copy.extend(bytes)?;
        self.rows.hold(room, copy);
        Ok(())
    }

    /// What a name holds, or `None` where it was neither put nor given back.
    pub fn held(&self, name: &str) -> Option<&[u8]>
        ensures some { IfSome result (λ bytes. ⟦<MemoryShelf as Shelf>⟧.held self.now name.now
            ≡ Some bytes.now) }
        ensures none { IfNone result (⟦<MemoryShelf as Shelf>⟧.held self.now name.now ≡ Some []) }
    {
        self.rows.held(name)
    }

    // Whether this call to open or make what a name holds fails.
    fn is_failing(&mut self) -> bool
        ensures rows { self.new.rows ≡ self.old.rows }
    {
        self.calls = self.calls.saturating_add(1);
        self.opens.as_slice().contains(&self.calls)
    }

    // The source of what a name holds.
    fn source(&self, name: &str) -> Result<MemoryIn, AllocError>
        ensures left { IfOk result (λ device. ⟦<MemoryIn as Source>⟧.left device
            ≡ Some (held_in self.now.rows name.now)) }
        ensures faults { IfOk result (λ device. ⟦<MemoryIn as Source>⟧.faults device ≡ 0) }
    {
        let bytes = self.rows.copy_held(self.alloc, name)?;
        let fails = self.parts.of(self.alloc, name)?;
        Ok(MemoryIn::after(self.alloc, bytes, fails, self.rows.calls(name)))
    }
}

impl Shelf for MemoryShelf {
    type In = Part<MemoryIn>;

    type Out = Part<MemoryOut>;

    ghost held = { λ s name. Some (held_in s.rows name) };

    ghost open_faults = { λ s. open_faults_in s.rows };

    ghost read_faults = { λ s. read_faults_in s.rows };

    ghost write_faults = { λ s. write_faults_in s.rows };

    fn open_in(&mut self, name: &str) -> Result<Part<MemoryIn>, ShelfFault> {
        let Ok(room) = Room::new(self.alloc, name) else {
            return Err(ShelfFault::Memory);
        };
        if self.is_failing() {
            self.rows.add_open_fault(room);
            return Err(ShelfFault::Failed);
        }
        let Ok(device) = self.source(name) else {
            return Err(ShelfFault::Memory);
        };
        Ok(Part { device, room })
    }

    fn make_out(&mut self, name: &str) -> Result<Part<MemoryOut>, ShelfFault> {
        let Ok(room) = Room::new(self.alloc, name) else {
            return Err(ShelfFault::Memory);
        };
        if self.is_failing() {
            self.rows.add_open_fault(room);
            return Err(ShelfFault::Failed);
        }
        let Ok(fails) = self.parts.of(self.alloc, name) else {
            return Err(ShelfFault::Memory);
        };
        let device = MemoryOut::after(self.alloc, fails, self.rows.calls(name));
        Ok(Part { device, room })
    }

    fn give_in(&mut self, _name: &str, part: Part<MemoryIn>) {
        let Part { device, room } = part;
        self.rows
            .add_read_faults(room, device.faults(), device.calls());
    }

    fn give_out(&mut self, _name: &str, part: Part<MemoryOut>) {
        let Part { device, room } = part;
        let faults = device.faults();
        let calls = device.calls();
        self.rows
            .add_written(room, device.into_bytes(), faults, calls);
    }
}

/// A law: the shelf tells what each name holds.
pub fn memory_shelves_tell()
    ensures { (shelf : MemoryShelf) (name : List ℕ)
        → IsSome (⟦<MemoryShelf as Shelf>⟧.held shelf name) }
{}
