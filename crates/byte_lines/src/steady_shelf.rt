//! A shelf in memory that never fails.
ghost use Rattle.std.specs.Prelude.{◌≡◌, Some, [], List, ℕ, IsSome, IfSome, IfNone, OnOk, OnErr};
ghost use Rattle.plan_schema.specs.Outside.{Stays, StaysBut};
ghost use Rattle.byte_lines.specs.Rows.{held_in};

use crate::bytes::Bytes;
use crate::part::Part;
use crate::rows::{Room, Rows};
use crate::steady::{SteadyIn, SteadyOut};
use plan_schema::outside::{Shelf, ShelfFault};
use std::alloc::{AllocError, Global};

/// A shelf in memory that never fails.
#[derive(Drop)]
pub struct SteadyShelf {
    rows: Rows,
    alloc: Global,
}

impl SteadyShelf {
    /// A shelf on which each name holds nothing.
    pub fn new(alloc: Global) -> SteadyShelf
        ensures { (name : List ℕ) → ⟦<SteadyShelf as Shelf>⟧.held result name ≡ Some [] }
    {
        SteadyShelf {
            rows: Rows::End,
            alloc,
        }
    }

    /// Makes a name hold these bytes.
    pub fn put(&mut self, name: &str, bytes: &[u8]) -> Result<(), AllocError>
        ensures ok { OnOk result (⟦<SteadyShelf as Shelf>⟧.held self.new name.now
            ≡ Some bytes.now) }
        ensures others { StaysBut name.now (⟦<SteadyShelf as Shelf>⟧.held self.old)
            (⟦<SteadyShelf as Shelf>⟧.held self.new) }
        ensures err { OnErr result (Stays (⟦<SteadyShelf as Shelf>⟧.held self.old)
            (⟦<SteadyShelf as Shelf>⟧.held self.new)) }
    {
        let room = Room::new(self.alloc, name)?;
        let mut copy = Bytes::new(self.alloc);
        copy.extend(bytes)?;
        self.rows.hold(room, copy);
        Ok(())
    }

    /// What a name holds, or `None` where it was neither put nor given back.
    pub fn held(&self, name: &str) -> Option<&[u8]>
        ensures some { IfSome result (λ bytes. ⟦<SteadyShelf as Shelf>⟧.held self.now name.now
            ≡ Some bytes.now) }
        ensures none { IfNone result (⟦<SteadyShelf as Shelf>⟧.held self.now name.now ≡ Some []) }
    {
        self.rows.held(name)
    }
}

impl Shelf for SteadyShelf {
    type In = Part<SteadyIn>;

    type Out = Part<SteadyOut>;

    ghost held = { λ s name. Some (held_in s.rows name) };

    ghost open_faults = { λ _ _. 0 };

    ghost read_faults = { λ _ _. 0 };

    ghost write_faults = { λ _ _. 0 };

    fn open_in(&mut self, name: &str) -> Result<Part<SteadyIn>, ShelfFault> {
        let Ok(room) = Room::new(self.alloc, name) else {
            return Err(ShelfFault::Memory);
        };
        let Ok(bytes) = self.rows.copy_held(self.alloc, name) else {
            return Err(ShelfFault::Memory);
        };
        let device = SteadyIn::new(self.alloc, bytes);
        Ok(Part { device, room })
    }

    fn make_out(&mut self, name: &str) -> Result<Part<SteadyOut>, ShelfFault> {
        let Ok(room) = Room::new(self.alloc, name) else {
            return Err(ShelfFault::Memory);
        };
        let device = SteadyOut::new(self.alloc);
        Ok(Part { device, room })
    }

    fn give_in(&mut self, _name: &str, part: Part<SteadyIn>) {
        let _ = part;
    }

    fn give_out(&mut self, _name: &str, part: Part<SteadyOut>) {
        let Part { device, room } = part;
        self.rows.hold(room, device.into_bytes());
    }
}

/// A law: the shelf tells what each name holds, and counts no fault.
pub fn steady_shelves_tell_and_count_no_fault()
    ensures tells { (shelf : SteadyShelf) (name : List ℕ)
        → IsSome (⟦<SteadyShelf as Shelf>⟧.held shelf name) }
    ensures opens { (shelf : SteadyShelf) (name : List ℕ)
        → ⟦<SteadyShelf as Shelf>⟧.open_faults shelf name ≡ 0 }
    ensures reads { (shelf : SteadyShelf) (name : List ℕ)
        → ⟦<SteadyShelf as Shelf>⟧.read_faults shelf name ≡ 0 }
    ensures writes { (shelf : SteadyShelf) (name : List ℕ)
        → ⟦<SteadyShelf as Shelf>⟧.write_faults shelf name ≡ 0 }
{}
