//! What a shelf keeps for each name.
ghost use Rattle.std.specs.Prelude.{◌≡◌, [], IfOk, IfSome, IfNone, unwrap_or};
ghost use Rattle.std.specs.Option.{option_copied};
ghost use Rattle.plan_schema.specs.Outside.{Stays, StaysBut, Counted};

use crate::bytes::Bytes;
use std::alloc::{AllocError, Global};
use std::mem;

/// What a shelf keeps for one name.
#[derive(Drop)]
pub(crate) struct Slot {
    pub(crate) held: Option<Bytes>,
    /// The reads and writes of the parts that were given back.
    pub(crate) calls: u64,
    pub(crate) open_faults: u64,
    pub(crate) read_faults: u64,
    pub(crate) write_faults: u64,
}

/// A slot for each name. A name with no row has an empty slot. A look-up walks the rows, so they are for few names.
#[derive(Drop)]
pub(crate) enum Rows {
    End,
    Row {
        name: Bytes,
        slot: Slot,
        rest: Box<Rows>,
    },
}

/// The memory for a name's row.
#[derive(Drop)]
pub(crate) struct Room {
    pub(crate) name: Bytes,
    node: Box<Rows>,
}

impl Room {
    /// Takes the memory.
    pub(crate) fn new(alloc: Global, name: &str) -> Result<Room, AllocError>
        ensures { IfOk result (λ room. room.name ≡ name.now) }
    {
        let mut copy = Bytes::new(alloc);
        copy.extend(name.as_bytes())?;
        Ok(Room {
            name: copy,
            node: Box::new(alloc, Rows::End)?,
        })
    }
}

impl Slot {
    ghost use Rattle.byte_lines.specs.Rows.{empty_slot};

    /// Nothing held, and nothing counted.
    pub(crate) fn new() -> Slot
        ensures { result ≡ empty_slot }
    {
        Slot {
            held: None,
            calls: 0,
            open_faults: 0,
            read_faults: 0,
            write_faults: 0,
        }
    }
}

impl Rows {
    ghost use Rattle.byte_lines.specs.Rows.{empty_slot, slot_at, held_in, open_faults_in, read_faults_in};
    ghost use Rattle.byte_lines.specs.Rows.{write_faults_in};

    /// The slot of a name, where it has a row.
    pub(crate) fn find(&self, name: &str) -> Option<&Slot>
        ensures { unwrap_or (option_copied result) empty_slot ≡ slot_at self.now name.now }
    {
        let mut rows = self;
        while let Rows::Row {
            name: other,
            slot,
            rest,
        } = rows
        {
            if other.as_slice() == name.as_bytes() {
                return Some(slot);
            }
            rows = rest;
        }
        None
    }

    /// Takes out the slot of a name, and leaves an empty one.
    pub(crate) fn take(&mut self, name: &Bytes) -> Slot
        ensures taken { result ≡ slot_at self.old name.now }
        ensures left { slot_at self.new name.now ≡ empty_slot }
        ensures others { StaysBut name.now (slot_at self.old) (slot_at self.new) }
    {
        match self {
            Rows::End => Slot::new(),
            Rows::Row {
                name: other,
                slot,
                rest,
            } => {
                if other.as_slice() == name.as_slice() {
                    mem::replace(slot, Slot::new())
                } else {
                    rest.take(name)
                }
            }
        }
    }

    /// Puts a slot under a name.
    pub(crate) fn put(&mut self, room: Room, slot: Slot)
        ensures here { slot_at self.new room.name ≡ slot }
        ensures others { StaysBut room.name (slot_at self.old) (slot_at self.new) }
    {
        if let Some(slot) = self.replace(&room.name, slot) {
            let Room { name, mut node } = room;
            *node = mem::replace(self, Rows::End);
            *self = Rows::Row {
                name,
                slot,
                rest: node,
            };
        }
    }

    // Puts a slot into the row of a name. Hands it back where there is none.
    fn replace(&mut self, name: &Bytes, slot: Slot) -> Option<Slot>
        ensures here { IfNone result (slot_at self.new name.now ≡ slot) }
        ensures others { StaysBut name.now (slot_at self.old) (slot_at self.new) }
        ensures back { IfSome result (λ back. back ≡ slot) }
    {
        match self {
            Rows::End => Some(slot),
            Rows::Row {
                name: other,
                slot: held,
                rest,
            } => {
                if other.as_slice() == name.as_slice() {
                    *held = slot;
                    None
                } else {
                    rest.replace(name, slot)
                }
            }
        }
    }

    /// A copy of what a name holds.
    pub(crate) fn copy_held(&self, alloc: Global, name: &str) -> Result<Bytes, AllocError>
        ensures { IfOk result (λ bytes. bytes ≡ held_in self.now name.now) }
    {
        let mut copy = Bytes::new(alloc);
        if let Some(bytes) = self.held(name) {
            copy.extend(bytes)?;
        }
        Ok(copy)
    }

    /// What a name holds, where it was put or given.
    pub(crate) fn held(&self, name: &str) -> Option<&[u8]>
        ensures some { IfSome result (λ bytes. held_in self.now name.now ≡ bytes.now) }
        ensures none { IfNone result (held_in self.now name.now ≡ []) }
    {
        match self.find(name) {
            Some(
                Slot {
                    held: Some(bytes),
                    ..
                },
            ) => Some(bytes.as_slice()),
            _ => None,
        }
    }

    /// How many reads and writes of a name's parts were noted.
    pub(crate) fn calls(&self, name: &str) -> u64 {
        self.find(name).map_or(0, |slot| slot.calls)
    }

    /// Makes a name hold these bytes.
    pub(crate) fn hold(&mut self, room: Room, bytes: Bytes)
        ensures here { held_in self.new room.name ≡ bytes }
        ensures others { StaysBut room.name (held_in self.old) (held_in self.new) }
        ensures opens { Stays (open_faults_in self.old) (open_faults_in self.new) }
        ensures reads { Stays (read_faults_in self.old) (read_faults_in self.new) }
        ensures writes { Stays (write_faults_in self.old) (write_faults_in self.new) }
    {
        let mut slot = self.take(&room.name);
        slot.held = Some(bytes);
        self.put(room, slot);
    }

    /// Counts a call to open or make what a name holds that failed.
    pub(crate) fn add_open_fault(&mut self, room: Room)
        ensures count { Counted room.name 1 (open_faults_in self.old) (open_faults_in self.new) }
        ensures holds { Stays (held_in self.old) (held_in self.new) }
        ensures reads { Stays (read_faults_in self.old) (read_faults_in self.new) }
        ensures writes { Stays (write_faults_in self.old) (write_faults_in self.new) }
    {
        let mut slot = self.take(&room.name);
        slot.open_faults = slot.open_faults.saturating_add(1);
        self.put(room, slot);
    }

    /// Counts the reads of a source that failed, and notes how many calls there were.
    pub(crate) fn add_read_faults(&mut self, room: Room, more: u64, calls: u64)
        ensures count { Counted room.name more (read_faults_in self.old) (read_faults_in self.new) }
        ensures holds { Stays (held_in self.old) (held_in self.new) }
        ensures opens { Stays (open_faults_in self.old) (open_faults_in self.new) }
        ensures writes { Stays (write_faults_in self.old) (write_faults_in self.new) }
    {
        let mut slot = self.take(&room.name);
        slot.read_faults = slot.read_faults.saturating_add(more);
        slot.calls = slot.calls.max(calls);
        self.put(room, slot);
    }

    /// Counts the writes to a sink that failed, and notes how many calls there were.
    pub(crate) fn add_write_faults(&mut self, room: Room, more: u64, calls: u64)
        ensures count { Counted room.name more (write_faults_in self.old)
            (write_faults_in self.new) }
        ensures holds { Stays (held_in self.old) (held_in self.new) }
        ensures opens { Stays (open_faults_in self.old) (open_faults_in self.new) }
        ensures reads { Stays (read_faults_in self.old) (read_faults_in self.new) }
    {
        let mut slot = self.take(&room.name);
        slot.write_faults = slot.write_faults.saturating_add(more);
        slot.calls = slot.calls.max(calls);
        self.put(room, slot);
    }

    /// Counts the writes to a sink that failed, notes how many calls there were, and makes the name hold these bytes.
    pub(crate) fn add_written(&mut self, room: Room, bytes: Bytes, more: u64, calls: u64)
        ensures here { held_in self.new room.name ≡ bytes }
        ensures others { StaysBut room.name (held_in self.old) (held_in self.new) }
        ensures count { Counted room.name more (write_faults_in self.old)
            (write_faults_in self.new) }
        ensures opens { Stays (open_faults_in self.old) (open_faults_in self.new) }
        ensures reads { Stays (read_faults_in self.old) (read_faults_in self.new) }
    {
        let mut slot = self.take(&room.name);
        slot.held = Some(bytes);
        slot.write_faults = slot.write_faults.saturating_add(more);
        slot.calls = slot.calls.max(calls);
        self.put(room, slot);
    }
}
