//! A disk in memory, of which some calls fail. It keeps each content that it had.
ghost use Rattle.std.specs.Prelude.{◌≡◌, ◌⊎◌, ◌≤◌, [], ◌∷◌, ◌++◌, None, Some, length, drop, true, false, IfOk, OnOk, OnErr};
ghost use Rattle.std.proofs.Common.{inl};
ghost use Rattle.plan_schema.specs.Outside.{Rose};
ghost use Rattle.journal_disk.specs.Disks.{with_piece, GaveFrom, Only};
ghost use Rattle.journal_disk.specs.Memory.{memory_moment, kept_back, leaves_bytes, leaves_now, after_sync};

use crate::disk::Disk;
use byte_lines::{Bytes, Calls};
use plan_schema::outside::Failed;
use std::alloc::{AllocError, Global};
use std::mem;

/// A disk in memory. A crash leaves its bytes as they are, or as they stood after the last sync.
#[derive(Drop)]
pub struct MemoryDisk {
    bytes: Bytes,
    /// The bytes as they stood after the last sync, where others were written since.
    synced: Option<Bytes>,
    past: Vec<Bytes>,
    fails: Calls,
    calls: u64,
    faults: u64,
    alloc: Global,
}

impl MemoryDisk {
    ghost use Rattle.journal_disk.specs.Synced.{synced_bytes};

    /// A disk with these bytes, of which the calls with these numbers fail: all its calls are numbered together. So does a call that
    /// finds no memory.
    pub fn new(alloc: Global, bytes: Bytes, fails: Calls) -> MemoryDisk
        ensures told { (⟦<MemoryDisk as Disk>⟧.moment result).told ≡ Some bytes }
        ensures images { Only bytes (⟦<MemoryDisk as Disk>⟧.moment result) }
        ensures faults { (⟦<MemoryDisk as Disk>⟧.moment result).faults ≡ 0 }
    {
        MemoryDisk {
            bytes,
            synced: None,
            past: Vec::new(alloc),
            fails,
            calls: 0,
            faults: 0,
            alloc,
        }
    }

    /// What a crash may leave: with `latest` the bytes as they are, else as they stood after the last sync that was answered `Ok`, or at
    /// first.
    pub fn image(&self, latest: bool) -> Result<Bytes, AllocError>
        ensures image { IfOk result (⟦<MemoryDisk as Disk>⟧.moment self.now).images }
        ensures latest { latest ≡ true → IfOk result (λ image.
            (⟦<MemoryDisk as Disk>⟧.moment self.now).told ≡ Some image) }
        ensures synced { latest ≡ false → IfOk result (λ image.
            image ≡ synced_bytes self.now) }
    {
        match &self.synced {
            Some(synced) if !latest => copied(self.alloc, synced.as_slice()),
            _ => copied(self.alloc, self.bytes.as_slice()),
        }
    }

    /// The same disk, with its count of faults at nought.
    pub(crate) fn begin_count(self) -> MemoryDisk
        ensures bytes { result.bytes ≡ self.bytes }
        ensures faults { result.faults ≡ 0 }
    {
        let mut disk = self;
        disk.faults = 0;
        disk
    }

    /// How many calls failed since.
    pub(crate) fn faults(&self) -> u64
        ensures { result ≡ self.now.faults }
    {
        self.faults
    }

    // Whether this call fails.
    fn is_failing(&mut self) -> bool
        ensures bytes { self.new.bytes ≡ self.old.bytes }
        ensures synced { self.new.synced ≡ self.old.synced }
        ensures past { self.new.past.items ≡ self.old.past.items }
        ensures faults { self.new.faults ≡ self.old.faults }
    {
        self.calls = self.calls.saturating_add(1);
        self.fails.as_slice().contains(&self.calls)
    }

    // Counts a call that failed.
    fn fail(&mut self) -> Failed
        ensures bytes { self.new.bytes ≡ self.old.bytes }
        ensures synced { self.new.synced ≡ self.old.synced }
        ensures past { self.new.past.items ≡ self.old.past.items }
        ensures later { self.old.faults ≤ self.new.faults }
        ensures faults { Rose self.old.faults self.new.faults }
    {
        self.faults = self.faults.saturating_add(1);
        Failed
    }

    // Puts other bytes in the place of those that are there, which it keeps.
    fn replace(&mut self, next: Bytes) -> Result<(), AllocError>
        ensures bytes { OnOk result (self.new.bytes ≡ next) }
        ensures synced { OnOk result (self.new.synced ≡ kept_back self.old.synced self.old.bytes) }
        ensures past { OnOk result (self.new.past.items ≡ self.old.past.items
            ++ self.old.bytes ∷ []) }
        ensures faults { self.new.faults ≡ self.old.faults }
        ensures err_bytes { OnErr result (self.new.bytes ≡ self.old.bytes) }
        ensures err_synced { OnErr result (self.new.synced ≡ self.old.synced) }
        ensures err_past { OnErr result (self.new.past.items ≡ self.old.past.items) }
    {
        let before = copied(self.alloc, self.bytes.as_slice())?;
        self.past.push(before)?;
        let old = mem::replace(&mut self.bytes, next);
        if self.synced.is_none() {
            self.synced = Some(old);
        }
        Ok(())
    }

    // Lets go of the bytes as they stood after the last sync, which it keeps.
    fn settle(&mut self) -> Result<(), AllocError>
        ensures bytes { self.new.bytes ≡ self.old.bytes }
        ensures synced { OnOk result (self.new.synced ≡ None) }
        ensures past { OnOk result (self.new.past.items ≡ after_sync self.old.past.items self.old.synced) }
        ensures faults { self.new.faults ≡ self.old.faults }
        ensures err_synced { OnErr result (self.new.synced ≡ self.old.synced) }
        ensures err_past { OnErr result (self.new.past.items ≡ self.old.past.items) }
    {
        if let Some(synced) = &self.synced {
            let before = copied(self.alloc, synced.as_slice())?;
            self.past.push(before)?;
        }
        self.synced = None;
        Ok(())
    }
}

/// A copy of bytes.
fn copied(alloc: Global, bytes: &[u8]) -> Result<Bytes, AllocError>
    ensures { IfOk result (λ copy. copy ≡ bytes.now) }
{
    let mut copy = Bytes::new(alloc);
    copy.extend(bytes)?;
    Ok(copy)
}

/// A copy of bytes with a piece at a place.
fn overwritten(alloc: Global, bytes: &[u8], place: usize, piece: &[u8]) -> Result<Bytes, AllocError>
    requires { place ≤ length bytes.now }
    ensures { IfOk result (λ copy. copy ≡ with_piece place piece.now bytes.now) }
{
    let mut copy = copied(alloc, &bytes[..place])?;
    copy.extend(piece)?;
    if piece.len() < bytes.len() - place {
        copy.extend(&bytes[place + piece.len()..])?;
    }
    Ok(copy)
}

/// Puts the first bytes of a text into a buffer, and answers how many.
fn fill(text: &[u8], into: &mut [u8]) -> usize
    ensures { GaveFrom text.now into.new result × (result ≤ length into.new) }
{
    let count = text.len().min(into.len());
    into[..count].copy_from_slice(&text[..count]);
    count
}

impl Disk for MemoryDisk {
    ghost moment = { λ d. memory_moment d.bytes d.synced d.past.items d.faults };

    ghost leaves_told = { λ d bytes told. leaves_bytes d.bytes bytes d.synced told };

    ghost counts_now = { λ d time image le now. inl now };

    ghost only_now = { λ d image left. leaves_now d.bytes image d.synced d.past.items left };

    fn size(&mut self) -> Result<u64, Failed> {
        if self.is_failing() {
            return Err(self.fail());
        }
        Ok(self.bytes.len() as u64)
    }

    fn read_at(&mut self, place: u64, into: &mut [u8]) -> Result<usize, Failed> {
        if self.is_failing() {
            return Err(self.fail());
        }
        if place >= self.bytes.len() as u64 {
            return Ok(0);
        }
        Ok(fill(&self.bytes.as_slice()[place as usize..], into))
    }

    fn write_at(&mut self, place: u64, from: &[u8]) -> Result<(), Failed> {
        if self.is_failing() {
            return Err(self.fail());
        }
        let Ok(next) = overwritten(self.alloc, self.bytes.as_slice(), place as usize, from) else {
            return Err(self.fail());
        };
        match self.replace(next) {
            Ok(()) => Ok(()),
            Err(_) => Err(self.fail()),
        }
    }

    fn sync(&mut self) -> Result<(), Failed> {
        if self.is_failing() {
            return Err(self.fail());
        }
        match self.settle() {
            Ok(()) => Ok(()),
            Err(_) => Err(self.fail()),
        }
    }
}
