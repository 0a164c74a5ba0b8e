//! Devices in memory of which some calls fail.
ghost use Rattle.std.specs.Prelude.{◌≡◌, Some, []};

use crate::bytes::Bytes;
use crate::steady::{SteadyIn, SteadyOut};
use plan_schema::Series;
use plan_schema::outside::{Failed, Sink, SinkFault, Source};
use std::alloc::Global;

/// The numbers, from 1, of the calls that fail.
pub type Calls = Series<u64>;

/// A source in memory, of which some reads fail.
#[derive(Drop)]
pub struct MemoryIn {
    source: SteadyIn,
    fails: Calls,
    calls: u64,
    faults: u64,
}

impl MemoryIn {
    /// A source of these bytes, of which the reads with these numbers fail.
    pub fn new(alloc: Global, bytes: Bytes, fails: Calls) -> MemoryIn
        ensures left { ⟦<MemoryIn as Source>⟧.left result ≡ Some bytes }
        ensures faults { ⟦<MemoryIn as Source>⟧.faults result ≡ 0 }
        ensures label { ⟦<MemoryIn as Source>⟧.label result ≡ [] }
    {
        MemoryIn::after(alloc, bytes, fails, 0)
    }

    // The same, where so many calls were made before.
    pub(crate) fn after(alloc: Global, bytes: Bytes, fails: Calls, calls: u64) -> MemoryIn
        ensures left { ⟦<MemoryIn as Source>⟧.left result ≡ Some bytes }
        ensures faults { ⟦<MemoryIn as Source>⟧.faults result ≡ 0 }
    {
        MemoryIn {
            source: SteadyIn::new(alloc, bytes),
            fails,
            calls,
            faults: 0,
        }
    }

    // How many calls were made.
    pub(crate) fn calls(&self) -> u64 {
        self.calls
    }

    // How many reads failed.
    pub(crate) fn faults(&self) -> u64
        ensures { ⟦<MemoryIn as Source>⟧.faults self.now ≡ result }
    {
        self.faults
    }
}

impl Source for MemoryIn {
    ghost left = { λ s. ⟦<SteadyIn as Source>⟧.left s.source };

    ghost faults = { λ s. s.faults };

    ghost label = { λ _. [] };

    fn read(&mut self, into: &mut [u8]) -> Result<usize, Failed> {
        self.calls = self.calls.saturating_add(1);
        if self.fails.as_slice().contains(&self.calls) {
            self.faults = self.faults.saturating_add(1);
            return Err(Failed);
        }
        self.source.read(into)
    }
}

/// A sink in memory, of which some writes fail.
#[derive(Drop)]
pub struct MemoryOut {
    sink: SteadyOut,
    fails: Calls,
    calls: u64,
    faults: u64,
}

impl MemoryOut {
    /// An empty sink, of which the writes with these numbers fail.
    pub fn new(alloc: Global, fails: Calls) -> MemoryOut
        ensures taken { ⟦<MemoryOut as Sink>⟧.taken result ≡ Some [] }
        ensures faults { ⟦<MemoryOut as Sink>⟧.faults result ≡ 0 }
        ensures label { ⟦<MemoryOut as Sink>⟧.label result ≡ [] }
    {
        MemoryOut::after(alloc, fails, 0)
    }

    // The same, where so many calls were made before.
    pub(crate) fn after(alloc: Global, fails: Calls, calls: u64) -> MemoryOut
        ensures taken { ⟦<MemoryOut as Sink>⟧.taken result ≡ Some [] }
        ensures faults { ⟦<MemoryOut as Sink>⟧.faults result ≡ 0 }
    {
        MemoryOut {
            sink: SteadyOut::new(alloc),
            fails,
            calls,
            faults: 0,
        }
    }

    // How many calls were made.
    pub(crate) fn calls(&self) -> u64 {
        self.calls
    }

    // How many writes failed.
    pub(crate) fn faults(&self) -> u64
        ensures { ⟦<MemoryOut as Sink>⟧.faults self.now ≡ result }
    {
        self.faults
    }

    // What was taken, as a list.
    pub(crate) fn into_bytes(self) -> Bytes
        ensures { ⟦<MemoryOut as Sink>⟧.taken self ≡ Some result }
    {
        self.sink.into_bytes()
    }

    /// What was taken.
    pub fn bytes(&self) -> &[u8]
        ensures { ⟦<MemoryOut as Sink>⟧.taken self.now ≡ Some result.now }
    {
        self.sink.bytes()
    }
}

impl Sink for MemoryOut {
    ghost taken = { λ s. ⟦<SteadyOut as Sink>⟧.taken s.sink };

    ghost faults = { λ s. s.faults };

    ghost label = { λ _. [] };

    fn write(&mut self, from: &[u8]) -> Result<usize, SinkFault> {
        self.calls = self.calls.saturating_add(1);
        if self.fails.as_slice().contains(&self.calls) {
            self.faults = self.faults.saturating_add(1);
            return Err(SinkFault::Failed);
        }
        self.sink.write(from)
    }
}
