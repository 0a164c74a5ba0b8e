//! Devices in memory that never fail.
ghost use Rattle.std.specs.Prelude.{◌≡◌, ◌≤◌, Some, [], drop, length};

use crate::bytes::Bytes;
use plan_schema::outside::{Failed, Sink, SinkFault, Source};
use std::alloc::Global;

/// A source in memory that never fails.
#[derive(Drop)]
pub struct SteadyIn {
    bytes: Bytes,
    place: usize,
    ghost inside: { place ≤ length bytes },
}

impl SteadyIn {
    /// A source of these bytes.
    pub fn new(_alloc: Global, bytes: Bytes) -> SteadyIn
        ensures left { ⟦<SteadyIn as Source>⟧.left result ≡ Some bytes }
        ensures label { ⟦<SteadyIn as Source>⟧.label result ≡ [] }
    {
        SteadyIn { bytes, place: 0 }
    }
}

impl Source for SteadyIn {
    ghost left = { λ s. Some (drop s.place s.bytes) };

    ghost faults = { λ _. 0 };

    ghost label = { λ _. [] };

    fn read(&mut self, into: &mut [u8]) -> Result<usize, Failed> {
        let rest = &self.bytes.as_slice()[self.place..];
        let count = rest.len().min(into.len());
        into[..count].copy_from_slice(&rest[..count]);
        self.place += count;
        Ok(count)
    }
}

/// A sink in memory that never fails.
#[derive(Drop)]
pub struct SteadyOut {
    bytes: Bytes,
}

impl SteadyOut {
    /// An empty sink.
    pub fn new(alloc: Global) -> SteadyOut
        ensures taken { ⟦<SteadyOut as Sink>⟧.taken result ≡ Some [] }
        ensures label { ⟦<SteadyOut as Sink>⟧.label result ≡ [] }
    {
        SteadyOut {
            bytes: Bytes::new(alloc),
        }
    }

    /// What was taken.
    pub fn bytes(&self) -> &[u8]
        ensures { ⟦<SteadyOut as Sink>⟧.taken self.now ≡ Some result.now }
    {
        self.bytes.as_slice()
    }

    /// What was taken, as a list.
    pub fn into_bytes(self) -> Bytes
        ensures { ⟦<SteadyOut as Sink>⟧.taken self ≡ Some result }
    {
        self.bytes
    }
}

impl Sink for SteadyOut {
    ghost taken = { λ s. Some s.bytes };

    ghost faults = { λ _. 0 };

    ghost label = { λ _. [] };

    fn write(&mut self, from: &[u8]) -> Result<usize, SinkFault> {
        match self.bytes.extend(from) {
            Ok(()) => Ok(from.len()),
            Err(_) => Err(SinkFault::Memory),
        }
    }
}

/// A law: devices that never fail count no fault.
pub fn steady_devices_count_no_fault()
    ensures reads { (source : SteadyIn) → ⟦<SteadyIn as Source>⟧.faults source ≡ 0 }
    ensures writes { (sink : SteadyOut) → ⟦<SteadyOut as Sink>⟧.faults sink ≡ 0 }
{}
