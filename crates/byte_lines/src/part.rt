//! What a shelf gave out.
use crate::rows::Room;
use plan_schema::outside::{Failed, Sink, SinkFault, Source};

/// A source or a sink that a shelf gave out under a name, with the memory that giving it back needs.
#[derive(Drop)]
pub struct Part<D> {
    pub(crate) device: D,
    pub(crate) room: Room,
}

impl<D: Source> Source for Part<D> {
    ghost left = { λ p. D.left p.device };

    ghost faults = { λ p. D.faults p.device };

    ghost label = { λ p. p.room.name };

    fn read(&mut self, into: &mut [u8]) -> Result<usize, Failed> {
        self.device.read(into)
    }
}

impl<D: Sink> Sink for Part<D> {
    ghost taken = { λ p. D.taken p.device };

    ghost faults = { λ p. D.faults p.device };

    ghost label = { λ p. p.room.name };

    fn write(&mut self, from: &[u8]) -> Result<usize, SinkFault> {
        self.device.write(from)
    }
}
