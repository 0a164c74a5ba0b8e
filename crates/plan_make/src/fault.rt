//! Why texts weren't made.
use byte_lines::SinkFault;

/// Why the texts weren't made, and at which of the two sinks.
#[derive(Clone, Copy)]
pub enum MakeFault {
    /// The base's sink took no more. Nothing was written to the input's.
    Base(SinkFault),
    /// The input's sink took no more. The base is written whole.
    Input(SinkFault),
}
