//! Reading a whole source.
ghost use Rattle.std.specs.Prelude.{◌≡◌, ◌+◌, ◌≤◌, IfOk};
ghost use Rattle.plan_schema.specs.Outside.{Gives, ReadCause};
ghost use Rattle.byte_lines.specs.ReadAll.{ReadAll};

use crate::bytes::Bytes;
use plan_schema::outside::{Failed, Source};
use std::alloc::{AllocError, Global};

/// Why a source wasn't read whole.
#[derive(Clone, Copy)]
pub enum ReadAllFault {
    /// The source failed.
    Failed,
    /// The source has more bytes than are wanted.
    Large,
    /// There was no memory for the bytes.
    Memory,
}

impl From<Failed> for ReadAllFault {
    ghost use Rattle.std.specs.Prelude.{◌≡◌};
    ghost use Rattle.byte_lines.specs.declared.reading.ReadAllFault.{ReadAllFault};

    ghost from_gives = { λ _ fault. fault ≡ ReadAllFault.Failed };

    fn from(_fault: Failed) -> ReadAllFault {
        ReadAllFault::Failed
    }
}

impl From<AllocError> for ReadAllFault {
    ghost use Rattle.std.specs.Prelude.{◌≡◌};
    ghost use Rattle.byte_lines.specs.declared.reading.ReadAllFault.{ReadAllFault};

    ghost from_gives = { λ _ fault. fault ≡ ReadAllFault.Memory };

    fn from(_fault: AllocError) -> ReadAllFault {
        ReadAllFault::Memory
    }
}

/// Reads the bytes that are left in a source, where they are at most `most`. Never takes more than one byte over.
pub fn read_all<S: Source>(
    alloc: Global,
    source: &mut S,
    most: usize,
) -> Result<Bytes, ReadAllFault>
    ensures { ReadAll S.left S.faults S.label most source.old source.new result }
{
    let mut bytes = Bytes::new(alloc);
    let mut buffer = [0; 4096];
    loop {
        let room = most - bytes.len();
        let count = read_piece(source, &mut buffer, room)?;
        if count == 0 {
            return Ok(bytes);
        }
        if count > room {
            return Err(ReadAllFault::Large);
        }
        bytes.extend(&buffer[..count])?;
    }
}

// Reads into a buffer, at most one byte more than there is room for.
fn read_piece<S: Source>(
    source: &mut S,
    buffer: &mut [u8; 4096],
    room: usize,
) -> Result<usize, Failed>
    ensures bytes { Gives (S.left source.old) (S.left source.new) buffer.new result }
    ensures cause { ReadCause (S.faults source.old) (S.faults source.new) result }
    ensures same { S.label source.new ≡ S.label source.old }
    ensures few { IfOk result (λ count. count ≤ room + 1) }
{
    let size = if room < 4096 { room + 1 } else { 4096 };
    source.read(&mut buffer[..size])
}
