//! A store's entries from its disk.
ghost use Rattle.std.specs.Prelude.{◌≡◌, ◌≤◌, ◌<◌, IfOk};
ghost use Rattle.plan_schema.specs.Outside.{ReadCause};
ghost use Rattle.journal_disk.specs.Disks.{Looked, Gave};
ghost use Rattle.journal_disk.specs.Images.{IsSettled};
ghost use Rattle.journal_disk.specs.Recovery.{IsRecovered, IsReadWhole};

use crate::blocks::read_store;
use crate::disk::Disk;
use crate::fault::StoreFault;
use crate::recovered::Recovered;
use byte_lines::Bytes;
use plan_schema::limits::BYTE_LIMIT;
use plan_schema::outside::Failed;
use std::alloc::Global;

/// How many bytes a read asks for.
const PIECE: usize = 16384;

/// Reads the store of a disk: the entries before the closed gate, whatever stands behind it. Nothing is written.
pub fn recover<D: Disk>(alloc: Global, disk: &mut D) -> Result<Recovered, StoreFault>
    ensures recovered { IsRecovered (D.moment disk.old) (D.moment disk.new) result }

    // A store can go on with them.
    ensures settled { IfOk result
        (λ found. IsSettled (D.moment disk.new) found.journal.entries found.end) }
{
    disk.sync()?;
    let bytes = read_whole(alloc, disk)?;
    read_store(alloc, bytes.as_slice())
}

/// All the bytes of a disk, where they are at most 1,073,741,824.
fn read_whole<D: Disk>(alloc: Global, disk: &mut D) -> Result<Bytes, StoreFault>
    ensures { IsReadWhole (D.moment disk.old) (D.moment disk.new) result }
{
    let size = disk.size()?;
    if size > BYTE_LIMIT as u64 {
        return Err(StoreFault::Large);
    }
    let mut bytes = Bytes::new(alloc);
    let mut buffer = [0; PIECE];
    while (bytes.len() as u64) < size {
        let room = size as usize - bytes.len();
        let count = read_piece(disk, bytes.len() as u64, &mut buffer, room)?;
        if count == 0 {
            return Ok(bytes);
        }
        bytes.extend(&buffer[..count])?;
    }
    Ok(bytes)
}

/// Reads from a place on into a buffer, at most so many bytes as there is room for.
fn read_piece<D: Disk>(
    disk: &mut D,
    place: u64,
    buffer: &mut [u8; PIECE],
    room: usize,
) -> Result<usize, Failed>
    requires { 0 < room }
    ensures few { IfOk result (λ count. count ≤ room) }
    ensures bytes { IfOk result (Gave (D.moment disk.old) place buffer.new) }
    ensures same { Looked (D.moment disk.old) (D.moment disk.new) }
    ensures cause { ReadCause (D.moment disk.old).faults (D.moment disk.new).faults result }
{
    let size = if room < PIECE { room } else { PIECE };
    disk.read_at(place, &mut buffer[..size])
}
