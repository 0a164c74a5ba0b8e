//! A new store.
ghost use Rattle.std.specs.Prelude.{◌≡◌, ◌≤◌, OnOk};
ghost use Rattle.plan_schema.specs.Outside.{ReadCause};
ghost use Rattle.journal_disk.specs.Recovery.{IsEmpty, IsCreated};

use crate::disk::Disk;
use plan_schema::outside::Failed;

/// A store's first bytes, and a closed gate.
const NEW_STORE: &[u8] = b"PLANSTO1\0";

/// Makes a store without entries on an empty disk. A crash before its `Ok` may leave bytes that are no store.
pub fn create<D: Disk>(disk: &mut D) -> Result<(), Failed>
    requires { IsEmpty (D.moment disk.old) }
    ensures created { OnOk result (IsCreated (D.moment disk.old) (D.moment disk.new)) }
    ensures cause { ReadCause (D.moment disk.old).faults (D.moment disk.new).faults result }
{
    disk.write_at(0, NEW_STORE)?;
    disk.sync()
}
