//! Disks, and shelves of them. A program over these traits is proved for every disk that keeps to them: what a read gives, and what a
//! crash at any moment may leave. A disk that tells nothing of its bytes (a real file) leaves them out as `None`.
ghost use Rattle.std.specs.Prelude.{◌≡◌, ◌⊎◌, ◌≤◌, ◌++◌, List, ℕ, Option, Some, None, length, take, drop};
ghost use Rattle.std.specs.Prelude.{IfOk, OnOk, OnErr};
ghost use Rattle.plan_schema.specs.Outside.{ReadCause, Stays, StaysBut, GrewBy};
ghost use Rattle.journal_disk.specs.Disks.{Moment, Looked, GoesOn, Gave, HasPlace, IsWritten, IsTorn, IsOnDisk};
ghost use Rattle.journal_disk.specs.Disks.{Tears, OpenedCause};

use plan_schema::outside::{Failed, ShelfFault};

/// Where a store's bytes are kept.
pub trait Disk {
    /// What the disk is now.
    ghost moment: { Self → Moment };

    /// How many bytes there are.
    fn size(&mut self) -> Result<u64, Failed>
        ensures size { IfOk result (λ size. (bytes : List ℕ) → (moment self.old).told ≡ Some bytes
            → size ≡ length bytes) }
        ensures same { Looked (moment self.old) (moment self.new) }
        ensures cause { ReadCause (moment self.old).faults (moment self.new).faults result };

    /// Puts the first bytes from a place on into the buffer, and answers how many: none behind the last byte alone.
    fn read_at(&mut self, place: u64, into: &mut [u8]) -> Result<usize, Failed>
        ensures bytes { IfOk result (Gave (moment self.old) place into.new) }
        ensures same { Looked (moment self.old) (moment self.new) }
        ensures cause { ReadCause (moment self.old).faults (moment self.new).faults result };

    /// Writes over what is there, and past the end. Until a sync, a crash may leave any bytes in this range.
    fn write_at(&mut self, place: u64, from: &[u8]) -> Result<(), Failed>
        requires { HasPlace (moment self.old) place }
        ensures written { OnOk result (IsWritten place from.now (moment self.old)
            (moment self.new)) }
        ensures torn { OnErr result (IsTorn place (length from.now) (moment self.old)
            (moment self.new)) }
        ensures silent { (moment self.old).told ≡ None → (moment self.new).told ≡ None }
        ensures images { Tears place (length from.now) (moment self.old) (moment self.new) }
        ensures time { GoesOn (moment self.old) (moment self.new) }
        ensures cause { ReadCause (moment self.old).faults (moment self.new).faults result };

    /// After it, a crash leaves the bytes as they are read.
    fn sync(&mut self) -> Result<(), Failed>
        ensures told { (moment self.new).told ≡ (moment self.old).told }
        ensures images { (image : List ℕ) → (moment self.new).images image
            → (moment self.old).images image }
        ensures kept { OnErr result ((image : List ℕ) → (moment self.old).images image
            → (moment self.new).images image) }
        ensures durable { OnOk result (IsOnDisk (moment self.new)) }
        ensures time { GoesOn (moment self.old) (moment self.new) }
        ensures cause { ReadCause (moment self.old).faults (moment self.new).faults result };

    /// A crash may leave the bytes as they are read.
    ghost leaves_told: { (disk : Self) (bytes : List ℕ) → (moment disk).told ≡ Some bytes
        → (moment disk).images bytes };

    /// This moment is one of those since an earlier one.
    ghost counts_now: { (disk : Self) (time : ℕ) (image : List ℕ) → time ≤ (moment disk).time
        → (moment disk).images image → (moment disk).since time image };

    /// Since this moment there is no other.
    ghost only_now: { (disk : Self) (image : List ℕ) → (moment disk).since (moment disk).time image
        → (moment disk).images image };
}

/// Disks by name.
pub trait DiskShelf {
    ghost use Rattle.std.specs.Prelude.{◌≡◌};

    type Disk: Disk;

    /// The bytes of the disk under a name, where the shelf tells.
    ghost held: { Self → List ℕ → Option (List ℕ) };

    /// How many calls of given disks, and how many calls to open one, failed. The count never falls.
    ghost disk_faults: { Self → ℕ };

    /// The name under which a disk was opened.
    ghost label: { Self.Disk → List ℕ };

    /// The disk under the name. Until it is given back, the name may hold other bytes, or none.
    fn open_disk(&mut self, name: &str) -> Result<Self::Disk, ShelfFault>
        ensures told { IfOk result (λ disk. (Self.Disk.moment disk).told ≡ held self.old name.now) }
        ensures label { IfOk result (λ disk. label disk ≡ name.now) }
        ensures fresh { IfOk result (λ disk. (Self.Disk.moment disk).faults ≡ 0) }
        ensures refused { OnErr result (Stays (held self.old) (held self.new)) }
        ensures others { StaysBut name.now (held self.old) (held self.new) }
        ensures cause { OpenedCause (disk_faults self.old) (disk_faults self.new) result };

    /// Takes a disk back, with its count of faults: the name holds its bytes.
    fn give_disk(&mut self, name: &str, part: Self::Disk)
        requires { label part ≡ name.now }
        ensures here { held self.new name.now ≡ (Self.Disk.moment part).told }
        ensures others { StaysBut name.now (held self.old) (held self.new) }
        ensures count { GrewBy (disk_faults self.old) (Self.Disk.moment part).faults
            (disk_faults self.new) };
}
