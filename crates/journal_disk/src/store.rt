//! A store on its disk, to which entries are added.
ghost use Rattle.std.specs.Prelude.{◌≡◌, ◌≤◌, ◌+◌, ◌++◌, ◌∷◌, [], length, List, None, is_none, OnOk};
ghost use Rattle.plan_schema.specs.declared.change.Entry.{Entry};
ghost use Rattle.plan_schema.specs.declared.limits.TheConstants.{BYTE_LIMIT};
ghost use Rattle.plan_schema.specs.Outside.{ReadCause};
ghost use Rattle.journal_disk.specs.Images.{IsNext, IsImageAround, EachTold, IsSettled};

use crate::disk::Disk;
use crate::gates::{open_at, write_behind};
use plan_schema::outside::Failed;

/// A store on its disk. An entry is added in two calls: `append` writes it behind the closed gate, where it counts for nothing, and
/// `open_gate` makes it count.
#[derive(Drop)]
pub struct Store<D> {
    disk: D,
    /// The place of the closed gate behind the entries.
    end: u64,
    /// The place of the closed gate behind the entry that was appended last.
    behind: u64,
    /// The place of the last entry's gate, where that isn't known to be open on the disk.
    doubted: Option<u64>,
}

impl<D: Disk> Store<D> {
    ghost use Rattle.journal_disk.specs.Stored.{store_on, disk_of, end_of, doubt_of, moment_of, IsImageUpTo};
    ghost use Rattle.journal_disk.specs.Stored.{Holds, HasAppended};

    /// A store on a disk that has all its entries, with the place of the closed gate behind them.
    pub fn begin(disk: D, end: u64) -> Store<D>
        ensures store { result ≡ store_on disk end }
        ensures holds { (entries : List Entry) → IsSettled (D.moment disk) entries end
            → Holds D.moment result entries }
    {
        Store {
            disk,
            end,
            behind: end,
            doubted: None,
        }
    }

    /// Its disk.
    pub fn apart(self) -> D
        ensures { result ≡ disk_of self }
    {
        let Store { disk, .. } = self;
        disk
    }

    /// Writes the block of the next entry behind the closed gate. First it opens the last entry's gate again, where that is doubted.
    pub fn append(&mut self, block: &[u8]) -> Result<(), Failed>
        requires holds { (entries : List Entry) × Holds D.moment self.old entries }
        requires room { end_of self.old + 1 + length block.now ≤ BYTE_LIMIT }
        ensures kept { (entries : List Entry) → Holds D.moment self.old entries
            → Holds D.moment self.new entries }
        ensures appended { OnOk result ((entries : List Entry) (entry : Entry)
            → Holds D.moment self.old entries → IsNext entries entry block.now
            → HasAppended D.moment self.new entries entry) }

        // At any moment a crash leaves the entries, or where the last one is doubted, these or those before it.
        ensures any_moment { (entries : List Entry) → Holds D.moment self.old entries
            → EachTold (moment_of D.moment self.old) (moment_of D.moment self.new)
            (IsImageUpTo entries (doubt_of self.old)) }
        ensures cause { ReadCause (moment_of D.moment self.old).faults
            (moment_of D.moment self.new).faults result }
    {
        self.make_sure()?;
        write_behind(&mut self.disk, self.end, block)?;
        self.behind = self.end + block.len() as u64;
        Ok(())
    }

    /// Opens the gate in front of the entry that was appended. Where that fails, the entry is doubted.
    pub fn open_gate(&mut self) -> Result<(), Failed>
        requires { (entries : List Entry) × (entry : Entry)
            × HasAppended D.moment self.old entries entry }
        ensures added { (entries : List Entry) (entry : Entry)
            → HasAppended D.moment self.old entries entry
            → Holds D.moment self.new (entries ++ entry ∷ []) }
        ensures sure { OnOk result (doubt_of self.new ≡ None) }

        // At any moment a crash leaves the entries with the new one or without it.
        ensures any_moment { (entries : List Entry) (entry : Entry)
            → HasAppended D.moment self.old entries entry
            → EachTold (moment_of D.moment self.old) (moment_of D.moment self.new)
            (IsImageAround entries entry) }
        ensures cause { ReadCause (moment_of D.moment self.old).faults
            (moment_of D.moment self.new).faults result }
    {
        self.doubted = Some(self.end);
        self.end = self.behind;
        self.make_sure()
    }

    /// Whether the last entry's gate is known to be open on the disk.
    pub fn is_sure(&self) -> bool
        ensures { result ≡ is_none (doubt_of self.now) }
    {
        self.doubted.is_none()
    }

    // Opens the last entry's gate, where that is doubted.
    fn make_sure(&mut self) -> Result<(), Failed>
        requires { (entries : List Entry) × Holds D.moment self.old entries }
        ensures kept { (entries : List Entry) → Holds D.moment self.old entries
            → Holds D.moment self.new entries }
        ensures sure { OnOk result (doubt_of self.new ≡ None) }
        ensures end { end_of self.new ≡ end_of self.old }
        ensures any_moment { (entries : List Entry) → Holds D.moment self.old entries
            → EachTold (moment_of D.moment self.old) (moment_of D.moment self.new)
            (IsImageUpTo entries (doubt_of self.old)) }
        ensures cause { ReadCause (moment_of D.moment self.old).faults
            (moment_of D.moment self.new).faults result }
    {
        if let Some(place) = self.doubted {
            open_at(&mut self.disk, place)?;
            self.doubted = None;
        }
        Ok(())
    }
}
