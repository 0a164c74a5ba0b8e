//! What is written to a store: an entry behind the closed gate, and then the gate, open.
ghost use Rattle.std.specs.Prelude.{◌≡◌, ◌≤◌, ◌+◌, ◌++◌, ◌∷◌, [], length, List, IfOk, OnOk};
ghost use Rattle.plan_schema.specs.declared.change.Entry.{Entry};
ghost use Rattle.plan_schema.specs.declared.limits.TheConstants.{BYTE_LIMIT};
ghost use Rattle.plan_schema.specs.Outside.{ReadCause};
ghost use Rattle.journal_disk.specs.Images.{behind_gate, IsNext, IsImageOf, IsImageAround, EachImage, EachTold};
ghost use Rattle.journal_disk.specs.Images.{IsSettled, IsBehind, IsDoubted};

use crate::disk::Disk;
use byte_lines::Bytes;
use plan_schema::outside::Failed;
use std::alloc::{AllocError, Global};

/// An open gate.
const OPEN_GATE: &[u8] = &[1];

/// What a store has of a text behind its gate: the length, the text and a closed gate.
pub fn block_of(alloc: Global, text: &[u8]) -> Result<Bytes, AllocError>
    requires { length text.now ≤ BYTE_LIMIT }
    ensures { IfOk result (λ block. block ≡ behind_gate text.now) }
{
    let mut block = Bytes::new(alloc);
    block.extend(&(text.len() as u32).to_be_bytes())?;
    block.extend(text)?;
    block.push(0)?;
    Ok(block)
}

/// Writes a block behind the closed gate.
pub(crate) fn write_behind<D: Disk>(disk: &mut D, end: u64, block: &[u8]) -> Result<(), Failed>
    requires settled { (entries : List Entry) × IsSettled (D.moment disk.old) entries end }
    requires room { end + 1 + length block.now ≤ BYTE_LIMIT }
    ensures kept { (entries : List Entry) → IsSettled (D.moment disk.old) entries end
        → IsSettled (D.moment disk.new) entries end }
    ensures written { OnOk result ((entries : List Entry) (entry : Entry)
        → IsSettled (D.moment disk.old) entries end → IsNext entries entry block.now
        → IsBehind (D.moment disk.new) entries entry end) }
    ensures any_moment { (entries : List Entry) → IsSettled (D.moment disk.old) entries end
        → EachTold (D.moment disk.old) (D.moment disk.new) (IsImageOf entries) }
    ensures cause { ReadCause (D.moment disk.old).faults (D.moment disk.new).faults result }
{
    disk.write_at(end + 1, block)?;
    disk.sync()
}

/// Opens the gate in front of the last entry.
pub(crate) fn open_at<D: Disk>(disk: &mut D, place: u64) -> Result<(), Failed>
    requires { (entries : List Entry) × (entry : Entry)
        × IsDoubted (D.moment disk.old) entries entry place }
    ensures kept { (entries : List Entry) (entry : Entry)
        → IsDoubted (D.moment disk.old) entries entry place
        → IsDoubted (D.moment disk.new) entries entry place }
    ensures opened { OnOk result ((entries : List Entry) (entry : Entry)
        → IsDoubted (D.moment disk.old) entries entry place
        → EachImage (D.moment disk.new) (IsImageOf (entries ++ entry ∷ []))) }
    ensures any_moment { (entries : List Entry) (entry : Entry)
        → IsDoubted (D.moment disk.old) entries entry place
        → EachTold (D.moment disk.old) (D.moment disk.new) (IsImageAround entries entry) }
    ensures cause { ReadCause (D.moment disk.old).faults (D.moment disk.new).faults result }
{
    disk.write_at(place, OPEN_GATE)?;
    disk.sync()
}
