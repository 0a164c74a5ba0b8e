//! An entry, written to a book's store.
ghost use Rattle.std.specs.Prelude.{◌≡◌, ◌≤◌, true, length, IfOk, IfErr, OnOk};
ghost use Rattle.plan_schema.specs.declared.limits.TheConstants.{BYTE_LIMIT};
ghost use Rattle.plan_schema.specs.Sound.{is_sound_entry};
ghost use Rattle.plan_journal.specs.Entries.{entry_text};
ghost use Rattle.plan_core.specs.State.{history};
ghost use Rattle.journal_disk.specs.Images.{behind_gate, EachTold};
ghost use Rattle.journal_disk.specs.Stored.{HasAppended, IsImageUpTo, moment_of, doubt_of};
ghost use Rattle.kept_book.specs.Kept.{IsKept};
ghost use Rattle.kept_book.specs.Steps.{IsNotWritten};

use byte_lines::{Bytes, SinkFault, SteadyOut};
use journal_disk::{Disk, Store, block_of};
use plan_book::{Book, BookFault, PlanBook};
use plan_journal::write_entry;
use plan_schema::Entry;
use std::alloc::{AllocError, Global};

/// What a store has of an entry with this number behind its gate.
fn entry_block(alloc: Global, number: u64, entry: &Entry) -> Result<Bytes, AllocError>
    requires { length (entry_text number entry.now) ≤ BYTE_LIMIT }
    ensures { IfOk result (λ block. block ≡ behind_gate (entry_text number entry.now)) }
{
    let mut sink = SteadyOut::new(alloc);
    match write_entry(number, entry, &mut sink) {
        Ok(()) => block_of(alloc, sink.bytes()),
        Err(SinkFault::Failed | SinkFault::Memory) => Err(AllocError),
    }
}

/// Writes an entry behind the closed gate of a book's store.
pub(crate) fn append<D: Disk>(
    alloc: Global,
    book: &Book,
    store: &mut Store<D>,
    entry: &Entry,
) -> Result<(), BookFault>
    requires kept { IsKept D.moment book.now store.old }
    requires sound { is_sound_entry entry.now ≡ true }
    ensures kept { IsKept D.moment book.now store.new }
    ensures appended { OnOk result (HasAppended D.moment store.new (history book.now) entry.now) }
    ensures any_moment { EachTold (moment_of D.moment store.old) (moment_of D.moment store.new)
        (IsImageUpTo (history book.now) (doubt_of store.old)) }
    ensures later { (moment_of D.moment store.old).faults ≤ (moment_of D.moment store.new).faults }
    ensures fault { IfErr result (IsNotWritten (moment_of D.moment store.old).faults
        (moment_of D.moment store.new).faults) }
{
    book.holds();
    let block = entry_block(alloc, book.point() + 1, entry)?;
    match store.append(block.as_slice()) {
        Ok(()) => Ok(()),
        Err(_) => Err(BookFault::Failed),
    }
}
