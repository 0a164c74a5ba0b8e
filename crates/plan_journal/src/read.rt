//! Entries and journals from their text.
ghost use Rattle.std.specs.Prelude.{◌≡◌, ◌++◌, true, None, Ok, IfOk, IfSome};
ghost use Rattle.plan_schema.specs.declared.change.Entry.{Entry};
ghost use Rattle.plan_schema.specs.Sound.{is_sound_entry};
ghost use Rattle.plan_journal.specs.Entries.{entry_text};
ghost use Rattle.plan_journal.specs.Laws.{IsJournal};
ghost use Rattle.plan_journal.specs.Reading.{journal_of};
ghost use Rattle.plan_journal.specs.Told.{Tells, JournalRead};

use crate::cuts::cut_at;
use crate::fault::JournalFault;
use crate::frame::{Frame, Version};
use crate::journal::Journal;
use crate::reading::read_entries;
use byte_lines::{ReadAllFault, Source, read_all};
use plan_schema::Entry;
use plan_schema::limits::{BYTE_LIMIT, ENTRY_LIMIT};
use std::alloc::{AllocError, Global};

/// The sound entry whose text with a number is exactly this one, if there is one.
pub fn read_entry(alloc: Global, number: u64, text: &[u8]) -> Result<Option<Entry>, AllocError>
    ensures found { IfOk result
        (λ found. IfSome found
        (λ entry. (is_sound_entry entry ≡ true) × (text.now ≡ entry_text number entry))) }
    ensures none { result ≡ Ok None → (entry : Entry) → is_sound_entry entry ≡ true → text.now
        ≡ entry_text number entry → ⊥ }
{
    let frame = Frame {
        version: Version::Two,
        first: number,
        most: 1,
    };
    match read_entries(alloc, frame, 1, text) {
        Ok(journal) => Ok(journal.into_last()),
        Err(JournalFault::Form(_)) => Ok(None),
        Err(JournalFault::Memory) => Err(AllocError),
        Err(JournalFault::Read) => unreachable!(),
        Err(JournalFault::Large) => unreachable!(),
    }
}

/// Reads a journal. All bytes are read first. An entry past 1,000,000 or with more than 4,000,000 records, those of the entries before it
/// among them, is faulty in its first line.
pub fn read_journal<S: Source>(alloc: Global, source: &mut S) -> Result<Journal, JournalFault>
    ensures { JournalRead S.left S.faults S.label source.old source.new result }
{
    match read_all(alloc, source, BYTE_LIMIT) {
        Ok(bytes) => read_text(alloc, bytes.as_slice()),
        Err(ReadAllFault::Failed) => Err(JournalFault::Read),
        Err(ReadAllFault::Large) => Err(JournalFault::Large),
        Err(ReadAllFault::Memory) => Err(JournalFault::Memory),
    }
}

/// The journal of a text.
fn read_text(alloc: Global, text: &[u8]) -> Result<Journal, JournalFault>
    ensures told { Tells (journal_of text.now) result }
    ensures journal { IfOk result (λ journal. IsJournal journal.entries) }
{
    let Some((head, behind)) = cut_at(b'\n', text) else {
        return Err(JournalFault::Form(1));
    };
    let Some(version) = Version::read(head) else {
        return Err(JournalFault::Form(1));
    };
    let frame = Frame {
        version,
        first: 1,
        most: ENTRY_LIMIT,
    };
    read_entries(alloc, frame, 2, behind)
}
