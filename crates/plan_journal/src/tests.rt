//! A test of journals that are read and written again.
use crate::{Journal, JournalFault, read_entry, read_journal, write_entry, write_journal};
use byte_lines::{Bytes, SteadyIn, SteadyOut};
use std::alloc::{AllocError, Global};
use std::process::Abort;
use std::test::Fail;

/// Changes of every kind, with the rows of a load.
const CHANGES: &str =
    "1 1 2 ann BRANCH Baseline X\n2 1 3 ann LOAD X 2\nSTOCK A 40\nBILL A B 3\n3 1 6 ann PUT Baseline STOCK B 5\n\
    4 1 7 ann UPDATE X\n5 1 8 ann DEL X STOCK A\n6 1 9 ann COMMIT X\n7 1 10 ann SHARE X\n8 1 11 ann DROP X\n";

/// A change that the first version has not.
const SPAN: &str = "9 1 12 ann PUT Baseline BILL A B 3 2025-03-03 2025-03-07\n";

/// What is read of pieces of text, one behind the other.
fn read_of(alloc: Global, pieces: &[&str]) -> Result<Result<Journal, JournalFault>, AllocError> {
    let mut bytes = Bytes::new(alloc);
    for piece in pieces {
        bytes.extend(piece.as_bytes())?;
    }
    let mut source = SteadyIn::new(alloc, bytes);
    Ok(read_journal(alloc, &mut source))
}

/// That a journal with a first line and these changes has so many entries, and is written in the newest version.
fn is_read(
    rt: &impl Abort,
    alloc: Global,
    head: &str,
    changes: &str,
    count: usize,
) -> Result<(), Fail> {
    let journal = read_of(alloc, &[head, changes])?.ok().ok_or("a journal")?;
    assert_eq!(rt; journal.len(), count);
    let mut sink = SteadyOut::new(alloc);
    assert!(rt; write_journal(&journal, &mut sink).is_ok());
    let text = format!(in alloc; "plan-journal 2\n{changes}")?;
    assert_eq!(rt; sink.bytes(), text.as_bytes());
    Ok(())
}

#[test]
fn journals_are_read_back(rt: HostRuntime) -> Result<(), Fail> {
    let alloc = rt.alloc();
    is_read(&rt, alloc, "plan-journal 1\n", "", 0)?;
    is_read(&rt, alloc, "plan-journal 1\n", CHANGES, 8)?;
    is_read(&rt, alloc, "plan-journal 2\n", CHANGES, 8)?;
    let newer = read_of(alloc, &["plan-journal 2\n", CHANGES, SPAN])?;
    assert!(rt; newer.is_ok());
    let older = read_of(alloc, &["plan-journal 1\n", CHANGES, SPAN])?;
    assert!(rt; matches!(older.err(), Some(JournalFault::Form(12))));
    let entry = read_entry(alloc, 9, SPAN.as_bytes())?.ok_or("an entry")?;
    let mut sink = SteadyOut::new(alloc);
    assert!(rt; write_entry(9, &entry, &mut sink).is_ok());
    assert_eq!(rt; sink.bytes(), SPAN.as_bytes());
    Ok(())
}
