//! Changes to a book on a disk, of which a call fails.
ghost use Rattle.std.specs.Prelude.{◌≡◌, true, IfOk};
ghost use Rattle.plan_schema.specs.Sound.{is_sound_entry};
ghost use Rattle.scenario_rules.specs.Whole.{AreWholeContents, AreWithinLimits};
ghost use Rattle.journal_disk.specs.Recovery.{IsEmpty};

use crate::KeptBook;
use byte_lines::{Bytes, Calls, SteadyIn};
use journal_disk::{Disk, MemoryDisk, create, recover};
use plan_book::{Book, PlanBook};
use plan_import::import;
use plan_journal::read_entry;
use plan_schema::{Contents, Entry, Series};
use std::alloc::{AllocError, Global};
use std::process::Abort;
use std::test::Fail;

const BASE: &[u8] = b"PLAN,2025-03-03,5\nPART,A,2,L4L,0,-\nSTOCK,A,30\n";

const CHANGE: &[u8] = b"1 1 1 guest PUT Baseline STOCK A 60\n";

/// A store with that change as its only entry.
const STORE: &[u8] = b"PLANSTO1\x01\0\0\0\x241 1 1 guest PUT Baseline STOCK A 60\n\0";

/// The records of the base.
fn base(alloc: Global) -> Result<Contents, Fail>
    ensures whole { IfOk result (λ contents. AreWholeContents contents) }
    ensures limits { IfOk result (λ contents. AreWithinLimits contents) }
{
    let mut bytes = Bytes::new(alloc);
    bytes.extend(BASE)?;
    let mut source = SteadyIn::new(alloc, bytes);
    match import(alloc, &mut source) {
        Ok(contents) => Ok(contents),
        Err(_) => Err(Fail::new("no base")),
    }
}

/// The change.
fn entry(alloc: Global) -> Result<Entry, Fail>
    ensures { IfOk result (λ entry. is_sound_entry entry ≡ true) }
{
    match read_entry(alloc, 1, CHANGE)? {
        Some(entry) => Ok(entry),
        None => Err(Fail::new("no entry")),
    }
}

/// An empty disk of which one call fails; none does where its number is 0.
fn disk(alloc: Global, fails: u64) -> Result<MemoryDisk, AllocError>
    ensures { IfOk result (λ disk. IsEmpty (⟦<MemoryDisk as Disk>⟧.moment disk)) }
{
    let mut calls: Calls = Series::new(alloc);
    calls.push(fails)?;
    Ok(MemoryDisk::new(alloc, Bytes::new(alloc), calls))
}

/// The book that the store of a disk has, where the disk lets it be read.
fn open(alloc: Global, disk: MemoryDisk) -> Result<Option<KeptBook<MemoryDisk>>, Fail> {
    let mut disk = disk;
    let Ok(found) = recover(alloc, &mut disk) else {
        return Ok(None);
    };
    match Book::behind(alloc, base(alloc)?, 16, &found.journal) {
        Ok(book) => Ok(Some(KeptBook::begin(alloc, book, disk, found.end))),
        Err(_) => Err(Fail::new("no book")),
    }
}

/// Makes the change, and tells whether it was answered with its number.
fn change(alloc: Global, kept: &mut KeptBook<MemoryDisk>) -> Result<bool, Fail> {
    let Entry {
        session,
        line,
        user,
        change,
    } = entry(alloc)?;
    Ok(kept.change(session, line, &user, change).is_ok())
}

/// How many entries a crash leaves.
fn left(alloc: Global, disk: &MemoryDisk, latest: bool) -> Result<usize, Fail> {
    let mut after = MemoryDisk::new(alloc, disk.image(latest)?, Series::new(alloc));
    match recover(alloc, &mut after) {
        Ok(found) => Ok(found.journal.len()),
        Err(_) => Err(Fail::new("no store")),
    }
}

/// A new store, and a change, where a call of the disk fails; then another change. A crash leaves each entry that was answered.
fn run(rt: &impl Abort, alloc: Global, fails: u64) -> Result<(), Fail> {
    let mut empty = disk(alloc, fails)?;
    assert!(rt; create(&mut empty).is_ok());
    let Some(mut kept) = open(alloc, empty)? else {
        return Ok(());
    };
    let answered = change(alloc, &mut kept)?;
    assert!(rt; answered == (fails == 0));
    let again = change(alloc, &mut kept)?;
    assert!(rt; again && kept.is_sure());
    let point = kept.point();
    let (_, disk) = kept.apart();
    assert_eq!(rt; left(alloc, &disk, false)? as u64, point);
    assert_eq!(rt; left(alloc, &disk, true)? as u64, point);
    assert_eq!(rt; point == 2, fails == 0 || fails > 7);
    Ok(())
}

#[test]
fn changes_are_kept(rt: HostRuntime) -> Result<(), Fail> {
    let alloc = rt.alloc();
    for fails in 3..10 {
        run(&rt, alloc, fails)?;
    }
    run(&rt, alloc, 0)
}

/// A change, where a call of the disk fails.
fn crash(rt: &impl Abort, alloc: Global, fails: u64) -> Result<(), Fail> {
    let mut empty = disk(alloc, fails)?;
    assert!(rt; create(&mut empty).is_ok());
    let Some(mut kept) = open(alloc, empty)? else {
        return Ok(());
    };
    let answered = change(alloc, &mut kept)?;
    let (_, disk) = kept.apart();
    let early = left(alloc, &disk, false)?;
    let late = left(alloc, &disk, true)?;
    assert!(rt; early <= late && late <= 1);
    assert!(rt; early == 1 || !answered);
    if answered {
        assert_eq!(rt; disk.image(true)?.as_slice(), STORE);
    }
    Ok(())
}

#[test]
fn a_crash_leaves_what_was_answered(rt: HostRuntime) -> Result<(), Fail> {
    let alloc = rt.alloc();
    for fails in 3..10 {
        crash(&rt, alloc, fails)?;
    }
    crash(&rt, alloc, 0)
}
