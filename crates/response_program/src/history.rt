//! The history of a run: its base and its journal, read from their files.
ghost use Rattle.std.specs.Prelude.{◌≡◌, true, IfOk, IfErr};
ghost use Rattle.plan_schema.specs.Base.{is_base};
ghost use Rattle.plan_schema.specs.Outside.{Stays};
ghost use Rattle.plan_journal.specs.Laws.{IsJournal};
ghost use Rattle.response_program.specs.Histories.{ReadsBase, ReadsJournal};
ghost use Rattle.response_program.specs.Histories.{IsBaseUnread, IsJournalUnread, IsHistoryUnread};
ghost use Rattle.response_program.specs.Outcomes.{outcome_of, HasCause};
ghost use Rattle.response_program.specs.Views.{view, NoneFell};

use crate::ending::Ending;
use byte_lines::Shelf;
use plan_import::import;
use plan_journal::{Journal, read_journal};
use plan_schema::Contents;
use std::alloc::Global;

/// The records of a base, and the entries of a journal.
#[derive(Drop)]
pub struct History {
    pub contents: Contents,
    pub journal: Journal,
}

/// Reads a base, and then a journal, and gives their files back.
pub fn read_history<'a, H: Shelf>(
    alloc: Global,
    base: &'a str,
    journal: &'a str,
    shelf: &mut H,
) -> Result<History, Ending<'a>>
    ensures held { Stays (H.held shelf.old) (H.held shelf.new) }
    ensures fell { NoneFell (view H.held H.open_faults H.read_faults H.write_faults shelf.old)
        (view H.held H.open_faults H.read_faults H.write_faults shelf.new) }
    ensures base { IfOk result (λ history. is_base history.contents ≡ true) }
    ensures journal { IfOk result (λ history. IsJournal history.journal.entries) }
    ensures reads_base { IfOk result (λ history. ReadsBase
        (view H.held H.open_faults H.read_faults H.write_faults shelf.old)
        base.now history.contents) }
    ensures reads_journal { IfOk result (λ history. ReadsJournal
        (view H.held H.open_faults H.read_faults H.write_faults shelf.old)
        journal.now history.journal.entries) }
    ensures cause { IfErr result (λ ending.
        HasCause (view H.held H.open_faults H.read_faults H.write_faults shelf.old)
        (view H.held H.open_faults H.read_faults H.write_faults shelf.new)
        (outcome_of ending)) }
    ensures why { IfErr result (λ ending. IsHistoryUnread
        (view H.held H.open_faults H.read_faults H.write_faults shelf.old)
        base.now journal.now (outcome_of ending)) }
{
    let contents = read_base(alloc, base, shelf)?;
    match read_entries(alloc, journal, shelf) {
        Ok(journal) => Ok(History { contents, journal }),
        Err(ending) => Err(ending),
    }
}

/// Reads a base, and gives its file back.
fn read_base<'a, H: Shelf>(
    alloc: Global,
    name: &'a str,
    shelf: &mut H,
) -> Result<Contents, Ending<'a>>
    ensures held { Stays (H.held shelf.old) (H.held shelf.new) }
    ensures fell { NoneFell (view H.held H.open_faults H.read_faults H.write_faults shelf.old)
        (view H.held H.open_faults H.read_faults H.write_faults shelf.new) }
    ensures base { IfOk result (λ contents. is_base contents ≡ true) }
    ensures reads { IfOk result (λ contents. ReadsBase
        (view H.held H.open_faults H.read_faults H.write_faults shelf.old)
        name.now contents) }
    ensures cause { IfErr result (λ ending.
        HasCause (view H.held H.open_faults H.read_faults H.write_faults shelf.old)
        (view H.held H.open_faults H.read_faults H.write_faults shelf.new)
        (outcome_of ending)) }
    ensures why { IfErr result (λ ending. IsBaseUnread
        (view H.held H.open_faults H.read_faults H.write_faults shelf.old)
        name.now (outcome_of ending)) }
{
    let mut source = match shelf.open_in(name) {
        Ok(source) => source,
        Err(fault) => return Err(Ending::of_open(name, fault)),
    };
    let imported = import(alloc, &mut source);
    shelf.give_in(name, source);
    match imported {
        Ok(contents) => Ok(contents),
        Err(fault) => Err(Ending::of_import(name, fault)),
    }
}

/// Reads a journal, and gives its file back.
fn read_entries<'a, H: Shelf>(
    alloc: Global,
    name: &'a str,
    shelf: &mut H,
) -> Result<Journal, Ending<'a>>
    ensures held { Stays (H.held shelf.old) (H.held shelf.new) }
    ensures fell { NoneFell (view H.held H.open_faults H.read_faults H.write_faults shelf.old)
        (view H.held H.open_faults H.read_faults H.write_faults shelf.new) }
    ensures journal { IfOk result (λ journal. IsJournal journal.entries) }
    ensures reads { IfOk result (λ journal. ReadsJournal
        (view H.held H.open_faults H.read_faults H.write_faults shelf.old)
        name.now journal.entries) }
    ensures cause { IfErr result (λ ending.
        HasCause (view H.held H.open_faults H.read_faults H.write_faults shelf.old)
        (view H.held H.open_faults H.read_faults H.write_faults shelf.new)
        (outcome_of ending)) }
    ensures why { IfErr result (λ ending. IsJournalUnread
        (view H.held H.open_faults H.read_faults H.write_faults shelf.old)
        name.now (outcome_of ending)) }
{
    let mut source = match shelf.open_in(name) {
        Ok(source) => source,
        Err(fault) => return Err(Ending::of_open(name, fault)),
    };
    let read = read_journal(alloc, &mut source);
    shelf.give_in(name, source);
    match read {
        Ok(journal) => Ok(journal),
        Err(fault) => Err(Ending::of_journal(name, fault)),
    }
}
