//! An audit: whether a run is legal, as its files tell.
ghost use Rattle.std.specs.Prelude.{◌≡◌, true, length, ◌≤◌};
ghost use Rattle.plan_schema.specs.Base.{is_base};
ghost use Rattle.plan_journal.specs.Laws.{IsJournal};
ghost use Rattle.program_words.specs.declared.rounds.TheConstants.{PAIR_LIMIT};
ghost use Rattle.response_program.specs.Audited.{HasAuditedFiles, HasAudited};
ghost use Rattle.response_program.specs.Histories.{ReadsBase, ReadsJournal};
ghost use Rattle.response_program.specs.Names.{files_of, NoConsole};
ghost use Rattle.response_program.specs.Outcomes.{outcome_of};
ghost use Rattle.response_program.specs.Views.{view};
ghost use Rattle.response_program.specs.Written.{AreOpenedFor};

use crate::console::{CONSOLE, tell_ending};
use crate::ending::Ending;
use crate::files::RunFiles;
use crate::history::{History, read_history};
use crate::written::{close_written, open_written};
use byte_lines::{Rounds, Shelf};
use plan_audit::{audit, judged_legal_is_legal};
use std::alloc::Global;

/// An audit, with the console told what it comes to.
pub fn audit_told<H: Shelf>(alloc: Global, files: &RunFiles<'_, '_>, shelf: &mut H) -> u8
where
    H::In: Drop,
    requires files { NoConsole (files_of files.now) }
    requires pairs { length (files_of files.now).pairs ≤ PAIR_LIMIT }
    ensures { HasAudited (view H.held H.open_faults H.read_faults H.write_faults shelf.old)
        (view H.held H.open_faults H.read_faults H.write_faults shelf.new) (files_of files.now)
        result }
{
    let console = match shelf.make_out(CONSOLE) {
        Ok(console) => console,
        Err(fault) => return Ending::of_open(CONSOLE, fault).status(),
    };
    let ending = audit_files(alloc, files, shelf);
    tell_ending(ending, console, shelf)
}

/// Reads the base and the journal, and audits the sessions behind them.
fn audit_files<'a, H: Shelf>(alloc: Global, files: &RunFiles<'_, 'a>, shelf: &mut H) -> Ending<'a>
where
    H::In: Drop,
    requires files { NoConsole (files_of files.now) }
    requires pairs { length (files_of files.now).pairs ≤ PAIR_LIMIT }
    ensures { HasAuditedFiles (view H.held H.open_faults H.read_faults H.write_faults shelf.old)
        (view H.held H.open_faults H.read_faults H.write_faults shelf.new) (files_of files.now)
        (outcome_of result) }
{
    match read_history(alloc, files.base, files.journal, shelf) {
        Ok(history) => audit_behind(alloc, files, &history, shelf),
        Err(ending) => ending,
    }
}

/// Opens what the sessions were sent and what they wrote, and audits them.
fn audit_behind<'a, H: Shelf>(
    alloc: Global,
    files: &RunFiles<'_, 'a>,
    history: &History,
    shelf: &mut H,
) -> Ending<'a>
where
    H::In: Drop,
    requires files { NoConsole (files_of files.now) }
    requires pairs { length (files_of files.now).pairs ≤ PAIR_LIMIT }
    requires base { is_base history.now.contents ≡ true }
    requires journal { IsJournal history.now.journal.entries }
    requires reads_base { ReadsBase
        (view H.held H.open_faults H.read_faults H.write_faults shelf.old)
        (files_of files.now).base history.now.contents }
    requires reads_journal { ReadsJournal
        (view H.held H.open_faults H.read_faults H.write_faults shelf.old)
        (files_of files.now).journal history.now.journal.entries }
    ensures { HasAuditedFiles (view H.held H.open_faults H.read_faults H.write_faults shelf.old)
        (view H.held H.open_faults H.read_faults H.write_faults shelf.new) (files_of files.now)
        (outcome_of result) }
{
    let mut rounds = Rounds::new(alloc);
    match open_written(files.rounds.pairs(), true, &mut rounds, shelf) {
        Ok(()) => audit_opened(alloc, files, history, &mut rounds, shelf),
        Err(ending) => ending,
    }
}

/// Audits the sessions of a run whose files are opened, and gives these back.
fn audit_opened<'a, H: Shelf>(
    alloc: Global,
    files: &RunFiles<'_, 'a>,
    history: &History,
    rounds: &mut Rounds<H::In, H::In>,
    shelf: &mut H,
) -> Ending<'a>
    requires pairs { length (files_of files.now).pairs ≤ PAIR_LIMIT }
    requires base { is_base history.now.contents ≡ true }
    requires journal { IsJournal history.now.journal.entries }
    requires reads_base { ReadsBase
        (view H.held H.open_faults H.read_faults H.write_faults shelf.old)
        (files_of files.now).base history.now.contents }
    requires reads_journal { ReadsJournal
        (view H.held H.open_faults H.read_faults H.write_faults shelf.old)
        (files_of files.now).journal history.now.journal.entries }
    requires seated { AreOpenedFor H.In.left H.In.faults H.In.label
        (view H.held H.open_faults H.read_faults H.write_faults shelf.old)
        (files_of files.now).rounds rounds.old }
    ensures { HasAuditedFiles (view H.held H.open_faults H.read_faults H.write_faults shelf.old)
        (view H.held H.open_faults H.read_faults H.write_faults shelf.new) (files_of files.now)
        (outcome_of result) }
{
    judged_legal_is_legal();
    let found = audit(alloc, &history.contents, &history.journal, rounds);
    let unread = close_written(files.rounds.pairs(), rounds, shelf);
    Ending::of_audit(found, history.journal.len() as u64, unread)
}
