//! The audit of a run: its journal, its sessions in order, and the entries that no reply printed.
ghost use Rattle.std.specs.Prelude.{◌≡◌, ◌+◌, ◌<◌, ◌^◌, ℕ, true, List, [], None, Result, Err, IfOk};
ghost use Rattle.plan_schema.specs.declared.change.Entry.{Entry as JournalEntry};
ghost use Rattle.byte_lines.specs.Desks.{desk_count};
ghost use Rattle.plan_journal.specs.Laws.{IsJournal};
ghost use Rattle.scenario_rules.specs.Journal.{IsLegal};
ghost use Rattle.scenario_rules.specs.Whole.{AreWholeContents, AreWithinLimits};
ghost use Rattle.plan_audit.specs.Verdicts.{Pair, Fault, first_refused, rounds_seen, of_sessions, audited};
ghost use Rattle.plan_audit.specs.Rounds.{AreRoundsTold, AreRoundsGone, IsRunFault, has_unread};
ghost use Rattle.plan_audit.specs.declared.rounds.RunFault.TheVariants as run;
ghost use Rattle.plan_audit.specs.declared.auditing.AuditFault.TheVariants as faults;
ghost use Rattle.plan_audit.specs.Audits.{ComesTo};

use crate::lost::{judged_by, marks_of};
use crate::rounds::{RunFault, audit_rounds};
use crate::verdict::Verdict;
use byte_lines::{Rounds, Source};
use plan_core::{BehindFault, Core};
use plan_journal::Journal;
use plan_schema::{Contents, Entry};
use std::alloc::{AllocError, Global};

/// Why an audit comes to no verdict.
#[derive(Clone, Copy)]
pub enum AuditFault {
    /// A source failed: one of the desk whose `served` says so.
    Read,
    /// The input of this session is longer than a session's input may be.
    Limit(u64),
    /// There is no memory.
    Memory,
}

impl From<AllocError> for AuditFault {
    ghost use Rattle.plan_audit.specs.declared.auditing.AuditFault.TheVariants as faults;

    ghost from_gives = { λ _ fault. fault ≡ faults.Memory };

    fn from(_: AllocError) -> AuditFault {
        AuditFault::Memory
    }
}

/// Audits a run: whether its journal is that of a legal history over the base's records, whether each session, in the rounds of the desks,
/// was answered as the definitions have it, and whether each entry was printed by an accepted reply. A desk's sink is the source of what
/// its session wrote; inputs and outputs are read piece by piece. The first fault is the verdict, in the order of the definition. A desk
/// whose source failed or whose input is too long is told so in its `served`.
pub fn audit<S: Source, K: Source>(
    alloc: Global,
    base: &Contents,
    journal: &Journal,
    rounds: &mut Rounds<S, K>,
) -> Result<Verdict, AuditFault>
    requires whole { AreWholeContents base.now }
    requires limits { AreWithinLimits base.now }
    requires journal { IsJournal journal.now.entries }
    requires few { 1 + desk_count rounds.old < 2 ^ 64 }
    ensures verdict { (pairs : List (List Pair))
        → AreRoundsTold S.left K.left rounds.old pairs
        → ComesTo (audited base.now journal.now.entries pairs) result }
    ensures gone { AreRoundsGone S.faults S.label K.faults K.label rounds.old rounds.new }
    ensures read { result ≡ Err faults.Read → has_unread rounds.new ≡ true }
{
    match refused_number(alloc, base, journal)? {
        Some(number) => Ok(Verdict::Journal(number)),
        None => audit_sessions(alloc, base, journal.as_slice(), rounds),
    }
}

/// Audits the sessions of a run whose journal is that of a legal history.
fn audit_sessions<S: Source, K: Source>(
    alloc: Global,
    base: &Contents,
    entries: &[Entry],
    rounds: &mut Rounds<S, K>,
) -> Result<Verdict, AuditFault>
    requires whole { AreWholeContents base.now }
    requires limits { AreWithinLimits base.now }
    requires legal { IsLegal base.now entries.now }
    requires few { 1 + desk_count rounds.old < 2 ^ 64 }
    ensures verdict { (pairs : List (List Pair))
        → AreRoundsTold S.left K.left rounds.old pairs
        → ComesTo (of_sessions entries.now (rounds_seen base.now entries.now 1 pairs)) result }
    ensures gone { AreRoundsGone S.faults S.label K.faults K.label rounds.old rounds.new }
    ensures read { result ≡ Err faults.Read → has_unread rounds.new ≡ true }
{
    match audit_rounds(alloc, base, entries, rounds) {
        Ok(points) => {
            let marks = marks_of(alloc, entries.len(), points.as_slice())?;
            Ok(judged_by(entries, marks.as_slice()))
        }
        Err(fault) => fault_told(fault),
    }
}

/// What a fault of the sessions comes to: a verdict, where a rule is broken.
fn fault_told(fault: RunFault) -> Result<Verdict, AuditFault>
    ensures verdict { (entries : List JournalEntry) (seen : Result (List ℕ) Fault)
        → IsRunFault seen fault → ComesTo (of_sessions entries seen) result }
    ensures read { result ≡ Err faults.Read → fault ≡ run.Read }
{
    match fault {
        RunFault::Breaks(session, line, rule) => Ok(Verdict::NotLegal {
            session,
            line,
            rule,
        }),
        RunFault::Limit(session) => Err(AuditFault::Limit(session)),
        RunFault::Read => Err(AuditFault::Read),
        RunFault::Memory => Err(AuditFault::Memory),
    }
}

/// The number of the first entry of a journal that is refused after those before it, if one is.
fn refused_number(
    alloc: Global,
    base: &Contents,
    journal: &Journal,
) -> Result<Option<u64>, AllocError>
    requires whole { AreWholeContents base.now }
    requires limits { AreWithinLimits base.now }
    requires journal { IsJournal journal.now.entries }
    ensures found { IfOk result
        (λ found. found ≡ first_refused base.now [] journal.now.entries) }
    ensures legal { IfOk result
        (λ found. found ≡ None → IsLegal base.now journal.now.entries) }
{
    let contents = base.copy()?;
    match Core::behind(alloc, contents, 1, journal) {
        Ok(core) => {
            core.holds();
            Ok(None)
        }
        Err(BehindFault::Refused(before, _)) => Ok(Some(before + 1)),
        Err(BehindFault::Memory) => Err(AllocError),
    }
}
