//! The sessions of a run are gone through, round by round.
ghost use Rattle.std.specs.Prelude.{◌≡◌, ◌<◌, ◌+◌, ◌^◌, true, List, Some, Err, length, drop, IfOk, IfErr};
ghost use Rattle.std.specs.List.{list_any};
ghost use Rattle.byte_lines.specs.Desks.{desk_count};
ghost use Rattle.scenario_rules.specs.Journal.{AreSound, AreAccepted};
ghost use Rattle.scenario_rules.specs.Whole.{AreWholeContents, AreWithinLimits};
ghost use Rattle.session_rules.specs.Runs.{entries_of};
ghost use Rattle.plan_audit.specs.Verdicts.{Pair, session_seen, round_seen, rounds_seen};
ghost use Rattle.plan_audit.specs.Cases.{terms_of, AreTerms};
ghost use Rattle.plan_audit.specs.Rounds.{AreTold, AreRoundsTold, ArePoints, IsRunFault, run_fault};
ghost use Rattle.plan_audit.specs.Rounds.{IsGone, AreGone, AreRoundsGone, is_unread, has_unread};
ghost use Rattle.plan_audit.specs.Rounds.{served_with};
ghost use Rattle.plan_audit.specs.declared.rounds.RunFault.TheVariants as run;

use crate::case::Case;
use crate::session::{SessionFault, audit_session};
use crate::verdict::AuditRule;
use byte_lines::{Desk, Rounds, Served, Source};
use plan_schema::{Contents, Entry};
use std::alloc::Global;

/// Why the sessions of a run aren't let through.
#[derive(Clone, Copy)]
pub enum RunFault {
    /// A source failed: one of the desk whose `served` says so.
    Read,
    /// The input of this session is longer than a session's input may be.
    Limit(u64),
    /// There is no memory.
    Memory,
    /// The reply to a request of this session, in this line, breaks a rule.
    Breaks(u64, u64, AuditRule),
}

/// Goes through the sessions of a run, in order. Answers the points of all accepted changes, or the first fault. A desk's sink is the
/// source of what the session wrote, and a desk whose source failed or whose input is too long is told so in its `served`.
pub fn audit_rounds<S: Source, K: Source>(
    alloc: Global,
    base: &Contents,
    entries: &[Entry],
    rounds: &mut Rounds<S, K>,
) -> Result<Vec<u64>, RunFault>
    requires whole { AreWholeContents base.now }
    requires limits { AreWithinLimits base.now }
    requires sound { AreSound entries.now }
    requires accepted { AreAccepted base.now entries.now }
    requires few { 1 + desk_count rounds.old < 2 ^ 64 }
    ensures points { (pairs : List (List Pair)) → AreRoundsTold S.left K.left rounds.old pairs
        → IfOk result (λ points. rounds_seen base.now entries.now 1 pairs ≡ Ok points.items) }
    ensures fault { (pairs : List (List Pair)) → AreRoundsTold S.left K.left rounds.old pairs
        → IfErr result (IsRunFault (rounds_seen base.now entries.now 1 pairs)) }
    ensures gone { AreRoundsGone S.faults S.label K.faults K.label rounds.old rounds.new }
    ensures read { result ≡ Err run.Read → has_unread rounds.new ≡ true }
{
    let mut points = Vec::new(alloc);
    let case = Case {
        alloc,
        base,
        entries,
        session: 1,
        floor: 0,
        ceiling: 0,
    };
    match audit_from(&case, rounds, 0, &mut points) {
        Ok(()) => Ok(points),
        Err(fault) => Err(fault),
    }
}

/// Goes through the rounds from one on, whose first session has the case's number.
fn audit_from<S: Source, K: Source>(
    case: &Case<'_>,
    rounds: &mut Rounds<S, K>,
    at: usize,
    points: &mut Vec<u64>,
) -> Result<(), RunFault>
    requires whole { AreWholeContents case.now.base.now }
    requires limits { AreWithinLimits case.now.base.now }
    requires sound { AreSound case.now.entries.now }
    requires accepted { AreAccepted case.now.base.now case.now.entries.now }
    requires few { case.now.session + desk_count (drop at rounds.old) < 2 ^ 64 }
    ensures seen { (pairs : List (List Pair))
        → AreRoundsTold S.left K.left (drop at rounds.old) pairs
        → ArePoints (rounds_seen case.now.base.now case.now.entries.now case.now.session pairs)
        points.old.items points.new.items result }
    ensures gone { AreRoundsGone S.faults S.label K.faults K.label rounds.old rounds.new }
    ensures read { result ≡ Err run.Read → has_unread rounds.new ≡ true }
{
    if at >= rounds.rounds() {
        return Ok(());
    }
    let desks = rounds.round(at);
    let end = case.session + desks.len() as u64;
    let floor = entries_before(case.entries, case.session);
    let ceiling = entries_before(case.entries, end);
    let here = Case {
        alloc: case.alloc,
        base: case.base,
        entries: case.entries,
        session: case.session,
        floor,
        ceiling,
    };
    if let Err(fault) = audit_desks(&here, desks, 0, points) {
        return Err(fault);
    }
    let later = Case {
        alloc: case.alloc,
        base: case.base,
        entries: case.entries,
        session: end,
        floor: case.floor,
        ceiling: case.ceiling,
    };
    audit_from(&later, rounds, at + 1, points)
}

/// How many entries are of sessions before one.
fn entries_before(entries: &[Entry], session: u64) -> u64
    ensures { result ≡ entries_of entries.now 0 session }
{
    let mut count: u64 = 0;
    for entry in entries {
        if entry.session < session {
            count += 1;
        }
    }
    count
}

/// Goes through the sessions of a round from a desk on. The first desk has the number of the case.
fn audit_desks<S: Source, K: Source>(
    case: &Case<'_>,
    desks: &mut [Desk<S, K>],
    at: usize,
    points: &mut Vec<u64>,
) -> Result<(), RunFault>
    requires whole { AreWholeContents case.now.base.now }
    requires limits { AreWithinLimits case.now.base.now }
    requires terms { AreTerms (terms_of case.now) }
    requires few { case.now.session + length desks.old < 2 ^ 64 }
    ensures seen { (pairs : List Pair) → AreTold S.left K.left (drop at desks.old) pairs
        → ArePoints (round_seen case.now.base.now case.now.entries.now case.now.floor
        case.now.ceiling (case.now.session + at) pairs) points.old.items points.new.items result }
    ensures gone { AreGone S.faults S.label K.faults K.label desks.old desks.new }
    ensures read { result ≡ Err run.Read → list_any is_unread desks.new ≡ true }
{
    if at >= desks.len() {
        return Ok(());
    }
    let here = Case {
        alloc: case.alloc,
        base: case.base,
        entries: case.entries,
        session: case.session + at as u64,
        floor: case.floor,
        ceiling: case.ceiling,
    };
    if let Err(fault) = audit_desk(here, &mut desks[at], points) {
        return Err(fault);
    }
    audit_desks(case, desks, at + 1, points)
}

/// Goes through the session of a desk, and puts the points of its accepted changes behind others.
fn audit_desk<S: Source, K: Source>(
    case: Case<'_>,
    desk: &mut Desk<S, K>,
    points: &mut Vec<u64>,
) -> Result<(), RunFault>
    requires whole { AreWholeContents case.base.now }
    requires limits { AreWithinLimits case.base.now }
    requires terms { AreTerms (terms_of case) }
    ensures seen { (pair : Pair) → S.left desk.old.source ≡ Some pair.input
        → K.left desk.old.sink ≡ Some pair.output
        → ArePoints (session_seen case.entry.base.now case.entry.entries.now case.entry.floor
        case.entry.ceiling case.entry.session pair) points.old.items points.new.items result }
    ensures gone { IsGone S.faults S.label K.faults K.label desk.old desk.new }
    ensures read { result ≡ Err run.Read → is_unread desk.new ≡ true }
{
    let session = case.session;
    match audit_session(case, &mut desk.source, &mut desk.sink) {
        Ok(more) => match points.extend_from_slice(more.as_slice()) {
            Ok(()) => Ok(()),
            Err(_) => Err(RunFault::Memory),
        },
        Err(fault) => {
            desk.served = served_as(desk.served, fault);
            Err(fault_at(session, fault))
        }
    }
}

/// How a desk is told that a source of it failed, or that its input is too long.
fn served_as(served: Option<Served>, fault: SessionFault) -> Option<Served>
    ensures { result ≡ served_with served fault }
{
    match fault {
        SessionFault::Input => Some(Served::ReadFault),
        SessionFault::Output => Some(Served::WriteFault),
        SessionFault::Limit => Some(Served::Limit),
        SessionFault::Memory => served,
        SessionFault::Breaks(_, _) => served,
    }
}

/// The fault of a session as one of the run.
fn fault_at(session: u64, fault: SessionFault) -> RunFault
    ensures { result ≡ run_fault session fault }
{
    match fault {
        SessionFault::Input => RunFault::Read,
        SessionFault::Output => RunFault::Read,
        SessionFault::Limit => RunFault::Limit(session),
        SessionFault::Memory => RunFault::Memory,
        SessionFault::Breaks(line, rule) => RunFault::Breaks(session, line, rule),
    }
}
