//! Rounds of desks, run one after the other.
ghost use Rattle.std.specs.Prelude.{◌≡◌, ◌≤◌, None, length, take, drop, OnOk, OnErr};
ghost use Rattle.std.specs.List.{AllByRecursion};
ghost use Rattle.byte_lines.specs.Desks.{all_desks, desk_count};
ghost use Rattle.turn_table.specs.Passes.{IsFree};
ghost use Rattle.sessions.specs.InTurns.{IsReady};
ghost use Rattle.desk_rounds.specs.PassLists.{SawMore};
ghost use Rattle.desk_rounds.specs.RunFrom.{AreRunFrom};
ghost use Rattle.desk_rounds.specs.RunOver.{IsBegun, AreRun};
ghost use Rattle.desk_rounds.specs.Told.{AreLegalIn, AreCutIn};

use crate::passes::{join_all, split_all};
use crate::rounds::run_round;
use byte_lines::{Rounds, Sink, Source};
use plan_book::PlanBook;
use plan_office::{Office, Pass};
use std::alloc::{AllocError, Global};
use std::sync::Wait;
use std::thread::Threads;

/// Runs rounds of desks at an office, with the pass that it began with: the desks of a round side by side, each with a pass of its own, and
/// the rounds one after the other, up to one in which a session doesn't end. The sessions are numbered from 1 in the order of the desks.
/// Want of memory comes before any input is read. It may wait.
pub fn run_rounds<B: PlanBook + Send, S: Source + Send, K: Sink + Send, R: Threads + Wait + Sync>(
    rt: &R,
    alloc: Global,
    office: &Office<B>,
    pass: &mut Pass<B>,
    rounds: &mut Rounds<S, K>,
) -> Result<(), AllocError>
    requires begun { IsBegun office.now pass.old }
    requires few { desk_count rounds.old ≤ 16 }
    requires unserved { AllByRecursion (λ desk. desk.served ≡ None) (all_desks rounds.old) }
    ensures run { OnOk result (AreRun S.left S.faults S.label K.taken K.faults K.label office.now
        pass.old pass.new rounds.old rounds.new) }
    ensures legal { OnOk result (AreLegalIn S.left K.taken pass.new rounds.old rounds.new) }
    ensures cut { OnOk result (AreCutIn S.left K.taken S.faults K.faults pass.new rounds.old
        rounds.new) }
    ensures unread { OnErr result (rounds.new ≡ rounds.old) }
{
    let count = rounds.desks();
    let mut passes = split_all(alloc, office, pass, count)?;
    run_from(rt, alloc, office, pass, rounds, 0, passes.as_mut_slice());
    join_all(office, pass, passes);
    Ok(())
}

/// Runs the rounds from one on, with the passes of their desks, up to one in which a session doesn't end.
fn run_from<B: PlanBook + Send, S: Source + Send, K: Sink + Send, R: Threads + Wait + Sync>(
    rt: &R,
    alloc: Global,
    office: &Office<B>,
    pass: &mut Pass<B>,
    rounds: &mut Rounds<S, K>,
    at: usize,
    passes: &mut [Pass<B>],
)
    requires free { IsFree office.now pass.old }
    requires count { length passes.old ≡ desk_count (drop at rounds.old) }
    requires ready { AllByRecursion (IsReady office.now) passes.old }
    ensures saw { SawMore office.now pass.old pass.new }
    ensures earlier { take at rounds.new ≡ take at rounds.old }
    ensures run { AreRunFrom S.left S.faults S.label K.taken K.faults K.label office.now
        pass.old.seen pass.new.seen (drop at rounds.old) (drop at rounds.new)
        passes.old passes.new }
{
    if at >= rounds.rounds() {
        return;
    }
    let desks = rounds.round(at);
    let (here, later) = passes.split_at_mut(desks.len());
    if run_round(rt, alloc, office, pass, desks, here) {
        run_from(rt, alloc, office, pass, rounds, at + 1, later);
    }
}
