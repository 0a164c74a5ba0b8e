//! A round of desks, run with its passes.
ghost use Rattle.std.specs.Prelude.{◌≡◌, length};
ghost use Rattle.std.specs.List.{AllByRecursion};
ghost use Rattle.turn_table.specs.Passes.{IsFree};
ghost use Rattle.sessions.specs.InTurns.{IsReady};
ghost use Rattle.desk_rounds.specs.Four.{EachFour};
ghost use Rattle.desk_rounds.specs.PassLists.{SawMore};
ghost use Rattle.desk_rounds.specs.RoundsRun.{all_ended, ended_as, IsDeskRun};

use crate::passes::meet_all;
use crate::round::serve_desks;
use byte_lines::{Desk, Served, Sink, Source};
use plan_book::PlanBook;
use plan_office::{Office, Pass};
use std::alloc::Global;
use std::sync::Wait;
use std::thread::Threads;

/// Runs a round, each desk with the pass at its place, which first sees what the main pass has; at the end the main pass sees what they
/// have. Answers whether all sessions ended. It may wait for other passes.
pub fn run_round<B: PlanBook + Send, S: Source + Send, K: Sink + Send, R: Threads + Wait + Sync>(
    rt: &R,
    alloc: Global,
    office: &Office<B>,
    pass: &mut Pass<B>,
    desks: &mut [Desk<S, K>],
    passes: &mut [Pass<B>],
) -> bool
    requires free { IsFree office.now pass.old }
    requires same { length desks.old ≡ length passes.old }
    requires ready { AllByRecursion (IsReady office.now) passes.old }
    ensures saw { SawMore office.now pass.old pass.new }
    ensures run { EachFour (IsDeskRun S.left S.faults S.label K.taken K.faults K.label office.now
        pass.old.seen pass.new.seen) desks.old passes.old desks.new passes.new }
    ensures ended { result ≡ all_ended desks.new }
{
    meet_all(office, pass, passes);
    serve_desks(rt, alloc, office, desks, passes);
    meet_all(office, pass, passes);
    have_ended(desks)
}

/// Whether all sessions of a round ended.
fn have_ended<S, K>(desks: &[Desk<S, K>]) -> bool
    ensures { result ≡ all_ended desks.now }
{
    desks.iter().all(|desk| has_ended(desk.served))
}

/// Whether a session ended, its input read to the end or to the request to quit.
fn has_ended(served: Option<Served>) -> bool
    ensures { result ≡ ended_as served }
{
    matches!(served, Some(Served::Ended(_)))
}
