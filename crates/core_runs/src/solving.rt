//! Netting for a walk in work.
ghost use Rattle.std.specs.Prelude.{◌≡◌, map, IfOk};
ghost use Rattle.walk_rules.specs.Walks.{results_of};
ghost use Rattle.plan_walk.specs.Walk.{IsOpen};
ghost use Rattle.core_runs.specs.Replies.{IsNetted};

use crate::in_work::InWork;
use crate::step::CoreReply;
use plan_schema::Steps;
use plan_walk::{Solved, Walk, solve};
use std::alloc::{AllocError, Global};
use std::marker::Brand;
use std::sync::ledger::{Blank, Ledger};

/// Nets the frontier of a walk, and keeps the results for its next round. Where there is no memory for it, the walk is as before.
pub fn net(alloc: Global, work: &mut InWork) -> CoreReply
    requires { IsOpen work.old.walk }
    ensures { IsNetted work.old work.new result }
{
    match net_once::<Brand>(alloc, &work.walk, Blank::new(1)) {
        Ok(solved) => {
            work.lent = solved;
            CoreReply::Solved
        }
        Err(_) => CoreReply::Memory,
    }
}

/// The results of a frontier, with a counter of steps that nobody reads.
fn net_once<L: Ledger>(alloc: Global, walk: &Walk, blank: Blank) -> Result<Solved, AllocError>
    requires open { IsOpen walk.now }
    requires name { blank.name ≡ L.name }
    requires parts { blank.parts ≡ L.parts }
    requires one { blank.parts ≡ 1 }
    ensures solved { IfOk result (λ solved. solved ≡ results_of walk.now.job.cells walk.now.parts) }
    ensures names { IfOk result (λ solved. map (λ r. r.0) solved ≡ walk.now.front) }
{
    let (book, share) = blank.open::<L>();
    let mut steps = Steps::new(book, share);
    solve(alloc, walk, &mut steps)
}
