//! Walks to their end.
ghost use Rattle.std.specs.Prelude.{◌≡◌, [], map, Err, OnOk, IfOk};
ghost use Rattle.plan_walk.specs.Walk.{IsOpen, IsSolved};
ghost use Rattle.plan_office.specs.declared.fault.OfficeFault.TheVariants as office;
ghost use Rattle.sessions.specs.Sights.{StandsAt, Looks};

use crate::reach::Reach;
use plan_office::OfficeFault;
use plan_schema::Steps;
use plan_walk::{Round, Solved, Walk, solve};
use std::alloc::{AllocError, Global};
use std::marker::Brand;
use std::sync::ledger::{Blank, Ledger};

/// Walks to the end: takes what the book's memo has, and nets the rest, frontier after frontier, between the calls of the book.
pub fn walk_to_end<T: Reach>(
    alloc: Global,
    reach: &T,
    state: &mut T::State,
    walk: &mut Walk,
) -> Result<(), OfficeFault>
    requires ready { T.ready reach.now state.old }
    requires open { IsOpen walk.old }
    requires stands { StandsAt (T.sight reach.now state.old) walk.old.job.cells }
    ensures ready { T.ready reach.now state.new }
    ensures looks { Looks (T.sight reach.now state.old) (T.sight reach.now state.new) }
    ensures done { OnOk result (walk.new.front ≡ []) }
    ensures open { OnOk result (IsOpen walk.new) }
    ensures job { walk.new.job ≡ walk.old.job }
    ensures worn { result ≡ Err office.Worn → T.worn reach.now state.new }
{
    let mut round = reach.round(state, walk, Solved::none(alloc))?;
    'rounds: while let Round::More = round {
        let solved = net_frontier(alloc, walk)?;
        round = reach.round(state, walk, solved)?;
    }
    Ok(())
}

/// Nets the frontier of a walk.
fn net_frontier(alloc: Global, walk: &Walk) -> Result<Solved, AllocError>
    requires { IsOpen walk.now }
    ensures solved { IfOk result (IsSolved walk.now) }
    ensures names { IfOk result (λ solved. map (λ r. r.0) solved ≡ walk.now.front) }
{
    net_once::<Brand>(alloc, walk, Blank::new(1))
}

/// The same, with a counter of its own, which nobody reads.
fn net_once<L: Ledger>(alloc: Global, walk: &Walk, blank: Blank) -> Result<Solved, AllocError>
    requires open { IsOpen walk.now }
    requires name { blank.name ≡ L.name }
    requires parts { blank.parts ≡ L.parts }
    requires one { blank.parts ≡ 1 }
    ensures solved { IfOk result (IsSolved walk.now) }
    ensures names { IfOk result (λ solved. map (λ r. r.0) solved ≡ walk.now.front) }
{
    let (book, share) = blank.open::<L>();
    let mut steps = Steps::new(book, share);
    solve(alloc, walk, &mut steps)
}
