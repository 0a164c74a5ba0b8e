//! Passes of many desks.
ghost use Rattle.std.specs.Prelude.{◌≡◌, ◌+◌, ◌≤◌, ◌<◌, ◌^◌, [], length, reverse, IfOk};
ghost use Rattle.std.specs.List.{AllByRecursion};
ghost use Rattle.turn_table.specs.Passes.{IsFree, HasOwn};
ghost use Rattle.desk_rounds.specs.PassLists.{after_splits, split_passes, AreJoined, AreMet, SawMore, HasSeen};

use plan_book::PlanBook;
use plan_office::{Office, Pass};
use std::alloc::{AllocError, Global};

/// Splits off so many passes, in order.
pub fn split_all<B: PlanBook>(
    alloc: Global,
    office: &Office<B>,
    pass: &mut Pass<B>,
    count: usize,
) -> Result<Vec<Pass<B>>, AllocError>
    requires free { IsFree office.now pass.old }
    requires first { pass.old.number ≡ 0 }
    requires few { pass.old.splits + count < 2 ^ 62 }
    ensures passes { IfOk result (λ passes. passes.items ≡ split_passes pass.old count) }
    ensures own { IfOk result (λ passes. AllByRecursion HasOwn passes.items) }
    ensures pass { IfOk result (λ passes. pass.new ≡ after_splits pass.old count) }
{
    let mut passes = Vec::new(alloc);
    'splits: for _ in 0..count {
        passes.push(office.split(pass))?;
    }
    Ok(passes)
}

/// Joins passes into the main one, the last first.
pub fn join_all<B: PlanBook>(office: &Office<B>, pass: &mut Pass<B>, others: Vec<Pass<B>>)
    requires free { IsFree office.now pass.old }
    requires others { AllByRecursion (IsFree office.now) others.items }
    ensures { AreJoined office.now pass.old pass.new (reverse others.items) }
{
    let mut left = others;
    'joins: while let Some(other) = left.pop() {
        office.join(pass, other);
    }
}

/// Lets the main pass and some others see what each has seen, one behind the other.
pub fn meet_all<B: PlanBook>(office: &Office<B>, pass: &mut Pass<B>, others: &mut [Pass<B>])
    requires free { IsFree office.now pass.old }
    requires others { AllByRecursion (IsFree office.now) others.old }
    ensures main { SawMore office.now pass.old pass.new }
    ensures others { AreMet pass.old others.old others.new (length others.old) }
    ensures seen { HasSeen pass.new others.old (length others.old) }
{
    'meets: for other in others.iter_mut() {
        office.meet(pass, other);
    }
}
