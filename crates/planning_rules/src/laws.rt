//! What holds of the definitions of planning: each law is the contract of a function that does nothing.
ghost use Rattle.planning_rules.specs.Laws.{AboveIsCost, AmountIsFirst, BestCostsLeast, OneBest, PlannedCostsLeast};
ghost use Rattle.planning_rules.specs.Laws.{PlannedIsBest, ChainsAreShort, CyclicHasNoLevel, CyclicIsNoLevel};
ghost use Rattle.planning_rules.specs.Laws.{LeastIsPromise, LeastNameIsLeast, LevelIsRefused, NoLevelIsCyclic};
ghost use Rattle.planning_rules.specs.Laws.{NoLevelIsNoPlan, OneNetting, PegsAreGross, PlanIsCyclic, PlanIsStep};
ghost use Rattle.planning_rules.specs.Laws.{WalkIsPlan};

/// Exactly one list is that of the planned orders of an input.
pub fn one_netting()
    ensures { OneNetting }
{}

/// Each name's plan is one step from those of its parents, so a walk upward finds it.
pub fn plan_by_steps()
    ensures step { PlanIsStep }
    ensures walk { WalkIsPlan }
{}

/// An ancestor over a chain of any length is an ancestor.
pub fn short_chains()
    ensures { ChainsAreShort }
{}

/// A name has no level exactly where it stands below or on a cycle, and it isn't planned then.
pub fn cycles_alone()
    ensures cycle { NoLevelIsCyclic }
    ensures none { CyclicHasNoLevel }
    ensures plan { NoLevelIsNoPlan }
{}

/// The pegs of a day sum to its gross requirements.
pub fn pegs_are_gross()
    ensures { PegsAreGross }
{}

/// The least balance from a day on is the greatest promise of that day.
pub fn least_promise()
    ensures { LeastIsPromise }
{}

/// The least name of a list that passes a test is the one that a refusal names; a name in reach is its own ancestor exactly where
/// some asked name has no level, so a level and a plan are refused as cyclic exactly there.
pub fn least_cyclic_name()
    ensures least { LeastNameIsLeast }
    ensures cyclic { CyclicIsNoLevel }
    ensures level { LevelIsRefused }
    ensures plan { PlanIsCyclic }
{}

/// Exactly one list of orders is the best, and none that is enough costs less (Wagner and Whitin's dynamic lot sizing). The amount of a
/// least-cost lot is its first order; and netting, which looks for that anew on each day that is short, plans that very list.
pub fn one_best()
    ensures one { OneBest }
    ensures least { BestCostsLeast }
    ensures amount { AmountIsFirst }
    ensures planned { PlannedIsBest }
    ensures costs { PlannedCostsLeast }
    ensures above { AboveIsCost }
{}
