//! What holds of the definitions of walks: each law is the contract of a function that does nothing.
ghost use Rattle.walk_rules.specs.Rights.{HitIsStep, LearningIsRight, StepIsPlan, GrowthKeepsCells, GrowthKeepsMemo};
ghost use Rattle.walk_rules.specs.Steps.{StepFromLists, StepIsLocal, PlanIsLocal};
ghost use Rattle.walk_rules.specs.Works.{SettlingIsWork, WorkGoesOn, WorkEnds, SettledIsNotReady, NoneReadyIsSettled};

/// The definition's step is one from the release lists of the parents.
pub fn step_from_lists()
    ensures { StepFromLists }
{}

/// A step looks at the cells of its part alone, and so a plan and a level at those of a part and of its ancestors.
pub fn planning_is_local()
    ensures step { StepIsLocal }
    ensures plan { PlanIsLocal }
{}

/// A pair of a right memo holds what the step of its part comes to; where what is known is right, that is the part's plan, and what is
/// known stays right with it.
pub fn hits_are_plans()
    ensures hit { HitIsStep }
    ensures step { StepIsPlan }
    ensures learn { LearningIsRight }
{}

/// What is right stays right as versions get meanings.
pub fn growth_keeps_right()
    ensures memo { GrowthKeepsMemo }
    ensures cells { GrowthKeepsCells }
{}

/// The work of a query is that of its rounds.
pub fn work_is_by_rounds()
    ensures settling { SettlingIsWork }
    ensures on { WorkGoesOn }
    ensures ends { WorkEnds }
{}

/// A walk has no frontier exactly where all its parts are settled.
pub fn walks_end_settled()
    ensures settled { SettledIsNotReady }
    ensures ended { NoneReadyIsSettled }
{}
