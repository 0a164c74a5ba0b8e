//! What holds of a part's step: each law is the contract of a function that does nothing.
ghost use Rattle.part_steps.specs.Laws.{StepFromCell, WorksFromCell, NoCalendarWorks};

/// The step over a part's own rows and its calendar is that of the definitions over all records; and so are the working days of a
/// calendar from its own rows.
pub fn steps_are_local()
    ensures step { StepFromCell }
    ensures works { WorksFromCell }
    ensures every { NoCalendarWorks }
{}
