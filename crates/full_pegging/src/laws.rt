//! What holds of full pegging: each law is the contract of a function that does nothing.
ghost use Rattle.full_pegging.specs.Laws.{AllAreShared, EachUnitEndsOnce, SharesSumToPlanned};
ghost use Rattle.full_pegging.specs.Weights.{DayIsInARow, PegIsInARow, PegsStandInARow};

/// The shares of a day sum to what is planned on it; over all days each planned unit ends once, and so the shares of all are what is
/// planned.
pub fn shares_are_whole()
    ensures day { SharesSumToPlanned }
    ensures once { EachUnitEndsOnce }
    ensures all { AllAreShared }
{}

/// The units of a day weigh what the units of the demand weigh at their places, which stand in a row; those that a parent asks for weigh
/// what the parent's units weigh that they go into; and the units of the demand stand peg by peg.
pub fn units_stand_in_rows()
    ensures day { DayIsInARow }
    ensures peg { PegIsInARow }
    ensures pegs { PegsStandInARow }
{}
