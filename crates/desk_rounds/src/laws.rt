//! What rounds come to.
ghost use Rattle.desk_rounds.specs.Rounds.{DesksArePlaces, RoundsAreLegal};

/// A law: a desk that was served to its end, with a pass that had entered nothing before, is a place of a round.
pub fn desks_are_places()
    ensures { DesksArePlaces }
{}

/// A law: rounds of desks that were served, over a story whose entries are theirs, are a legal run.
pub fn rounds_are_legal()
    ensures { RoundsAreLegal }
{}
