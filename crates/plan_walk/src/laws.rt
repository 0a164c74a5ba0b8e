//! What holds of walks and of the work of queries: each law is the contract of a function that does nothing.
ghost use Rattle.plan_walk.specs.Rounds.{EndsWithLevels, RoundsEnd, WorkIsEnough};

/// A walk comes to its end: each settling of a frontier leaves fewer parts of which nothing is known, and after as many as its parts have
/// levels, and one, none is left to be netted.
pub fn walks_end()
    ensures rounds { RoundsEnd }
    ensures levels { EndsWithLevels }
{}

/// The definition of a query's work looks at enough rounds.
pub fn work_is_enough()
    ensures { WorkIsEnough }
{}
