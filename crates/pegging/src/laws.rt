//! What holds of the pegs: the law is the contract of a function that does nothing.
ghost use Rattle.pegging.specs.Laws.{PegsAreFromCell};

/// The pegs from a part's own rows are those from all records.
pub fn pegs_are_local()
    ensures { PegsAreFromCell }
{}
