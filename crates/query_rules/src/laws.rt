//! What holds of the meaning of queries: each law is the contract of a function that does nothing.
ghost use Rattle.query_rules.specs.Laws.{AllAreSelected, EachHasItsValues, EitherOrNot};

/// Without a condition all parts are selected, in the order of their names. Each selected part has a value for each column. A condition
/// and its negation part the parts between them.
pub fn selected_parts()
    ensures all { AllAreSelected }
    ensures values { EachHasItsValues }
    ensures rest { EitherOrNot }
{}
