//! What holds of the rows: each law is the contract of a function that does nothing.
ghost use Rattle.query_rows.specs.Laws.{ValueIsFromCell, MeetsFromCell};

/// The values from a part's own cell are those from all records, and so is what they meet.
pub fn rows_are_local()
    ensures values { ValueIsFromCell }
    ensures meets { MeetsFromCell }
{}
