//! What holds of the definitions of ids: each law is the contract of a function that does nothing.
ghost use Rattle.version_rules.specs.Laws.{IdsHaveMeanings, MeaningsStay, NextIdsAreNew, SameIdsSameRows};

/// After a legal history each id of a scenario's base or contents means the rows that its cell has there, and exactly the cells
/// without rows have no id.
pub fn ids_have_meanings()
    ensures { IdsHaveMeanings }
{}

/// What an id means after some entries it means after more.
pub fn meanings_stay()
    ensures { MeaningsStay }
{}

/// After a legal history cells with one id have the same rows, in whichever scenarios they are.
pub fn same_ids_have_same_rows()
    ensures { SameIdsSameRows }
{}

/// The ids that the next entry gives are new.
pub fn next_ids_are_new()
    ensures { NextIdsAreNew }
{}
