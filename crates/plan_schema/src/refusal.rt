//! Why a change or a query is refused.
use crate::day::Day;
use crate::key::Key;
use crate::name::Name;

/// What is full.
#[derive(Clone, Copy, Debug)]
pub enum Room {
    /// The base file has too many bytes.
    Bytes,
    /// There are 256 scenarios.
    Scenarios,
    /// A scenario would have more than 10,000 parts.
    Parts,
    /// A scenario would have more than 200,000 records.
    Records,
    /// The journal has no room for the entry or its records.
    Journal,
}

/// Why a change or a query is refused, with what it is about.
#[derive(Clone, Copy)]
pub enum Refusal {
    /// The scenario isn't there.
    NoScenario(Name),
    /// The user may not use the scenario, or isn't its owner.
    Denied(Name),
    /// The new scenario's name is in use.
    Taken(Name),
    /// The change can't be made to the root scenario.
    Root(Name),
    /// The scenario is the parent of another.
    HasChildren(Name),
    /// The new scenario would have too many ancestors.
    Depth(Name),
    /// There is no room.
    Full(Room),
    /// No record stands under the key.
    NoRecord(Key),
    /// The parent's record under the key was changed since the child last saw it.
    Conflict(Key),
    /// The asked name is no part.
    NoPart(Name),
    /// A name that the asked parts depend on is no part.
    MissingPart(Name),
    /// The part's calendar has no week.
    MissingCalendar(Name),
    /// The name is its own ancestor.
    Cyclic(Name),
    /// A number of the part's plan exceeds the limit.
    TooLarge(Name),
    /// The day lies outside the horizon.
    NoDay(Day),
    /// The part's lot rule names no costs.
    NoCosts(Name),
    /// Nothing can be changed here.
    ReadOnly,
}
