//! What holds of the cells that a question takes along: each law is the contract of a function that does nothing.
ghost use Rattle.plan_jobs.specs.Laws.{CollectedMeans, CollectedPlans, CollectedRows};

/// The cells that are collected from a scenario tell the same as all its contents: each that is wanted has its rows, and the asked names
/// have the same levels, plans and refusals. They are what their ids mean in the store.
pub fn collected_is_enough()
    ensures rows { CollectedRows }
    ensures plans { CollectedPlans }
    ensures means { CollectedMeans }
{}
