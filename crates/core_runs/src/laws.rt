//! What holds of runs of a core: each law is the contract of a function that does nothing.
ghost use Rattle.core_runs.specs.Laws.{EachHasReply, RunsGoOn, HistoriesAreKept};

/// Each step of a run has one reply.
pub fn runs_reply_to_each()
    ensures { EachHasReply }
{}

/// A run, and a run that begins where it ended, are one run.
pub fn runs_go_on()
    ensures { RunsGoOn }
{}

/// The accepted changes that stood before a run stand in their order after it, in front of those of the run.
pub fn runs_keep_histories()
    ensures { HistoriesAreKept }
{}
