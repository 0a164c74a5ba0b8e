//! Runs of a core: a list of steps is taken one after another, and each is replied to. The questions of a run are numbered from 0, and a
//! walk goes by the number of the question that began it.
#![tactic(auto)]

mod asking;
mod in_work;
mod laws;
mod run;
mod solving;
mod step;
mod stepping;

pub use laws::{runs_go_on, runs_keep_histories, runs_reply_to_each};
pub use run::core_run;
pub use step::{CoreReplies, CoreReply, CoreStep, CoreSteps};
