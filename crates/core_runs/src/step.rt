//! Steps of a core, and the replies to them.
use command_words::Lines;
use plan_jobs::Wanted;
use plan_schema::{Entry, Name, Refusal, Series};
use plan_walk::Round;

/// A step of a core.
#[derive(Drop)]
pub enum CoreStep {
    /// Enters a change.
    Change(Entry),
    /// Asks a user's question about a scenario, and begins a walk where it is about plans.
    Ask {
        user: Name,
        scenario: Name,
        wanted: Wanted,
    },
    /// Nets the frontier of the walk of the question with this number, from 0. The core isn't looked at.
    Solve(u32),
    /// A round of that walk, which takes in what was last netted for it.
    Round(u32),
    /// Lists the scenarios that a user may use.
    Tree(Name),
    /// Counts the accepted changes.
    Point,
    /// Gives back what no scenario uses.
    Reclaim,
}

/// What a step is replied.
#[derive(Drop)]
pub enum CoreReply {
    /// How many accepted changes there are.
    Point(u64),
    /// The change or the question is refused, with the number of accepted changes.
    Refused(u64, Refusal),
    /// The question has its records, at this number of accepted changes.
    Job(u64),
    /// A round was made, and the walk is at its end or not.
    Round(Round),
    /// The lines of the scenarios, with the number of accepted changes.
    Lines(u64, Lines),
    /// The frontier is netted.
    Solved,
    /// There was no memory for the step.
    Memory,
    /// No walk of this number is in work.
    Idle,
}

/// Steps in their order.
pub type CoreSteps = Series<CoreStep>;

/// Replies in the order of their steps.
pub type CoreReplies = Series<CoreReply>;
