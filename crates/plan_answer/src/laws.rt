//! What holds of questions: each law is the contract of a function that does nothing.
ghost use Rattle.plan_answer.specs.Laws.{AskedIsAnswered, AsksWhereItWants, BarredIsAnswered, CollectedIsEnough};
ghost use Rattle.plan_answer.specs.Laws.{QuestionIsAnswered, RefusedIsAnswered};

/// A command is a question where it wants something of a scenario; and what a question is answered over the contents of its scenario is
/// what the command is answered in a session.
pub fn questions_are_answered()
    ensures asks { AsksWhereItWants }
    ensures answered { QuestionIsAnswered }
{}

/// The cells that were collected for a question are enough for its answer: it is that from all contents of the scenario.
pub fn collected_cells_are_enough()
    ensures { CollectedIsEnough }
{}

/// What a session answers to a question after a legal history: the answer from the cells collected for it where the user may use its
/// scenario, and else why not; and where its plan is refused before a walk, that refusal.
pub fn asked_is_answered()
    ensures asked { AskedIsAnswered }
    ensures barred { BarredIsAnswered }
    ensures refused { RefusedIsAnswered }
{}
