//! Questions.
ghost use Rattle.std.specs.Prelude.{◌≡◌, true, Ok, IfOk, option_map};
ghost use Rattle.query_language.specs.Growing.{query_of};
ghost use Rattle.query_language.specs.Reading.{check_of};
ghost use Rattle.query_language.specs.Trees.{query_tree};
ghost use Rattle.command_words.specs.Spelling.{is_sound_command};
ghost use Rattle.plan_answer.specs.Asks.{question, question_of, asks_for_plan};

use command_words::{Command, QueryText};
use plan_schema::{CellName, Day, Name};
use query_language::{Query, read_query};
use query_rows::needs_plan;
use std::alloc::{AllocError, Global};

/// A question about one scenario.
#[derive(Drop)]
pub enum Ask {
    /// The records of a cell.
    Show(CellName),
    /// A part's low-level code.
    Level(Name),
    /// A part's plan.
    Plan(Name),
    /// Where the gross requirements of a part on a day come from.
    Peg(Name, Day),
    /// For which independent demands the planned receipt of a part on a day is meant.
    Trace(Name, Day),
    /// What can be promised of a part on each day.
    Atp(Name),
    /// What the orders of a part with least-cost lots cost, and why no others cost less.
    Cost(Name),
    /// The parts that meet a condition, with some of their figures.
    Select(Query),
}

/// The question that a command is; none where it wants nothing of one scenario.
pub fn ask_of(alloc: Global, command: &Command<'_>) -> Result<Option<Ask>, AllocError>
    requires { is_sound_command command.now ≡ true }
    ensures { IfOk result (λ ask. option_map question ask ≡ question_of command.now) }
{
    Ok(match command {
        Command::Show { cell, .. } => Some(Ask::Show(*cell)),
        Command::Level { part, .. } => Some(Ask::Level(*part)),
        Command::Plan { part, .. } => Some(Ask::Plan(*part)),
        Command::Peg { part, day, .. } => Some(Ask::Peg(*part, *day)),
        Command::Trace { part, day, .. } => Some(Ask::Trace(*part, *day)),
        Command::Atp { part, .. } => Some(Ask::Atp(*part)),
        Command::Cost { part, .. } => Some(Ask::Cost(*part)),
        Command::Select { query, .. } => Some(Ask::Select(query_in(alloc, query)?)),
        _ => None,
    })
}

/// The query that a text is.
fn query_in(alloc: Global, text: &QueryText<'_>) -> Result<Query, AllocError>
    requires { check_of text.now ≡ Ok tt }
    ensures { IfOk result (λ query. query_of text.now ≡ Ok (query_tree query)) }
{
    read_query(alloc, text.as_bytes())
}

/// Whether the plan of a part stands in the answer.
pub fn uses_plan(ask: &Ask) -> bool
    ensures { result ≡ asks_for_plan (question ask.now) }
{
    match ask {
        Ask::Show(_) | Ask::Level(_) => false,
        Ask::Plan(_) | Ask::Peg(_, _) | Ask::Trace(_, _) | Ask::Atp(_) | Ask::Cost(_) => true,
        Ask::Select(query) => needs_plan(query),
    }
}
