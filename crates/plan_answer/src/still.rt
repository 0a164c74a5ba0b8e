//! Answers that no plan stands in.
ghost use Rattle.std.specs.Prelude.{◌≡◌, false, Some, [], ◌∷◌, IfOk};
ghost use Rattle.planning_rules.specs.Bills.{level};
ghost use Rattle.planning_rules.specs.Refused.{level_refusal};
ghost use Rattle.session_rules.specs.Answers.{level_line as line_of_level, query_reply};
ghost use Rattle.walk_rules.specs.Cells.{records};
ghost use Rattle.plan_jobs.specs.Jobs.{IsJob};
ghost use Rattle.plan_answer.specs.Asks.{question, asks_for_plan};
ghost use Rattle.plan_answer.specs.Replies.{reply_of};

use crate::ask::Ask;
use crate::records::shown_rows;
use command_words::{Lines, Reply};
use plan_jobs::Job;
use plan_schema::Name;
use query_rows::rows_still;
use row_text::{RowText, push_number};
use std::alloc::{AllocError, Global};
use walk_names::{Trouble, level_of};

/// The line of a part with its level.
fn level_line(part: &Name, code: usize) -> RowText
    ensures { result.items ≡ line_of_level part.now (Some code) }
{
    let mut text = RowText::new();
    let _ = text.try_extend_from_slice(part.as_bytes());
    push_number(&mut text, code as u64);
    text
}

/// The reply to a question for a level.
fn level_reply(alloc: Global, job: &Job, part: &Name) -> Result<Reply, AllocError>
    requires { IsJob job.now.wanted job.now.cells }
    ensures { let c = records job.now.cells in
        IfOk result (λ reply. reply ≡ query_reply job.now.point
        (level_refusal c part.now) (line_of_level part.now (level c part.now) ∷ [])) }
{
    match level_of(alloc, job, part) {
        Ok(code) => {
            let mut lines = Lines::new(alloc);
            lines.push(level_line(part, code).as_slice())?;
            Ok(Reply::Rows(job.point, lines))
        }
        Err(Trouble::Refused(point, refusal)) => Ok(Reply::No(point, refusal)),
        Err(Trouble::Memory) => Err(AllocError),
    }
}

/// The reply to a question that doesn't ask for the plan, at its job's point, from the job's records.
pub fn from_records(alloc: Global, job: &Job, ask: &Ask) -> Result<Reply, AllocError>
    requires job { IsJob job.now.wanted job.now.cells }
    requires still { asks_for_plan (question ask.now) ≡ false }
    ensures { IfOk result (λ reply. reply
        ≡ reply_of job.now.point (records job.now.cells) (question ask.now)) }
{
    match ask {
        Ask::Show(cell) => Ok(Reply::Rows(job.point, shown_rows(alloc, job, cell)?)),
        Ask::Level(part) => level_reply(alloc, job, part),
        Ask::Select(query) => Ok(Reply::Rows(job.point, rows_still(alloc, query, job)?)),
        Ask::Plan(_) | Ask::Peg(_, _) | Ask::Trace(_, _) | Ask::Atp(_) | Ask::Cost(_) => {
            unreachable!()
        }
    }
}
