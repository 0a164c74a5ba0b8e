//! What commands want to know.
ghost use Rattle.std.specs.Prelude.{◌≡◌};
ghost use Rattle.plan_answer.specs.Asks.{wanted_by};

use command_words::Command;
use plan_jobs::Wanted;
use plan_schema::Name;

/// The scenario that a question is about, and what it wants of it: `SHOW` its cell, `SELECT` the plan of all parts, any other the plan of
/// its part. A command that is no question of one scenario wants nothing.
pub fn wanted(command: &Command<'_>) -> Option<(Name, Wanted)>
    ensures { result ≡ wanted_by command.now }
{
    match command {
        Command::Show { scenario, cell } => Some((*scenario, Wanted::Cell(*cell))),
        Command::Level { scenario, part }
        | Command::Plan { scenario, part }
        | Command::Peg { scenario, part, .. }
        | Command::Trace { scenario, part, .. }
        | Command::Atp { scenario, part }
        | Command::Cost { scenario, part } => Some((*scenario, Wanted::Part(*part))),
        Command::Select { scenario, .. } => Some((*scenario, Wanted::All)),
        _ => None,
    }
}
