//! What a command line asks for, of what is served.
ghost use Rattle.std.specs.Prelude.{◌≡◌};
ghost use Rattle.response_program.specs.Words.{served_by, still_asked};

use crate::files::Auditing;
use crate::making::Making;
use crate::replay::Replaying;
use program_words::{Program, RunWords, Still};

/// What is served.
#[derive(Drop)]
pub enum Asked<'a> {
    /// Sessions over a base.
    Run(RunWords<'a>),
    /// A base and an input.
    Make(Making<'a>),
    /// Whether a run is legal.
    Audit(Auditing<'a>),
    /// A session behind a journal.
    Replay(Replaying<'a>),
    /// A base and an input of so many parts from a start, served without files.
    Trial(u32, u64),
}

impl<'a> Asked<'a> {
    /// What a program is that is served: nothing else is so far.
    pub fn of(program: Program<'a>) -> Option<Asked<'a>>
        ensures { result ≡ served_by program.entry }
    {
        match program {
            Program::Run(run) => Some(Asked::Run(run)),
            Program::Still(still) => Some(Asked::of_still(still)),
            Program::Keep(_keep) => None,
        }
    }

    /// The same, where it serves no sessions that write a journal: all of it is served.
    fn of_still(still: Still<'a>) -> Asked<'a>
        ensures { result ≡ still_asked still.entry }
    {
        match still {
            Still::Audit {
                base,
                journal,
                rounds,
            } => Asked::Audit(Auditing {
                base,
                journal,
                rounds,
            }),
            Still::Replay {
                base,
                journal,
                input,
                output,
            } => Asked::Replay(Replaying {
                base,
                journal,
                input,
                output,
            }),
            Still::Make {
                parts,
                start,
                base,
                input,
            } => Asked::Make(Making {
                parts,
                start,
                base,
                input,
            }),
            Still::Trial { parts, start } => Asked::Trial(parts, start),
        }
    }
}
