//! The files of a run, by name.
ghost use Rattle.std.specs.Prelude.{◌≡◌};
ghost use Rattle.program_words.specs.Rounds as words;
ghost use Rattle.response_program.specs.Names.{pair_of, files_of, names_of, audited_names};

use program_words::{Pairs, PlacedPair, RunWords, Word};

/// The names of a session's files.
#[derive(Clone, Copy)]
pub struct Pair<'a> {
    pub input: &'a str,
    pub output: &'a str,
}

impl<'a> Pair<'a> {
    /// The names that a command line gives.
    pub fn of(placed: &PlacedPair<'a>) -> Pair<'a>
        ensures { pair_of result ≡ words.pair_of placed.now }
    {
        Pair {
            input: placed.input.as_str(),
            output: placed.output.as_str(),
        }
    }
}

/// The names of a run's files: the base, the journal, and pairs in rounds.
#[derive(Clone, Copy)]
pub struct RunFiles<'p, 'a> {
    pub base: &'a str,
    pub journal: &'a str,
    pub rounds: &'p Pairs<'a>,
}

impl<'p, 'a> RunFiles<'p, 'a> {
    /// The names that a command line gives.
    pub fn of(run: &'p RunWords<'a>) -> RunFiles<'p, 'a>
        ensures { files_of result ≡ names_of run.entry.now }
    {
        RunFiles {
            base: run.base.as_str(),
            journal: run.journal.as_str(),
            rounds: &run.rounds,
        }
    }

    /// The names that a command line gives of a run that is audited.
    pub fn to_audit(words: &'p Auditing<'a>) -> RunFiles<'p, 'a>
        ensures { files_of result ≡ audited_names words.entry.now }
    {
        RunFiles {
            base: words.base.as_str(),
            journal: words.journal.as_str(),
            rounds: &words.rounds,
        }
    }
}

/// The words of `audit`: the names of the files of the run that is audited.
#[derive(Drop)]
pub struct Auditing<'a> {
    pub base: Word<'a>,
    pub journal: Word<'a>,
    pub rounds: Pairs<'a>,
}
