//! What the words of the command line ask for.

use crate::rounds::Pairs;
use crate::word::Word;

/// What a command line asks for.
#[derive(Drop)]
pub enum Program<'a> {
    /// Sessions over a base, whose journal is written at the end.
    Run(RunWords<'a>),
    /// Sessions over a base and a store, which holds the journal.
    Keep(KeepWords<'a>),
    /// What serves no sessions that write a journal.
    Still(Still<'a>),
}

/// The words of `run`.
#[derive(Drop)]
pub struct RunWords<'a> {
    /// How many pairs the memo may have.
    pub memo: u32,
    pub base: Word<'a>,
    pub journal: Word<'a>,
    pub rounds: Pairs<'a>,
}

/// The words of `keep`.
#[derive(Drop)]
pub struct KeepWords<'a> {
    /// How many pairs the memo may have.
    pub memo: u32,
    pub base: Word<'a>,
    pub store: Word<'a>,
    pub rounds: Pairs<'a>,
}

/// The words of the commands that serve no sessions that write a journal.
#[derive(Drop)]
pub enum Still<'a> {
    /// Whether a journal and outputs are those of a legal run.
    Audit {
        base: Word<'a>,
        journal: Word<'a>,
        rounds: Pairs<'a>,
    },
    /// A session over what a journal comes to.
    Replay {
        base: Word<'a>,
        journal: Word<'a>,
        input: Word<'a>,
        output: Word<'a>,
    },
    /// A base and an input, made by a rule from a count of parts and a start.
    Make {
        parts: u32,
        start: u64,
        base: Word<'a>,
        input: Word<'a>,
    },
    /// Such a base and input, served without files.
    Trial {
        parts: u32,
        start: u64,
    },
}
