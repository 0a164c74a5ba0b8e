//! The words of the command line, read.
#![tactic(auto)]

mod cut;
mod fault;
mod names;
mod number;
mod program;
mod read;
mod rounds;
mod verb;
mod word;

pub use fault::WordFault;
pub use program::{KeepWords, Program, RunWords, Still};
pub use read::{MEMO_DEFAULT, MEMO_LIMIT, read_words};
pub use rounds::{PAIR_LIMIT, Pairs, PlacedPair};
pub use word::Word;
