//! The words of the command line, read by the grammar.
ghost use Rattle.std.specs.Prelude.{◌≡◌, None, Some, Err, map, string_bytes, IfOk};
ghost use Rattle.program_words.specs.Words as spec;
ghost use Rattle.program_words.specs.Words.{cut_from};

use crate::cut::cut_words;
use crate::fault::WordFault;
use crate::names::{do_differ, is_file, read_round_words};
use crate::number::{long_number, number_to};
use crate::program::{KeepWords, Program, RunWords, Still};
use crate::verb::{StillVerb, Verb};
use crate::word::Word;
use plan_schema::limits::PART_LIMIT;
use std::alloc::Global;

/// The most pairs that the memo may be told to have.
pub const MEMO_LIMIT: u32 = 65_536;

/// How many pairs the memo has, where it isn't told.
pub const MEMO_DEFAULT: u32 = 16_384;

/// What the words after the program's name ask for, by the grammar: `run` and `keep` with `--memo N`, `audit`, `replay`, `make` and
/// `trial`.
#[tactic(auto, unfolding(crate::specs::Words::program_of))]
pub fn read_words<'a>(alloc: Global, words: &'a [String]) -> Result<Program<'a>, WordFault>
    ensures ok { IfOk result (λ program.
        spec.program_of (map string_bytes words.entry.now) ≡ Some program) }
    ensures words { result ≡ Err WordFault.Words
        → spec.program_of (map string_bytes words.entry.now) ≡ None }
{
    match words {
        [] => Err(WordFault::Words),
        [command, rest @ ..] => match Verb::read(command.as_str()) {
            None => Err(WordFault::Words),
            Some(verb) => {
                let cut = cut_words(alloc, rest)?;
                let none: [&'a str; 0] = [];
                let memos = cut.get_raw("memo").unwrap_or(none.as_slice());
                let names = cut.get_raw("names").unwrap_or(none.as_slice());
                program_of(alloc, verb, memos, names)
            }
        },
    }
}

/// What a command asks for with the values of its option and its names.
fn program_of<'a>(
    alloc: Global,
    verb: Verb,
    memos: &[&'a str],
    names: &[&'a str],
) -> Result<Program<'a>, WordFault>
    ensures ok { IfOk result (λ program.
        spec.program_by verb (cut_from memos.now names.now) ≡ Some program) }
    ensures words { result ≡ Err WordFault.Words
        → spec.program_by verb (cut_from memos.now names.now) ≡ None }
{
    match verb {
        Verb::Run => match read_run(alloc, memos, names) {
            Ok(run) => Ok(Program::Run(run)),
            Err(fault) => Err(fault),
        },
        Verb::Keep => match read_run(alloc, memos, names) {
            Ok(run) => Ok(Program::Keep(KeepWords {
                memo: run.memo,
                base: run.base,
                store: run.journal,
                rounds: run.rounds,
            })),
            Err(fault) => Err(fault),
        },
        Verb::Still(which) => {
            if !memos.is_empty() {
                return Err(WordFault::Words);
            }
            match read_still(alloc, which, names) {
                Ok(still) => Ok(Program::Still(still)),
                Err(fault) => Err(fault),
            }
        }
    }
}

/// The words of a run: its memo, and its files, of which those that are written differ from all others.
#[tactic(auto, unfolding(crate::specs::Words::run_words))]
fn read_run<'a>(
    alloc: Global,
    memos: &[&'a str],
    names: &[&'a str],
) -> Result<RunWords<'a>, WordFault>
    ensures ok { IfOk result (λ run. spec.run_words (cut_from memos.now names.now) ≡ Some run) }
    ensures words { result ≡ Err WordFault.Words
        → spec.run_words (cut_from memos.now names.now) ≡ None }
{
    match read_memo(memos) {
        None => Err(WordFault::Words),
        Some(memo) => match read_round_words(alloc, names) {
            Err(fault) => Err(fault),
            Ok(words) => {
                if !do_differ(&words) {
                    return Err(WordFault::Words);
                }
                Ok(RunWords {
                    memo,
                    base: words.base,
                    journal: words.journal,
                    rounds: words.rounds,
                })
            }
        },
    }
}

/// How many pairs the memo may have: the one value of `--memo`, or the default.
fn read_memo(memos: &[&str]) -> Option<u32>
    ensures { result ≡ spec.memo_of (map (λ value. value.now) memos.now) }
{
    match memos {
        [] => Some(MEMO_DEFAULT),
        [value] => number_to(MEMO_LIMIT, value),
        _ => None,
    }
}

/// The words of a command that serves no sessions that write a journal.
fn read_still<'a>(
    alloc: Global,
    which: StillVerb,
    names: &[&'a str],
) -> Result<Still<'a>, WordFault>
    ensures ok { IfOk result (λ still.
        spec.still_words which (map (λ name. name.now) names.now) ≡ Some still) }
    ensures words { result ≡ Err WordFault.Words
        → spec.still_words which (map (λ name. name.now) names.now) ≡ None }
{
    match which {
        StillVerb::Audit => match read_round_words(alloc, names) {
            Ok(words) => Ok(Still::Audit {
                base: words.base,
                journal: words.journal,
                rounds: words.rounds,
            }),
            Err(fault) => Err(fault),
        },
        StillVerb::Replay => read_replay(names).ok_or(WordFault::Words),
        StillVerb::Make => read_make(names).ok_or(WordFault::Words),
        StillVerb::Trial => read_trial(names).ok_or(WordFault::Words),
    }
}

/// The words of a replay.
#[tactic(auto, unfolding(crate::specs::Words::replay_words))]
fn read_replay<'a>(names: &[&'a str]) -> Option<Still<'a>>
    ensures { result ≡ spec.replay_words (map (λ name. name.now) names.now) }
{
    match names {
        [base, journal, input, output] => {
            if !is_replay(base, journal, input, output) {
                return None;
            }
            Some(Still::Replay {
                base: Word::new(base),
                journal: Word::new(journal),
                input: Word::new(input),
                output: Word::new(output),
            })
        }
        _ => None,
    }
}

/// Whether the words can be names of files, and the output's differs from the others.
fn is_replay(base: &str, journal: &str, input: &str, output: &str) -> bool
    ensures { result ≡ spec.is_replay base.now journal.now input.now output.now }
{
    is_file(base)
        && is_file(journal)
        && is_file(input)
        && is_file(output)
        && (output != base && output != journal && output != input)
}

/// The words of a base and an input that are to be made.
#[tactic(auto, unfolding(crate::specs::Words::make_words))]
fn read_make<'a>(names: &[&'a str]) -> Option<Still<'a>>
    ensures { result ≡ spec.make_words (map (λ name. name.now) names.now) }
{
    match names {
        [parts, start, base, input] => {
            let parts = number_to(PART_LIMIT as u32, parts)?;
            let start = long_number(start)?;
            if !(is_file(base) && is_file(input) && base != input) {
                return None;
            }
            Some(Still::Make {
                parts,
                start,
                base: Word::new(base),
                input: Word::new(input),
            })
        }
        _ => None,
    }
}

/// The words of a trial.
#[tactic(auto, unfolding(crate::specs::Words::trial_words))]
fn read_trial<'a>(names: &[&'a str]) -> Option<Still<'a>>
    ensures { result ≡ spec.trial_words (map (λ name. name.now) names.now) }
{
    match names {
        [parts, start] => {
            let parts = number_to(PART_LIMIT as u32, parts)?;
            let start = long_number(start)?;
            Some(Still::Trial { parts, start })
        }
        _ => None,
    }
}
