//! The names of files, and which of them differ.
ghost use Rattle.std.specs.Prelude.{◌≡◌, None, Some, Err, map, not, ◌&&◌, IfOk};
ghost use Rattle.std.specs.List.{list_all};
ghost use Rattle.program_words.specs.Names as spec;
ghost use Rattle.program_words.specs.Rounds.{pair_of, all_pairs};
ghost use Rattle.program_words.specs.Words.{round_words};

use crate::fault::WordFault;
use crate::rounds::{Pairs, PlacedPair, read_rounds};
use crate::word::Word;
use std::alloc::Global;

/// The files of sessions: the base, the journal, and pairs in rounds.
#[derive(Drop)]
pub(crate) struct RoundWords<'a> {
    pub(crate) base: Word<'a>,
    pub(crate) journal: Word<'a>,
    pub(crate) rounds: Pairs<'a>,
}

/// The files that `BASE JOURNAL IN OUT .. / IN OUT ..` names, where the words can be names of files.
#[tactic(auto, unfolding(crate::specs::Words::round_words))]
pub(crate) fn read_round_words<'a>(
    alloc: Global,
    names: &[&'a str],
) -> Result<RoundWords<'a>, WordFault>
    ensures ok { IfOk result
        (λ words. round_words (map (λ name. name.now) names.now) ≡ Some words) }
    ensures words { result ≡ Err WordFault.Words
        → round_words (map (λ name. name.now) names.now) ≡ None }
{
    match names {
        [base, journal, rest @ ..] => {
            let words = RoundWords {
                base: Word::new(base),
                journal: Word::new(journal),
                rounds: read_rounds(alloc, rest)?,
            };
            if are_files(&words) {
                Ok(words)
            } else {
                Err(WordFault::Words)
            }
        }
        _ => Err(WordFault::Words),
    }
}

/// Whether all words that stand for files can be names of files.
#[tactic(auto, unfolding(crate::specs::Names::are_files), using(crate::proofs::AllPairs::pairs_of_rounds))]
fn are_files(words: &RoundWords<'_>) -> bool
    ensures { result ≡ spec.are_files words.now }
{
    is_file(words.base.as_str())
        && is_file(words.journal.as_str())
        && have_files(words.rounds.pairs())
}

/// Whether a word can be the name of a file.
pub(crate) fn is_file(word: &str) -> bool
    ensures { result ≡ spec.is_file word.now }
{
    word != "" && word != "-" && word != "/"
}

/// Whether all inputs and outputs can be names of files.
fn have_files(pairs: &[PlacedPair<'_>]) -> bool
    ensures { result ≡ list_all spec.has_files (map pair_of pairs.now) }
{
    match pairs {
        [] => true,
        [pair, rest @ ..] => {
            is_file(pair.input.as_str()) && is_file(pair.output.as_str()) && have_files(rest)
        }
    }
}

/// Whether the journal and the outputs differ from each other and from all else, and the base from the inputs.
#[tactic(auto, unfolding(crate::specs::Names::do_differ), using(crate::proofs::AllPairs::pairs_of_rounds))]
pub(crate) fn do_differ(words: &RoundWords<'_>) -> bool
    ensures { result
        ≡ spec.do_differ words.now.base words.now.journal (all_pairs words.now.rounds) }
{
    let pairs = words.rounds.pairs();
    words.base.as_str() != words.journal.as_str()
        && is_apart(words.base.as_str(), pairs)
        && is_apart(words.journal.as_str(), pairs)
        && (is_no_output_input(pairs, pairs) && do_outputs_differ(pairs))
}

/// Whether a name is that of no input and no output.
fn is_apart(word: &str, pairs: &[PlacedPair<'_>]) -> bool
    ensures { result ≡ spec.is_apart word.now (map pair_of pairs.now) }
{
    !is_input(word, pairs) && !is_output(word, pairs)
}

/// Whether a name is that of an input.
fn is_input(word: &str, pairs: &[PlacedPair<'_>]) -> bool
    ensures { result ≡ spec.is_input word.now (map pair_of pairs.now) }
{
    match pairs {
        [] => false,
        [pair, rest @ ..] => word == pair.input.as_str() || is_input(word, rest),
    }
}

/// Whether a name is that of an output.
fn is_output(word: &str, pairs: &[PlacedPair<'_>]) -> bool
    ensures { result ≡ spec.is_output word.now (map pair_of pairs.now) }
{
    match pairs {
        [] => false,
        [pair, rest @ ..] => word == pair.output.as_str() || is_output(word, rest),
    }
}

/// Whether no output of some pairs is an input of all.
fn is_no_output_input<'a>(some: &[PlacedPair<'a>], all: &[PlacedPair<'a>]) -> bool
    ensures { result ≡ list_all (λ pair. not (spec.is_input pair.output (map pair_of all.now)))
        (map pair_of some.now) }
{
    match some {
        [] => true,
        [pair, rest @ ..] => {
            !is_input(pair.output.as_str(), all) && is_no_output_input(rest, all)
        }
    }
}

/// Whether no two outputs have one name.
fn do_outputs_differ(pairs: &[PlacedPair<'_>]) -> bool
    ensures { result ≡ spec.do_outputs_differ (map pair_of pairs.now) }
{
    match pairs {
        [] => true,
        [pair, rest @ ..] => !is_output(pair.output.as_str(), rest) && do_outputs_differ(rest),
    }
}
