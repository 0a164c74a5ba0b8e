//! Pairs of files, in rounds.
ghost use Rattle.std.specs.Prelude.{◌≡◌, ◌<◌, ◌≤◌, ◌+◌, ◌∷◌, ◌++◌, [], false, None, Some, Err, map, length};
ghost use Rattle.std.specs.Prelude.{option_map, IfOk, OnOk, IfNone, IfSome};
ghost use Rattle.program_words.specs.Rounds as spec;
ghost use Rattle.program_words.specs.Rounds.{rounds_in};

use crate::fault::WordFault;
use crate::word::Word;
use std::alloc::Global;
use std::marker::Model;

/// The most pairs of a run, and so the most sessions.
pub const PAIR_LIMIT: usize = 16;

/// The names of a session's files, and whether its round ends with it.
#[derive(Drop)]
pub struct PlacedPair<'a> {
    pub input: Word<'a>,
    pub output: Word<'a>,
    pub ends_round: bool,
}

impl<'a> PlacedPair<'a> {
    fn new(input: &'a str, output: &'a str, ends_round: bool) -> PlacedPair<'a>
        ensures { result ≡ record {
          input = input.entry.now;
          output = output.entry.now;
          ends_round = ends_round;
        } }
    {
        PlacedPair {
            input: Word::new(input),
            output: Word::new(output),
            ends_round,
        }
    }
}

/// Pairs in rounds: the sessions of a round are served side by side, and the rounds one after the other.
#[derive(Drop)]
pub struct Pairs<'a> {
    pairs: Vec<PlacedPair<'a>>,
}

impl<'a> Model for Pairs<'a> {
    ghost use Rattle.std.specs.Prelude.{List};
    ghost use Rattle.program_words.specs.Rounds.{Pair, rounds_in};

    ghost Value = { List (List Pair) };

    ghost view = { λ rounds. rounds_in rounds.pairs.items };
}

impl<'a> Pairs<'a> {
    /// The pairs, round after round.
    pub fn pairs(&self) -> &[PlacedPair<'a>]
        ensures { rounds_in result.now ≡ self.now }
    {
        self.pairs.as_slice()
    }

    /// Whether each round has one pair.
    pub fn have_one_pair_each(&self) -> bool
        ensures { result ≡ spec.have_one_pair_each self.now }
    {
        end_rounds(self.pairs.as_slice())
    }
}

/// Whether a round ends with each pair but the last, with which one ends anyway.
#[tactic(auto, unfolding(crate::specs::Rounds::rounds_in), using(crate::proofs::OneEach::none_more))]
fn end_rounds(pairs: &[PlacedPair<'_>]) -> bool
    ensures { result ≡ spec.have_one_pair_each (rounds_in pairs.now) }
{
    match pairs {
        [] => true,
        [_] => true,
        [pair, rest @ ..] => pair.ends_round && end_rounds(rest),
    }
}

/// The pairs `IN OUT` that words name, in rounds.
#[tactic(auto, unfolding(crate::specs::Rounds::rounds_of), using(crate::proofs::Behind::rounds_read, crate::proofs::Behind::rounds_unread))]
pub(crate) fn read_rounds<'a>(alloc: Global, names: &[&'a str]) -> Result<Pairs<'a>, WordFault>
    ensures ok { IfOk result (λ rounds.
        spec.rounds_of (map (λ name. name.now) names.now) ≡ Some rounds) }
    ensures words { result ≡ Err WordFault.Words
        → spec.rounds_of (map (λ name. name.now) names.now) ≡ None }
{
    let mut pairs = Vec::new(alloc);
    read_pairs(names, &mut pairs)?;
    Ok(Pairs { pairs })
}

/// Puts the pairs that words name behind those that there are, where there are no more than a run may have.
#[tactic(auto, using(crate::proofs::Behind::put_behind, crate::proofs::Behind::few_behind))]
fn read_pairs<'a>(names: &[&'a str], pairs: &mut Vec<PlacedPair<'a>>) -> Result<(), WordFault>
    requires { length pairs.old.items ≤ PAIR_LIMIT }
    ensures ok { OnOk result (option_map (λ more. pairs.old.items ++ more)
        (spec.placed_pairs (map (λ name. name.now) names.now)) ≡ Some pairs.new.items) }
    ensures most { OnOk result (length pairs.new.items ≤ PAIR_LIMIT) }
    ensures words { result ≡ Err WordFault.Words → spec.is_few (length pairs.old.items)
        (spec.placed_pairs (map (λ name. name.now) names.now)) ≡ false }
{
    match split_pair(names) {
        None => Err(WordFault::Words),
        Some((pair, rest)) => {
            put_pair(pair, pairs)?;
            match rest {
                None => Ok(()),
                Some(rest) => read_pairs(rest, pairs),
            }
        }
    }
}

/// The pair at the front of words, and what stands behind it, where something does: `/` ends the pair's round.
#[tactic(auto, unfolding(crate::specs::Rounds::placed_pairs))]
fn split_pair<'n, 'a>(names: &'n [&'a str]) -> Option<(PlacedPair<'a>, Option<&'n [&'a str]>)>
    ensures none { IfNone result
        (spec.placed_pairs (map (λ name. name.now) names.entry.now) ≡ None) }
    ensures some { IfSome result (λ split.
        spec.placed_pairs (map (λ name. name.now) names.entry.now)
        ≡ spec.with_pair split.0
        (spec.pairs_behind (option_map (λ rest. map (λ name. name.now) rest.now) split.1))) }
    ensures shorter { IfSome result (λ split.
        IfSome split.1 (λ rest. length rest.now < length names.entry.now)) }
{
    match names {
        [input, output] => Some((PlacedPair::new(input, output, true), None)),
        [input, output, next, more @ ..] => {
            if *next == "/" {
                Some((PlacedPair::new(input, output, true), Some(more)))
            } else {
                Some((PlacedPair::new(input, output, false), Some(&names[2..])))
            }
        }
        _ => None,
    }
}

/// Puts a pair behind those that there are, where a run may have one more.
fn put_pair<'a>(pair: PlacedPair<'a>, pairs: &mut Vec<PlacedPair<'a>>) -> Result<(), WordFault>
    requires { length pairs.old.items ≤ PAIR_LIMIT }
    ensures ok { OnOk result (pairs.new.items ≡ pairs.old.items ++ pair.entry ∷ []) }
    ensures len { OnOk result (length pairs.new.items ≡ length pairs.old.items + 1) }
    ensures most { OnOk result (length pairs.new.items ≤ PAIR_LIMIT) }
    ensures words { result ≡ Err WordFault.Words → length pairs.old.items ≡ PAIR_LIMIT }
{
    if pairs.len() >= PAIR_LIMIT {
        return Err(WordFault::Words);
    }
    match pairs.push(pair) {
        Ok(()) => Ok(()),
        Err(_) => Err(WordFault::Memory),
    }
}
