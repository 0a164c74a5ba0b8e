//! Lines as commands, and as the rows of a LOAD.
ghost use Rattle.std.specs.Prelude.{◌≡◌, ◌≤◌, true, [], length, IfOk};
ghost use Rattle.plan_schema.specs.Sound.{is_sound_row};
ghost use Rattle.row_text.specs.Row.{text_at};
ghost use Rattle.row_text.specs.Texts.{texts};
ghost use Rattle.command_words.specs.Commands as spec;
ghost use Rattle.command_words.specs.Spelling.{is_sound_command};
ghost use Rattle.command_words.specs.Verbs.{verb_of};
ghost use Rattle.command_words.specs.Words.{first_words};
ghost use Rattle.arrayvec.specs.ArrayVec.{array_vec_len};

use crate::command::Command;
use crate::fields;
use crate::reply::Bad;
use crate::verb::Verb;
use arrayvec::ArrayVec;
use plan_schema::{FieldFault, Key, Record};
use row_text::{read_record, text_at};

/// How many words of a line are looked at.
const MOST_WORDS: usize = 10;

/// The first words of a line.
type Words<'a> = ArrayVec<&'a [u8], MOST_WORDS>;

/// The command that a line is, or the first fault of it. Takes no memory.
pub fn read_line<'a>(line: &'a [u8]) -> Result<Command<'a>, Bad>
    requires { length line.now ≤ 1024 }
    ensures value { result ≡ spec.command_of line.now }
    ensures sound { IfOk result (λ command. is_sound_command command ≡ true) }
{
    let mut words = Words::new();
    cut_words(line, &mut words);
    command_of_words(line, words.as_slice())
}

/// The row that a line inside a LOAD is, or its first faulty field, where field 0 is the table word. Takes no memory.
pub fn read_row(line: &[u8]) -> Result<(Key, Record), FieldFault>
    requires { length line.now ≤ 1024 }
    ensures value { result ≡ spec.row_of line.now }
    ensures sound { IfOk result (λ row. is_sound_row row.0 row.1 ≡ true) }
{
    let mut words = Words::new();
    cut_words(line, &mut words);
    read_record(words.as_slice())
}

/// Puts the first words of a line into a buffer, in order.
fn cut_words<'a>(line: &'a [u8], words: &mut Words<'a>)
    requires { words.old.items ≡ [] }
    ensures { texts words.new.items ≡ first_words line.now }
{
    for word in line.split(|byte| *byte == b' ' || *byte == b'\t') {
        if word.is_empty() {
            continue;
        }
        if words.try_push(word).is_err() {
            return;
        }
    }
}

fn command_of_words<'a>(line: &'a [u8], words: &[&'a [u8]]) -> Result<Command<'a>, Bad>
    requires { length line.now ≤ 1024 }
    ensures { result ≡ spec.with_word (text_at (texts words.now) 0) line.now (texts words.now) }
{
    match text_at(words, 0) {
        Ok(word) => command_of_word(word, line, words),
        Err(_) => Err(Bad::Word),
    }
}

fn command_of_word<'a>(word: &[u8], line: &'a [u8], words: &[&'a [u8]]) -> Result<Command<'a>, Bad>
    requires { length line.now ≤ 1024 }
    ensures { result ≡ spec.with_verb (verb_of word.now) line.now (texts words.now) }
{
    match Verb::read(word) {
        Some(verb) => command_of_verb(verb, line, words),
        None => Err(Bad::Word),
    }
}

#[tactic(auto, unfolding(crate::specs::Commands::command_of_verb))]
fn command_of_verb<'a>(verb: Verb, line: &'a [u8], words: &[&'a [u8]]) -> Result<Command<'a>, Bad>
    requires { length line.now ≤ 1024 }
    ensures { result ≡ spec.in_fields (spec.command_of_verb verb line.now (texts words.now)) }
{
    match verb {
        Verb::Hello => fields::hello(words),
        Verb::Point => fields::point(words),
        Verb::Put => fields::put(words),
        Verb::Del => fields::del(words),
        Verb::Load => fields::load(words),
        Verb::Branch => fields::branch(words),
        Verb::Share => fields::share(words),
        Verb::Update => fields::update(words),
        Verb::Commit => fields::commit(words),
        Verb::Drop => fields::drop_scenario(words),
        Verb::Tree => fields::tree(words),
        Verb::Show => fields::show(words),
        Verb::Level => fields::level(words),
        Verb::Plan => fields::plan(words),
        Verb::Peg => fields::peg(words),
        Verb::Trace => fields::trace(words),
        Verb::Atp => fields::atp(words),
        Verb::Cost => fields::cost(words),
        Verb::Select => fields::select(line, words),
        Verb::Reclaim => fields::reclaim(words),
        Verb::Quit => fields::quit(words),
    }
}
