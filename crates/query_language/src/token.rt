//! The tokens of a query's text.
ghost use Rattle.std.specs.Prelude.{◌≡◌, ◌≤◌, ◌+◌, ◌∷◌, [], length, drop, take, true, false, MatchOption};
ghost use Rattle.std.specs.List.{prefix_len};
ghost use Rattle.query_language.specs.Tokens as spec;
ghost use Rattle.query_language.specs.Tokens.{BeginsWithToken};

use crate::column::Op;
use std::marker::Model;

/// A word of a query, seen as its bytes.
#[derive(Drop)]
pub(crate) struct Word<'a> {
    bytes: &'a [u8],
}

impl<'a> Model for Word<'a> {
    ghost use Rattle.std.specs.Prelude.{List, ℕ};

    ghost Value = { List ℕ };

    ghost view = { λ word. word.bytes.now };
}

impl<'a> Word<'a> {
    /// The bytes of the word.
    pub(crate) fn as_bytes(&self) -> &'a [u8]
        ensures { result.now ≡ self.now }
    {
        self.bytes
    }
}

/// A token.
#[derive(Drop)]
pub(crate) enum Token<'a> {
    Word(Word<'a>),
    Comma,
    Open,
    Close,
    Compare(Op),
    /// A byte that fits nowhere.
    Other,
}

/// What is left of a text, seen as its tokens with their places.
#[derive(Drop)]
pub(crate) struct Tokens<'a> {
    place: u32,
    rest: &'a [u8],
}

impl<'a> Model for Tokens<'a> {
    ghost use Rattle.std.specs.Prelude.{List, ℕ, ◌+◌, ◌≤◌, length};
    ghost use Rattle.query_language.specs.Tokens.{tokens_from};
    ghost use Rattle.query_language.specs.declared.token.Token.{Token};

    ghost Value = { List (ℕ × Token) };

    ghost view = { λ tokens. tokens_from tokens.place tokens.rest.now };

    ghost invariant = { λ tokens. tokens.place + length tokens.rest.now ≤ 1024 };
}

impl<'a> Tokens<'a> {
    /// The tokens of a text.
    pub(crate) fn of(text: &'a [u8]) -> Tokens<'a>
        requires { length text.now ≤ 1024 }
        ensures { result ≡ spec.tokens_of text.now }
    {
        Tokens {
            place: 0,
            rest: text,
        }
    }

    /// Takes the first token off.
    pub(crate) fn next(&mut self) -> Option<(u32, Token<'a>)>
        ensures { MatchOption result (self.old ≡ []) (λ found. self.old ≡ found ∷ self.new) }
    {
        let spaces = spaces_before(self.rest);
        let place = self.place + spaces as u32;
        let rest = behind(self.rest, spaces);
        match first_token(rest) {
            None => None,
            Some((token, count)) => {
                self.place = place + count as u32;
                self.rest = behind(rest, count);
                Some((place, token))
            }
        }
    }
}

/// A text without so many bytes at its front.
fn behind<'a>(text: &'a [u8], count: usize) -> &'a [u8]
    requires { count ≤ length text.now }
    ensures value { result.now ≡ drop count text.now }
    ensures short { length result.now + count ≡ length text.now }
{
    &text[count..]
}

/// The token that a text begins with, and how many bytes it has.
fn first_token<'a>(text: &'a [u8]) -> Option<(Token<'a>, usize)>
    requires { prefix_len spec.is_space text.now ≡ 0 }
    ensures value { MatchOption result (text.now ≡ [])
        (λ found. BeginsWithToken text.now found.0 found.1) }
{
    match text {
        [] => None,
        [byte, ..] => {
            if is_word_byte(*byte) {
                return Some(first_word(text));
            }
            Some(first_symbol(*byte, &text[1..]))
        }
    }
}

/// The word that a text begins with.
fn first_word<'a>(text: &'a [u8]) -> (Token<'a>, usize)
    requires word { spec.begins_with_word text.now ≡ true }
    requires no_space { prefix_len spec.is_space text.now ≡ 0 }
    ensures { BeginsWithToken text.now result.0 result.1 }
{
    let count = word_len(text);
    let word = Word {
        bytes: &text[..count],
    };
    (Token::Word(word), count)
}

/// The symbol that a byte is with what may stand behind it.
fn first_symbol<'a>(byte: u8, behind: &'a [u8]) -> (Token<'a>, usize)
    requires no_word { spec.is_word_byte byte ≡ false }
    requires no_space { spec.is_space byte ≡ false }
    ensures { BeginsWithToken (byte ∷ behind.now) result.0 result.1 }
{
    if takes_equals(byte) {
        if begins_with_equals(behind) {
            return (symbol_of(byte, true), 2);
        }
    }
    (symbol_of(byte, false), 1)
}

fn takes_equals(byte: u8) -> bool
    ensures { result ≡ spec.takes_equals byte }
{
    byte == b'!' || byte == b'<' || byte == b'>'
}

fn begins_with_equals(text: &[u8]) -> bool
    ensures { result ≡ spec.begins_with_equals text.now }
{
    match text {
        [] => false,
        [byte, ..] => *byte == b'=',
    }
}

/// The symbol that a byte is, by itself or with a `=` behind it.
fn symbol_of<'a>(byte: u8, with_equals: bool) -> Token<'a>
    ensures { result ≡ spec.symbol_of byte with_equals }
{
    match byte {
        b',' => Token::Comma,
        b'(' => Token::Open,
        b')' => Token::Close,
        b'=' => Token::Compare(Op::Eq),
        b'!' if with_equals => Token::Compare(Op::Ne),
        b'<' if with_equals => Token::Compare(Op::Le),
        b'>' if with_equals => Token::Compare(Op::Ge),
        b'<' => Token::Compare(Op::Lt),
        b'>' => Token::Compare(Op::Gt),
        _ => Token::Other,
    }
}

/// How many spaces and tabs a text begins with.
fn spaces_before(text: &[u8]) -> usize
    ensures value { result ≡ prefix_len spec.is_space text.now }
    ensures within { result ≤ length text.now }
{
    text.iter()
        .take_while(|byte| **byte == b' ' || **byte == b'\t')
        .count()
}

/// How many bytes the word has that a text begins with.
fn word_len(text: &[u8]) -> usize
    ensures value { result ≡ prefix_len spec.is_word_byte text.now }
    ensures within { result ≤ length text.now }
{
    text.iter().take_while(|byte| is_word_byte(**byte)).count()
}

fn is_word_byte(byte: u8) -> bool
    ensures { result ≡ spec.is_word_byte byte }
{
    byte.is_ascii_alphanumeric() || byte == b'_' || byte == b'-' || byte == b'.'
}
