//! The text of a query inside its line.
ghost use Rattle.std.specs.Prelude.{◌≡◌, ◌≤◌, length};
ghost use Rattle.std.specs.List.{prefix_len, suffix_len};
ghost use Rattle.command_words.specs.Words as spec;
ghost use Rattle.command_words.specs.Words.{is_space, is_word_byte};

use std::marker::Model;

/// The text of a query: at most 1,024 bytes of a line. It begins and ends with bytes that are neither spaces nor tabs.
#[derive(Drop)]
pub struct QueryText<'a> {
    bytes: &'a [u8],
}

impl<'a> Model for QueryText<'a> {
    ghost use Rattle.std.specs.Prelude.{List, ℕ, ◌≤◌, length};

    ghost Value = { List ℕ };

    ghost view = { λ query. query.bytes.now };

    ghost invariant = { λ query. length query.bytes.now ≤ 1024 };
}

impl<'a> QueryText<'a> {
    /// The query of a `SELECT` line.
    #[tactic(auto, unfolding(crate::specs::Words::query_of))]
    pub(crate) fn of_line(line: &'a [u8]) -> QueryText<'a>
        requires { length line.now ≤ 1024 }
        ensures { result ≡ spec.query_of line.now }
    {
        let behind_scenario = behind_word(behind_word(line));
        QueryText {
            bytes: to_word(from_word(behind_scenario)),
        }
    }

    /// The bytes of the text.
    pub fn as_bytes(&self) -> &'a [u8]
        ensures value { result.now ≡ self.now }
        ensures short { length result.now ≤ 1024 }
    {
        self.bytes
    }
}

fn is_space_byte(byte: u8) -> bool
    ensures { result ≡ is_space byte }
{
    byte == b' ' || byte == b'\t'
}

/// How many spaces and tabs a text begins with.
fn spaces_before(text: &[u8]) -> usize
    ensures value { result ≡ prefix_len is_space text.now }
    ensures within { result ≤ length text.now }
{
    text.iter().take_while(|byte| is_space_byte(**byte)).count()
}

/// How many spaces and tabs a text ends with.
fn spaces_behind(text: &[u8]) -> usize
    ensures value { result ≡ suffix_len is_space text.now }
    ensures within { result ≤ length text.now }
{
    text.iter()
        .rev()
        .take_while(|byte| is_space_byte(**byte))
        .count()
}

/// How many bytes the word has that a text begins with.
fn word_len(text: &[u8]) -> usize
    ensures value { result ≡ prefix_len is_word_byte text.now }
    ensures within { result ≤ length text.now }
{
    text.iter()
        .take_while(|byte| !is_space_byte(**byte))
        .count()
}

/// A text from its first word on.
fn from_word(text: &[u8]) -> &[u8]
    ensures value { result.now ≡ spec.from_word text.now }
    ensures short { length result.now ≤ length text.now }
{
    &text[spaces_before(text)..]
}

/// A text up to the end of its last word.
fn to_word(text: &[u8]) -> &[u8]
    ensures value { result.now ≡ spec.to_word text.now }
    ensures short { length result.now ≤ length text.now }
{
    &text[..text.len() - spaces_behind(text)]
}

/// What stands behind the first word of a text.
fn behind_word(text: &[u8]) -> &[u8]
    ensures value { result.now ≡ spec.behind_word text.now }
    ensures short { length result.now ≤ length text.now }
{
    let words = from_word(text);
    &words[word_len(words)..]
}
