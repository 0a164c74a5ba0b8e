//! How far the reading of a query has come, token by token.
ghost use Rattle.std.specs.Prelude.{◌≡◌};
ghost use Rattle.query_language.specs.Reading as spec;

use crate::column::{Column, Op};
use crate::fault::QueryRule;
use crate::nest::{Nest, Opener};
use crate::token::{Token, Word};
use plan_schema::Name;
use row_text::{is_word, read_number};

/// The greatest number of 18 digits.
const MOST: u64 = 999_999_999_999_999_999;

/// What may come next.
#[derive(Clone, Copy)]
pub(crate) enum Awaits {
    /// A column of the list, with room for so many behind it.
    Column(u8),
    /// A comma, `WHERE` or the end, with room for so many columns.
    MoreColumns(u8),
    /// A factor.
    Factor,
    /// The comparison behind a column.
    Op(Column),
    /// The number behind a comparison.
    Number(Column, Op),
    /// `=` or `!=`, behind `part`.
    Equals,
    /// The name that is to be the part's, or not.
    Name(bool),
    /// `AND`, `OR`, the `)` of a `(` in force, or the end where none is.
    MoreFactors,
}

/// What a token adds to a query.
#[derive(Clone, Copy)]
pub(crate) enum Piece {
    /// Nothing by itself.
    Nothing,
    /// A column of the list.
    Column(Column),
    /// The start of what a `NOT` or a `(` is in force for.
    Opener(Opener),
    /// A test of a figure.
    Is(Column, Op, u64),
    /// A test of the part's name.
    Named(Name, bool),
    /// The end of a `(`.
    Close,
    /// An `OR` behind a term.
    Or,
}

/// How far a query has been read.
#[derive(Drop)]
pub(crate) struct Progress {
    pub(crate) awaits: Awaits,
    pub(crate) nest: Nest,
}

/// What a token leads to, and what it adds.
type Step = Result<(Progress, Piece), QueryRule>;

impl Progress {
    /// Before a query.
    pub(crate) fn new() -> Progress
        ensures { result ≡ spec.before_query 16 }
    {
        Progress {
            awaits: Awaits::Column(15),
            nest: Nest::new(),
        }
    }

    /// Whether a query may end here.
    pub(crate) fn is_whole(&self) -> bool
        ensures { result ≡ spec.is_whole self.now }
    {
        match self.awaits {
            Awaits::MoreColumns(_) => true,
            Awaits::MoreFactors => self.nest.is_empty(),
            _ => false,
        }
    }

    /// Reads one more token.
    #[tactic(auto, unfolding(crate::specs::Reading::step))]
    pub(crate) fn step(self, token: Token<'_>) -> Step
        ensures { result ≡ spec.step 32 self token.entry }
    {
        let nest = self.nest;
        match self.awaits {
            Awaits::Column(room) => at_column(room, nest, token),
            Awaits::MoreColumns(room) => at_more_columns(room, nest, token),
            Awaits::Factor => at_factor(nest, token),
            Awaits::Op(column) => at_op(column, nest, token),
            Awaits::Number(column, op) => at_number(column, op, nest, token),
            Awaits::Equals => at_equals(nest, token),
            Awaits::Name(equal) => at_name(equal, nest, token),
            Awaits::MoreFactors => at_more_factors(nest, token),
        }
    }
}

/// Goes on with what is in force.
fn go(awaits: Awaits, nest: Nest, piece: Piece) -> Step
    ensures { result ≡ spec.go awaits nest piece }
{
    Ok((Progress { awaits, nest }, piece))
}

#[tactic(auto, unfolding(crate::specs::Reading::at_column))]
fn at_column(room: u8, nest: Nest, token: Token<'_>) -> Step
    ensures { result ≡ spec.at_column room nest token.entry }
{
    match token {
        Token::Word(word) => match Column::read(word.as_bytes()) {
            Some(column) => go(Awaits::MoreColumns(room), nest, Piece::Column(column)),
            None => Err(QueryRule::Word),
        },
        _ => Err(QueryRule::Word),
    }
}

#[tactic(auto, unfolding(crate::specs::Reading::at_more_columns))]
fn at_more_columns(room: u8, nest: Nest, token: Token<'_>) -> Step
    ensures { result ≡ spec.at_more_columns room nest token.entry }
{
    match token {
        Token::Word(word) => at_where(nest, &word),
        Token::Comma => at_comma(room, nest),
        _ => Err(QueryRule::Word),
    }
}

fn at_where(nest: Nest, word: &Word<'_>) -> Step
    ensures { result ≡ spec.at_where nest word.now }
{
    if is_word(word.as_bytes(), b"WHERE") {
        return go(Awaits::Factor, nest, Piece::Nothing);
    }
    Err(QueryRule::Word)
}

fn at_comma(room: u8, nest: Nest) -> Step
    ensures { result ≡ spec.at_comma room nest }
{
    if room == 0 {
        return Err(QueryRule::Many);
    }
    go(Awaits::Column(room - 1), nest, Piece::Nothing)
}

#[tactic(auto, unfolding(crate::specs::Reading::at_factor))]
fn at_factor(nest: Nest, token: Token<'_>) -> Step
    ensures { result ≡ spec.at_factor 32 nest token.entry }
{
    match token {
        Token::Word(word) => at_factor_word(nest, &word),
        Token::Open => open(Opener::Paren, nest),
        _ => Err(QueryRule::Word),
    }
}

#[tactic(auto, unfolding(crate::specs::Reading::at_factor_word))]
fn at_factor_word(nest: Nest, word: &Word<'_>) -> Step
    ensures { result ≡ spec.at_factor_word 32 nest word.now }
{
    if is_word(word.as_bytes(), b"NOT") {
        return open(Opener::Not, nest);
    }
    if is_word(word.as_bytes(), b"part") {
        return go(Awaits::Equals, nest, Piece::Nothing);
    }
    match Column::read(word.as_bytes()) {
        Some(column) => go(Awaits::Op(column), nest, Piece::Nothing),
        None => Err(QueryRule::Word),
    }
}

fn open(opener: Opener, nest: Nest) -> Step
    ensures { result ≡ spec.open_with 32 opener nest }
{
    match nest.with(opener) {
        Some(nest) => go(Awaits::Factor, nest, Piece::Opener(opener)),
        None => Err(QueryRule::Deep),
    }
}

#[tactic(auto, unfolding(crate::specs::Reading::at_op))]
fn at_op(column: Column, nest: Nest, token: Token<'_>) -> Step
    ensures { result ≡ spec.at_op column nest token.entry }
{
    match token {
        Token::Compare(op) => go(Awaits::Number(column, op), nest, Piece::Nothing),
        _ => Err(QueryRule::Word),
    }
}

#[tactic(auto, unfolding(crate::specs::Reading::at_number))]
fn at_number(column: Column, op: Op, nest: Nest, token: Token<'_>) -> Step
    ensures { result ≡ spec.at_number column op nest token.entry }
{
    match token {
        Token::Word(word) => match read_number(word.as_bytes(), 0, MOST) {
            Ok(number) => end_factor(nest, Piece::Is(column, op, number)),
            Err(_) => Err(QueryRule::Word),
        },
        _ => Err(QueryRule::Word),
    }
}

#[tactic(auto, unfolding(crate::specs::Reading::at_equals))]
fn at_equals(nest: Nest, token: Token<'_>) -> Step
    ensures { result ≡ spec.at_equals nest token.entry }
{
    match token {
        Token::Compare(Op::Eq) => go(Awaits::Name(true), nest, Piece::Nothing),
        Token::Compare(Op::Ne) => go(Awaits::Name(false), nest, Piece::Nothing),
        _ => Err(QueryRule::Word),
    }
}

#[tactic(auto, unfolding(crate::specs::Reading::at_name))]
fn at_name(equal: bool, nest: Nest, token: Token<'_>) -> Step
    ensures { result ≡ spec.at_name equal nest token.entry }
{
    match token {
        Token::Word(word) => match Name::read(word.as_bytes()) {
            Some(name) => end_factor(nest, Piece::Named(name, equal)),
            None => Err(QueryRule::Word),
        },
        _ => Err(QueryRule::Word),
    }
}

/// Ends a factor by a test.
fn end_factor(nest: Nest, piece: Piece) -> Step
    ensures { result ≡ spec.end_factor nest piece }
{
    go(Awaits::MoreFactors, nest.behind_factor(), piece)
}

#[tactic(auto, unfolding(crate::specs::Reading::at_more_factors))]
fn at_more_factors(nest: Nest, token: Token<'_>) -> Step
    ensures { result ≡ spec.at_more_factors nest token.entry }
{
    match token {
        Token::Word(word) => at_joint(nest, &word),
        Token::Close => close(nest),
        _ => Err(QueryRule::Word),
    }
}

fn at_joint(nest: Nest, word: &Word<'_>) -> Step
    ensures { result ≡ spec.at_joint nest word.now }
{
    if is_word(word.as_bytes(), b"AND") {
        return go(Awaits::Factor, nest, Piece::Nothing);
    }
    if is_word(word.as_bytes(), b"OR") {
        return go(Awaits::Factor, nest, Piece::Or);
    }
    Err(QueryRule::Word)
}

fn close(nest: Nest) -> Step
    ensures { result ≡ spec.close nest }
{
    match nest.behind_close() {
        Some(nest) => go(Awaits::MoreFactors, nest, Piece::Close),
        None => Err(QueryRule::Word),
    }
}
