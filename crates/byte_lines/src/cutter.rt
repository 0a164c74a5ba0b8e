//! Cutting a stream into lines.
ghost use Rattle.std.specs.Prelude.{◌≡◌, ◌==◌, ◌<◌, ◌≤◌, ◌↔◌, IsTrue, true, false, Some, [], length, drop};
ghost use Rattle.std.specs.Prelude.{position, if◌then◌else◌, None, IfSome, Option, List, ℕ, ◌++◌};
ghost use Rattle.std.specs.Bool.{OnTrue, OnFalse};
ghost use Rattle.byte_lines.specs.Lines.{share_of_line, grown, line_of, without_return, text_of_line, lines_of};
ghost use Rattle.byte_lines.specs.Lines.{lines_from, lines_after, lines_joined, line_before, no_bytes};
ghost use Rattle.byte_lines.specs.Cuts.{shown};

use arrayvec::ArrayVec;
use std::marker::Model;

/// A line's text, or that it is too long.
pub enum Cut<'a> {
    /// The bytes of the line, without its end.
    Line(&'a [u8]),
    /// The line has more than 1,024 bytes.
    TooLong,
}

/// A line so far, in a buffer of a fixed size.
#[derive(Drop)]
pub struct Cutter {
    bytes: ArrayVec<u8, 1025>,
    is_long: bool,
    is_complete: bool,
}

impl Model for Cutter {
    ghost use Rattle.std.specs.Prelude.{Some, None, ◌≤◌, length, if◌then◌else◌};
    ghost use Rattle.byte_lines.specs.Lines.{LineSoFar, kept_limit};

    ghost Value = { LineSoFar };

    ghost view = { λ a. record {
      kept = (if a.is_long then None else Some a.bytes.items);
      is_complete = a.is_complete;
    } };

    ghost invariant = { λ a. length a.bytes.items ≤ kept_limit };
}

impl Cutter {
    /// Before the first byte of a line.
    pub fn new() -> Cutter
        ensures { result ≡ no_bytes }
    {
        Cutter {
            bytes: ArrayVec::new(),
            is_long: false,
            is_complete: false,
        }
    }

    /// Takes the bytes of a piece up to and with its first line feed, or all of them. Answers how many these are, and whether the
    /// line is complete.
    pub fn feed(&mut self, piece: &[u8]) -> (usize, bool)
        requires { self.old.is_complete ≡ false }

        ensures taken { result ≡ share_of_line piece.now }
        ensures within { result.0 ≤ length piece.now }
        ensures some { 0 < length piece.now → 0 < result.0 }
        ensures told { self.new.is_complete ≡ result.1 }

        // The first line of the piece is the one that is complete, and the other lines stand behind the bytes taken.
        ensures complete { result.1 ≡ true → lines_from self.old.kept piece.now
            ≡ line_before (line_of self.new.kept) (lines_from (Some []) (drop result.0 piece.now)) }

        // The piece completes no line.
        ensures begun { result.1 ≡ false
            → lines_from self.old.kept piece.now ≡ ([], self.new.kept) }
        ensures all { result.1 ≡ false → result.0 ≡ length piece.now }
    {
        match line_feed_in(piece) {
            Some(at) => {
                grow(&mut self.bytes, &mut self.is_long, &piece[..at]);
                self.is_complete = true;
                (at + 1, true)
            }
            None => {
                grow(&mut self.bytes, &mut self.is_long, piece);
                (piece.len(), false)
            }
        }
    }

    /// The line so far, without its line feed and without one carriage return at its end.
    #[tactic(auto, unfolding(crate::specs::Lines::line_of, crate::specs::Lines::text_of_line))]
    pub fn line(&self) -> Cut<'_>
        ensures { shown result ≡ line_of self.now.kept }
    {
        if self.is_long {
            return Cut::TooLong;
        }
        let text = cut_return(self.bytes.as_slice());
        if text.len() > 1024 {
            return Cut::TooLong;
        }
        Cut::Line(text)
    }

    /// Begins the next line.
    pub fn next(&mut self)
        ensures { self.new ≡ no_bytes }
    {
        self.bytes.clear();
        self.is_long = false;
        self.is_complete = false;
    }

    /// Whether nothing has come of the line.
    pub fn is_empty(&self) -> bool
        ensures { IsTrue result ↔ (self.now.kept ≡ Some []) }
    {
        !self.is_long && self.bytes.is_empty()
    }
}

// Where the first line feed stands.
fn line_feed_in(piece: &[u8]) -> Option<usize>
    ensures value { result ≡ position (λ b. b == 10) piece.now }
    ensures bound { IfSome result (λ at. at < length piece.now) }
{
    piece.iter().position(|b| *b == b'\n')
}

// Adds a part of a line, where there is room for it.
#[tactic(auto, unfolding(crate::specs::Lines::grown))]
fn grow(bytes: &mut ArrayVec<u8, 1025>, is_long: &mut bool, part: &[u8])
    requires { length bytes.old.items ≤ 1025 }
    ensures grown { (if is_long.new then None else Some bytes.new.items)
        ≡ grown (if is_long.old then None else Some bytes.old.items) part.now }
    ensures fits { length bytes.new.items ≤ 1025 }
{
    if *is_long {
        return;
    }
    if bytes.try_extend_from_slice(part).is_err() {
        *is_long = true;
    }
}

// The text without one carriage return at its end.
fn cut_return(text: &[u8]) -> &[u8]
    ensures { result.now ≡ without_return text.now }
{
    if text.is_empty() {
        return text;
    }
    if text[text.len() - 1] == b'\r' {
        return &text[..text.len() - 1];
    }
    text
}

/// A law: the lines of a stream don't depend on how it is cut into pieces.
pub fn lines_of_pieces_are_lines_of_all()
    ensures pieces { (kept : Option (List ℕ)) (first second : List ℕ)
        → lines_from kept (first ++ second)
        ≡ lines_joined (lines_from kept first) (lines_from (lines_from kept first).1 second) }
    ensures after { (kept : Option (List ℕ)) (first second : List ℕ)
        → lines_after kept (first ++ second)
        ≡ (lines_from kept first).0 ++ lines_after (lines_from kept first).1 second }
{}

/// A law: the buffer of a fixed size loses no line.
pub fn kept_lines_are_lines()
    ensures { (line : List ℕ) → line_of (grown (Some []) line) ≡ text_of_line line }
{}

/// A law: the lines that the pieces complete, and then the last, are the lines of the whole stream.
pub fn lines_after_nothing_are_lines_of_all()
    ensures { (stream : List ℕ) → lines_after (Some []) stream ≡ lines_of stream }
{}
