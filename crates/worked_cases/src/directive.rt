//! The lines of the cases.
//!
//! | Line | What it says |
//! |---|---|
//! | `case NAME` | begins a case; NAME is the rest of the line |
//! | `words WORD WORD ..` | the words of the command line |
//! | `file NAME` | begins a file of the shelf |
//! | `\|TEXT` | a line of the file |
//! | `+TEXT` | a text of the file, with no line feed behind it |
//! | `times N TEXT` | a text of the file so many times, with no line feeds |
//! | `lines N TEXT` | so many lines of the file, with the line's number, from 1, in the place of each `#` |
//! | `blank N` | so many line feeds of the file |
//! | `byte N` | a byte of the file by its number |
//! | `fail-open N` | the call of this number, from 1, that opens or makes a file fails |
//! | `fail-call N NAME` | the read or write of this number, from 1, of the file of this name fails |
//! | `mutants COUNT N START` | what `make N START` gives is run in three sessions, and so many mutants of the run's files are audited; the number of each is printed, and what its audit tells |
//! | `traces N START` | for each planned receipt of the base that `make N START` gives, its shares are asked for; it is printed how many receipts there are, and to how many of them the shares sum |
//! | `show NAME` | what the shelf holds under a name is printed, behind the console |
//! | nothing, or `; TEXT` | a remark |

use crate::study::Study;

/// What a line says.
#[derive(Clone, Copy)]
pub enum Directive<'a> {
    Case(&'a str),
    Words(&'a str),
    File(&'a str),
    Line(&'a str),
    Text(&'a str),
    Times(u64, &'a str),
    Lines(u64, &'a str),
    Blank(u64),
    Byte(u8),
    FailOpen(u64),
    FailCall(u64, &'a str),
    Study(Study),
    Show(&'a str),
    Remark,
    /// A line that says nothing of these. It is printed.
    Unknown(&'a str),
}

impl<'a> Directive<'a> {
    /// What the line says.
    pub fn read(line: &'a str) -> Directive<'a> {
        if let Some(text) = line.strip_prefix("|") {
            return Directive::Line(text);
        }
        if let Some(text) = line.strip_prefix("+") {
            return Directive::Text(text);
        }
        if line.is_empty() || line.starts_with(";") {
            return Directive::Remark;
        }
        match line.split_once(" ") {
            Some((word, rest)) => Directive::of_word(word, rest).unwrap_or(Directive::Unknown(
                line,
            )),
            None => Directive::Unknown(line),
        }
    }

    /// What a line says by its first word.
    fn of_word(word: &'a str, rest: &'a str) -> Option<Directive<'a>> {
        match word {
            "case" => Some(Directive::Case(rest)),
            "words" => Some(Directive::Words(rest)),
            "file" => Some(Directive::File(rest)),
            "traces" => Some(Directive::Study(Study::read_traces(rest)?)),
            "mutants" => Some(Directive::Study(Study::read_mutants(rest)?)),
            "show" => Some(Directive::Show(rest)),
            "blank" => Some(Directive::Blank(rest.parse::<u64>().ok()?)),
            "byte" => Some(Directive::Byte(rest.parse::<u8>().ok()?)),
            "fail-open" => Some(Directive::FailOpen(rest.parse::<u64>().ok()?)),
            _ => Directive::of_number(word, rest),
        }
    }

    /// What a line with a number and a text says.
    fn of_number(word: &'a str, rest: &'a str) -> Option<Directive<'a>> {
        let (number, text) = rest.split_once(" ")?;
        let number = number.parse::<u64>().ok()?;
        match word {
            "times" => Some(Directive::Times(number, text)),
            "lines" => Some(Directive::Lines(number, text)),
            "fail-call" => Some(Directive::FailCall(number, text)),
            _ => None,
        }
    }
}
