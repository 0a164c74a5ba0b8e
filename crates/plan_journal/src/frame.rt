//! What the entries of a text are read as.
ghost use Rattle.std.specs.Prelude.{◌≡◌};
ghost use Rattle.plan_journal.specs.Versions as spec;

use plan_schema::{Change, Record};
use row_text::is_word;

/// The versions of a journal's text.
#[derive(Clone, Copy)]
pub(crate) enum Version {
    /// No bill has a span.
    One,
    Two,
}

/// Which entries a text may have.
#[derive(Clone, Copy)]
pub(crate) struct Frame {
    pub(crate) version: Version,
    /// The number of the first entry.
    pub(crate) first: u64,
    /// How many entries there may be.
    pub(crate) most: usize,
}

impl Version {
    /// The version that a journal's first line tells.
    pub(crate) fn read(line: &[u8]) -> Option<Version>
        ensures { result ≡ spec.version_of line.now }
    {
        if is_word(line, b"plan-journal 2") {
            return Some(Version::Two);
        }
        if is_word(line, b"plan-journal 1") {
            return Some(Version::One);
        }
        None
    }

    /// Whether a journal of this version may have the row.
    pub(crate) fn has_row(self, value: &Record) -> bool
        ensures { result ≡ spec.row_is_of self value.now }
    {
        match self {
            Version::One => !has_span(value),
            Version::Two => true,
        }
    }

    /// Whether a journal of this version may have the change, of a LOAD whatever its rows are.
    pub(crate) fn has_change(self, change: &Change) -> bool
        ensures { result ≡ spec.line_is_of self change.now }
    {
        match change {
            Change::Put { value, .. } => self.has_row(value),
            _ => true,
        }
    }
}

/// Whether the record is a bill with a span.
fn has_span(value: &Record) -> bool
    ensures { result ≡ spec.has_span value.now }
{
    matches!(value, Record::Bill { span: Some(_), .. })
}
