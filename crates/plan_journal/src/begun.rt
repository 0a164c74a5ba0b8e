//! Entries as their lines begin them, and the rows behind those lines.
ghost use Rattle.std.specs.Prelude.{◌≡◌, ◌<◌, ◌≤◌, ◌^◌, MatchOption, IfSome, Some, None, OnOk};
ghost use Rattle.scenario_rules.specs.Refused.{record_count};
ghost use Rattle.plan_journal.specs.Begun as spec;

use crate::cuts::{cut_at, parts_singly};
use crate::frame::Version;
use command_words::{Command, read_line, read_row};
use itoa::Buffer;
use plan_schema::{Change, Entry, Key, Name, Record, Rows};
use row_text::{is_word, read_number};
use std::alloc::{AllocError, Global};

/// An entry with the rows that were read of it, and how many are still to come.
#[derive(Drop)]
pub(crate) struct Begun {
    pub(crate) entry: Entry,
    pub(crate) left: u32,
}

impl Begun {
    /// Adds a row to the entry.
    pub(crate) fn add_row(&mut self, key: Key, value: Record) -> Result<(), AllocError>
        ensures { OnOk result (self.new ≡ spec.with_row self.old (key, value)) }
    {
        add_to_change(&mut self.entry.change, key, value)?;
        self.left = self.left.saturating_sub(1);
        Ok(())
    }

    /// How many records the entry has with the rows that are still to come.
    pub(crate) fn records(&self) -> u64
        requires { record_count self.now.entry.change ≤ 1 }
        ensures value { result ≡ spec.records_of self.now }
        ensures few { result < 2 ^ 33 }
    {
        count_records(&self.entry.change) + u64::from(self.left)
    }
}

/// Adds a row to a LOAD.
fn add_to_change(change: &mut Change, key: Key, value: Record) -> Result<(), AllocError>
    ensures { OnOk result (change.new ≡ spec.change_with_row change.old (key, value)) }
{
    if let Change::Load { rows, .. } = change {
        rows.push((key, value))?;
    }
    Ok(())
}

/// How many records a change has.
fn count_records(change: &Change) -> u64
    ensures { result ≡ record_count change.now }
{
    match change {
        Change::Put { .. } | Change::Del { .. } => 1,
        Change::Load { rows, .. } => rows.len() as u64,
        _ => 0,
    }
}

/// Whether a command or a row can have this spelling.
fn may_be_spelled(text: &[u8]) -> bool
    ensures value { result ≡ spec.may_be_spelled text.now }
{
    text.len() <= 1024 && parts_singly(text)
}

/// The row that a line of a LOAD is.
#[tactic(auto, unfolding(crate::specs::Begun::row_in))]
pub(crate) fn row_in(version: Version, line: &[u8]) -> Option<(Key, Record)>
    ensures { result ≡ spec.row_in version line.now }
{
    if !may_be_spelled(line) {
        return None;
    }
    let (key, value) = read_row(line).ok()?;
    if version.has_row(&value) {
        Some((key, value))
    } else {
        None
    }
}

/// The entry that a line begins under a number.
#[tactic(auto, unfolding(crate::specs::Begun::begun_of))]
pub(crate) fn begin(alloc: Global, version: Version, number: u64, line: &[u8]) -> Option<Begun>
    ensures value { result ≡ spec.begun_of version number line.now }
    ensures few { IfSome result (λ begun. record_count begun.entry.change ≤ 1) }
{
    let behind = behind_number(number, line)?;
    let (session, behind) = number_before(1, 16, behind)?;
    let (line, behind) = number_before(1, 1_000_000, behind)?;
    let (word, behind) = cut_at(b' ', behind)?;
    let user = Name::read(word)?;
    let (change, left) = change_in(alloc, version, behind)?;
    let entry = Entry {
        session,
        line,
        user,
        change,
    };
    Some(Begun { entry, left })
}

/// What stands behind an entry's number.
#[tactic(auto, unfolding(crate::specs::Begun::behind_number))]
fn behind_number(number: u64, line: &[u8]) -> Option<&[u8]>
    ensures { MatchOption result (spec.behind_number number line.now ≡ None)
        (λ behind. spec.behind_number number line.now ≡ Some behind.now) }
{
    let (word, behind) = cut_at(b' ', line)?;
    let mut buffer = Buffer::new();
    if is_word(word, buffer.format(number).as_bytes()) {
        Some(behind)
    } else {
        None
    }
}

/// A number from `low` to `high`, and what stands behind it.
#[tactic(auto, unfolding(crate::specs::Begun::number_before))]
fn number_before(low: u64, high: u64, text: &[u8]) -> Option<(u64, &[u8])>
    requires { high < 2 ^ 60 }
    ensures { MatchOption result (spec.number_before low high text.now ≡ None)
        (λ parts. spec.number_before low high text.now ≡ Some (parts.0, parts.1.now)) }
{
    let (word, behind) = cut_at(b' ', text)?;
    let number = read_number(word, low, high).ok()?;
    Some((number, behind))
}

/// The change that a text says, of a LOAD without its rows, and how many rows are to come.
#[tactic(auto, unfolding(crate::specs::Begun::change_in))]
fn change_in(alloc: Global, version: Version, text: &[u8]) -> Option<(Change, u32)>
    ensures value { result ≡ spec.change_in version text.now }
    ensures few { IfSome result (λ asked. record_count asked.0 ≤ 1) }
{
    if !may_be_spelled(text) {
        return None;
    }
    let command = read_line(text).ok()?;
    let (change, left) = asked_of(alloc, &command)?;
    if version.has_change(&change) {
        Some((change, left))
    } else {
        None
    }
}

/// The change that a command asks for, of a LOAD without its rows, and how many rows are to come.
fn asked_of(alloc: Global, command: &Command) -> Option<(Change, u32)>
    ensures value { result ≡ spec.asked_of command.now }
    ensures few { IfSome result (λ asked. record_count asked.0 ≤ 1) }
{
    if let Command::Load { scenario, count } = command {
        let rows = Rows::new(alloc);
        let scenario = *scenario;
        return Some((Change::Load { scenario, rows }, *count));
    }
    let change = command.change()?;
    Some((change, 0))
}
