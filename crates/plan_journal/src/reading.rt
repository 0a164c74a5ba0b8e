//! A journal as its lines are read.
ghost use Rattle.std.specs.Prelude.{◌≡◌, ◌+◌, ◌≤◌, ◌^◌, None, Err, OnOk, option_map};
ghost use Rattle.plan_journal.specs.Cuts.{parts_of};
ghost use Rattle.plan_journal.specs.Places as spec;
ghost use Rattle.plan_journal.specs.Reading.{finished, entries_from};
ghost use Rattle.plan_journal.specs.Told.{Tells};
ghost use Rattle.plan_journal.specs.declared.reading.LineFault.TheVariants.{Form, Memory};
ghost use Rattle.plan_journal.specs.declared.fault.JournalFault.TheVariants as faults;

use crate::begun::{Begun, begin, row_in};
use crate::cuts::cut_at;
use crate::fault::JournalFault;
use crate::frame::Frame;
use crate::journal::Journal;
use plan_schema::limits::CARRIED_LIMIT;
use std::alloc::{AllocError, Global};
use std::marker::Model;

/// The entries that were read, how many records they have, and the entry that waits for rows, whose rows are all counted.
#[derive(Drop)]
struct Reading {
    journal: Journal,
    records: u64,
    begun: Option<Begun>,
}

impl Model for Reading {
    ghost use Rattle.std.specs.Prelude.{◌≤◌};
    ghost use Rattle.plan_schema.specs.declared.limits.TheConstants.{CARRIED_LIMIT};
    ghost use Rattle.plan_journal.specs.Places.{Place};

    ghost Value = { Place };

    ghost view = { λ reading. record {
      entries = reading.journal.entries;
      records = reading.records;
      begun = reading.begun;
    } };

    ghost invariant = { λ reading. reading.records ≤ CARRIED_LIMIT };
}

/// Why a line isn't read.
#[derive(Clone, Copy)]
enum LineFault {
    Form,
    Memory,
}

impl From<AllocError> for LineFault {
    ghost use Rattle.std.specs.Prelude.{◌≡◌};
    ghost use Rattle.plan_journal.specs.declared.reading.LineFault.{LineFault};

    ghost from_gives = { λ _ fault. fault ≡ LineFault.Memory };

    fn from(_fault: AllocError) -> LineFault {
        LineFault::Memory
    }
}

impl LineFault {
    /// The fault of the line with a number.
    fn in_line(self, number: u64) -> JournalFault
        ensures form { self ≡ Form → result ≡ faults.Form number }
        ensures memory { self ≡ Memory → result ≡ faults.Memory }
    {
        match self {
            LineFault::Form => JournalFault::Form(number),
            LineFault::Memory => JournalFault::Memory,
        }
    }
}

impl Reading {
    /// Nothing was read.
    fn new(alloc: Global) -> Reading
        ensures { result ≡ spec.nothing }
    {
        Reading {
            journal: Journal::new(alloc),
            records: 0,
            begun: None,
        }
    }

    /// Reads one more line.
    #[tactic(auto, unfolding(crate::specs::Places::continued))]
    fn take_line(&mut self, alloc: Global, frame: Frame, line: &[u8]) -> Result<(), LineFault>
        requires { frame.first + frame.most ≤ 2 ^ 64 }
        ensures ok { OnOk result (spec.continued frame self.old line.now ≡ Some self.new) }
        ensures form { result ≡ Err Form → spec.continued frame self.old line.now ≡ None }
    {
        match self.begun.take() {
            Some(begun) => self.take_row(frame, begun, line),
            None => self.take_entry_line(alloc, frame, line),
        }
    }

    /// Reads the line of a row of an entry.
    #[tactic(auto, unfolding(crate::specs::Places::behind_row))]
    fn take_row(&mut self, frame: Frame, begun: Begun, line: &[u8]) -> Result<(), LineFault>
        ensures ok { OnOk result (spec.behind_row frame self.old begun line.now ≡ Some self.new) }
        ensures form { result ≡ Err Form → spec.behind_row frame self.old begun line.now ≡ None }
    {
        let mut begun = begun;
        let Some((key, value)) = row_in(frame.version, line) else {
            return Err(LineFault::Form);
        };
        begun.add_row(key, value)?;
        self.keep(begun)?;
        Ok(())
    }

    /// Reads the line of an entry.
    #[tactic(auto, unfolding(crate::specs::Places::behind_entry_line))]
    fn take_entry_line(&mut self, alloc: Global, frame: Frame, line: &[u8]) -> Result<(), LineFault>
        requires { frame.first + frame.most ≤ 2 ^ 64 }
        ensures ok { OnOk result (spec.behind_entry_line frame self.old line.now ≡ Some self.new) }
        ensures form { result ≡ Err Form → spec.behind_entry_line frame self.old line.now ≡ None }
    {
        if self.journal.len() >= frame.most {
            return Err(LineFault::Form);
        }
        let number = frame.first + self.journal.len() as u64;
        let Some(begun) = begin(alloc, frame.version, number, line) else {
            return Err(LineFault::Form);
        };
        let records = self.records + begun.records();
        if records > CARRIED_LIMIT {
            return Err(LineFault::Form);
        }
        self.records = records;
        self.keep(begun)?;
        Ok(())
    }

    /// Keeps an entry, which waits where rows are to come.
    #[tactic(auto, unfolding(crate::specs::Places::kept))]
    fn keep(&mut self, begun: Begun) -> Result<(), AllocError>
        ensures { OnOk result (self.new ≡ spec.kept self.old.entries self.old.records begun) }
    {
        if begun.left > 0 {
            self.begun = Some(begun);
            return Ok(());
        }
        self.begun = None;
        self.journal.push(begun.entry)
    }

    /// The entries, where none of them waits for rows and nothing stands behind the last line feed.
    fn finish(self, last: &[u8]) -> Option<Journal>
        ensures { option_map (λ journal. journal.entries) result ≡ finished self last.now }
    {
        if self.begun.is_some() || !last.is_empty() {
            return None;
        }
        Some(self.journal)
    }
}

/// The entries of a text whose first line has the number `number`.
pub(crate) fn read_entries(
    alloc: Global,
    frame: Frame,
    number: u64,
    text: &[u8],
) -> Result<Journal, JournalFault>
    requires entries { frame.first + frame.most ≤ 2 ^ 64 }
    requires number { number ≤ 2 }
    ensures { Tells (entries_from frame spec.nothing number (parts_of text.now)) result }
{
    let mut reading = Reading::new(alloc);
    let mut number = number;
    let mut rest = text;
    while let Some((line, behind)) = cut_at(b'\n', rest) {
        if let Err(fault) = reading.take_line(alloc, frame, line) {
            return Err(fault.in_line(number));
        }
        rest = behind;
        number += 1;
    }
    match reading.finish(rest) {
        Some(journal) => Ok(journal),
        None => Err(JournalFault::Form(number)),
    }
}
