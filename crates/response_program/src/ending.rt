//! How a command ends.
ghost use Rattle.std.specs.Prelude.{◌≡◌, ◌≢◌, ◌≤◌, ◌+◌, ◌∷◌, ◌++◌, [], length, option_map, unwrap_or};
ghost use Rattle.std.specs.Prelude.{Err, IsSome};
ghost use Rattle.plan_audit.specs.declared.auditing.AuditFault.TheVariants as audits;
ghost use Rattle.row_text.specs.Spelling.{spaced};
ghost use Rattle.plan_schema.specs.Outside.{Wrote};
ghost use Rattle.response_program.specs.Outcomes as spec;
ghost use Rattle.response_program.specs.Names.{pair_of};
ghost use Rattle.response_program.specs.Outcomes.{outcome_of};
ghost use Rattle.arrayvec.specs.ArrayVec.{array_vec_len};

use crate::files::Pair;
use byte_lines::{Served, ShelfFault, Sink, SinkFault, write_all};
use command_words::{room_bytes, rule_bytes};
use plan_audit::{AuditFault, AuditRule, Verdict};
use plan_import::ImportFault;
use plan_journal::JournalFault;
use plan_make::MakeFault;
use plan_walk::Tally;
use row_text::{RowText, push_number, push_word};

/// What a run came to: how many entries its journal has, and how much was netted, reused and dropped, where that is told.
#[derive(Clone, Copy)]
pub struct Totals {
    pub entries: u64,
    pub work: Option<Tally>,
}

/// What a trial came to: of how many parts, how many requests were answered, and the totals.
#[derive(Clone, Copy)]
pub struct Trial {
    pub parts: u32,
    pub requests: u64,
    pub totals: Totals,
}

/// Why a journal can't be replayed.
#[derive(Clone, Copy)]
pub enum BadJournal {
    /// No journal goes on with the line with this number.
    Form(u64),
    /// It has too many bytes.
    Large,
    /// The entry with this number is the first that is refused.
    Refused(u64),
}

/// The first fault of a run that isn't legal: a session, the line of a request, and the rule that its reply breaks.
#[derive(Clone, Copy)]
pub struct Breach {
    pub session: u64,
    pub line: u64,
    pub rule: AuditRule,
}

/// How a command ends, with the name of the file that failed.
#[derive(Clone, Copy)]
pub enum Ending<'a> {
    Done(Totals),
    /// A base and an input of so many parts are made.
    Made(u32),
    /// A base and an input were made and served without files.
    Tried(Trial),
    /// A run is legal, and its journal has so many entries.
    Legal(u64),
    /// A run isn't legal.
    NotLegal(Breach),
    /// There was no memory, or no turn was left.
    Memory,
    Base(ImportFault),
    Journal(BadJournal),
    Open(&'a str),
    Read(&'a str),
    Write(&'a str),
    /// The input of the session with this number is too long.
    Limit(u64),
}

impl<'a> Ending<'a> {
    /// What a part of a shelf that can't be had comes to.
    pub fn of_open(name: &'a str, fault: ShelfFault) -> Ending<'a>
        ensures { outcome_of result ≡ spec.of_open name.now fault }
    {
        match fault {
            ShelfFault::Failed => Ending::Open(name),
            ShelfFault::Memory => Ending::Memory,
        }
    }

    /// What a base that wasn't read comes to.
    pub fn of_import(name: &'a str, fault: ImportFault) -> Ending<'a>
        ensures { outcome_of result ≡ spec.of_import name.now fault }
    {
        match fault {
            ImportFault::Read => Ending::Read(name),
            ImportFault::Memory => Ending::Memory,
            fault => Ending::Base(fault),
        }
    }

    /// What a journal that wasn't read comes to.
    pub fn of_journal(name: &'a str, fault: JournalFault) -> Ending<'a>
        ensures { outcome_of result ≡ spec.of_journal name.now fault }
    {
        match fault {
            JournalFault::Read => Ending::Read(name),
            JournalFault::Form(line) => Ending::Journal(BadJournal::Form(line)),
            JournalFault::Large => Ending::Journal(BadJournal::Large),
            JournalFault::Memory => Ending::Memory,
        }
    }

    /// Why no session behind one with this number is served, where it didn't end.
    pub fn of_stop(pair: &Pair<'a>, session: u64, served: Served) -> Option<Ending<'a>>
        ensures { option_map outcome_of result ≡ spec.stop_of (pair_of pair.now) session served }
    {
        match served {
            Served::Ended(_) => None,
            Served::ReadFault => Some(Ending::Read(pair.input)),
            Served::WriteFault => Some(Ending::Write(pair.output)),
            Served::Limit => Some(Ending::Limit(session)),
            Served::Memory | Served::Worn | Served::BookFault => Some(Ending::Memory),
        }
    }

    /// How a run ends, by why a session stopped, if one did, and what the run came to.
    pub fn of_sessions(stop: Option<Ending<'a>>, totals: Totals) -> Ending<'a>
        ensures { outcome_of result
            ≡ unwrap_or (option_map outcome_of stop.entry) (spec.Done totals) }
    {
        match stop {
            Some(ending) => ending,
            None => Ending::Done(totals),
        }
    }

    /// How a base and an input of so many parts come out under their names, by what came of writing them.
    pub fn of_make(
        parts: u32,
        base: &'a str,
        input: &'a str,
        made: Result<(), MakeFault>,
    ) -> Ending<'a>
        ensures { outcome_of result ≡ spec.of_make parts base.now input.now made }
    {
        let ending = Ending::Made(parts);
        match made {
            Ok(()) => ending,
            Err(MakeFault::Base(fault)) => ending.and_written(base, Err(fault)),
            Err(MakeFault::Input(fault)) => ending.and_written(input, Err(fault)),
        }
    }

    /// What an audit of a run with so many entries comes to, where the first source that failed, if one did, bears this name.
    pub fn of_audit(
        found: Result<Verdict, AuditFault>,
        entries: u64,
        unread: Option<&'a str>,
    ) -> Ending<'a>
        requires { found ≡ Err audits.Read → IsSome unread }
        ensures { outcome_of result
            ≡ spec.of_audit found entries (option_map (λ name. name.now) unread.entry) }
    {
        match found {
            Ok(verdict) => Ending::of_verdict(verdict, entries),
            Err(AuditFault::Limit(session)) => Ending::Limit(session),
            Err(AuditFault::Memory) => Ending::Memory,
            Err(AuditFault::Read) => match unread {
                Some(name) => Ending::Read(name),
                None => unreachable!(),
            },
        }
    }

    /// What a verdict on a run with so many entries comes to.
    fn of_verdict(verdict: Verdict, entries: u64) -> Ending<'a>
        ensures { outcome_of result ≡ spec.of_verdict verdict entries }
    {
        match verdict {
            Verdict::Legal => Ending::Legal(entries),
            Verdict::Journal(entry) => Ending::Journal(BadJournal::Refused(entry)),
            Verdict::NotLegal {
                session,
                line,
                rule,
            } => Ending::NotLegal(Breach {
                session,
                line,
                rule,
            }),
        }
    }

    /// The ending after something more was written under a name. Want of memory tops all; else the first fault stays.
    pub fn and_written(self, name: &'a str, written: Result<(), SinkFault>) -> Ending<'a>
        ensures { outcome_of result ≡ spec.and_written (outcome_of self.entry) name.now written }
    {
        match written {
            Ok(()) => self,
            Err(SinkFault::Memory) => Ending::Memory,
            Err(SinkFault::Failed) => match self {
                Ending::Done(_) | Ending::Made(_) | Ending::Tried(_) | Ending::Legal(_) => {
                    Ending::Write(name)
                }
                ending => ending,
            },
        }
    }

    /// The status of the program.
    pub fn status(&self) -> u8
        ensures value { result ≡ spec.status_of (outcome_of self.now) }
        ensures known { result ≢ 2 }
    {
        match self {
            Ending::Done(_) | Ending::Made(_) | Ending::Tried(_) | Ending::Legal(_) => 0,
            Ending::Memory => 1,
            Ending::Base(_) => 3,
            Ending::Open(_) => 4,
            Ending::Read(_) => 5,
            Ending::Write(_) => 6,
            Ending::Limit(_) => 7,
            Ending::Journal(_) | Ending::NotLegal(_) => 9,
        }
    }

    /// Writes the line that tells it.
    pub fn tell<K: Sink>(&self, console: &mut K) -> Result<(), SinkFault>
        ensures { Wrote K.taken K.faults K.label console.old console.new
            (spec.console_line (outcome_of self.now)) result }
    {
        match self {
            Ending::Done(totals) => write_all(console, done_line(totals).as_slice()),
            Ending::Made(parts) => write_all(console, made_line(*parts).as_slice()),
            Ending::Tried(trial) => write_all(console, trial_line(trial).as_slice()),
            Ending::Legal(entries) => write_all(console, legal_line(*entries).as_slice()),
            Ending::NotLegal(breach) => write_all(console, breach_line(breach).as_slice()),
            Ending::Memory => write_all(console, b"memory\n"),
            Ending::Base(fault) => write_all(console, base_line(*fault).as_slice()),
            Ending::Journal(bad) => write_all(console, journal_line(*bad).as_slice()),
            Ending::Open(name) => tell_of(console, b"open ", name),
            Ending::Read(name) => tell_of(console, b"read ", name),
            Ending::Write(name) => tell_of(console, b"write ", name),
            Ending::Limit(session) => write_all(console, limit_line(*session).as_slice()),
        }
    }
}

/// Writes what failed, and the name of the file.
fn tell_of<K: Sink>(console: &mut K, word: &[u8], name: &str) -> Result<(), SinkFault>
    ensures { Wrote K.taken K.faults K.label console.old console.new
        (word.now ++ (name.now ++ 10 ∷ [])) result }
{
    write_all(console, word)?;
    tell_name(console, name)
}

/// Writes the name of a file, and ends the line.
fn tell_name<K: Sink>(console: &mut K, name: &str) -> Result<(), SinkFault>
    ensures { Wrote K.taken K.faults K.label console.old console.new (name.now ++ 10 ∷ []) result }
{
    write_all(console, name.as_bytes())?;
    write_all(console, b"\n")
}

/// The line of an input that is too long.
fn limit_line(session: u64) -> RowText
    ensures { result.items ≡ spec.console_line (spec.TooLong session) }
{
    let mut text = RowText::new();
    let _ = text.try_extend_from_slice(b"limit");
    push_number(&mut text, session);
    let _ = text.try_push(b'\n');
    text
}

/// The line of a base and an input that are made.
fn made_line(parts: u32) -> RowText
    ensures { result.items ≡ spec.console_line (spec.Made parts) }
{
    let mut text = RowText::new();
    let _ = text.try_extend_from_slice(b"parts");
    push_number(&mut text, u64::from(parts));
    let _ = text.try_push(b'\n');
    text
}

/// The line of a run that is done.
fn done_line(totals: &Totals) -> RowText
    ensures { result.items ≡ spec.console_line (spec.Done totals.now) }
{
    let mut text = RowText::new();
    let _ = text.try_extend_from_slice(b"entries");
    push_number(&mut text, totals.entries);
    push_work(&mut text, totals.work);
    let _ = text.try_push(b'\n');
    text
}

/// The line of a trial.
fn trial_line(trial: &Trial) -> RowText
    ensures { result.items ≡ spec.console_line (spec.Tried trial.now) }
{
    let mut text = RowText::new();
    let _ = text.try_extend_from_slice(b"parts");
    push_number(&mut text, u64::from(trial.parts));
    push_word(&mut text, b"requests");
    push_number(&mut text, trial.requests);
    push_word(&mut text, b"entries");
    push_number(&mut text, trial.totals.entries);
    push_work(&mut text, trial.totals.work);
    let _ = text.try_push(b'\n');
    text
}

/// The line of a legal run.
fn legal_line(entries: u64) -> RowText
    ensures { result.items ≡ spec.console_line (spec.Legal entries) }
{
    let mut text = RowText::new();
    let _ = text.try_extend_from_slice(b"legal");
    push_number(&mut text, entries);
    let _ = text.try_push(b'\n');
    text
}

/// The line of a run that isn't legal.
fn breach_line(breach: &Breach) -> RowText
    ensures { result.items ≡ spec.console_line (spec.NotLegal breach.now) }
{
    let mut text = RowText::new();
    let _ = text.try_extend_from_slice(b"not-legal");
    push_number(&mut text, breach.session);
    push_number(&mut text, breach.line);
    push_word(&mut text, audit_bytes(breach.rule));
    let _ = text.try_push(b'\n');
    text
}

/// The word of a rule of legal runs.
fn audit_bytes(rule: AuditRule) -> &'static [u8]
    ensures word { result.now ≡ spec.audit_word rule }
    ensures len { length result.now ≤ 6 }
{
    match rule {
        AuditRule::Short => b"short",
        AuditRule::Form => b"form",
        AuditRule::Point => b"point",
        AuditRule::Entry => b"entry",
        AuditRule::Answer => b"answer",
        AuditRule::Extra => b"extra",
        AuditRule::Lost => b"lost",
    }
}

/// The line for a journal that can't be replayed.
fn journal_line(bad: BadJournal) -> RowText
    ensures { result.items ≡ spec.console_line (spec.OfJournal bad) }
{
    let mut text = RowText::new();
    match bad {
        BadJournal::Form(line) => {
            let _ = text.try_extend_from_slice(b"journal-form");
            push_number(&mut text, line);
        }
        BadJournal::Large => {
            let _ = text.try_extend_from_slice(b"journal-large");
        }
        BadJournal::Refused(entry) => {
            let _ = text.try_extend_from_slice(b"journal-refused");
            push_number(&mut text, entry);
        }
    }
    let _ = text.try_push(b'\n');
    text
}

/// Puts what was netted, reused and dropped behind a text, where it is told.
fn push_work(text: &mut RowText, work: Option<Tally>)
    requires { array_vec_len text.old ≤ 100 }
    ensures items { text.new.items ≡ text.old.items ++ spaced (spec.work_words work) }
    ensures len { array_vec_len text.new ≤ array_vec_len text.old + 90 }
{
    if let Some(work) = work {
        push_word(text, b"netted");
        push_number(text, work.netted);
        push_word(text, b"reused");
        push_number(text, work.reused);
        push_word(text, b"dropped");
        push_number(text, work.dropped);
    }
}

/// The line for a base that was refused.
fn base_line(fault: ImportFault) -> RowText
    ensures { result.items ≡ spec.console_line (spec.Refused fault) }
{
    let mut text = RowText::new();
    let _ = text.try_extend_from_slice(b"base");
    match fault {
        ImportFault::Row(record, field) => {
            push_word(&mut text, b"row");
            push_number(&mut text, u64::from(record));
            push_word(&mut text, b"field");
            push_number(&mut text, u64::from(field.field));
            push_word(&mut text, rule_bytes(field.rule));
        }
        ImportFault::Twice(record) => {
            push_word(&mut text, b"twice");
            push_number(&mut text, u64::from(record));
        }
        ImportFault::Full(room) => {
            push_word(&mut text, b"full");
            push_word(&mut text, room_bytes(room));
        }
        _ => push_word(&mut text, b"no-plan"),
    }
    let _ = text.try_push(b'\n');
    text
}
