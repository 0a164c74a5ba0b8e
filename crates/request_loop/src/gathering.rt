//! The rows of a LOAD, as they are read.
ghost use Rattle.std.specs.Prelude.{◌≡◌, ◌≤◌, ◌<◌, ◌+◌, true, length, Ok, Err, IfOk, IfSome, option_map};
ghost use Rattle.plan_schema.specs.declared.limits.TheConstants.{LINE_LIMIT};
ghost use Rattle.plan_schema.specs.Name.{is_name};
ghost use Rattle.plan_schema.specs.Sound.{is_sound_row};
ghost use Rattle.session_rules.specs.Requests as requests;
ghost use Rattle.session_rules.specs.Requests.{row_reading, load_wish, IsBad};
ghost use Rattle.request_loop.specs.Reading.{Rows as Begun, begun_rows, with_row};
ghost use Rattle.request_loop.specs.Gathered.{IsGathered, IsKept, ComesTo};

use command_words::{Bad, read_row};
use plan_schema::{Change, FieldFault, Key, Name, Record, Rows};
use std::alloc::Global;

/// A LOAD of which some rows were read.
#[derive(Drop)]
pub(crate) struct Gathering {
    /// The number of its line.
    pub(crate) line: u64,
    pub(crate) scenario: Name,
    /// How many rows it has.
    pub(crate) count: u32,
    /// How many of them were read.
    pub(crate) read: u32,
    /// The rows that were read, up to the first fault.
    pub(crate) rows: Rows,
    /// The first fault of them.
    pub(crate) fault: Option<Bad>,
    /// Whether there was no memory for one of them.
    pub(crate) is_wanting: bool,
}

/// What a LOAD comes to, once all its rows were read.
#[derive(Drop)]
pub(crate) enum Gathered {
    /// It isn't in the grammar.
    Faulty(Bad),
    /// There was no memory for its rows.
    Wanting,
    Sound(Change),
}

impl Gathering {
    /// Before the first row.
    pub(crate) fn begin(alloc: Global, line: u64, scenario: &Name, count: u32) -> Gathering
        requires some_line { 1 ≤ line }
        requires most_lines { line ≤ LINE_LIMIT }
        requires some_rows { 1 ≤ count }
        requires most_rows { count ≤ 1000 }
        ensures { IsGathered (begun_rows line scenario.now count) result }
    {
        scenario.holds();
        Gathering {
            line,
            scenario: *scenario,
            count,
            read: 0,
            rows: Rows::new(alloc),
            fault: None,
            is_wanting: false,
        }
    }

    /// Takes the next line as a row.
    pub(crate) fn add(&mut self, number: u64, line: Option<&[u8]>)
        requires few { self.old.read < 1000 }
        requires short { IfSome (option_map (λ text. text.now) line) (λ text. length text ≤ 1024) }
        ensures { (r : Begun) → IsGathered r self.old
            → IsGathered (with_row r (number, option_map (λ text. text.now) line.entry)) self.new }
    {
        self.read += 1;
        let row = row_in_line(self.read, number, line);
        self.keep(row);
    }

    /// Keeps a row, or why it is none.
    fn keep(&mut self, row: Result<(Key, Record), Bad>)
        requires { IfOk row (λ row. is_sound_row row.0 row.1 ≡ true) }
        ensures { IsKept row self.old self.new }
    {
        match row {
            Ok(row) => self.keep_row(row),
            Err(bad) => self.keep_fault(bad),
        }
    }

    fn keep_fault(&mut self, bad: Bad)
        ensures { IsKept (Err bad) self.old self.new }
    {
        if self.fault.is_none() {
            self.fault = Some(bad);
        }
    }

    /// Keeps a row, unless a fault or a want of memory came before it.
    fn keep_row(&mut self, row: (Key, Record))
        requires { is_sound_row row.0 row.1 ≡ true }
        ensures { IsKept (Ok row) self.old self.new }
    {
        if self.fault.is_some() || self.is_wanting {
            return;
        }
        if self.rows.push(row).is_err() {
            self.is_wanting = true;
        }
    }

    /// What it comes to, once its last row was read.
    pub(crate) fn finish(self) -> Gathered
        requires { self.read ≡ self.count }
        ensures { (r : Begun) → IsGathered r self
            → ComesTo (load_wish r.scenario r.count r.rows) result }
    {
        let Gathering {
            scenario,
            rows,
            fault,
            is_wanting,
            ..
        } = self;
        match fault {
            Some(bad) => Gathered::Faulty(bad),
            None if is_wanting => Gathered::Wanting,
            None => Gathered::Sound(Change::Load { scenario, rows }),
        }
    }

    /// Why it isn't in the grammar, where its last rows are missing.
    pub(crate) fn cut_short(self) -> Bad
        requires { self.read < self.count }
        ensures { (r : Begun) → IsGathered r self → load_wish r.scenario r.count r.rows
            ≡ IsBad result }
    {
        self.fault.unwrap_or(Bad::Short)
    }
}

/// The row with this number that a line is, or why it is none.
fn row_in_line(row: u32, _number: u64, line: Option<&[u8]>) -> Result<(Key, Record), Bad>
    requires { IfSome (option_map (λ text. text.now) line) (λ text. length text ≤ 1024) }
    ensures value { result ≡ row_reading row (_number, option_map (λ text. text.now) line.entry) }
    ensures sound { IfOk result (λ row. is_sound_row row.0 row.1 ≡ true) }
{
    match line {
        Some(text) => in_row(row, read_row(text)),
        None => Err(Bad::RowLong(row)),
    }
}

/// A fault of a field as a fault of the row with this number.
fn in_row(row: u32, read: Result<(Key, Record), FieldFault>) -> Result<(Key, Record), Bad>
    ensures { result ≡ requests.in_row row read }
{
    match read {
        Ok(row) => Ok(row),
        Err(fault) => Err(Bad::Row(row, fault)),
    }
}
