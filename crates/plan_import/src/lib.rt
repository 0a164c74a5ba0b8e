//! Reading a base file: the records that a run begins with, as comma-separated values.
#![tactic(auto)]

ghost use Rattle.std.specs.Prelude.{◌≡◌, ◌≤◌, [], true, length, Ok, IfOk, IfErr, OnOk};
ghost use Rattle.csv.specs.Records.{fields_of};
ghost use Rattle.plan_schema.specs.Base.{is_base, part_count};
ghost use Rattle.plan_schema.specs.Sound.{is_sound_row, are_sound_rows};
ghost use Rattle.row_text.specs.Texts.{texts};
ghost use Rattle.plan_import.specs.BaseFile.{base_records, with_new, with_numbered, with_records, within_limits};
ghost use Rattle.plan_import.specs.BaseFile.{base_of_records};
ghost use Rattle.plan_import.specs.Imported.{Imported};
ghost use Rattle.plan_import.specs.Told.{Tells, TellsFault};

use byte_lines::{ReadAllFault, Source, read_all};
use csv::{ByteRecord, ReaderBuilder};
use plan_schema::limits::{PART_LIMIT, RECORD_LIMIT};
use plan_schema::{Contents, FieldFault, Key, Record, Room};
use row_text::read_record;
use std::alloc::{AllocError, Global};
use thiserror::Error;

/// The most bytes of a base file.
pub const BASE_BYTE_LIMIT: usize = 67_108_864;

/// Why a base wasn't read. Records are numbered from 1 in the order in which they are read; blank lines are no records.
#[derive(Clone, Copy, Debug, Error)]
pub enum ImportFault {
    #[error("the source failed")]
    Read,
    #[error("there is too much")]
    Full(Room),
    #[error("a record is no row")]
    Row(u32, FieldFault),
    #[error("a key stands twice")]
    Twice(u32),
    #[error("there is no horizon")]
    NoPlan,
    #[error("there is no memory")]
    Memory,
}

/// Reads a base. All bytes are read first; then the faults come in this order: too many bytes, the first record that is no row
/// or repeats a key, too many parts, too many records, no horizon.
pub fn import<S: Source>(alloc: Global, source: &mut S) -> Result<Contents, ImportFault>
    ensures { Imported S.left S.faults S.label source.old source.new result }
{
    match read_all(alloc, source, BASE_BYTE_LIMIT) {
        Ok(bytes) => import_text(alloc, bytes.as_slice()),
        Err(ReadAllFault::Failed) => Err(ImportFault::Read),
        Err(ReadAllFault::Large) => Err(ImportFault::Full(Room::Bytes)),
        Err(ReadAllFault::Memory) => Err(ImportFault::Memory),
    }
}

/// The contents of a base file's bytes.
fn import_text(alloc: Global, text: &[u8]) -> Result<Contents, ImportFault>
    requires { length text.now ≤ BASE_BYTE_LIMIT }
    ensures told { Tells (base_of_records (base_records text.now)) result }
    ensures base { IfOk result (λ contents. is_base contents ≡ true) }
{
    match import_records(alloc, text) {
        Ok(contents) => check_limits(contents),
        Err(fault) => Err(fault),
    }
}

/// The contents of the text's records, in order.
fn import_records(alloc: Global, text: &[u8]) -> Result<Contents, ImportFault>
    requires { length text.now ≤ BASE_BYTE_LIMIT }
    ensures told { Tells (with_records 1 [] (base_records text.now)) result }
    ensures sound { IfOk result (λ contents. are_sound_rows contents ≡ true) }
{
    let rdr = ReaderBuilder::new()
        .has_headers(false)
        .flexible(true)
        .from_reader(alloc, text);
    let mut contents = Contents::new(alloc);
    let mut count: u32 = 0;
    for row in rdr.into_byte_records() {
        let Ok(row) = row else {
            return Err(ImportFault::Memory);
        };
        count += 1;
        if let Err(fault) = add_row(alloc, &mut contents, count, &row) {
            return Err(fault);
        }
    }
    Ok(contents)
}

/// Adds the record with a number.
fn add_row(
    alloc: Global,
    contents: &mut Contents,
    number: u32,
    row: &ByteRecord,
) -> Result<(), ImportFault>
    ensures ok { OnOk result
        (with_numbered number contents.old (fields_of row.now) ≡ Ok contents.new) }
    ensures err { IfErr result
        (TellsFault (with_numbered number contents.old (fields_of row.now))) }
    ensures sound { are_sound_rows contents.old ≡ true → are_sound_rows contents.new ≡ true }
{
    match fields_of_row(alloc, row) {
        Ok(fields) => add_fields(contents, number, fields.as_slice()),
        Err(_) => Err(ImportFault::Memory),
    }
}

/// Adds the row that the fields spell.
#[tactic(auto, unfolding(crate::specs::BaseFile::with_numbered))]
fn add_fields(contents: &mut Contents, number: u32, fields: &[&[u8]]) -> Result<(), ImportFault>
    ensures ok { OnOk result
        (with_numbered number contents.old (texts fields.now) ≡ Ok contents.new) }
    ensures err { IfErr result (TellsFault (with_numbered number contents.old (texts fields.now))) }
    ensures sound { are_sound_rows contents.old ≡ true → are_sound_rows contents.new ≡ true }
{
    match read_record(fields) {
        Ok((key, value)) => add_new(contents, number, key, value),
        Err(fault) => Err(ImportFault::Row(number, fault)),
    }
}

/// Adds a row whose key mustn't be there.
#[tactic(auto, unfolding(crate::specs::BaseFile::with_new), using(plan_schema::proofs::Orders::sound_with_record))]
fn add_new(contents: &mut Contents, number: u32, key: Key, value: Record) -> Result<(), ImportFault>
    requires { is_sound_row key value ≡ true }
    ensures ok { OnOk result (with_new number contents.old (key, value) ≡ Ok contents.new) }
    ensures err { IfErr result (TellsFault (with_new number contents.old (key, value))) }
    ensures sound { are_sound_rows contents.old ≡ true → are_sound_rows contents.new ≡ true }
{
    match contents.put(key, value) {
        Ok(None) => Ok(()),
        Ok(Some(_)) => Err(ImportFault::Twice(number)),
        Err(_) => Err(ImportFault::Memory),
    }
}

/// The fields of a record.
fn fields_of_row<'a>(alloc: Global, row: &'a ByteRecord) -> Result<Vec<&'a [u8]>, AllocError>
    ensures { IfOk result (λ fields. texts fields.items ≡ fields_of row.now) }
{
    let mut fields = Vec::with_capacity(alloc, row.len())?;
    for field in row.iter() {
        fields.push(field)?;
    }
    Ok(fields)
}

/// The contents, where they are within the limits and have a horizon.
#[tactic(auto, unfolding(crate::specs::BaseFile::within_limits))]
fn check_limits(contents: Contents) -> Result<Contents, ImportFault>
    requires { are_sound_rows contents ≡ true }
    ensures value { result ≡ within_limits contents }
    ensures base { IfOk result (λ checked. is_base checked ≡ true) }
{
    if contents.parts() > PART_LIMIT {
        return Err(ImportFault::Full(Room::Parts));
    }
    if contents.len() > RECORD_LIMIT {
        return Err(ImportFault::Full(Room::Records));
    }
    if contents.get(&Key::Plan).is_none() {
        return Err(ImportFault::NoPlan);
    }
    Ok(contents)
}
