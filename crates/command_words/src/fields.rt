//! The fields of each command.
ghost use Rattle.std.specs.Prelude.{◌≡◌, ◌≤◌, ◌+◌, length, drop};
ghost use Rattle.row_text.specs.Row as rows;
ghost use Rattle.row_text.specs.Texts.{texts};
ghost use Rattle.command_words.specs.Commands as spec;

use crate::command::Command;
use crate::query::QueryText;
use crate::reply::Bad;
use plan_schema::{CellName, FieldFault, Key, Name, Record, Rule};
use query_language::check_query;
use row_text::{day_at, end_at, is_word, name_at, number_at, read_key, read_record, text_at};

/// The name that is the one field.
#[tactic(auto, unfolding(crate::specs::Commands::only_name))]
fn only_name(words: &[&[u8]]) -> Result<Name, FieldFault>
    ensures { result ≡ spec.only_name (texts words.now) }
{
    let name = name_at(words, 1)?;
    end_at(words, 2)?;
    Ok(name)
}

/// The two names that are the fields.
#[tactic(auto, unfolding(crate::specs::Commands::two_names))]
fn two_names(words: &[&[u8]]) -> Result<(Name, Name), FieldFault>
    ensures { result ≡ spec.two_names (texts words.now) }
{
    let first = name_at(words, 1)?;
    let second = name_at(words, 2)?;
    end_at(words, 3)?;
    Ok((first, second))
}

/// A fault of a row behind the scenario as a fault of the line.
fn in_line(fault: FieldFault) -> FieldFault
    requires { fault.field ≤ 6 }
    ensures { result ≡ record { field = fault.field + 2; rule = fault.rule } }
{
    FieldFault::at(fault.field + 2, fault.rule)
}

/// The row behind the scenario.
fn row_behind(words: &[&[u8]]) -> Result<(Key, Record), FieldFault>
    ensures { result ≡ spec.behind_scenario (rows.row_of (drop 2 (texts words.now))) }
{
    let fields = &words[words.len().min(2)..];
    match read_record(fields) {
        Ok(row) => Ok(row),
        Err(fault) => Err(in_line(fault)),
    }
}

/// The key form behind the scenario.
fn key_behind(words: &[&[u8]]) -> Result<Key, FieldFault>
    ensures { result ≡ spec.behind_scenario (rows.key_of (drop 2 (texts words.now))) }
{
    let fields = &words[words.len().min(2)..];
    match read_key(fields) {
        Ok(key) => Ok(key),
        Err(fault) => Err(in_line(fault)),
    }
}

#[tactic(auto, unfolding(crate::specs::Commands::hello_of))]
pub(crate) fn hello<'a>(words: &[&'a [u8]]) -> Result<Command<'a>, Bad>
    ensures { result ≡ spec.in_fields (spec.hello_of (texts words.now)) }
{
    let user = only_name(words)?;
    Ok(Command::Hello(user))
}

#[tactic(auto, unfolding(crate::specs::Commands::point_of))]
pub(crate) fn point<'a>(words: &[&'a [u8]]) -> Result<Command<'a>, Bad>
    ensures { result ≡ spec.in_fields (spec.point_of (texts words.now)) }
{
    end_at(words, 1)?;
    Ok(Command::Point)
}

#[tactic(auto, unfolding(crate::specs::Commands::put_of))]
pub(crate) fn put<'a>(words: &[&'a [u8]]) -> Result<Command<'a>, Bad>
    ensures { result ≡ spec.in_fields (spec.put_of (texts words.now)) }
{
    let scenario = name_at(words, 1)?;
    let (key, value) = row_behind(words)?;
    Ok(Command::Put {
        scenario,
        key,
        value,
    })
}

#[tactic(auto, unfolding(crate::specs::Commands::del_of))]
pub(crate) fn del<'a>(words: &[&'a [u8]]) -> Result<Command<'a>, Bad>
    ensures { result ≡ spec.in_fields (spec.del_of (texts words.now)) }
{
    let scenario = name_at(words, 1)?;
    let key = key_behind(words)?;
    Ok(Command::Del { scenario, key })
}

#[tactic(auto, unfolding(crate::specs::Commands::load_of))]
pub(crate) fn load<'a>(words: &[&'a [u8]]) -> Result<Command<'a>, Bad>
    ensures { result ≡ spec.in_fields (spec.load_of (texts words.now)) }
{
    let scenario = name_at(words, 1)?;
    let count = number_at(words, 2, 1, 1_000)?;
    end_at(words, 3)?;
    Ok(Command::Load {
        scenario,
        count: count as u32,
    })
}

#[tactic(auto, unfolding(crate::specs::Commands::branch_of))]
pub(crate) fn branch<'a>(words: &[&'a [u8]]) -> Result<Command<'a>, Bad>
    ensures { result ≡ spec.in_fields (spec.branch_of (texts words.now)) }
{
    let (parent, child) = two_names(words)?;
    Ok(Command::Branch { parent, child })
}

#[tactic(auto, unfolding(crate::specs::Commands::share_of))]
pub(crate) fn share<'a>(words: &[&'a [u8]]) -> Result<Command<'a>, Bad>
    ensures { result ≡ spec.in_fields (spec.share_of (texts words.now)) }
{
    let scenario = only_name(words)?;
    Ok(Command::Share(scenario))
}

#[tactic(auto, unfolding(crate::specs::Commands::update_of))]
pub(crate) fn update<'a>(words: &[&'a [u8]]) -> Result<Command<'a>, Bad>
    ensures { result ≡ spec.in_fields (spec.update_of (texts words.now)) }
{
    let scenario = only_name(words)?;
    Ok(Command::Update(scenario))
}

#[tactic(auto, unfolding(crate::specs::Commands::commit_of))]
pub(crate) fn commit<'a>(words: &[&'a [u8]]) -> Result<Command<'a>, Bad>
    ensures { result ≡ spec.in_fields (spec.commit_of (texts words.now)) }
{
    let scenario = only_name(words)?;
    Ok(Command::Commit(scenario))
}

#[tactic(auto, unfolding(crate::specs::Commands::drop_of))]
pub(crate) fn drop_scenario<'a>(words: &[&'a [u8]]) -> Result<Command<'a>, Bad>
    ensures { result ≡ spec.in_fields (spec.drop_of (texts words.now)) }
{
    let scenario = only_name(words)?;
    Ok(Command::Drop(scenario))
}

#[tactic(auto, unfolding(crate::specs::Commands::tree_of))]
pub(crate) fn tree<'a>(words: &[&'a [u8]]) -> Result<Command<'a>, Bad>
    ensures { result ≡ spec.in_fields (spec.tree_of (texts words.now)) }
{
    end_at(words, 1)?;
    Ok(Command::Tree)
}

/// The cell that the fields behind the scenario name.
#[tactic(auto, unfolding(crate::specs::Commands::cell_of_word))]
fn cell(word: &[u8], words: &[&[u8]]) -> Result<CellName, FieldFault>
    ensures { result ≡ spec.cell_of_word word.now (texts words.now) }
{
    if is_word(word, b"PLAN") {
        return plan_cell(words);
    }
    if is_word(word, b"CAL") {
        return calendar_cell(words);
    }
    if is_word(word, b"PART") {
        return part_cell(words);
    }
    Err(FieldFault::at(2, Rule::Shape))
}

#[tactic(auto, unfolding(crate::specs::Commands::plan_cell_of))]
fn plan_cell(words: &[&[u8]]) -> Result<CellName, FieldFault>
    ensures { result ≡ spec.plan_cell_of (texts words.now) }
{
    end_at(words, 3)?;
    Ok(CellName::Plan)
}

#[tactic(auto, unfolding(crate::specs::Commands::cal_cell_of))]
fn calendar_cell(words: &[&[u8]]) -> Result<CellName, FieldFault>
    ensures { result ≡ spec.cal_cell_of (texts words.now) }
{
    let name = name_at(words, 3)?;
    end_at(words, 4)?;
    Ok(CellName::Cal(name))
}

#[tactic(auto, unfolding(crate::specs::Commands::part_cell_of))]
fn part_cell(words: &[&[u8]]) -> Result<CellName, FieldFault>
    ensures { result ≡ spec.part_cell_of (texts words.now) }
{
    let name = name_at(words, 3)?;
    end_at(words, 4)?;
    Ok(CellName::Part(name))
}

#[tactic(auto, unfolding(crate::specs::Commands::show_of))]
pub(crate) fn show<'a>(words: &[&'a [u8]]) -> Result<Command<'a>, Bad>
    ensures { result ≡ spec.in_fields (spec.show_of (texts words.now)) }
{
    let scenario = name_at(words, 1)?;
    let word = text_at(words, 2)?;
    let cell = cell(word, words)?;
    Ok(Command::Show { scenario, cell })
}

#[tactic(auto, unfolding(crate::specs::Commands::level_of))]
pub(crate) fn level<'a>(words: &[&'a [u8]]) -> Result<Command<'a>, Bad>
    ensures { result ≡ spec.in_fields (spec.level_of (texts words.now)) }
{
    let (scenario, part) = two_names(words)?;
    Ok(Command::Level { scenario, part })
}

#[tactic(auto, unfolding(crate::specs::Commands::plan_of))]
pub(crate) fn plan<'a>(words: &[&'a [u8]]) -> Result<Command<'a>, Bad>
    ensures { result ≡ spec.in_fields (spec.plan_of (texts words.now)) }
{
    let (scenario, part) = two_names(words)?;
    Ok(Command::Plan { scenario, part })
}

#[tactic(auto, unfolding(crate::specs::Commands::peg_of))]
pub(crate) fn peg<'a>(words: &[&'a [u8]]) -> Result<Command<'a>, Bad>
    ensures { result ≡ spec.in_fields (spec.peg_of (texts words.now)) }
{
    let scenario = name_at(words, 1)?;
    let part = name_at(words, 2)?;
    let day = day_at(words, 3)?;
    end_at(words, 4)?;
    Ok(Command::Peg {
        scenario,
        part,
        day,
    })
}

#[tactic(auto, unfolding(crate::specs::Commands::trace_of))]
pub(crate) fn trace<'a>(words: &[&'a [u8]]) -> Result<Command<'a>, Bad>
    ensures { result ≡ spec.in_fields (spec.trace_of (texts words.now)) }
{
    let scenario = name_at(words, 1)?;
    let part = name_at(words, 2)?;
    let day = day_at(words, 3)?;
    end_at(words, 4)?;
    Ok(Command::Trace {
        scenario,
        part,
        day,
    })
}

#[tactic(auto, unfolding(crate::specs::Commands::cost_of))]
pub(crate) fn cost<'a>(words: &[&'a [u8]]) -> Result<Command<'a>, Bad>
    ensures { result ≡ spec.in_fields (spec.cost_of (texts words.now)) }
{
    let (scenario, part) = two_names(words)?;
    Ok(Command::Cost { scenario, part })
}

#[tactic(auto, unfolding(crate::specs::Commands::atp_of))]
pub(crate) fn atp<'a>(words: &[&'a [u8]]) -> Result<Command<'a>, Bad>
    ensures { result ≡ spec.in_fields (spec.atp_of (texts words.now)) }
{
    let (scenario, part) = two_names(words)?;
    Ok(Command::Atp { scenario, part })
}

#[tactic(auto, unfolding(crate::specs::Commands::select_of))]
pub(crate) fn select<'a>(line: &'a [u8], words: &[&'a [u8]]) -> Result<Command<'a>, Bad>
    requires { length line.now ≤ 1024 }
    ensures { result ≡ spec.in_fields (spec.select_of line.now (texts words.now)) }
{
    let scenario = name_at(words, 1)?;
    text_at(words, 2)?;
    let query = QueryText::of_line(line);
    match check_query(query.as_bytes()) {
        Ok(()) => Ok(Command::Select { scenario, query }),
        Err(fault) => Err(Bad::Query(fault)),
    }
}

#[tactic(auto, unfolding(crate::specs::Commands::reclaim_of))]
pub(crate) fn reclaim<'a>(words: &[&'a [u8]]) -> Result<Command<'a>, Bad>
    ensures { result ≡ spec.in_fields (spec.reclaim_of (texts words.now)) }
{
    end_at(words, 1)?;
    Ok(Command::Reclaim)
}

#[tactic(auto, unfolding(crate::specs::Commands::quit_of))]
pub(crate) fn quit<'a>(words: &[&'a [u8]]) -> Result<Command<'a>, Bad>
    ensures { result ≡ spec.in_fields (spec.quit_of (texts words.now)) }
{
    end_at(words, 1)?;
    Ok(Command::Quit)
}
