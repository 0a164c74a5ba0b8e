//! The line of a selected part.
ghost use Rattle.std.specs.Prelude.{◌≡◌, ◌++◌, [], ◌∷◌, map, decimal, OnOk};
ghost use Rattle.row_text.specs.Spelling.{spaced};
ghost use Rattle.query_rules.specs.Lines.{select_line};
ghost use Rattle.query_rows.specs.Rows.{values_of};

use crate::part::Part;
use crate::value::value;
use command_words::Lines;
use itoa::Buffer;
use query_language::Column;
use std::alloc::AllocError;

/// Adds the line of a part: its name, and the values of the columns. The text is used again for each line.
pub fn add_line(
    lines: &mut Lines,
    text: &mut Vec<u8>,
    part: &Part<'_>,
    columns: &[Column],
) -> Result<(), AllocError>
    ensures { OnOk result (lines.new ≡ lines.old
        ++ select_line (part.now.name.now, map (values_of part.now) columns.now) ∷ []) }
{
    text.clear();
    text.extend_from_slice(part.name.as_bytes())?;
    add_values(text, part, columns)?;
    lines.push(text.as_slice())?;
    Ok(())
}

/// Adds the values of the columns, each behind a space.
fn add_values(text: &mut Vec<u8>, part: &Part<'_>, columns: &[Column]) -> Result<(), AllocError>
    ensures { OnOk result (text.new.items ≡ text.old.items
        ++ spaced (map decimal (map (values_of part.now) columns.now))) }
{
    for column in columns {
        add_number(text, value(part, *column))?;
    }
    Ok(())
}

/// Adds the digits of a number behind a space.
fn add_number(text: &mut Vec<u8>, number: u128) -> Result<(), AllocError>
    ensures { OnOk result (text.new.items ≡ text.old.items ++ 32 ∷ decimal number) }
{
    let mut buffer = Buffer::new();
    text.push(b' ')?;
    text.extend_from_slice(buffer.format(number).as_bytes())?;
    Ok(())
}
