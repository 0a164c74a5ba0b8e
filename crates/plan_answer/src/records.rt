//! Answers from records alone.
ghost use Rattle.std.specs.Prelude.{◌≡◌, true, map, IfOk};
ghost use Rattle.plan_schema.specs.Contents.{cell_rows};
ghost use Rattle.row_text.specs.Spelling.{row_text};
ghost use Rattle.walk_rules.specs.Cells.{records};
ghost use Rattle.plan_jobs.specs.Jobs.{IsJob};

use command_words::Lines;
use plan_jobs::Job;
use plan_schema::CellName;
use record_versions::Cell;
use row_text::row_bytes;
use std::alloc::{AllocError, Global};

/// The rows of a cell; none where it isn't there.
pub fn shown_rows(alloc: Global, job: &Job, name: &CellName) -> Result<Lines, AllocError>
    requires { IsJob job.now.wanted job.now.cells }
    ensures { IfOk result (λ lines. lines
        ≡ map (λ row. row_text row.0 row.1) (cell_rows (records job.now.cells) name.now)) }
{
    match job.cells.get(name) {
        Some((_, cell)) => row_lines(alloc, cell),
        None => Ok(Lines::new(alloc)),
    }
}

/// The rows of a cell, one a line.
fn row_lines(alloc: Global, cell: &Cell) -> Result<Lines, AllocError>
    ensures { IfOk result (λ lines. lines ≡ map (λ row. row_text row.0 row.1) cell.now) }
{
    let mut lines = Lines::new(alloc);
    for (key, value) in cell.iter() {
        lines.push(row_bytes(&key, &value).as_slice())?;
    }
    Ok(lines)
}
