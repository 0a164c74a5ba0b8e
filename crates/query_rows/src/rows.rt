//! The rows of a query.
ghost use Rattle.std.specs.Prelude.{◌≡◌, ◌++◌, true, false, map, None, IfOk, OnOk, Option, is_some};
ghost use Rattle.std.specs.Option.{option_copied};
ghost use Rattle.plan_schema.specs.declared.name.Name.{Name};
ghost use Rattle.planning_rules.specs.Plan.{Known};
ghost use Rattle.query_language.specs.Trees.{query_tree};
ghost use Rattle.record_versions.specs.Shown.{cells_of};
ghost use Rattle.plan_schema.specs.declared.change.CellName.TheVariants as names;
ghost use Rattle.plan_schema.specs.declared.key.Key.TheVariants as keys;
ghost use Rattle.plan_schema.specs.Contents.{is_ordered, record_at};
ghost use Rattle.walk_rules.specs.Cells.{records, are_own_rows, are_own_cells};
ghost use Rattle.query_rules.specs.Queries.{asks_for_plan, selected_from};
ghost use Rattle.query_rules.specs.Lines.{select_line, select_lines};
ghost use Rattle.query_rows.specs.Rows.{row_with, rows_in, rows_over, values_of};

use crate::condition::is_selected;
use crate::line::add_line;
use crate::part::Part;
use command_words::Lines;
use plan_jobs::Job;
use plan_schema::{CellName, Key, Known, Name};
use query_language::Query;
use record_versions::{Cell, VersionId};
use std::alloc::{AllocError, Global};
use std::sync::Arc;

/// What is known of the plans of parts.
pub trait Plans {
    ghost plans: { Self → Name → Option Known };

    /// What is known of a part's plan.
    fn known(&self, part: &Name) -> Option<&Known>
        ensures { option_copied result ≡ plans self.now part.now };
}

/// No plan is known.
struct NoPlans;

impl Plans for NoPlans {
    ghost plans = { λ _ part. None };

    fn known(&self, _: &Name) -> Option<&Known> {
        None
    }
}

/// Whether a cell has the record of its part: it may hold orders and bills of a name that is no part.
fn is_part(name: &Name, cell: &Cell) -> bool
    ensures part { result ≡ is_some (record_at cell.now (keys.Part name.now)) }
    ensures ordered { is_ordered cell.now ≡ true }
{
    cell.len() > 0 && cell.get(&Key::Part(*name)).is_some()
}

/// Adds the line of a cell's part, if it is the cell of one that is selected.
fn add_cell<P: Plans>(
    lines: &mut Lines,
    text: &mut Vec<u8>,
    query: &Query,
    id: &VersionId,
    cell: &Cell,
    plans: &P,
) -> Result<(), AllocError>
    requires { are_own_rows id.now.cell cell.now ≡ true }
    ensures { OnOk result (lines.new ≡ lines.old
        ++ map select_line (rows_in (P.plans plans.now) (query_tree query.now) cell.now)) }
{
    match &id.cell {
        CellName::Part(name) => add_named(lines, text, query, name, cell, plans),
        CellName::Plan | CellName::Cal(_) => Ok(()),
    }
}

/// Adds the line of the part of this name, if it is one that is selected.
fn add_named<P: Plans>(
    lines: &mut Lines,
    text: &mut Vec<u8>,
    query: &Query,
    name: &Name,
    cell: &Cell,
    plans: &P,
) -> Result<(), AllocError>
    requires { are_own_rows (names.Part name.now) cell.now ≡ true }
    ensures { OnOk result (lines.new ≡ lines.old
        ++ map select_line (rows_in (P.plans plans.now) (query_tree query.now) cell.now)) }
{
    if !is_part(name, cell) {
        return Ok(());
    }
    let known = plans.known(name);
    add_part(lines, text, query, &Part { name, cell, known })
}

/// Adds the line of a part, if it is selected.
fn add_part(
    lines: &mut Lines,
    text: &mut Vec<u8>,
    query: &Query,
    part: &Part<'_>,
) -> Result<(), AllocError>
    ensures { OnOk result (lines.new ≡ lines.old
        ++ map select_line (row_with (values_of part.now) part.now.name.now (query_tree query.now))) }
{
    if is_selected(&query.cond, part) {
        add_line(lines, text, part, query.columns.as_slice())?;
    }
    Ok(())
}

/// The lines of the selected parts among cells, in their order.
fn lines_over<P: Plans>(
    alloc: Global,
    query: &Query,
    cells: &[(VersionId, Arc<Cell>)],
    plans: &P,
) -> Result<Lines, AllocError>
    requires { are_own_cells (cells_of cells.now) ≡ true }
    ensures { IfOk result (λ lines. lines
        ≡ map select_line (rows_over (P.plans plans.now) (query_tree query.now)
        (cells_of cells.now))) }
{
    let mut lines = Lines::new(alloc);
    let mut text = Vec::new(alloc);
    for (id, cell) in cells {
        add_cell(&mut lines, &mut text, query, id, cell, plans)?;
    }
    Ok(lines)
}

/// The lines of a query that doesn't ask for the plan, over all parts of a job, by name.
pub fn rows_still(alloc: Global, query: &Query, job: &Job) -> Result<Lines, AllocError>
    requires still { asks_for_plan (query_tree query.now) ≡ false }
    requires own { are_own_cells job.now.cells ≡ true }
    ensures { IfOk result (λ lines. lines
        ≡ select_lines (records job.now.cells) (query_tree query.now)) }
{
    lines_over(alloc, query, job.cells.as_slice(), &NoPlans)
}

/// The lines of a query over all parts of a job, by name, where their plans are known.
pub fn rows_planned<P: Plans>(
    alloc: Global,
    query: &Query,
    job: &Job,
    plans: &P,
) -> Result<Lines, AllocError>
    requires { are_own_cells job.now.cells ≡ true }
    ensures { IfOk result (λ lines. lines ≡ map select_line
        (selected_from (P.plans plans.now) (records job.now.cells) (query_tree query.now))) }
{
    lines_over(alloc, query, job.cells.as_slice(), plans)
}
