//! The names that a job asks for.
ghost use Rattle.std.specs.Prelude.{◌≡◌, ◌++◌, OnOk, IfOk, filter_map};
ghost use Rattle.query_rules.specs.Queries.{part_in as part_of};
ghost use Rattle.walk_rules.specs.Cells.{records};
ghost use Rattle.plan_jobs.specs.Jobs.{asked_by};

use plan_jobs::{CellList, Job, Wanted};
use plan_schema::{Key, Name};
use record_versions::Cell;
use std::alloc::{AllocError, Global};

/// Adds the part that a cell is of, if it is of one.
fn add_parts(cell: &Cell, names: &mut Vec<Name>) -> Result<(), AllocError>
    ensures { OnOk result (names.new.items ≡ names.old.items ++ filter_map part_of cell.now) }
{
    for (key, _) in cell.iter() {
        if let Key::Part(name) = key {
            names.push(name)?;
        }
    }
    Ok(())
}

/// All parts.
fn all_parts(alloc: Global, cells: &CellList) -> Result<Vec<Name>, AllocError>
    ensures { IfOk result (λ names. names.items ≡ filter_map part_of (records cells.now)) }
{
    let mut names = Vec::with_capacity(alloc, cells.len())?;
    let cells = cells.as_slice();
    for (_id, cell) in cells {
        add_parts(cell, &mut names)?;
    }
    Ok(names)
}

/// The names whose plans a job asks for.
pub fn asked_names(alloc: Global, job: &Job) -> Result<Vec<Name>, AllocError>
    ensures { IfOk result (λ names. names.items ≡ asked_by (records job.now.cells) job.now.wanted) }
{
    match job.wanted {
        Wanted::All => all_parts(alloc, &job.cells),
        Wanted::Part(name) => {
            let mut names = Vec::new(alloc);
            names.push(name)?;
            Ok(names)
        }
        Wanted::Cell(_) => Ok(Vec::new(alloc)),
    }
}
