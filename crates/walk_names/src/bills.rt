//! The bills of a job.
ghost use Rattle.std.specs.Prelude.{◌≡◌, ◌++◌, OnOk, IfOk, filter_map};
ghost use Rattle.walk_rules.specs.Cells.{records};
ghost use Rattle.walk_names.specs.Bills.{bill_pair};

use plan_jobs::CellList;
use plan_schema::{Key, Name, Record};
use record_versions::Cell;
use std::alloc::{AllocError, Global};

/// The component and the parent of a bill.
fn bill_in(key: &Key, value: &Record) -> Option<(Name, Name)>
    ensures { result ≡ bill_pair (key.now, value.now) }
{
    match (key, value) {
        (Key::Bill { parent, component }, Record::Bill { .. }) => Some((*component, *parent)),
        _ => None,
    }
}

/// Adds the bills of a cell.
fn add_bills(cell: &Cell, bills: &mut Vec<(Name, Name)>) -> Result<(), AllocError>
    ensures { OnOk result (bills.new.items ≡ bills.old.items ++ filter_map bill_pair cell.now) }
{
    for (key, value) in cell.iter() {
        if let Some(bill) = bill_in(&key, value) {
            bills.push(bill)?;
        }
    }
    Ok(())
}

/// The bills of all cells.
pub fn all_bills(alloc: Global, cells: &CellList) -> Result<Vec<(Name, Name)>, AllocError>
    ensures { IfOk result (λ bills. bills.items ≡ filter_map bill_pair (records cells.now)) }
{
    let mut bills = Vec::with_capacity(alloc, cells.len())?;
    let cells = cells.as_slice();
    for (_id, cell) in cells {
        add_bills(cell, &mut bills)?;
    }
    Ok(bills)
}
