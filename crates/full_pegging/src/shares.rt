//! The shares of units that have come to their ends.
ghost use Rattle.std.specs.Prelude.{◌≡◌, ◌<◌, ◌^◌, ◌++◌, map, IfOk, OnOk};
ghost use Rattle.std.specs.Prelude.{option_to_list};
ghost use Rattle.std.specs.List.{filter_map};
ghost use Rattle.planning_rules.specs.Trace.{End, demand_end, surplus_end};
ghost use Rattle.record_versions.specs.Shown.{cells_of};
ghost use Rattle.walk_rules.specs.Cells.{records};
ghost use Rattle.full_pegging.specs.Following.{shown_share};
ghost use Rattle.full_pegging.specs.Shares.{landed_at, counted_at, shares_by};

use crate::at_ends::{Counts, counts_of};
use crate::share::Share;
use plan_schema::{Key, Record};
use record_versions::{Cell, VersionId};
use std::alloc::{AllocError, Global};
use std::sync::Arc;

/// The share of the demand that a row is, if units end there.
fn demand_share(counts: &Counts, key: &Key, value: &Record) -> Option<Share>
    ensures { map shown_share (option_to_list result)
        ≡ shares_by (counted_at counts.now.by_key.entries)
        (option_to_list (demand_end (key.now, value.now))) }
{
    let Key::Demand(part, order) = key else {
        return None;
    };
    let qty = counts.at(key);
    if qty == 0 {
        return None;
    }
    Some(Share::Demand {
        part: *part,
        order: *order,
        qty,
    })
}

/// The share that is surplus of the part that a row is, if there is any.
fn surplus_share(counts: &Counts, key: &Key, value: &Record) -> Option<Share>
    ensures { map shown_share (option_to_list result)
        ≡ shares_by (counted_at counts.now.by_key.entries)
        (option_to_list (surplus_end (key.now, value.now))) }
{
    let Key::Part(part) = key else {
        return None;
    };
    let qty = counts.at(key);
    if qty == 0 {
        return None;
    }
    Some(Share::Surplus { part: *part, qty })
}

/// Adds the shares of the demands of a cell.
fn add_demands(shares: &mut Vec<Share>, counts: &Counts, cell: &Cell) -> Result<(), AllocError>
    ensures { OnOk result (map shown_share shares.new.items ≡ map shown_share shares.old.items
        ++ shares_by (counted_at counts.now.by_key.entries) (filter_map demand_end cell.now)) }
{
    for (key, value) in cell.iter() {
        if let Some(share) = demand_share(counts, &key, &value) {
            shares.push(share)?;
        }
    }
    Ok(())
}

/// Adds the surplus of the part of a cell.
fn add_surplus(shares: &mut Vec<Share>, counts: &Counts, cell: &Cell) -> Result<(), AllocError>
    ensures { OnOk result (map shown_share shares.new.items ≡ map shown_share shares.old.items
        ++ shares_by (counted_at counts.now.by_key.entries) (filter_map surplus_end cell.now)) }
{
    for (key, value) in cell.iter() {
        if let Some(share) = surplus_share(counts, &key, &value) {
            shares.push(share)?;
        }
    }
    Ok(())
}

/// The shares of the demands of cells.
fn demands_in(
    alloc: Global,
    counts: &Counts,
    cells: &[(VersionId, Arc<Cell>)],
) -> Result<Vec<Share>, AllocError>
    ensures { IfOk result (λ shares. map shown_share shares.items
        ≡ shares_by (counted_at counts.now.by_key.entries) (filter_map demand_end (records (cells_of cells.now)))) }
{
    let mut shares = Vec::new(alloc);
    for (_id, cell) in cells {
        add_demands(&mut shares, counts, cell)?;
    }
    Ok(shares)
}

/// Where units end, by the rows of cells: first the demands, and then what is surplus, each with a quantity above 0.
pub fn shares_in(
    alloc: Global,
    landed: &[Share],
    cells: &[(VersionId, Arc<Cell>)],
) -> Result<Vec<Share>, AllocError>
    requires { (end : End) → landed_at landed.now end < 2 ^ 64 }
    ensures { IfOk result (λ shares. let c = records (cells_of cells.now) in
        map shown_share shares.items
        ≡ shares_by (landed_at landed.now) (filter_map demand_end c ++ filter_map surplus_end c)) }
{
    let counts = counts_of(alloc, landed)?;
    let mut shares = demands_in(alloc, &counts, cells)?;
    for (_id, cell) in cells {
        add_surplus(&mut shares, &counts, cell)?;
    }
    Ok(shares)
}
