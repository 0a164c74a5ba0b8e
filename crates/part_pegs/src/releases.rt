//! What the parents of a part release.
ghost use Rattle.std.specs.Prelude.{◌≡◌, ◌++◌, ◌∷◌, [], true, IfOk, OnOk};
ghost use Rattle.part_pegs.specs.ParentLists.{parent_lists, parents_are_planned};

use crate::planned::outcome_of;
use plan_schema::{Key, Record, Release};
use query_rows::Plans;
use record_versions::Cell;
use std::alloc::{AllocError, Global};

/// Adds the release list of the parent of a row, if that is a bill.
fn add_release<P: Plans>(
    releases: &mut Vec<Release>,
    key: &Key,
    value: &Record,
    plans: &P,
) -> Result<(), AllocError>
    requires { parents_are_planned (P.plans plans.now) ((key.now, value.now) ∷ []) ≡ true }
    ensures { OnOk result (releases.new.items ≡ releases.old.items
        ++ parent_lists (P.plans plans.now) ((key.now, value.now) ∷ [])) }
{
    if let (Key::Bill { parent, .. }, Record::Bill { .. }) = (key, value) {
        releases.push(outcome_of(plans, parent).release.share()?)?;
    }
    Ok(())
}

/// The release lists of the parents in the bills of a cell, in the order of the bills.
pub fn parent_releases<P: Plans>(
    alloc: Global,
    cell: &Cell,
    plans: &P,
) -> Result<Vec<Release>, AllocError>
    requires { parents_are_planned (P.plans plans.now) cell.now ≡ true }
    ensures { IfOk result (λ releases. releases.items ≡ parent_lists (P.plans plans.now) cell.now) }
{
    let mut releases = Vec::new(alloc);
    for (key, value) in cell.iter() {
        add_release(&mut releases, &key, &value, plans)?;
    }
    Ok(releases)
}
