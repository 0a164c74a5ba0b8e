//! Whether a parent has changed under the own changes of a child.
ghost use Rattle.std.specs.Prelude.{◌≡◌, map};
ghost use Rattle.std.specs.Option.{option_copied};
ghost use Rattle.plan_schema.specs.Refusals.{first_of};
ghost use Rattle.scenario_rules.specs.Same.{same_record, same_option};
ghost use Rattle.scenario_rules.specs.World.{contents_of};
ghost use Rattle.scenario_rules.specs.Refused.{conflict_at};
ghost use Rattle.record_versions.specs.Versions.{cell_at};
ghost use Rattle.scenario_cells.specs.Held.{IsHeld, scenario_by, contents_by};

use crate::held::Held;
use crate::rows::row;
use plan_schema::{Record, Refusal};
use record_versions::Store;

/// Whether two records are the same, field by field.
fn same_records(one: &Record, other: &Record) -> bool
    ensures { result ≡ same_record one.now other.now }
{
    one == other
}

/// Whether two records that may be missing are the same: a missing one is the same as a missing one alone.
fn same_rows(one: Option<&Record>, other: Option<&Record>) -> bool
    ensures { result ≡ same_option same_record (option_copied one.entry)
        (option_copied other.entry) }
{
    match one {
        None => other.is_none(),
        Some(one) => match other {
            None => false,
            Some(other) => same_records(one, other),
        },
    }
}

/// The first own change of a child under whose key the parent's record differs from the base's.
pub fn conflict(above: &Held, child: &Held, store: &Store) -> Option<Refusal>
    requires above { IsHeld (cell_at store.now) above.now }
    requires child { IsHeld (cell_at store.now) child.now }
    ensures { result ≡ first_of (map (conflict_at (contents_of (scenario_by (cell_at store.now)
        above.now)) (contents_by (cell_at store.now) child.now.base)) child.now.own) }
{
    for (key, _value) in child.own.iter() {
        let mine = row(&child.base, store, &key);
        if !same_rows(row(&above.ids, store, &key), mine) {
            return Some(Refusal::Conflict(key));
        }
    }
    None
}
