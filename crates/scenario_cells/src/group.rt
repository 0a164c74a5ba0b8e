//! The records that the root begins with, in cells.
ghost use Rattle.std.specs.Prelude.{◌≡◌, true, false, None, [], IfOk, IfSome};
ghost use Rattle.plan_schema.specs.Base.{part_count};
ghost use Rattle.plan_schema.specs.Contents.{is_ordered};
ghost use Rattle.scenario_rules.specs.World as world;
ghost use Rattle.scenario_cells.specs.Grouped.{IsGrouped};

use crate::held::Held;
use crate::rows::put_row_in;
use cell_tree::Tree;
use plan_schema::{Contents, Name};
use record_versions::{Ids, Store};
use std::alloc::{AllocError, Global};

/// The name of the root.
const ROOT: &[u8] = b"Baseline";

/// Cells and their ids.
#[derive(Drop)]
pub struct Grouped {
    pub store: Store,
    pub ids: Ids,
}

/// Records in cells of number 0.
pub fn regroup(alloc: Global, contents: &Contents) -> Result<Grouped, AllocError>
    requires { is_ordered contents.now ≡ true }
    ensures { IfOk result (λ grouped. IsGrouped contents.now grouped.store grouped.ids) }
{
    let mut store = Store::new(alloc);
    let mut ids = Ids::new(alloc);
    for (key, value) in contents.iter() {
        put_row_in(alloc, &mut ids, &mut store, 0, key, &Some(*value))?;
    }
    Ok(Grouped { store, ids })
}

/// Whether a name is the root's.
pub fn is_root(name: &Name) -> bool
    ensures { result ≡ world.is_root name.now }
{
    name.as_bytes() == ROOT
}

/// The name of the root.
pub fn root_name() -> Option<Name>
    ensures { IfSome result (λ name. name ≡ world.root) }
{
    Name::read(ROOT)
}

/// The root with the ids of its records.
pub fn root_held(alloc: Global, ids: Ids, parts: usize, records: usize) -> Result<Held, AllocError>
    ensures { IfOk result (λ held. held
        ≡ record {
          parent = None;
          owner = None;
          private = false;
          base = ids;
          ids = ids;
          own = [];
          parts = parts;
          records = records;
        }) }
{
    let base = ids.share()?;
    Ok(Held {
        parent: None,
        owner: None,
        private: false,
        base,
        ids,
        own: Tree::new(alloc),
        parts,
        records,
    })
}
