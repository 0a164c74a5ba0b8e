//! Sets of cell names.
ghost use Rattle.std.specs.Prelude.{◌≡◌, true, [], ◌∷◌, OnOk, MatchOption};
ghost use Rattle.plan_jobs.specs.Names.{has_name, are_ordered, IsWith};

use plan_schema::CellName;
use std::alloc::{AllocError, Global};
use std::collections::BTreeSet;
use std::marker::Model;

/// A set of cell names. Contracts see the names in their order.
#[derive(Drop)]
pub(crate) struct CellNames {
    names: BTreeSet<CellName>,
}

impl Model for CellNames {
    ghost use Rattle.std.specs.Prelude.{List};
    ghost use Rattle.plan_schema.specs.declared.change.CellName.{CellName};

    ghost Value = { List CellName };

    ghost view = { λ set. set.names.keys };
}

impl CellNames {
    /// No names.
    pub(crate) fn new(alloc: Global) -> CellNames
        ensures { result ≡ [] }
    {
        CellNames {
            names: BTreeSet::new(alloc),
        }
    }

    /// Puts a name among them, where it may be already.
    pub(crate) fn put(&mut self, name: CellName) -> Result<(), AllocError>
        ensures with { OnOk result (IsWith self.old name self.new) }
        ensures ordered { OnOk result (are_ordered self.new ≡ true) }
    {
        self.names.insert(name)?;
        Ok(())
    }

    /// Whether a name is among them.
    pub(crate) fn has(&self, name: &CellName) -> bool
        ensures { result ≡ has_name self.now name.now }
    {
        self.names.contains(name)
    }

    /// Takes the first name out.
    pub(crate) fn take_first(&mut self) -> Option<CellName>
        ensures { MatchOption result (self.old ≡ []) (λ name. self.old ≡ name ∷ self.new) }
    {
        self.names.pop_first()
    }
}
