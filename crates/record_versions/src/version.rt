//! The ids of versions of cells.
ghost use Rattle.std.specs.Prelude.{◌≡◌};
ghost use Rattle.record_versions.specs.Versions.{id_eq};

use plan_schema::CellName;

/// A version of a cell: the rows that it got by the change with this number. Ids are ordered by number, then by cell.
#[derive(Clone, Copy, PartialEq, Eq, PartialOrd, Ord, Hash)]
pub struct VersionId {
    /// The number of the change in the journal, from 1; 0 for the base.
    pub point: u64,
    /// The cell that it is a version of.
    pub cell: CellName,
}

impl VersionId {
    /// Whether two ids are one.
    pub fn is_same(&self, other: &VersionId) -> bool
        ensures { result ≡ id_eq self.now other.now }
    {
        self.cmp(other).is_eq()
    }
}
