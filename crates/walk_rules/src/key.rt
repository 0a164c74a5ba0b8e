//! The keys of the memo.
ghost use Rattle.std.specs.Prelude.{◌≡◌, IfOk};

use plan_schema::{Release, Series};
use record_versions::VersionId;
use shared_memo::Twin;
use std::alloc::{AllocError, Global};

/// All that a part's plan depends on: the versions of its cells, and what its parents release.
#[derive(PartialEq, Eq, Hash, Drop)]
pub struct MemoKey {
    pub part: VersionId,
    /// The version of the calendar's cell, where the part names a calendar.
    pub calendar: Option<VersionId>,
    pub plan: VersionId,
    /// The release lists of the parents, in the order of their names.
    pub releases: Series<Release>,
}

/// The same lists once more.
fn shared(alloc: Global, lists: &[Release]) -> Result<Series<Release>, AllocError>
    ensures { IfOk result (λ shared. shared ≡ lists.now) }
{
    let mut shared = Series::new(alloc);
    for list in lists {
        shared.add(list.share()?)?;
    }
    Ok(shared)
}

impl Twin for MemoKey {
    fn twin(&self, alloc: Global) -> Result<Self, AllocError> {
        let releases = shared(alloc, self.releases.as_slice())?;
        Ok(MemoKey {
            part: self.part,
            calendar: self.calendar,
            plan: self.plan,
            releases,
        })
    }
}
