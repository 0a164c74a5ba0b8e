//! Live ids, and what is given back.

use crate::fixtures::base;
use plan_schema::CellName;
use record_versions::VersionId;
use scenario_merge::Forest;
use shared_memo::{Memo, Twin};
use std::alloc::{AllocError, Global};
use std::sync::Arc;
use std::test::Fail;
use version_reclaim::{live, reclaim};

// A key of a memo that stands on one version.
#[derive(PartialEq, Eq, Hash, Drop)]
struct OnVersion {
    id: VersionId,
}

impl Twin for OnVersion {
    fn twin(&self, _alloc: Global) -> Result<Self, AllocError> {
        Ok(OnVersion { id: self.id })
    }
}

fn horizon_of(point: u64) -> OnVersion {
    OnVersion {
        id: VersionId {
            point,
            cell: CellName::Plan,
        },
    }
}

// The root has a horizon alone, and of three versions of it the first is in use.
#[test]
fn what_is_live_is_kept(rt: HostRuntime) -> Result<(), Fail> {
    let contents = base(rt.alloc(), b"PLAN,2025-03-03,1\n")?;
    let mut forest = Forest::begin(rt.alloc(), &contents)?;
    let live = live(rt.alloc(), &forest)?;
    let mut memo = Memo::new(rt.alloc(), 4)?;
    for point in 0..3 {
        assert_eq!(rt; live.has(&horizon_of(point).id), point == 0);
        let value = Arc::new(rt.alloc(), point)?;
        assert!(rt; memo.put(horizon_of(point), value).is_ok());
    }
    reclaim(rt.alloc(), &mut forest, &mut memo, |key, live| {
        live.has(&key.id)
    })?;
    assert_eq!(rt; forest.store().len(), 1);
    assert_eq!(rt; memo.len(), 1);
    assert!(rt; memo.get(&horizon_of(0)).is_some());
    Ok(())
}
