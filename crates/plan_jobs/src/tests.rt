//! Jobs may go between threads.
use crate::{CellList, Job};
use std::test::Fail;

fn may_be_shared<T: Send + Sync>() {}

#[test]
fn jobs_go_between_threads(_rt: HostRuntime) -> Result<(), Fail> {
    may_be_shared::<CellList>();
    may_be_shared::<Job>();
    Ok(())
}
