//! Walks and their results may go between threads.
use crate::{Solved, Walk};
use std::test::Fail;

fn may_be_shared<T: Send + Sync>() {}

#[test]
fn walks_go_between_threads(_rt: HostRuntime) -> Result<(), Fail> {
    may_be_shared::<Walk>();
    may_be_shared::<Solved>();
    Ok(())
}
