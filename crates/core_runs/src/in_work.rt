//! Walks in work.
ghost use Rattle.std.specs.Prelude.{◌≡◌, None};
ghost use Rattle.core_runs.specs.Machine.{walk_at, with_walk};

use plan_walk::{Solved, Walk};

/// A walk that isn't at its end, with the results that its next round takes in.
#[derive(Drop)]
pub struct InWork {
    pub walk: Walk,
    pub lent: Solved,
}

/// Takes the walk of a question out of the list of all, if it is in work.
pub fn take_walk(walks: &mut Vec<Option<InWork>>, number: u32) -> Option<InWork>
    ensures walk { result ≡ walk_at walks.old.items number }
    ensures left { walks.new.items ≡ with_walk walks.old.items number None }
{
    let place = number as usize;
    if place < walks.len() {
        walks[place].take()
    } else {
        None
    }
}

/// Puts back what is left of a walk. A question that wasn't asked has none.
pub fn put_walk(walks: &mut Vec<Option<InWork>>, number: u32, left: Option<InWork>)
    ensures { walks.new.items ≡ with_walk walks.old.items number left }
{
    let place = number as usize;
    if place < walks.len() {
        walks[place] = left;
    }
}
