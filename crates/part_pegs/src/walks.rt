//! The plans that a walk knows.
use plan_schema::{Known, Name};
use plan_walk::Walk;
use query_rows::Plans;

/// The plans that a walk knows.
#[derive(Clone, Copy)]
pub struct WalkPlans<'a> {
    pub walk: &'a Walk,
}

impl Plans for WalkPlans<'_> {
    ghost use Rattle.walk_rules.specs.Walks.{known_at};

    ghost plans = { λ plans part. known_at plans.walk.now.parts part };

    fn known(&self, part: &Name) -> Option<&Known> {
        self.walk.known(part)
    }
}
