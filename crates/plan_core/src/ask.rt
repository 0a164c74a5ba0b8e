//! What a core answers to a question.
ghost use Rattle.std.specs.Prelude.{IfOk, IfErr};
ghost use Rattle.plan_core.specs.Asks.{IsAsked, IsAskTrouble};

use crate::kept::Core;
use plan_jobs::{Job, Wanted, collect};
use plan_schema::Name;
use plan_walk::Trouble;

impl Core {
    /// The job of a user's question about a scenario. Whether the user may use it is found without memory.
    pub fn ask(&self, user: &Name, scenario: &Name, wanted: Wanted) -> Result<Job, Trouble>
        ensures ok { IfOk result (IsAsked self.now user.now scenario.now wanted) }
        ensures err { IfErr result (IsAskTrouble self.now user.now scenario.now) }
    {
        if let Some(refusal) = self.forest.access(user, scenario) {
            return Err(Trouble::Refused(self.point(), refusal));
        }
        self.forest.holds();
        let Some(ids) = self.forest.ids(scenario) else {
            unreachable!()
        };
        // Its contract tells that the ids stand in their order.
        let _count = ids.len();
        let job = collect(self.alloc, self.point(), ids, self.forest.store(), wanted)?;
        Ok(job)
    }
}
