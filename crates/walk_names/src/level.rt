//! The level of a part.
ghost use Rattle.std.specs.Prelude.{◌≡◌, Some, None, IfOk, IfErr};
ghost use Rattle.std.specs.Map.{lookup};
ghost use Rattle.plan_schema.specs.Key.{name_eq};
ghost use Rattle.planning_rules.specs.Bills.{level};
ghost use Rattle.planning_rules.specs.Refused.{level_refusal};
ghost use Rattle.walk_rules.specs.Cells.{records};
ghost use Rattle.plan_jobs.specs.Jobs.{IsJob};
ghost use Rattle.walk_names.specs.Names.{IsLevelTrouble};

use crate::bills::all_bills;
use crate::names::trouble_of;
use crate::refusals::is_part_in;
use crate::trouble::Trouble;
use low_level_codes::{closure, levels};
use plan_jobs::Job;
use plan_schema::{Name, Refusal};
use std::alloc::Global;

/// The level of a name among some with their levels.
fn level_among(levels: &[(Name, usize)], name: &Name) -> Option<usize>
    ensures { result ≡ lookup (name_eq name.now) levels.now }
{
    for (other, level) in levels {
        if name == other {
            return Some(*level);
        }
    }
    None
}

/// The level of a part, from the bills of a job; or why the question for it is refused. No calendar and no plan is looked at.
pub fn level_of(alloc: Global, job: &Job, part: &Name) -> Result<usize, Trouble>
    requires { IsJob job.now.wanted job.now.cells }
    ensures level { IfOk result (λ code. level (records job.now.cells) part.now ≡ Some code) }
    ensures allowed { IfOk result (λ code. level_refusal (records job.now.cells) part.now ≡ None) }
    ensures refused { IfErr result (IsLevelTrouble (records job.now.cells) part.now job.now.point) }
{
    if !is_part_in(job, part) {
        return Err(Trouble::Refused(job.point, Refusal::NoPart(*part)));
    }
    let bills = all_bills(alloc, &job.cells)?;
    let closed = closure(alloc, bills.as_slice(), &[*part])?;
    match levels(alloc, bills.as_slice(), closed.as_slice()) {
        Ok(levels) => {
            let Some(level) = level_among(levels.as_slice(), part) else {
                unreachable!()
            };
            Ok(level)
        }
        Err(fault) => Err(trouble_of(job.point, fault)),
    }
}
