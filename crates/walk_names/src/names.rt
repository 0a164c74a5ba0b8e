//! The names of a walk.
ghost use Rattle.std.specs.Prelude.{◌≡◌, map, IfOk, IfErr};
ghost use Rattle.walk_rules.specs.Cells.{records};
ghost use Rattle.plan_jobs.specs.Jobs.{IsJob, asked_by};
ghost use Rattle.walk_names.specs.Names.{AreWalkNames, IsTrouble, fault_trouble};

use crate::asked::asked_names;
use crate::bills::all_bills;
use crate::refusals::{least_missing, least_without_calendar};
use crate::trouble::Trouble;
use low_level_codes::{LevelFault, closure_and_levels};
use plan_jobs::Job;
use plan_schema::{Name, Refusal};
use std::alloc::{AllocError, Global};

/// Names without their levels.
fn without_levels(alloc: Global, levels: &[(Name, usize)]) -> Result<Vec<Name>, AllocError>
    ensures { IfOk result (λ names. names.items ≡ map (λ pair. pair.0) levels.now) }
{
    levels.iter().map(|pair| pair.0).collect(alloc)
}

/// The trouble that names without levels make.
pub fn trouble_of(point: u64, fault: LevelFault) -> Trouble
    ensures { result ≡ fault_trouble point fault }
{
    match fault {
        LevelFault::Cyclic(name) => Trouble::Refused(point, Refusal::Cyclic(name)),
        LevelFault::Memory => Trouble::Memory,
    }
}

/// The names in reach of those that a job asks for, by level and then by name; or the first refusal of the plan that needs no plans.
pub fn names_by_level(alloc: Global, job: &Job) -> Result<Vec<Name>, Trouble>
    requires { IsJob job.now.wanted job.now.cells }
    ensures names { let c = records job.now.cells in
        IfOk result (λ names. AreWalkNames c (asked_by c job.now.wanted) names.items) }
    ensures refused { let c = records job.now.cells in
        IfErr result (IsTrouble c (asked_by c job.now.wanted) job.now.point) }
{
    let asked = asked_names(alloc, job)?;
    if let Some(name) = least_missing(job, asked.as_slice()) {
        return Err(Trouble::Refused(job.point, Refusal::NoPart(name)));
    }
    let bills = all_bills(alloc, &job.cells)?;
    let (closed, levels) = closure_and_levels(alloc, bills.as_slice(), asked.as_slice())?;
    if let Some(name) = least_missing(job, closed.as_slice()) {
        return Err(Trouble::Refused(job.point, Refusal::MissingPart(name)));
    }
    if let Some(name) = least_without_calendar(job, closed.as_slice()) {
        return Err(Trouble::Refused(job.point, Refusal::MissingCalendar(name)));
    }
    match levels {
        Ok(levels) => Ok(without_levels(alloc, levels.as_slice())?),
        Err(fault) => Err(trouble_of(job.point, fault)),
    }
}
