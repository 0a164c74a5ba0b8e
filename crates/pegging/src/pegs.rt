//! The pegs of a part's cell.
ghost use Rattle.std.specs.Prelude.{◌≡◌, ◌+◌, ◌<◌, ◌≤◌, ℕ, [], ◌∷◌, ◌++◌, true, length, map, IfOk, OnOk};
ghost use Rattle.std.specs.Prelude.{option_to_list};
ghost use Rattle.plan_schema.specs.declared.limits.TheConstants.{RECORD_LIMIT};
ghost use Rattle.plan_schema.specs.Sound.{are_sound_rows};
ghost use Rattle.planning_rules.specs.Netting.{limit};
ghost use Rattle.planning_rules.specs.Plan.{total};
ghost use Rattle.walk_rules.specs.Steps.{asked_from};
ghost use Rattle.explosion.specs.Sums.{demands_in, bills_in, asked_of, bill_adds, bill_count, list_at, AreReleases};
ghost use Rattle.pegging.specs.Pegs.{shown, demand_pegs, bill_pegs, pegs_by};

use crate::source::Peg;
use explosion::{is_effective_on, release_at};
use plan_schema::{Day, Key, Qty, Record, Release, Series, Span};
use record_versions::Cell;
use std::alloc::{AllocError, Global};

/// The peg of the demand that a row is, if it counts on the day.
fn demand_peg(key: &Key, value: &Record, start: u32, at: u16) -> Option<Peg>
    ensures { map shown (option_to_list result)
        ≡ demand_pegs start at (demands_in ((key.now, value.now) ∷ [])) }
{
    match (key, value) {
        (Key::Demand(_, order), Record::Demand { day, qty }) => {
            let counts = day.number().saturating_sub(start) == at as u32;
            if counts && *qty > 0 {
                Some(Peg::Demand(*order, *qty))
            } else {
                None
            }
        }
        _ => None,
    }
}

/// Adds the pegs of the demands among the rows of a cell.
fn add_demands(pegs: &mut Series<Peg>, cell: &Cell, start: u32, at: u16) -> Result<(), AllocError>
    ensures { OnOk result (map shown pegs.new
        ≡ map shown pegs.old ++ demand_pegs start at (demands_in cell.now)) }
{
    for (key, value) in cell.iter() {
        if let Some(peg) = demand_peg(&key, &value, start, at) {
            pegs.push(peg)?;
        }
    }
    Ok(())
}

/// What a bill asks for on the day, with the release list of its parent.
fn bill_qty(span: &Option<Span>, per: u64, start: u32, at: u16, release: &[Qty]) -> Qty
    requires start { start < 36525 }
    requires day { at < length release.now }
    requires fits { bill_adds start span.now per release.now at ≤ limit }
    ensures { result ≡ bill_adds start span.now per release.now at }
{
    if is_effective_on(span, start + at as u32) {
        per * release[at as usize]
    } else {
        0
    }
}

/// Adds the peg of a row, if it is a bill, with the next release list; tells which list is next then.
fn add_row(
    pegs: &mut Series<Peg>,
    key: &Key,
    value: &Record,
    start: u32,
    at: u16,
    releases: &[Release],
    next: usize,
) -> Result<usize, AllocError>
    requires start { start < 36525 }
    requires next { next + bill_count (key.now, value.now) ≤ length releases.now }
    requires day { next < length releases.now → at < length (list_at releases.now next) }
    requires fits { total (asked_from start at (bills_in ((key.now, value.now) ∷ []))
        (list_at releases.now next ∷ [])) ≤ limit }
    ensures next { IfOk result (λ later. later ≡ next + bill_count (key.now, value.now)) }
    ensures pegs { OnOk result (map shown pegs.new ≡ map shown pegs.old
        ++ bill_pegs start at (bills_in ((key.now, value.now) ∷ [])) (list_at releases.now next ∷ [])) }
{
    match (key, value) {
        (Key::Bill { parent, .. }, Record::Bill { per, span }) => {
            let qty = bill_qty(span, *per, start, at, release_at(releases, next));
            if qty > 0 {
                pegs.push(Peg::Bill(*parent, qty))?;
            }
            Ok(next + 1)
        }
        _ => Ok(next),
    }
}

/// Adds the pegs of the bills among the rows of a cell, with the release lists of its parents in the order of their names.
fn add_bills(
    pegs: &mut Series<Peg>,
    cell: &Cell,
    start: u32,
    at: u16,
    releases: &[Release],
) -> Result<(), AllocError>
    requires start { start < 36525 }
    requires lists { (k : ℕ) → k < length releases.now → at < length (list_at releases.now k) }
    requires each { length (bills_in cell.now) ≤ length releases.now }
    requires fits { asked_of start at (demands_in cell.now) (bills_in cell.now) releases.now
        ≤ limit }
    ensures { OnOk result (map shown pegs.new
        ≡ map shown pegs.old ++ bill_pegs start at (bills_in cell.now) releases.now) }
{
    let mut next = 0;
    for (key, value) in cell.iter() {
        next = add_row(pegs, &key, &value, start, at, releases, next)?;
    }
    Ok(())
}

/// Where the gross requirements of a part come from on a day of a horizon, from the rows of its cell and the planned order releases of
/// its parents, one list for each bill of the cell, in the order of the parents' names: the demands that count on the day, and the
/// parents whose bills are effective on it. The caller has seen that the day's gross requirements aren't too large.
pub fn peg(
    alloc: Global,
    cell: &Cell,
    start: &Day,
    days: u16,
    at: u16,
    releases: &[Release],
) -> Result<Series<Peg>, AllocError>
    requires days { days ≤ 400 }
    requires at { at < days }
    requires lists { AreReleases days releases.now }
    requires each { length (bills_in cell.now) ≤ length releases.now }
    requires rows { length cell.now ≤ RECORD_LIMIT }
    requires sound { are_sound_rows cell.now ≡ true }
    requires fits { asked_of start.now at (demands_in cell.now) (bills_in cell.now) releases.now
        ≤ limit }
    ensures { IfOk result (λ pegs. map shown pegs ≡ pegs_by cell.now start.now at releases.now) }
{
    let mut pegs = Series::new(alloc);
    add_demands(&mut pegs, cell, start.number(), at)?;
    add_bills(&mut pegs, cell, start.number(), at, releases)?;
    Ok(pegs)
}
