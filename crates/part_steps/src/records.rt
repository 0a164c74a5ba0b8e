//! Records of a cell, and what their being sound says of them.
ghost use Rattle.std.specs.Prelude.{◌≡◌, ◌≤◌, true, is_some, IfSome};
ghost use Rattle.std.specs.Option.{option_copied};
ghost use Rattle.plan_schema.specs.declared.key.Key.TheVariants as keys;
ghost use Rattle.plan_schema.specs.Contents.{record_at};
ghost use Rattle.plan_schema.specs.Sound.{are_sound_rows, is_sound_row};
ghost use Rattle.planning_rules.specs.Days.{horizon_of};
ghost use Rattle.planning_rules.specs.Plan.{stock_in as stock_of};

use plan_schema::{Day, Key, Name, Qty, Record};
use record_versions::Cell;

/// The record under a key.
#[tactic(auto, using(plan_schema::proofs::Orders::sound_at))]
pub fn record_in<'a>(cell: &'a Cell, key: &Key) -> Option<&'a Record>
    requires { are_sound_rows cell.now ≡ true }
    ensures value { option_copied result ≡ record_at cell.now key.now }
    ensures sound { IfSome result (λ value. is_sound_row key.now value.now ≡ true) }
{
    cell.get(key)
}

/// The first day of the horizon, and how many days it has, from the plan's cell.
pub fn horizon(cell: &Cell) -> (Day, u16)
    requires sound { are_sound_rows cell.now ≡ true }
    requires there { is_some (record_at cell.now keys.Plan) ≡ true }
    ensures value { result ≡ horizon_of (record_at cell.now keys.Plan) }
    ensures some { 1 ≤ result.1 }
    ensures most { result.1 ≤ 400 }
{
    match record_in(cell, &Key::Plan) {
        Some(Record::Plan { start, days }) => (*start, *days),
        _ => unreachable!(),
    }
}

/// What is on hand of a part; 0 without a record.
pub fn stock_in(cell: &Cell, part: &Name) -> Qty
    requires { are_sound_rows cell.now ≡ true }
    ensures value { result ≡ stock_of (record_at cell.now (keys.Stock part.now)) }
    ensures most { result ≤ 1000000000 }
{
    match record_in(cell, &Key::Stock(*part)) {
        Some(Record::Stock { qty }) => *qty,
        _ => 0,
    }
}
