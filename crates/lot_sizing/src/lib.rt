//! Lot sizing: how much a lot rule orders on a day that falls short.
#![tactic(auto)]

ghost use Rattle.std.specs.Prelude.{false, ◌≡◌, ◌≤◌, ◌≤ℤ◌, true, pos, length, All, map, slice_index_or};
ghost use Rattle.planning_rules.specs.Amounts.{rounded_up, greatest, is_best};
ghost use Rattle.plan_schema.specs.Sound.{is_sound_lot};
ghost use Rattle.planning_rules.specs.Shortages.{shortage, IsAmountFor, InReach};

use plan_schema::{Lot, Qty};

/// The amount that a lot rule orders on a day, by how much the day and the days after it fall short if nothing is planned:
/// the safety stock minus the balance, so below 0 where there is more than enough. A least-cost lot is no matter of one day: its whole
/// list is made by `lot_optimal`.
#[tactic(auto, using(crate::proofs::LotLaws::sound_lot))]
pub fn lot(rule: &Lot, short: &[i64]) -> Qty
    requires some { 1 ≤ length short.now }
    requires first { pos 1 ≤ℤ slice_index_or short.now 0 (pos 0) }
    requires reach { All InReach short.now }
    requires rule { is_sound_lot rule.now ≡ true }
    requires kind { is_best rule.now ≡ false }
    ensures { IsAmountFor rule.now short.now result }
{
    let first = shortage_of(&short[0]);
    match rule {
        Lot::Exact => first,
        Lot::Fixed(q) => round_up(*q, first),
        Lot::Least { least, step } => round_up(*step, first.max(*least)),
        Lot::Period(days) => {
            let days = *days as usize;
            if days < short.len() {
                greatest_of(&short[..days])
            } else {
                greatest_of(short)
            }
        }
        Lot::Best { .. } => unreachable!(),
    }
}

/// The least multiple of a step that is at least an amount.
fn round_up(step: u64, amount: u64) -> u64
    requires step { 1 ≤ step }
    requires small { step ≤ 1000000000 }
    requires amount { amount ≤ 1000000000000000000 }
    ensures { result ≡ rounded_up step amount }
{
    (amount + (step - 1)) / step * step
}

/// How much is short, and 0 where there is more than enough.
fn shortage_of(short: &i64) -> u64
    ensures { result ≡ shortage short.now }
{
    if *short > 0 { *short as u64 } else { 0 }
}

/// The greatest of some shortages.
fn greatest_of(short: &[i64]) -> u64
    ensures { result ≡ greatest (map shortage short.now) }
{
    let mut best: u64 = 0;
    for s in short {
        best = best.max(shortage_of(s));
    }
    best
}
