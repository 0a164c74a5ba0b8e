//! One row at a time.
ghost use Rattle.std.specs.Prelude.{◌≡◌, ◌+◌, ◌*◌, ◌-◌, ◌<◌, ◌≤◌};
ghost use Rattle.std.specs.Prelude.{◌^◌, ℕ, List, true, length, All, slice_index};
ghost use Rattle.plan_schema.specs.Sound.{is_sound_row};
ghost use Rattle.planning_rules.specs.Bills.{is_effective};
ghost use Rattle.explosion.specs.Sums.{order_adds, bill_adds, row_adds, receipt_adds, bill_count, list_at, AreReleases};

use plan_schema::{Key, Record, Release, Span};

/// The day of the horizon on which an order counts, if the horizon is that long: an overdue one counts on the first.
fn day_of(start: u32, date: u32) -> usize
    ensures { result ≡ date - start }
{
    date.saturating_sub(start) as usize
}

/// Adds an order to the day on which it counts, if it counts on one of the days.
pub fn add_order(sums: &mut [u128], start: u32, date: u32, qty: u64)
    requires room { (t : ℕ) → slice_index sums.old t < 2 ^ 100 }
    ensures sums { (t : ℕ) → t < length sums.old → slice_index sums.new t
        ≡ slice_index sums.old t + order_adds start date qty t }
{
    let at = day_of(start, date);
    if at < sums.len() {
        sums[at] += qty as u128;
    }
}

/// Whether a bill is effective on a date.
pub fn is_effective_on(span: &Option<Span>, date: u32) -> bool
    ensures { result ≡ is_effective span.now date }
{
    match span {
        None => true,
        Some(span) => span.from.number() <= date && date <= span.to.number(),
    }
}

/// Adds what a bill asks for on each day on which it is effective.
pub fn add_bill(sums: &mut [u128], start: u32, span: &Option<Span>, per: u64, release: &[u64])
    requires room { (t : ℕ) → slice_index sums.old t < 2 ^ 100 }
    requires start { start < 36525 }
    requires days { length sums.old ≤ 400 }
    requires whole { length release.now ≡ length sums.old }
    requires per { per ≤ 1000000 }
    requires small { (t : ℕ) → slice_index release.now t ≤ 1000000000000000 }
    ensures sums { (t : ℕ) → t < length sums.old → slice_index sums.new t
        ≡ slice_index sums.old t + bill_adds start span.now per release.now t }
{
    for day in 0..release.len() {
        if is_effective_on(span, start + day as u32) {
            sums[day] += per as u128 * release[day] as u128;
        }
    }
}

/// The release list at a place.
pub fn release_at(releases: &[Release], place: usize) -> &[u64]
    requires { place < length releases.now }
    ensures { result.now ≡ list_at releases.now place }
{
    releases[place].as_slice()
}

/// Adds what a row asks for, a bill with the next release list; tells which list is next then.
pub fn add_row(
    sums: &mut [u128],
    start: u32,
    key: &Key,
    value: &Record,
    releases: &[Release],
    next: usize,
) -> usize
    requires room { (t : ℕ) → slice_index sums.old t < 2 ^ 100 }
    requires start { start < 36525 }
    requires days { length sums.old ≤ 400 }
    requires lists { AreReleases (length sums.old) releases.now }
    requires next { next + bill_count (key.now, value.now) ≤ length releases.now }
    requires sound { is_sound_row key.now value.now ≡ true }
    ensures next { result ≡ next + bill_count (key.now, value.now) }
    ensures sums { (t : ℕ) → t < length sums.old → slice_index sums.new t
        ≡ slice_index sums.old t + row_adds start (key.now, value.now) (list_at releases.now next)
        t }
{
    match (key, value) {
        (Key::Demand(_, _), Record::Demand { day, qty }) => {
            add_order(sums, start, day.number(), *qty);
            next
        }
        (Key::Bill { .. }, Record::Bill { per, span }) => {
            add_bill(sums, start, span, *per, release_at(releases, next));
            next + 1
        }
        _ => next,
    }
}

/// Adds a receipt to the day on which it counts, if it counts on one of the days.
fn add_received(sums: &mut [u64], start: u32, date: u32, qty: u64)
    requires room { (t : ℕ) → slice_index sums.old t ≤ 200000000000000 }
    requires qty { qty ≤ 1000000000 }
    ensures sums { (t : ℕ) → t < length sums.old → slice_index sums.new t
        ≡ slice_index sums.old t + order_adds start date qty t }
{
    let at = day_of(start, date);
    if at < sums.len() {
        sums[at] += qty;
    }
}

/// Adds what a row says is received.
pub fn add_receipt(sums: &mut [u64], start: u32, key: &Key, value: &Record)
    requires room { (t : ℕ) → slice_index sums.old t ≤ 200000000000000 }
    requires sound { is_sound_row key.now value.now ≡ true }
    ensures sums { (t : ℕ) → t < length sums.old → slice_index sums.new t
        ≡ slice_index sums.old t + receipt_adds start (key.now, value.now) t }
{
    match (key, value) {
        (Key::Receipt(_, _), Record::Receipt { day, qty }) => {
            add_received(sums, start, day.number(), *qty);
        }
        _ => (),
    }
}
