//! The levels of places.
ghost use Rattle.std.specs.Prelude.{◌≡◌, ◌<◌, ◌≤◌, ◌^◌, ◌⊎◌, ℕ};
ghost use Rattle.std.specs.Prelude.{None, Some, map, length, slice_get, IfOk, IfSome};
ghost use Rattle.std.specs.List.{AllByRecursion};
ghost use Rattle.planning_rules.specs.Bills.{above_all};
ghost use Rattle.low_level_codes.specs.Graphs.{shown, level_at, IsAt, AreWithin, AreTurned, HasSteps};

use std::alloc::{AllocError, Global};

/// One above the greatest of the levels of some places, if all have one.
fn above(levels: &[Option<usize>], places: &[usize], most: usize) -> Option<usize>
    requires inside { AllByRecursion (λ q. q < length levels.now) places.now }
    requires low { (q l : ℕ) → level_at levels.now q ≡ Some l → l < most }
    ensures above { result ≡ above_all (map (level_at levels.now) places.now) }
    ensures low { IfSome result (λ l. l ≤ most) }
{
    let mut above = 0;
    for place in places {
        let Some(level) = levels[*place] else {
            return None;
        };
        above = above.max(level + 1);
    }
    Some(above)
}

/// The first place from an index on that has no level, by its index.
fn first_missing(levels: &[Option<usize>], places: &[usize], from: usize) -> usize
    requires { AllByRecursion (λ q. q < length levels.now) places.now }
    ensures { (q : ℕ) → slice_get places.now result ≡ Some q → level_at levels.now q ≡ None }
{
    let mut at = from;
    while at < places.len() {
        if levels[places[at]].is_none() {
            return at;
        }
        at += 1;
    }
    at
}

/// One above the greatest of the levels of some places, if all have one. The index is where the next search for one without a level
/// begins: those before it were seen to have levels, which they keep.
fn level_from(
    levels: &[Option<usize>],
    places: &[usize],
    next: &mut usize,
    most: usize,
) -> Option<usize>
    requires inside { AllByRecursion (λ q. q < length levels.now) places.now }
    requires low { (q l : ℕ) → level_at levels.now q ≡ Some l → l < most }
    ensures above { result ≡ above_all (map (level_at levels.now) places.now) }
    ensures low { IfSome result (λ l. l ≤ most) }
{
    let missing = first_missing(levels, places, *next);
    *next = missing;
    if missing < places.len() {
        return None;
    }
    above(levels, places, most)
}

/// The places below a number.
fn all_places(alloc: Global, count: usize) -> Result<Vec<usize>, AllocError>
    ensures all { IfOk result (λ places. (q : ℕ) → q < count → IsAt q places.items) }
    ensures inside { IfOk result (λ places. AllByRecursion (λ q. q < count) places.items) }
{
    let mut places = Vec::new(alloc);
    for place in 0..count {
        places.push(place)?;
    }
    Ok(places)
}

/// Gives each place its level, from above: places that stand on or below a cycle get none.
pub fn place(
    alloc: Global,
    ups: &[Vec<usize>],
    downs: &[Vec<usize>],
) -> Result<Vec<Option<usize>>, AllocError>
    requires graph { AreWithin (length ups.now) (shown ups.now) }
    requires below { AreWithin (length ups.now) (shown downs.now) }
    requires whole { length downs.now ≡ length ups.now }
    requires turned { AreTurned (shown ups.now) (shown downs.now) }
    ensures { IfOk result (λ levels. HasSteps (shown ups.now) levels.items) }
{
    let mut levels = vec![in alloc; None; ups.len()]?;
    let mut todo = all_places(alloc, ups.len())?;
    let mut next = vec![in alloc; 0; ups.len()]?;
    let mut placed = 0;
    while let Some(place) = todo.pop() {
        if levels[place].is_some() {
            continue;
        }
        let Some(level) = level_from(
            levels.as_slice(),
            ups[place].as_slice(),
            &mut next[place],
            placed,
        ) else {
            continue;
        };
        levels[place] = Some(level);
        placed += 1;
        todo.extend_from_slice(downs[place].as_slice())?;
    }
    Ok(levels)
}
