//! Entries that no reply printed.
ghost use Rattle.std.specs.Prelude.{◌≡◌, ◌==◌, ◌||◌, ◌+◌, ◌<◌, ℕ, List, false, length, slice_index_or, IfOk};
ghost use Rattle.plan_audit.specs.Verdicts.{Judges, first_lost, judged_last};
ghost use Rattle.plan_audit.specs.Audits.{AreMarks};

use crate::verdict::{AuditRule, Verdict};
use plan_schema::Entry;
use std::alloc::{AllocError, Global};

/// So many entries, none of them marked.
fn unmarked(alloc: Global, count: usize) -> Result<Vec<bool>, AllocError>
    ensures len { IfOk result (λ marks. length marks.items ≡ count) }
    ensures none { IfOk result (λ marks. (k : ℕ) → slice_index_or marks.items k false ≡ false) }
{
    let mut marks = Vec::with_capacity(alloc, count)?;
    for _place in 0..count {
        marks.push(false)?;
    }
    Ok(marks)
}

/// Marks the entry with this number, if there is one.
fn mark(marks: &mut Vec<bool>, point: u64)
    ensures len { length marks.new.items ≡ length marks.old.items }
    ensures marked { (k : ℕ) → k < length marks.old.items
        → slice_index_or marks.new.items k false
        ≡ (slice_index_or marks.old.items k false || (point == k + 1)) }
{
    if point == 0 {
        return;
    }
    let place = (point - 1) as usize;
    if place < marks.len() {
        marks[place] = true;
    }
}

/// Of so many entries, those are marked whose numbers are among these points.
pub(crate) fn marks_of(alloc: Global, count: usize, points: &[u64]) -> Result<Vec<bool>, AllocError>
    ensures len { IfOk result (λ marks. length marks.items ≡ count) }
    ensures marks { IfOk result (λ marks. AreMarks marks.items points.now count) }
{
    let mut marks = unmarked(alloc, count)?;
    for point in points {
        mark(&mut marks, *point);
    }
    Ok(marks)
}

/// Whether the entry at a place is marked.
fn is_marked(marks: &[bool], place: usize) -> bool
    ensures { result ≡ slice_index_or marks.now place false }
{
    match marks.get(place) {
        Some(mark) => *mark,
        None => false,
    }
}

/// The verdict on a run of whose sessions nothing is wrong: the first entry that isn't marked is lost.
pub(crate) fn judged_by(entries: &[Entry], marks: &[bool]) -> Verdict
    ensures { (points : List ℕ) → AreMarks marks.now points (length entries.now)
        → judged_last (first_lost points 1 entries.now) ≡ Judges result }
{
    let mut place: usize = 0;
    for entry in entries {
        if !is_marked(marks, place) {
            return Verdict::NotLegal {
                session: entry.session,
                line: entry.line,
                rule: AuditRule::Lost,
            };
        }
        place += 1;
    }
    Verdict::Legal
}
