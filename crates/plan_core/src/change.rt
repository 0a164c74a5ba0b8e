//! What a core answers to a change, and what is of it then.
ghost use Rattle.std.specs.Prelude.{◌≡◌, ◌≤◌, ◌+◌, ◌||◌, nat_le, nat_lt};
ghost use Rattle.std.specs.Prelude.{◌++◌, ◌∷◌, [], true, Some, None, Err};
ghost use Rattle.std.specs.Prelude.{IfOk, IfErr, OnOk, OnErr, IsOk};
ghost use Rattle.plan_schema.specs.declared.limits.TheConstants.{ENTRY_LIMIT, CARRIED_LIMIT};
ghost use Rattle.plan_schema.specs.Sound.{is_sound_change, is_sound_entry};
ghost use Rattle.scenario_rules.specs.Steps.{step};
ghost use Rattle.scenario_rules.specs.Refused as refused;
ghost use Rattle.scenario_rules.specs.Refused.{scenario_refusal, full_journal};
ghost use Rattle.version_rules.specs.Ids.{AreOlder, step_ids};
ghost use Rattle.scenario_merge.specs.Grown.{IsAsBefore, ids_in};
ghost use Rattle.scenario_merge.specs.Faults.{IsAnswered};
ghost use Rattle.plan_core.specs.State.{history, point_of, with_entry};
ghost use Rattle.plan_core.specs.Changes as changes;
ghost use Rattle.plan_core.specs.Changes.{refusal_of, IsChangeAnswer, IsTidied};

use crate::kept::Core;
use plan_journal::Journal;
use plan_schema::limits::{CARRIED_LIMIT, ENTRY_LIMIT};
use plan_schema::{Change, Entry, Name, Refusal, Room};
use plan_walk::{Tally, Trouble};
use scenario_merge::{ApplyFault, Forest};

/// After how many entries a core gives back what no scenario uses, again and again.
const RECLAIM_EVERY: u64 = 1_024;

impl Core {
    /// Enters a change as the next entry, unless it is refused, and answers its number. A refusal that isn't for want of room is found
    /// without memory. After each 1,024th entry the core gives back what no scenario uses; where there is no memory for that, it is
    /// skipped.
    pub fn change(&mut self, entry: Entry) -> Result<u64, Trouble>
        requires { is_sound_entry entry ≡ true }
        ensures { IsChangeAnswer self.old self.new entry result }
    {
        if let Some(full) = self.journal_refusal(&entry.change) {
            let refusal = self.forest.refusal(&entry.user, &entry.change);
            return Err(Trouble::Refused(self.point(), refusal.unwrap_or(full)));
        }
        self.enter(entry)?;
        self.tidy();
        Ok(self.point())
    }

    /// Why a change is refused: the first of the rules that applies. Takes no memory.
    pub fn refusal(&self, user: &Name, change: &Change) -> Option<Refusal>
        ensures { result ≡ refusal_of self.now user.now change.now }
    {
        match self.forest.refusal(user, change) {
            Some(refusal) => Some(refusal),
            None => self.journal_refusal(change),
        }
    }

    /// Why a change is refused, but for want of room in the contents or the journal. Takes no memory.
    pub fn first_nine(&self, user: &Name, change: &Change) -> Option<Refusal>
        ensures { result ≡ changes.first_nine (refusal_of self.now user.now change.now) }
    {
        but_for_room(self.refusal(user, change))
    }

    /// Why the journal has no room for a change.
    fn journal_refusal(&self, change: &Change) -> Option<Refusal>
        ensures { result ≡ full_journal (history self.now) change.now }
    {
        if is_full(self.point(), self.carried, record_count(change)) {
            return Some(Refusal::Full(Room::Journal));
        }
        None
    }

    /// Enters a change for which the journal has room, unless the scenarios refuse it.
    fn enter(&mut self, entry: Entry) -> Result<(), Trouble>
        requires sound { is_sound_entry entry ≡ true }
        requires room { full_journal (history self.old) entry.change ≡ None }
        ensures free { IsOk result → refusal_of self.old entry.user entry.change ≡ None }
        ensures ok { OnOk result (self.new ≡ with_entry self.old entry) }
        ensures err { IfErr result
            (λ trouble. IsChangeAnswer self.old self.new entry (Err trouble)) }
    {
        let point = self.point();
        match apply_entry(&mut self.forest, &mut self.journal, point + 1, entry) {
            Ok(count) => {
                self.carried += count;
                Ok(())
            }
            Err(ApplyFault::Refused(refusal)) => Err(Trouble::Refused(point, refusal)),
            Err(ApplyFault::Memory) => Err(Trouble::Memory),
        }
    }

    /// Gives back what no scenario uses, where that is due, or counts that it was skipped for want of memory.
    fn tidy(&mut self)
        ensures { IsTidied (changes.is_reclaim_due (point_of self.old)) self.old self.new }
    {
        if !is_reclaim_due(self.point()) {
            return;
        }
        if self.reclaim().is_err() {
            self.count(Tally {
                netted: 0,
                reused: 0,
                dropped: 1,
            });
        }
    }
}

/// Whether a journal has no room for a change that carries so many records.
fn is_full(entries: u64, carried: u64, count: u64) -> bool
    requires { carried ≤ CARRIED_LIMIT }
    ensures { result
        ≡ (nat_le ENTRY_LIMIT entries || nat_lt CARRIED_LIMIT (carried + count)) }
{
    entries >= ENTRY_LIMIT as u64 || count > CARRIED_LIMIT - carried
}

/// Whether a reclaim is due after so many entries.
fn is_reclaim_due(point: u64) -> bool
    ensures { result ≡ changes.is_reclaim_due point }
{
    point % RECLAIM_EVERY == 0
}

/// A refusal, unless it is for want of room in the contents or the journal.
fn but_for_room(refusal: Option<Refusal>) -> Option<Refusal>
    ensures { result ≡ changes.first_nine refusal }
{
    match refusal {
        Some(Refusal::Full(Room::Parts | Room::Records | Room::Journal)) => None,
        refusal => refusal,
    }
}

/// How many records a change carries.
fn record_count(change: &Change) -> u64
    ensures { result ≡ refused.record_count change.now }
{
    match change {
        Change::Put { .. } | Change::Del { .. } => 1,
        Change::Load { rows, .. } => rows.len() as u64,
        _ => 0,
    }
}

/// Applies the change of an entry as the one of this number, and puts the entry behind the others. Answers how many records it carries.
/// After an error the scenarios and the entries are as before.
fn apply_entry(
    forest: &mut Forest,
    journal: &mut Journal,
    point: u64,
    entry: Entry,
) -> Result<u64, ApplyFault>
    requires older { AreOlder point (ids_in forest.old) }
    requires sound { is_sound_change entry.change ≡ true }
    ensures count { IfOk result (λ count. count ≡ refused.record_count entry.change) }
    ensures free { IsOk result
        → scenario_refusal forest.old.world entry.user entry.change ≡ None }
    ensures world { OnOk result
        (forest.new.world ≡ step forest.old.world entry.user entry.change) }
    ensures ids { OnOk result (ids_in forest.new
        ≡ step_ids point forest.old.world (ids_in forest.old) entry.change) }
    ensures entries { OnOk result (journal.new.entries ≡ journal.old.entries ++ entry ∷ []) }
    ensures fault { IfErr result
        (IsAnswered (scenario_refusal forest.old.world entry.user entry.change)) }
    ensures same { OnErr result (IsAsBefore forest.old forest.new) }
    ensures kept { OnErr result (journal.new.entries ≡ journal.old.entries) }
{
    if journal.reserve().is_err() {
        return Err(fault_of(forest.refusal(&entry.user, &entry.change)));
    }
    forest.apply(point, &entry.user, &entry.change)?;
    let count = record_count(&entry.change);
    push_reserved(journal, entry);
    Ok(count)
}

/// Why a change isn't applied for which there is no memory.
fn fault_of(refusal: Option<Refusal>) -> ApplyFault
    ensures { IsAnswered refusal result }
{
    match refusal {
        Some(refusal) => ApplyFault::Refused(refusal),
        None => ApplyFault::Memory,
    }
}

/// Adds an entry to a journal that has room for it.
fn push_reserved(journal: &mut Journal, entry: Entry)
    requires { 1 ≤ journal.old.spare }
    ensures { journal.new.entries ≡ journal.old.entries ++ entry ∷ [] }
{
    if journal.push(entry).is_err() {
        unreachable!()
    }
}
