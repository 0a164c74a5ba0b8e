//! The steps of a change to a book that is kept on a disk.
ghost use Rattle.std.specs.Prelude.{◌≡◌, true, None, OnOk};
ghost use Rattle.plan_schema.specs.Sound.{is_sound_entry};
ghost use Rattle.plan_core.specs.State.{history};
ghost use Rattle.plan_core.specs.Changes.{first_nine};
ghost use Rattle.plan_book.specs.Answers.{HasChanged, HasWorked};
ghost use Rattle.journal_disk.specs.Images.{IsImageOf, IsImageAround, EachImage, EachTold};
ghost use Rattle.journal_disk.specs.Stored.{HasAppended, moment_of, doubt_of};
ghost use Rattle.kept_book.specs.Kept.{IsKept, IsImageDuring, story_in, ground_in, faults_in, state_in};
ghost use Rattle.kept_book.specs.Steps.{kept_on};

use crate::writing::append;
use journal_disk::{Disk, Store};
use plan_book::{Book, BookFault, PlanBook};
use plan_schema::{Entry, Refusal, Room};
use std::alloc::Global;

/// Enters a change into a book and onto its store, unless it is refused. Answers its number.
pub(crate) fn keep<D: Disk>(
    alloc: Global,
    book: &mut Book,
    store: &mut Store<D>,
    entry: Entry,
) -> Result<u64, BookFault>
    requires kept { IsKept D.moment book.old store.old }
    requires sound { is_sound_entry entry ≡ true }
    ensures kept { IsKept D.moment book.new store.new }
    ensures changed { HasChanged story_in (faults_in D.moment) ground_in
        (kept_on book.old store.old) (kept_on book.new store.new) entry result }
    ensures worked { HasWorked (state_in (kept_on book.old store.old))
        (state_in (kept_on book.new store.new)) result }
    ensures any_moment { EachTold (moment_of D.moment store.old) (moment_of D.moment store.new)
        (IsImageDuring (history book.old) (doubt_of store.old) entry) }
    ensures durable { OnOk result (EachImage (moment_of D.moment store.new)
        (IsImageOf (history book.new))) }
{
    if let Some(refusal) = but_for_room(book.refusal(&entry.user, &entry.change)) {
        return Err(BookFault::Refused(book.point(), refusal));
    }
    append(alloc, book, store, &entry)?;
    enter(book, store, entry)
}

/// Enters a change whose entry stands behind the closed gate into the book, and opens the gate.
fn enter<D: Disk>(book: &mut Book, store: &mut Store<D>, entry: Entry) -> Result<u64, BookFault>
    requires appended { HasAppended D.moment store.old (history book.old) entry }
    requires sound { is_sound_entry entry ≡ true }
    ensures kept { IsKept D.moment book.new store.new }
    ensures changed { HasChanged story_in (faults_in D.moment) ground_in
        (kept_on book.old store.old) (kept_on book.new store.new) entry result }
    ensures worked { HasWorked (state_in (kept_on book.old store.old))
        (state_in (kept_on book.new store.new)) result }
    ensures any_moment { EachTold (moment_of D.moment store.old) (moment_of D.moment store.new)
        (IsImageAround (history book.old) entry) }
    ensures durable { OnOk result (EachImage (moment_of D.moment store.new)
        (IsImageOf (history book.new))) }
{
    let Entry {
        session,
        line,
        user,
        change,
    } = entry;
    let number = book.change(session, line, &user, change)?;
    match store.open_gate() {
        Ok(()) => Ok(number),
        Err(_) => Err(BookFault::Failed),
    }
}

/// A refusal, unless it is for want of room in the contents or the journal.
fn but_for_room(refusal: Option<Refusal>) -> Option<Refusal>
    ensures { result ≡ first_nine refusal }
{
    match refusal {
        Some(Refusal::Full(Room::Parts | Room::Records | Room::Journal)) => None,
        refusal => refusal,
    }
}
