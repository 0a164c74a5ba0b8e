//! A book that goes forward in a journal.
ghost use Rattle.std.specs.Prelude.{◌≡◌, ◌≤◌, ◌∷◌, ◌++◌, [], ℕ, length, true, OnOk, OnErr};
ghost use Rattle.plan_schema.specs.Sound.{is_sound_entry};
ghost use Rattle.plan_schema.specs.Contents.{Contents};
ghost use Rattle.scenario_rules.specs.Journal.{AreSound};
ghost use Rattle.plan_core.specs.State.{history};
ghost use Rattle.plan_audit.specs.Standing.{StandsAt, IsOnTheWay};

use plan_book::{Book, PlanBook};
use plan_schema::Entry;
use std::alloc::AllocError;

/// Enters the entries behind those that a book has, up to a point.
pub(crate) fn go_on(book: &mut Book, entries: &[Entry], point: u64) -> Result<(), AllocError>
    requires sound { AreSound entries.now }
    requires within { point ≤ length entries.now }
    requires behind { length (history book.old) ≤ point }
    ensures ok { OnOk result ((base : Contents) (at : ℕ) → StandsAt base entries.now book.old at
        → StandsAt base entries.now book.new point) }
    ensures err { (base : Contents) (at : ℕ) → StandsAt base entries.now book.old at
        → IsOnTheWay base entries.now point book.new }
{
    for place in book.point()..point {
        enter(book, &entries[place as usize])?;
    }
    Ok(())
}

/// Enters one more entry.
fn enter(book: &mut Book, entry: &Entry) -> Result<(), AllocError>
    requires { is_sound_entry entry.now ≡ true }
    ensures base { OnOk result (book.new.base ≡ book.old.base) }
    ensures entered { OnOk result (history book.new ≡ history book.old ++ entry.now ∷ []) }
    ensures same { OnErr result ((book.new.base ≡ book.old.base)
        × (history book.new ≡ history book.old)) }
{
    let change = entry.change.copy()?;
    match book.change(entry.session, entry.line, &entry.user, change) {
        Ok(_) => Ok(()),
        Err(_) => Err(AllocError),
    }
}
