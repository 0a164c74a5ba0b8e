//! What a core began with, for contracts alone.
ghost use Rattle.std.specs.Prelude.{◌≡◌, List};
ghost use Rattle.std.specs.Borrow.{ftrue};
ghost use Rattle.plan_schema.specs.declared.change.Entry.{Entry as Entered};
ghost use Rattle.plan_schema.specs.declared.key.Key.{Key};
ghost use Rattle.plan_schema.specs.declared.key.Record.{Record};

use plan_journal::Journal;
use plan_schema::Contents;
use std::marker::Model;

/// The records and the entries that a core began with. It takes no bytes: contracts alone see them.
#[derive(Drop)]
pub(crate) struct Began {
    pub(crate) ghost base: { List (Key × Record) },
    pub(crate) ghost earlier: { List Entered },
}

impl Model for Began {
    ghost also_owns = { λ _. ftrue };
}

// A struct with such fields has it not by itself. This one owns nothing.
unsafe impl Send for Began {}

impl Began {
    /// These records and entries.
    pub(crate) fn with(_contents: &Contents, _journal: &Journal) -> Began
        ensures { let began : List (Key × Record) × List Entered = (result.base, result.earlier) in
            began ≡ (_contents.now, _journal.now.entries) }
    {
        Began {}
    }
}
