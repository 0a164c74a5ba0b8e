//! Changes to the scenarios, and the cells that records are grouped in.
ghost use Rattle.std.specs.Prelude.{◌≡◌, true, IfOk};
ghost use Rattle.plan_schema.specs.Cell.{cell_cmp};
ghost use Rattle.plan_schema.specs.Sound.{change_has_names};

use crate::key::{Key, Record};
use crate::name::Name;
use crate::series::Rows;
use std::alloc::AllocError;
use std::cmp::Ordering;

/// A change to the scenarios.
#[derive(Drop)]
pub enum Change {
    /// Puts a record under a key.
    Put {
        scenario: Name,
        key: Key,
        value: Record,
    },
    /// Takes the record under a key out.
    Del {
        scenario: Name,
        key: Key,
    },
    /// Puts rows one after another, so the last one of a key stays.
    Load {
        scenario: Name,
        rows: Rows,
    },
    /// Makes a private scenario with the parent's contents.
    Branch {
        parent: Name,
        child: Name,
    },
    /// Lets every user use the scenario.
    Share {
        scenario: Name,
    },
    /// Takes over the parent's contents, and lays the scenario's own changes over them.
    Update {
        scenario: Name,
    },
    /// Puts the scenario's own changes into its parent.
    Commit {
        scenario: Name,
    },
    /// Takes the scenario away.
    Drop {
        scenario: Name,
    },
}

/// An accepted change as the journal keeps it: who made it, and in which line of which session.
#[derive(Drop)]
pub struct Entry {
    /// The session's number, from 1.
    pub session: u64,
    /// The number of the request's first line in the session's input, from 1.
    pub line: u64,
    pub user: Name,
    pub change: Change,
}

/// A cell of records: the horizon's, a calendar's or a part's.
#[derive(Clone, Copy, PartialEq, Eq, PartialOrd, Ord, Hash)]
pub enum CellName {
    Plan,
    Cal(Name),
    Part(Name),
}

impl CellName {
    /// Where the name stands beside another in the order of cell names.
    pub fn compare(&self, other: &CellName) -> Ordering
        ensures { result ≡ cell_cmp self.now other.now }
    {
        self.cmp(other)
    }
}

impl Change {
    /// An equal change.
    pub fn copy(&self) -> Result<Change, AllocError>
        ensures { IfOk result (λ copy. copy ≡ self.now) }
    {
        Ok(match self {
            Change::Put {
                scenario,
                key,
                value,
            } => Change::Put {
                scenario: *scenario,
                key: *key,
                value: *value,
            },
            Change::Del { scenario, key } => Change::Del {
                scenario: *scenario,
                key: *key,
            },
            Change::Load { scenario, rows } => Change::Load {
                scenario: *scenario,
                rows: rows.copy()?,
            },
            Change::Branch { parent, child } => Change::Branch {
                parent: *parent,
                child: *child,
            },
            Change::Share { scenario } => Change::Share {
                scenario: *scenario,
            },
            Change::Update { scenario } => Change::Update {
                scenario: *scenario,
            },
            Change::Commit { scenario } => Change::Commit {
                scenario: *scenario,
            },
            Change::Drop { scenario } => Change::Drop {
                scenario: *scenario,
            },
        })
    }

    /// Tells a caller that the scenarios that the change names have names.
    pub fn names_hold(&self)
        ensures { change_has_names self.now ≡ true }
    {
        match self {
            Change::Put { scenario, .. }
            | Change::Del { scenario, .. }
            | Change::Load { scenario, .. }
            | Change::Share { scenario }
            | Change::Update { scenario }
            | Change::Commit { scenario }
            | Change::Drop { scenario } => scenario.holds(),
            Change::Branch { parent, child } => {
                parent.holds();
                child.holds();
            }
        }
    }
}

impl Entry {
    /// An equal entry.
    pub fn copy(&self) -> Result<Entry, AllocError>
        ensures { IfOk result (λ copy. copy ≡ self.now) }
    {
        Ok(Entry {
            session: self.session,
            line: self.line,
            user: self.user,
            change: self.change.copy()?,
        })
    }
}
