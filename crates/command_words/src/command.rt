//! Commands.
ghost use Rattle.std.specs.Prelude.{◌≡◌, true, IfSome};
ghost use Rattle.plan_schema.specs.Sound.{is_sound_change};
ghost use Rattle.command_words.specs.Changes.{change_of};
ghost use Rattle.command_words.specs.Spelling.{is_sound_command};

use crate::query::QueryText;
use plan_schema::{CellName, Change, Day, Key, Name, Record};

/// What a session asks for, read from a line that lives for `'a`.
#[derive(Drop)]
pub enum Command<'a> {
    /// States who speaks from now on.
    Hello(Name),
    /// How many changes there are so far.
    Point,
    Put {
        scenario: Name,
        key: Key,
        value: Record,
    },
    Del {
        scenario: Name,
        key: Key,
    },
    /// Puts the rows of the next lines, as many as the count says: 1 to 1,000.
    Load {
        scenario: Name,
        count: u32,
    },
    Branch {
        parent: Name,
        child: Name,
    },
    Share(Name),
    Update(Name),
    Commit(Name),
    Drop(Name),
    /// The scenarios that the user may use.
    Tree,
    /// The records of a cell.
    Show {
        scenario: Name,
        cell: CellName,
    },
    /// A part's low-level code.
    Level {
        scenario: Name,
        part: Name,
    },
    /// A part's plan.
    Plan {
        scenario: Name,
        part: Name,
    },
    /// Where the gross requirements of a part on a day come from.
    Peg {
        scenario: Name,
        part: Name,
        day: Day,
    },
    /// For which independent demands the planned receipt of a part on a day is meant.
    Trace {
        scenario: Name,
        part: Name,
        day: Day,
    },
    /// What can be promised of a part on each day.
    Atp {
        scenario: Name,
        part: Name,
    },
    /// What a part's orders cost, and why no others cost less.
    Cost {
        scenario: Name,
        part: Name,
    },
    /// The parts that meet a condition, with some of their figures. The query is in the language, and its text is kept as it stands
    /// in the line.
    Select {
        scenario: Name,
        query: QueryText<'a>,
    },
    /// Frees what no scenario shows any more.
    Reclaim,
    /// Ends the session.
    Quit,
}

impl Command<'_> {
    /// The change that the command makes by itself. A LOAD makes none: its rows stand in the lines behind it.
    pub fn change(&self) -> Option<Change>
        ensures value { result ≡ change_of self.now }
        ensures sound { is_sound_command self.now ≡ true
            → IfSome result (λ change. is_sound_change change ≡ true) }
    {
        match self {
            Command::Put {
                scenario,
                key,
                value,
            } => Some(Change::Put {
                scenario: *scenario,
                key: *key,
                value: *value,
            }),
            Command::Del { scenario, key } => Some(Change::Del {
                scenario: *scenario,
                key: *key,
            }),
            Command::Branch { parent, child } => Some(Change::Branch {
                parent: *parent,
                child: *child,
            }),
            Command::Share(scenario) => Some(Change::Share {
                scenario: *scenario,
            }),
            Command::Update(scenario) => Some(Change::Update {
                scenario: *scenario,
            }),
            Command::Commit(scenario) => Some(Change::Commit {
                scenario: *scenario,
            }),
            Command::Drop(scenario) => Some(Change::Drop {
                scenario: *scenario,
            }),
            _ => None,
        }
    }
}
