//! The results of a frontier.
ghost use Rattle.std.specs.Prelude.{◌≡◌, []};

use plan_schema::{Known, Name};
use std::alloc::Global;
use std::marker::Model;
use std::sync::Arc;

/// The results of a frontier, each with its part's name, by level and then by name.
#[derive(Drop)]
pub struct Solved {
    pub(crate) results: Vec<(Name, Arc<Known>)>,
}

impl Model for Solved {
    ghost use Rattle.std.specs.Prelude.{List};
    ghost use Rattle.plan_schema.specs.declared.name.Name.{Name};
    ghost use Rattle.plan_schema.specs.declared.outcome.Known.{Known};
    ghost use Rattle.plan_walk.specs.Results.{told};

    ghost Value = { List (Name × Known) };

    ghost view = { λ s. told s.results.items };
}

impl Solved {
    /// No results.
    pub fn none(alloc: Global) -> Solved
        ensures { result ≡ [] }
    {
        Solved {
            results: Vec::new(alloc),
        }
    }
}
