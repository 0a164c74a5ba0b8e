//! The lines of the scenarios.
ghost use Rattle.std.specs.Prelude.{◌≡◌, ◌≤◌, length, IfOk};
ghost use Rattle.row_text.specs.Spelling.{calendar_text};
ghost use Rattle.session_rules.specs.Answers.{trees};
ghost use Rattle.plan_core.specs.Trees as told;
ghost use Rattle.plan_core.specs.State.{point_of, world_of};

use crate::kept::Core;
use command_words::Lines;
use plan_schema::Name;
use row_text::{RowText, push_number, push_word};
use scenario_merge::{Forest, TreeRow};
use std::alloc::{AllocError, Global};

impl Core {
    /// The scenarios that a user may use, by name and a line each, with the number of entries.
    pub fn tree(&self, user: &Name) -> Result<(u64, Lines), AllocError>
        ensures point { IfOk result (λ tree. tree.0 ≡ point_of self.now) }
        ensures lines { IfOk result (λ tree. tree.1 ≡ trees (world_of self.now) user.now) }
    {
        let lines = tree_lines(self.alloc, &self.forest, user)?;
        Ok((self.point(), lines))
    }
}

/// A line for each scenario that a user may use.
fn tree_lines(alloc: Global, forest: &Forest, user: &Name) -> Result<Lines, AllocError>
    ensures { IfOk result (λ lines. lines ≡ trees forest.now.world user.now) }
{
    forest.holds();
    let rows = forest.rows()?;
    row_lines(alloc, rows.as_slice(), user)
}

/// A line for each of some scenarios that a user may use.
fn row_lines(alloc: Global, rows: &[TreeRow], user: &Name) -> Result<Lines, AllocError>
    ensures { IfOk result (λ lines. lines ≡ told.row_lines user.now rows.now) }
{
    let mut lines = Lines::new(alloc);
    for row in rows {
        if row.allows(user) {
            lines.push(row_line(row).as_slice())?;
        }
    }
    Ok(lines)
}

/// The line of a scenario.
fn row_line(row: &TreeRow) -> RowText
    ensures { result.items ≡ told.row_line row.now }
{
    let mut text = RowText::new();
    let _ = text.try_extend_from_slice(row.name.as_bytes());
    push_word(&mut text, name_or_dash(&row.parent));
    push_word(&mut text, name_or_dash(&row.owner));
    push_word(&mut text, if row.private { b"private" } else { b"shared" });
    push_number(&mut text, row.own as u64);
    text
}

/// A name, or `-` for none.
#[tactic(auto, unfolding(row_text::specs::Spelling::calendar_text))]
fn name_or_dash(name: &Option<Name>) -> &[u8]
    ensures text { result.now ≡ calendar_text name.now }
    ensures short { length result.now ≤ 32 }
{
    match name {
        Some(name) => name.as_bytes(),
        None => b"-",
    }
}
