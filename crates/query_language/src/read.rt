//! The tree of a query.
ghost use Rattle.std.specs.Prelude.{◌≡◌, ◌≤◌, Ok, length, IfOk};
ghost use Rattle.query_language.specs.Grammar.{IsQueryText};
ghost use Rattle.query_language.specs.Growing.{query_of};
ghost use Rattle.query_language.specs.Reading.{check_of};
ghost use Rattle.query_language.specs.Trees.{query_tree};

use crate::cond::Query;
use crate::growth::Growth;
use crate::progress::Progress;
use crate::token::Tokens;
use std::alloc::{AllocError, Global};

/// The query that a text is.
pub fn read_query(alloc: Global, text: &[u8]) -> Result<Query, AllocError>
    requires short { length text.now ≤ 1024 }
    requires query { check_of text.now ≡ Ok tt }
    ensures value { IfOk result (λ query. query_of text.now ≡ Ok (query_tree query)) }
    ensures derived { IfOk result (λ query. IsQueryText text.now (query_tree query)) }
{
    query_in(alloc, text)
}

#[tactic(auto, unfolding(crate::specs::Growing::query_of, crate::specs::Growing::tree_of, crate::specs::Reading::check_of))]
fn query_in(alloc: Global, text: &[u8]) -> Result<Query, AllocError>
    requires short { length text.now ≤ 1024 }
    requires query { check_of text.now ≡ Ok tt }
    ensures { IfOk result (λ query. query_of text.now ≡ Ok (query_tree query)) }
{
    let mut tokens = Tokens::of(text);
    let mut progress = Progress::new();
    let mut growth = Growth::new(alloc);
    while let Some((_, token)) = tokens.next() {
        match progress.step(token) {
            Ok((next, piece)) => {
                progress = next;
                growth = growth.with(alloc, &piece)?;
            }
            Err(_) => unreachable!(),
        }
    }
    growth.into_query(alloc)
}
