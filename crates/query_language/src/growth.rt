//! Queries that grow piece by piece.
ghost use Rattle.std.specs.Prelude.{◌≡◌, option_map, OnOk, IfOk};
ghost use Rattle.query_language.specs.Growing as spec;
ghost use Rattle.query_language.specs.Growing.{pending_tree, levels_of, growth_tree};
ghost use Rattle.query_language.specs.Trees.{Negation, cond_tree, query_tree};
ghost use Rattle.query_language.specs.declared.nest.Opener.TheVariants as opener;
ghost use Rattle.query_language.specs.declared.progress.Piece.TheVariants as piece;

use crate::column::Column;
use crate::cond::{Columns, Cond, Query};
use crate::nest::Opener;
use crate::progress::Piece;
use std::alloc::{AllocError, Global};

/// A condition that isn't over: the terms before its last `OR`, and the factors behind that.
#[derive(Drop)]
pub(crate) struct Pending {
    either: Option<Cond>,
    both: Option<Cond>,
}

/// What a factor stands inside: a `NOT`, or a `(` in a condition that isn't over.
#[derive(Drop)]
pub(crate) enum Level {
    Not,
    Paren(Pending),
}

/// A query that isn't over.
#[derive(Drop)]
pub(crate) struct Growth {
    columns: Columns,
    pending: Pending,
    levels: Vec<Level>,
}

/// A factor with those before it in its term.
fn both_with(alloc: Global, before: Option<Cond>, factor: Cond) -> Result<Cond, AllocError>
    ensures { IfOk result (λ both. cond_tree both
        ≡ spec.both_with (option_map cond_tree before) (cond_tree factor)) }
{
    match before {
        Some(before) => Ok(Cond::And(Box::new(alloc, before)?, Box::new(alloc, factor)?)),
        None => Ok(factor),
    }
}

/// A term with those before it.
fn either_with(alloc: Global, before: Option<Cond>, term: Cond) -> Result<Cond, AllocError>
    ensures { IfOk result (λ either. cond_tree either
        ≡ spec.either_with (option_map cond_tree before) (cond_tree term)) }
{
    match before {
        Some(before) => Ok(Cond::Or(Box::new(alloc, before)?, Box::new(alloc, term)?)),
        None => Ok(term),
    }
}

/// The factor that a `NOT` makes of a factor.
fn negation(alloc: Global, factor: Cond) -> Result<Cond, AllocError>
    ensures { IfOk result (λ negation. cond_tree negation ≡ Negation (cond_tree factor)) }
{
    Ok(Cond::Not(Box::new(alloc, factor)?))
}

impl Pending {
    /// Before a condition.
    fn new() -> Pending
        ensures { pending_tree result ≡ spec.nothing_pending }
    {
        Pending {
            either: None,
            both: None,
        }
    }

    /// Adds a factor to the last term.
    fn with_factor(self, alloc: Global, factor: Cond) -> Result<Pending, AllocError>
        ensures { IfOk result (λ pending. pending_tree pending
            ≡ spec.pending_with (pending_tree self) (cond_tree factor)) }
    {
        let Pending { either, both } = self;
        let both = both_with(alloc, both, factor)?;
        Ok(Pending {
            either,
            both: Some(both),
        })
    }

    /// The whole condition, if there is any.
    fn whole(self, alloc: Global) -> Result<Option<Cond>, AllocError>
        ensures { IfOk result (λ whole. option_map cond_tree whole
            ≡ spec.whole (pending_tree self)) }
    {
        let Pending { either, both } = self;
        match both {
            Some(term) => {
                let whole = either_with(alloc, either, term)?;
                Ok(Some(whole))
            }
            None => Ok(either),
        }
    }

    /// Ends the last term.
    fn behind_or(self, alloc: Global) -> Result<Pending, AllocError>
        ensures { IfOk result (λ pending. pending_tree pending
            ≡ spec.behind_or (pending_tree self)) }
    {
        Ok(Pending {
            either: self.whole(alloc)?,
            both: None,
        })
    }
}

/// Ends each `NOT` before a factor, and gives the factor with them.
fn negated(alloc: Global, levels: &mut Vec<Level>, factor: Cond) -> Result<Cond, AllocError>
    ensures factor { IfOk result (λ negated. cond_tree negated
        ≡ spec.negated (levels_of levels.old.items) (cond_tree factor)) }
    ensures levels { OnOk result (levels_of levels.new.items
        ≡ spec.behind_nots (levels_of levels.old.items)) }
{
    let mut factor = factor;
    while let Some(Level::Not) = levels.last() {
        let _ = levels.pop();
        factor = negation(alloc, factor)?;
    }
    Ok(factor)
}

impl Growth {
    /// Before a query.
    pub(crate) fn new(alloc: Global) -> Growth
        ensures { growth_tree result ≡ spec.nothing_grown }
    {
        Growth {
            columns: Columns::new(alloc),
            pending: Pending::new(),
            levels: Vec::new(alloc),
        }
    }

    /// Adds a piece.
    pub(crate) fn with(self, alloc: Global, piece: &Piece) -> Result<Growth, AllocError>
        ensures { IfOk result (λ growth. growth_tree growth
            ≡ spec.grow (growth_tree self) piece.now) }
    {
        match piece {
            Piece::Nothing => Ok(self),
            Piece::Column(column) => self.with_column(*column),
            Piece::Opener(Opener::Not) => self.with_not(),
            Piece::Opener(Opener::Paren) => self.with_paren(),
            Piece::Is(column, op, number) => self.with_factor(
                alloc,
                Cond::Is(*column, *op, *number),
            ),
            Piece::Named(name, equal) => self.with_factor(alloc, Cond::Named(*name, *equal)),
            Piece::Close => self.behind_close(alloc),
            Piece::Or => self.behind_or(alloc),
        }
    }

    fn with_column(self, column: Column) -> Result<Growth, AllocError>
        ensures { IfOk result (λ growth. growth_tree growth
            ≡ spec.grow (growth_tree self) (piece.Column column)) }
    {
        let mut columns = self.columns;
        columns.push(column)?;
        Ok(Growth {
            columns,
            pending: self.pending,
            levels: self.levels,
        })
    }

    fn with_not(self) -> Result<Growth, AllocError>
        ensures { IfOk result (λ growth. growth_tree growth
            ≡ spec.grow (growth_tree self) (piece.Opener opener.Not)) }
    {
        let mut levels = self.levels;
        levels.push(Level::Not)?;
        Ok(Growth {
            columns: self.columns,
            pending: self.pending,
            levels,
        })
    }

    fn with_paren(self) -> Result<Growth, AllocError>
        ensures { IfOk result (λ growth. growth_tree growth
            ≡ spec.grow (growth_tree self) (piece.Opener opener.Paren)) }
    {
        let mut levels = self.levels;
        levels.push(Level::Paren(self.pending))?;
        Ok(Growth {
            columns: self.columns,
            pending: Pending::new(),
            levels,
        })
    }

    fn with_factor(self, alloc: Global, factor: Cond) -> Result<Growth, AllocError>
        ensures { IfOk result (λ growth. growth_tree growth
            ≡ spec.with_factor self.columns (pending_tree self.pending)
            (levels_of self.levels.items) (cond_tree factor)) }
    {
        let Growth {
            columns,
            pending,
            levels,
        } = self;
        let mut levels = levels;
        let factor = negated(alloc, &mut levels, factor)?;
        let pending = pending.with_factor(alloc, factor)?;
        Ok(Growth {
            columns,
            pending,
            levels,
        })
    }

    /// Ends a `(`.
    fn behind_close(self, alloc: Global) -> Result<Growth, AllocError>
        ensures { IfOk result (λ growth. growth_tree growth
            ≡ spec.grow (growth_tree self) piece.Close) }
    {
        let Growth {
            columns,
            pending,
            levels,
        } = self;
        let mut levels = levels;
        match levels.pop() {
            Some(Level::Paren(outer)) => {
                let growth = Growth {
                    columns,
                    pending: outer,
                    levels,
                };
                growth.with_whole(alloc, pending)
            }
            _ => Ok(Growth {
                columns,
                pending,
                levels,
            }),
        }
    }

    /// Adds what stands inside a `(` as a factor.
    fn with_whole(self, alloc: Global, inside: Pending) -> Result<Growth, AllocError>
        ensures { IfOk result (λ growth. growth_tree growth
            ≡ spec.with_whole self.columns (pending_tree self.pending)
            (levels_of self.levels.items) (spec.whole (pending_tree inside))) }
    {
        match inside.whole(alloc)? {
            Some(factor) => self.with_factor(alloc, factor),
            None => Ok(self),
        }
    }

    /// Ends a term.
    fn behind_or(self, alloc: Global) -> Result<Growth, AllocError>
        ensures { IfOk result (λ growth. growth_tree growth
            ≡ spec.grow (growth_tree self) piece.Or) }
    {
        Ok(Growth {
            columns: self.columns,
            pending: self.pending.behind_or(alloc)?,
            levels: self.levels,
        })
    }

    /// The query that has grown.
    pub(crate) fn into_query(self, alloc: Global) -> Result<Query, AllocError>
        ensures { IfOk result (λ query. query_tree query ≡ spec.grown_query (growth_tree self)) }
    {
        Ok(Query {
            columns: self.columns,
            cond: self.pending.whole(alloc)?,
        })
    }
}
