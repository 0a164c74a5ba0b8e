//! A question, with all that it needs.
use crate::cells::CellList;
use plan_schema::{CellName, Name};

/// What a question is about.
#[derive(Clone, Copy)]
pub enum Wanted {
    /// One cell of records.
    Cell(CellName),
    /// The plan of a part.
    Part(Name),
    /// The plan of all parts.
    All,
}

/// A question with the cells that its answer depends on. Nothing that happens to the book later changes them.
#[derive(Drop)]
pub struct Job {
    /// How many changes had been made when the question was asked.
    pub point: u64,
    pub wanted: Wanted,
    pub cells: CellList,
}
