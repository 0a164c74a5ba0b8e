//! A part of which a query asks.
use plan_schema::{Known, Name};
use record_versions::Cell;

/// A part, the rows of its cell, and what is known of its plan.
#[derive(Clone, Copy)]
pub struct Part<'a> {
    pub name: &'a Name,
    pub cell: &'a Cell,
    pub known: Option<&'a Known>,
}
