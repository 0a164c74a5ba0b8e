//! Queries as trees.
use crate::column::{Column, Op};
use plan_schema::{Name, Series};

/// The columns of a query in the order asked. One that was read has 1 to 16.
pub type Columns = Series<Column>;

/// A condition on a part.
#[derive(Drop)]
pub enum Cond {
    /// How a figure compares with a number.
    Is(Column, Op, u64),
    /// Whether the part has this name, or, with false, another.
    Named(Name, bool),
    Not(Box<Cond>),
    And(Box<Cond>, Box<Cond>),
    Or(Box<Cond>, Box<Cond>),
}

/// What is asked of which parts: all of them where there is no condition.
#[derive(Drop)]
pub struct Query {
    pub columns: Columns,
    pub cond: Option<Cond>,
}
