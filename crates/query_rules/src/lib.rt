//! What queries mean: which parts a query selects, and the values of its columns.
#![tactic(auto)]

mod laws;

pub use laws::selected_parts;
