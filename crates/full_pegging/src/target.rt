//! What the units of a part's demand are for.
use plan_schema::{Name, Qty};

/// What some units of the demand of a part are for.
#[derive(Clone, Copy)]
pub enum Target {
    /// An independent demand, by its order.
    Demand(Name),
    /// A parent, by its place in the walk. So many go into each of its units, the first of them into the unit with this number.
    Parent { place: usize, per: Qty, before: u64 },
}
