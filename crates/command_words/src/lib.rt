//! The words of sessions: commands as they are read, and replies as they are written.
#![tactic(auto)]

mod command;
mod fields;
mod laws;
mod line;
mod lines;
mod page;
mod query;
mod read;
mod reply;
mod verb;
mod write;

pub use command::Command;
pub use laws::{
    commands_have_one_spelling, refusals_have_one_spelling, replies_are_in_form,
    words_are_read_again,
};
pub use line::is_blank;
pub use lines::Lines;
pub use page::{Page, flush, put_line};
pub use plan_schema::CellName;
pub use query::QueryText;
pub use read::{read_line, read_row};
pub use reply::{Bad, Reply};
pub use write::{put_reply, room_bytes, rule_bytes, write_reply};
