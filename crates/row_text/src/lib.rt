//! Rows, keys and numbers as text: read from fields, and written in their one spelling.
#![tactic(auto)]

mod field;
mod key_form;
mod laws;
mod lot;
mod number;
mod row;
mod write;

pub use field::{day_at, end_at, is_word, name_at, number_at, text_at};
pub use key_form::read_key;
pub use laws::{
    few_fields_tell, keys_have_one_spelling, lots_have_one_spelling, numbers_have_one_spelling,
    rows_have_one_spelling,
};
pub use number::{is_digits, read_number};
pub use row::read_record;
pub use write::{
    RowText, key_bytes, push_day, push_number, push_word, row_bytes, write_key, write_record,
};
