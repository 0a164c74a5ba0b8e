//! Replies.
ghost use Rattle.std.specs.Prelude.{◌≡◌};
ghost use Rattle.command_words.specs.declared.reply.Bad.TheVariants as bads;

use crate::lines::Lines;
use plan_schema::{FieldFault, Refusal};
use query_language::QueryFault;

/// Why a request isn't in the grammar.
#[derive(Clone, Copy)]
pub enum Bad {
    /// The line has more than 1,024 bytes.
    Long,
    /// The first word is no command.
    Word,
    /// The first faulty field, counted from 1 after the command word.
    Field(FieldFault),
    /// The first token of a query that no query continues.
    Query(QueryFault),
    /// The first bad row of a LOAD, counted from 1, with its first faulty field.
    Row(u32, FieldFault),
    /// The first bad row of a LOAD, which is too long.
    RowLong(u32),
    /// The input ends before the last row of a LOAD.
    Short,
}

impl From<FieldFault> for Bad {
    ghost from_gives = { λ fault bad. bad ≡ bads.Field fault };

    fn from(fault: FieldFault) -> Bad {
        Bad::Field(fault)
    }
}

/// What a session is answered. A point is the number of changes of which the reply speaks.
#[derive(Drop)]
pub enum Reply {
    /// Done, at this point.
    Ok(u64),
    /// The lines of a query at this point.
    Rows(u64, Lines),
    /// Refused at this point.
    No(u64, Refusal),
    /// The request isn't in the grammar.
    Bad(Bad),
    /// There was no memory for the answer.
    Mem,
}
