//! A test of a query that is read to its tree.
ghost use Rattle.std.specs.Prelude.{◌≡◌, ◌≤◌, length};

use crate::{Column, Cond, Op, check_query, read_query};
use std::test::Fail;

#[test]
fn queries_are_read(rt: HostRuntime) -> Result<(), Fail> {
    let text = "stock, low WHERE lead = 1 OR NOT part != A AND last >= 5".as_bytes();
    assert!(rt; text.len() <= 1024);
    let query = match check_query(text) {
        Ok(()) => read_query(rt.alloc(), text)?,
        Err(_) => return Err(Fail::from("a query")),
    };
    assert!(rt; matches!(query.columns.as_slice(), [Column::Stock, Column::Low]));
    let Some(Cond::Or(left, right)) = &query.cond else {
        return Err(Fail::from("an OR"));
    };
    assert!(rt; matches!(**left, Cond::Is(Column::Lead, Op::Eq, 1)));
    let Cond::And(first, second) = &**right else {
        return Err(Fail::from("an AND"));
    };
    assert!(rt; matches!(**second, Cond::Is(Column::Last, Op::Ge, 5)));
    let Cond::Not(factor) = &**first else {
        return Err(Fail::from("a NOT"));
    };
    assert!(rt; matches!(**factor, Cond::Named(_, false)));
    Ok(())
}
