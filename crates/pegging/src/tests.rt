//! Pegs where memory is ample.
use crate::peg;
use plan_schema::Day;
use record_versions::Cell;
use std::test::Fail;

#[test]
fn pegs_of_no_rows(rt: HostRuntime) -> Result<(), Fail> {
    let Ok(start) = Day::read(b"2025-03-03") else {
        return Err(Fail::from("a day"));
    };
    let pegs = peg(rt.alloc(), &Cell::new(rt.alloc()), &start, 2, 1, &[])?;
    assert!(rt; pegs.is_empty());
    Ok(())
}
