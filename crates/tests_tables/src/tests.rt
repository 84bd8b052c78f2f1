//! Tests of rows, fields and signs.

use crate::{field, fields_of, lines_of, part, rows, unfolded};
use std::process::Abort;
use std::test::Fail;

#[test]
fn rows_go_on_over_lines(rt: HostRuntime) -> Result<(), Fail> {
    let rows = rows(rt.alloc(), "a‖b\n    ‖c\n d\n\n    e\nf\n")?;
    assert_eq!(rt; rows.len(), 4);
    for (row, want) in rows.iter().zip(["a‖b‖c", " d", "e", "f"]) {
        assert_eq!(rt; row.as_str(), want);
    }
    Ok(())
}

#[test]
fn fields_stand_between_bars(rt: HostRuntime) -> Result<(), Fail> {
    let fields = fields_of(rt.alloc(), "a‖¶→‖")?;
    assert_eq!(rt; fields.len(), 3);
    assert_eq!(rt; field(rt.alloc(), &fields, 1)?.as_str(), "\n\t");
    assert_eq!(rt; part("a‖b", 1), "b");
    assert_eq!(rt; part("a‖b", 2), "");
    Ok(())
}

#[test]
fn signs_are_unfolded(rt: HostRuntime) -> Result<(), Fail> {
    assert_eq!(rt;
        unfolded(rt.alloc(), "a¶→b×3×cd×e")?.as_str(),
        "a\n\tbcdcdcde"
    );
    assert_eq!(rt; lines_of(rt.alloc(), "a/b/")?.as_str(), "a\nb\n");
    Ok(())
}
