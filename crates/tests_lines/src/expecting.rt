//! Checks of texts, bytes, numbers and conditions.

ghost use Rattle.std.specs.Prelude.{◌≡◌};

use std::process::Abort;

/// Checks that two texts are equal; a failure shows the beginning of the row.
pub fn same(rt: &impl Abort, got: &str, want: &str, row: &str) {
    let front = row.get(..80).unwrap_or(row);
    assert_eq!(rt; got, want, "at {front}");
}

/// Checks that two lists of bytes are equal.
pub fn same_bytes(rt: &impl Abort, got: &[u8], want: &[u8], row: &str) {
    let front = row.get(..80).unwrap_or(row);
    assert_eq!(rt; got, want, "at {front}");
}

/// Checks that two numbers are equal.
pub fn same_number(rt: &impl Abort, got: usize, want: usize, row: &str)
    ensures { got ≡ want }
{
    assert_eq!(rt; got, want, "at {row}");
}

/// Checks that something holds; a failure shows the row.
pub fn see_that(rt: &impl Abort, holds: bool, row: &str) {
    assert!(rt; holds, "at {row}");
}
