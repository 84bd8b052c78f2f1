//! Removes blanks from both ends of a text.

ghost use Rattle.std.specs.Prelude.{◌≡◌};
ghost use Rattle.mk_macros.specs.Definitions.{without_blanks};

use mk_lines::{is_blank, trimmed};

/// The text without blanks, spaces and tabs, at its ends, as the standard's `make` reads the name
/// of a macro ("Macros").
pub fn without_blanks(text: &[u8]) -> &[u8]
    ensures { result.now ≡ without_blanks text.now }
{
    let rest = trimmed(text);
    let mut end = rest.len();
    while end > 0 {
        if !is_blank(rest[end - 1]) {
            return &rest[..end];
        }
        end -= 1;
    }
    &[]
}
