//! Positions of bytes, and tests of how a text begins and ends.

ghost use Rattle.std.specs.Prelude.{◌≡◌, ◌≤◌, length};
ghost use Rattle.std.specs.List.{position_or_len};
ghost use Rattle.mk_lines.specs.Bytes.{begins_with, is_blank, is_byte};
ghost use Rattle.mk_macros.specs.Substitution.{ends_with};

use memchr::{memchr, memchr2};

/// The position of the first such byte, or the text's length where it has none.
pub fn first_place(byte: u8, text: &[u8]) -> usize
    ensures within { result ≤ length text.now }
    ensures place { result ≡ position_or_len (is_byte byte) text.now }
{
    match memchr(byte, text) {
        Some(at) => at,
        None => text.len(),
    }
}

/// The position of the first blank, or the text's length where it has none.
pub fn first_blank(text: &[u8]) -> usize
    ensures within { result ≤ length text.now }
    ensures place { result ≡ position_or_len is_blank text.now }
{
    match memchr2(b' ', b'\t', text) {
        Some(at) => at,
        None => text.len(),
    }
}

/// Whether a text begins with `front`.
pub fn begins_with(front: &[u8], text: &[u8]) -> bool
    ensures { result ≡ begins_with front.now text.now }
{
    text.starts_with(front)
}

/// Whether a text ends with `back`.
pub fn ends_with(back: &[u8], text: &[u8]) -> bool
    ensures { result ≡ ends_with back.now text.now }
{
    text.ends_with(back)
}
