//! Splitting a text at a separator, and blanks.

ghost use Rattle.std.specs.Prelude.{◌≡◌, ◌∷◌, ◌<◌, ◌++◌, false, length, drop, IfSome, MatchOption};
ghost use Rattle.std.specs.Option.{option_map};
ghost use Rattle.std.specs.List.{slice_split, list_any, prefix_len, All};
ghost use Rattle.mk_lines.specs.Bytes.{is_byte, is_blank, is_blank_alone, trimmed, parts_left};

use bstr::ByteSlice;

/// The part before the first separator, and what follows the separator: `None` where there is none.
pub fn cut(text: &[u8], separator: u8) -> (&[u8], Option<&[u8]>)
    ensures shorter { IfSome result.1 (λ rest. length rest.now < length text.now) }
    ensures whole { MatchOption result.1 (result.0.now ≡ text.now) (λ rest. text.now ≡
        result.0.now ++ separator ∷ rest.now) }
    ensures clean { All (λ b. is_byte separator b ≡ false) result.0.now }
    ensures parts { slice_split (is_byte separator) text.now ≡
        result.0.now ∷ parts_left separator (option_map (λ rest. rest.now) result.1) }
{
    match text.find_byte(separator) {
        Some(at) => (&text[..at], Some(&text[at + 1..])),
        None => (text, None),
    }
}

/// Whether a text has this byte.
pub fn has_byte(text: &[u8], byte: u8) -> bool
    ensures { result ≡ list_any (is_byte byte) text.now }
{
    text.find_byte(byte).is_some()
}

/// Whether a byte is a blank: a space or a tab (the standard's `make`, "Makefile Syntax").
pub fn is_blank(byte: u8) -> bool
    ensures { result ≡ is_blank byte }
{
    byte == b' ' || byte == b'\t'
}

/// Whether a text is empty or holds only blanks.
pub fn is_blank_alone(text: &[u8]) -> bool
    ensures { result ≡ is_blank_alone text.now }
{
    text.iter().all(|b| is_blank(*b))
}

/// The text without its leading blanks, which the standard's `make` drops ("Makefile Syntax" and
/// "Macros").
pub fn trimmed(text: &[u8]) -> &[u8]
    ensures { result.now ≡ trimmed text.now }
{
    let mut rest = text;
    while let [b' ' | b'\t', after @ ..] = rest {
        rest = after;
    }
    rest
}
