//! Splits a text into runs: physical lines (pieces) that escaped newlines join.

ghost use Rattle.std.specs.Prelude.{◌≡◌, ◌∷◌, ◌≤◌, ◌+◌, length, MatchOption};
ghost use Rattle.std.specs.Option.{option_map};
ghost use Rattle.std.specs.List.{slice_split};
ghost use Rattle.mk_lines.specs.Bytes.{is_byte, parts_left};
ghost use Rattle.mk_lines.specs.Lines.{backslashes, escapes, runs};

use crate::bytes::cut;

/// How many backslashes end a piece.
fn backslashes(piece: &[u8]) -> usize
    ensures { result ≡ backslashes piece.now }
{
    piece.iter().rev().take_while(|b| **b == b'\\').count()
}

/// Whether the newline after a piece is escaped: an odd number of backslashes ends the piece.
fn escapes(piece: &[u8]) -> bool
    ensures { result ≡ escapes piece.now }
{
    backslashes(piece) % 2 == 1
}

/// The first run of a text; what follows the newline at its end, or `None` at the end of the text;
/// and how many pieces the run has.
pub fn take_run(text: &[u8]) -> (&[u8], Option<&[u8]>, usize)
    ensures first { runs (slice_split (is_byte 10) text.now) ≡
        slice_split (is_byte 10) result.0.now ∷
        runs (parts_left 10 (option_map (λ rest. rest.now) result.1)) }
    ensures count { result.2 ≡ length (slice_split (is_byte 10) result.0.now) }
    ensures shorter { MatchOption result.1 (result.2 ≤ length text.now + 1)
        (λ rest. result.2 + length rest.now ≤ length text.now) }
{
    let mut rest = text;
    let mut end = 0;
    let mut count = 1;
    loop {
        let (piece, after) = cut(rest, b'\n');
        end += piece.len();
        let Some(after) = after else {
            return (text, None, count);
        };
        if !escapes(piece) {
            return (&text[..end], Some(after), count);
        }
        rest = after;
        end += 1;
        count += 1;
    }
}
