//! Joins the pieces of a run. A run is a list of physical lines (pieces) that escaped newlines
//! join.

ghost use Rattle.std.specs.Prelude.{◌≡◌, ◌==◌, length, IfOk};
ghost use Rattle.std.specs.List.{slice_split};
ghost use Rattle.std.specs.Cow.{cow_slice_items};
ghost use Rattle.mk_lines.specs.Borrowed.{is_borrowed};
ghost use Rattle.mk_lines.specs.Bytes.{is_byte};
ghost use Rattle.mk_lines.specs.Lines.{without_last_byte, without_tab, plain_of, command_of, text_of};

use crate::bytes::{cut, trimmed};
use std::alloc::{AllocError, Global};
use std::borrow::CowSlice;

/// A piece without its last byte.
fn without_last_byte(piece: &[u8]) -> &[u8]
    ensures { result.now ≡ without_last_byte piece.now }
{
    &piece[..piece.len().saturating_sub(1)]
}

/// A text without its first byte, if that is a tab.
pub fn without_tab(text: &[u8]) -> &[u8]
    ensures { result.now ≡ without_tab text.now }
{
    match text {
        [b'\t', rest @ ..] => rest,
        _ => text,
    }
}

/// Joins the pieces of a plain line: a backslash, its newline and the leading blanks of the next
/// piece become one space.
fn join_plain(alloc: Global, run: &[u8]) -> Result<Vec<u8>, AllocError>
    ensures { IfOk result (λ text. text.items ≡ plain_of (slice_split (is_byte 10) run.now)) }
{
    let mut text = Vec::with_capacity(alloc, run.len())?;
    let mut rest = run;
    loop {
        let (piece, after) = cut(rest, b'\n');
        let Some(after) = after else {
            text.extend_from_slice(piece)?;
            return Ok(text);
        };
        text.extend_from_slice(without_last_byte(piece))?;
        text.push(b' ')?;
        rest = trimmed(after);
    }
}

/// Joins the pieces of a command line: backslash and newline stay, and one leading tab of each
/// later piece is dropped.
fn join_command(alloc: Global, run: &[u8]) -> Result<Vec<u8>, AllocError>
    ensures { IfOk result (λ text. text.items ≡ command_of (slice_split (is_byte 10) run.now)) }
{
    let mut text = Vec::with_capacity(alloc, run.len())?;
    let mut rest = run;
    loop {
        let (piece, after) = cut(rest, b'\n');
        let Some(after) = after else {
            text.extend_from_slice(piece)?;
            return Ok(text);
        };
        text.extend_from_slice(piece)?;
        text.push(b'\n')?;
        rest = without_tab(after);
    }
}

/// The text of a run, whose first tab the caller has dropped where it is a command line. Where the
/// run is one piece, the result borrows from it. The only error is out of memory.
pub fn joined(alloc: Global, command: bool, run: &[u8]) -> Result<CowSlice<'_, u8>, AllocError>
    ensures exact { IfOk result (λ text. cow_slice_items text ≡
        text_of command (slice_split (is_byte 10) run.now)) }
    ensures lends { IfOk result (λ text. is_borrowed text ≡
        (length (slice_split (is_byte 10) run.now) == 1)) }
{
    let (_, behind) = cut(run, b'\n');
    if behind.is_none() {
        return Ok(CowSlice::Borrowed(run));
    }
    if command {
        return Ok(CowSlice::Owned(join_command(alloc, run)?));
    }
    Ok(CowSlice::Owned(join_plain(alloc, run)?))
}
