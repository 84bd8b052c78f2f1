//! Removes comments from plain lines. A plain line is one that doesn't begin with a tab.

ghost use Rattle.std.specs.Prelude.{◌≡◌, ◌<◌, ◌≤◌, ◌++◌, length, true, false, IfOk, IfSome};
ghost use Rattle.std.specs.Cow.{cow_slice_items};
ghost use Rattle.mk_lines.specs.Borrowed.{is_borrowed};
ghost use Rattle.mk_lines.specs.Comments.{begins_with_hash, unchanged_from, comment_at, unescaped, has_escaped_hash, before_comment, uncomment};

use crate::bytes::has_byte;
use crate::references::first_outside;
use crate::rule_lines::is_rule_line;
use std::alloc::{AllocError, Global};
use std::borrow::CowSlice;

/// Where the part of a plain line begins that `uncomment` leaves unchanged: at the first `;`
/// outside references on a rule line, else at the end of the line.
fn unchanged_from(alloc: Global, text: &[u8]) -> Result<usize, AllocError>
    ensures exact { IfOk result (λ at. at ≡ unchanged_from text.now) }
    ensures within { IfOk result (λ at. at ≤ length text.now) }
{
    if !is_rule_line(alloc, text)? {
        return Ok(text.len());
    }
    Ok(first_outside(alloc, b";", text)?.unwrap_or(text.len()))
}

/// The position of the first `#` that doesn't directly follow a backslash.
fn comment_at(text: &[u8]) -> Option<usize>
    ensures exact { result ≡ comment_at text.now }
    ensures within { IfSome result (λ at. at < length text.now) }
{
    let mut behind_backslash = false;
    for (at, byte) in text.iter().enumerate() {
        if *byte == b'#' && !behind_backslash {
            return Some(at);
        }
        behind_backslash = *byte == b'\\';
    }
    None
}

fn begins_with_hash(text: &[u8]) -> bool
    ensures { result ≡ begins_with_hash text.now }
{
    matches!(text, [b'#', ..])
}

/// Whether a text contains `\#`.
fn has_escaped_hash(text: &[u8]) -> bool
    ensures { result ≡ has_escaped_hash text.now }
{
    let mut rest = text;
    while let [byte, after @ ..] = rest {
        if *byte == b'\\' && begins_with_hash(after) {
            return true;
        }
        rest = after;
    }
    false
}

/// Appends a text, with each `\#` replaced by `#`.
fn push_unescaped(into: &mut Vec<u8>, text: &[u8]) -> Result<(), AllocError>
    ensures { IfOk result (λ _. into.new.items ≡ into.old.items ++ unescaped text.now) }
{
    let mut rest = text;
    while let [byte, after @ ..] = rest {
        if *byte != b'\\' || !begins_with_hash(after) {
            into.push(*byte)?;
        }
        rest = after;
    }
    Ok(())
}

/// A plain line without its comment, and with each `\#` before the comment replaced by `#`.
///
/// A comment begins at the first `#` that doesn't directly follow a backslash, and goes to the end
/// of the line. On a rule line the text from the first `;` outside references on has no comments
/// and stays unchanged (the standard's `make`, "Makefile Syntax"). Leading blanks stay. Where no
/// `\#` was replaced, the result borrows from the text. The only error is out of memory.
pub fn uncomment<'a>(alloc: Global, text: &'a [u8]) -> Result<CowSlice<'a, u8>, AllocError>
    ensures exact { IfOk result (λ line. cow_slice_items line ≡ uncomment text.now) }
    ensures lends { IfOk result (λ line. has_escaped_hash (before_comment text.now) ≡ false →
        is_borrowed line ≡ true) }
{
    // Most lines hold no `#`, so their references needn't be parsed.
    if !has_byte(text, b'#') {
        return Ok(CowSlice::Borrowed(text));
    }
    let (read, spared) = text.split_at(unchanged_from(alloc, text)?);
    let comment = comment_at(read);
    let kept = &read[..comment.unwrap_or(read.len())];
    if !has_escaped_hash(kept) {
        return Ok(CowSlice::Borrowed(if comment.is_some() { kept } else { text }));
    }
    let mut line = Vec::new(alloc);
    push_unescaped(&mut line, kept)?;
    if comment.is_none() {
        line.extend_from_slice(spared)?;
    }
    Ok(CowSlice::Owned(line))
}
