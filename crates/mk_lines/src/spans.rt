//! The words of a text, as spans.

ghost use Rattle.std.specs.Prelude.{◌≡◌, IfOk};
ghost use Rattle.mk_lines.specs.Words.{word_spans};

use crate::bytes::is_blank;
use std::alloc::{AllocError, Global};

/// A part of a text: the bytes from `start` to `end`, without `end`.
#[derive(Debug, Clone, Copy, PartialEq, Eq)]
pub struct Span {
    /// The index of its first byte.
    pub start: usize,
    /// The index after its last byte.
    pub end: usize,
}

/// The spans of the words of a text, from left to right: its maximal parts without blanks. They
/// aren't empty and don't overlap (the standard's `make`, "Target Rules"). The only error is out of
/// memory.
pub fn words(alloc: Global, text: &[u8]) -> Result<Vec<Span>, AllocError>
    ensures exact { IfOk result (λ spans. spans.items ≡ word_spans text.now) }
{
    // Words of eight bytes need no more capacity.
    let mut spans = Vec::with_capacity(alloc, text.len() / 8)?;
    let mut at = 0;
    for part in text.split(|b| is_blank(*b)) {
        let end = at + part.len();
        if !part.is_empty() {
            spans.push(Span { start: at, end })?;
        }
        at = end + 1;
    }
    Ok(spans)
}
