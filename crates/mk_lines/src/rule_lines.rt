//! Recognizes rule lines and include lines.

ghost use Rattle.std.specs.Prelude.{◌≡◌, position, IfOk};
ghost use Rattle.mk_lines.specs.Bytes.{is_blank};
ghost use Rattle.mk_lines.specs.RuleLines.{first_word, is_include, is_rule_line, begins_with_rule_colon};

use crate::bytes::{is_blank, trimmed};
use crate::references::first_outside;
use std::alloc::{AllocError, Global};

/// The position of the first blank.
fn blank_at(text: &[u8]) -> Option<usize>
    ensures { result ≡ position is_blank text.now }
{
    text.iter().position(|b| is_blank(*b))
}

/// The first word of a text: what stands before the first blank, leading blanks dropped.
fn first_word(text: &[u8]) -> &[u8]
    ensures { result.now ≡ first_word text.now }
{
    let text = trimmed(text);
    match blank_at(text) {
        Some(at) => &text[..at],
        None => text,
    }
}

/// Whether a plain line is an include line: its first word is `include` or `-include`.
pub fn is_include(text: &[u8]) -> bool
    ensures { result ≡ is_include text.now }
{
    let word = first_word(text);
    word == b"include".as_slice() || word == b"-include".as_slice()
}

/// Whether a text begins with a colon that neither `:` nor `=` follows.
fn begins_with_rule_colon(text: &[u8]) -> bool
    ensures { result ≡ begins_with_rule_colon text.now }
{
    match text {
        [b':', b':' | b'=', ..] => false,
        [b':', ..] => true,
        _ => false,
    }
}

/// Whether a plain line is a rule line: it is no include line, and the first of `=`, `:`, `;`
/// outside references is a colon that neither `:` nor `=` follows (the standard's `make`, "Target
/// Rules"). The only error is out of memory.
#[tactic(auto, unfolding(crate::specs::RuleLines::is_rule_line))]
pub fn is_rule_line(alloc: Global, text: &[u8]) -> Result<bool, AllocError>
    ensures { IfOk result (λ is_rule. is_rule ≡ is_rule_line text.now) }
{
    if is_include(text) {
        return Ok(false);
    }
    let Some(at) = first_outside(alloc, b"=:;", text)? else {
        return Ok(false);
    };
    Ok(begins_with_rule_colon(&text[at..]))
}
