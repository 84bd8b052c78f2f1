//! Parses references and other forms that begin with `$`.

ghost use Rattle.std.specs.Prelude.{◌≡◌, ◌<◌, length, take, drop, suc, IfOk, IfSome};
ghost use Rattle.std.specs.Option.{option_map};
ghost use Rattle.mk_lines.specs.Bytes.{is_byte};
ghost use Rattle.mk_lines.specs.References.{first_outside};
ghost use Rattle.mk_macros.specs.Forms.{IsCut, closed_at, dollar_form, parse_reference, round};
ghost use Rattle.mk_macros.specs.Views.{form_view, pair_view, parts_view, texts_of};
ghost use Rattle.mk_macros.specs.Steps.{Gives};

use crate::bytes::first_place;
use crate::fault::MacroFault;
use crate::locals::is_internal;
use crate::macro_name::is_name_byte;
use mk_lines::first_outside;
use std::alloc::{AllocError, Global};

/// A form that begins with `$`.
#[derive(Clone, Copy, Debug)]
pub enum Form<'a> {
    /// `$$`.
    Dollars,
    /// `$(..)`, `${..}` or `$c`, with the text inside it.
    Reference(&'a [u8]),
    /// A reference that isn't closed.
    Endless,
    /// A `$` that begins none of the others.
    Lone,
}

/// The text before the first `$`, and the text after that `$`: `None` where there is no `$`.
pub fn cut_at_dollar(text: &[u8]) -> (&[u8], Option<&[u8]>)
    ensures { IsCut text.now result.0.now (texts_of result.1) }
{
    let at = first_place(b'$', text);
    if at == text.len() {
        return (text, None);
    }
    let (run, behind) = split_around(text, at);
    (run, Some(behind))
}

/// The form whose `$` directly precedes this text, and the text after the form.
pub fn dollar_form(alloc: Global, text: &[u8]) -> Result<(Form<'_>, &[u8]), AllocError>
    ensures { IfOk result (λ found. (form_view found.0, found.1.now) ≡ dollar_form text.now) }
{
    let [byte, rest @ ..] = text else {
        return Ok((Form::Lone, text));
    };
    match *byte {
        b'$' => Ok((Form::Dollars, rest)),
        b'(' => closed_at(alloc, b')', rest),
        b'{' => closed_at(alloc, b'}', rest),
        b if is_name_byte(b) || is_internal(b) => Ok((Form::Reference(&text[..1]), rest)),
        _ => Ok((Form::Lone, text)),
    }
}

/// A reference whose text inside ends before the first closing byte outside inner references, and
/// the text after it.
fn closed_at(alloc: Global, close: u8, text: &[u8]) -> Result<(Form<'_>, &[u8]), AllocError>
    ensures { IfOk result (λ found. (form_view found.0, found.1.now) ≡
        closed_at text.now (first_outside (is_byte close) text.now)) }
{
    let Some((inside, behind)) = cut_outside(alloc, close, text)? else {
        return Ok((Form::Endless, &[]));
    };
    Ok((Form::Reference(inside), behind))
}

/// The texts before and after the first such byte outside references, or `None` where there is
/// none.
fn cut_outside(alloc: Global, byte: u8, text: &[u8]) -> Result<Option<(&[u8], &[u8])>, AllocError>
    ensures { IfOk result (λ found. option_map pair_view found ≡
        round text.now (first_outside (is_byte byte) text.now)) }
{
    let Some(at) = place_outside(alloc, byte, text)? else {
        return Ok(None);
    };
    Ok(Some(split_around(text, at)))
}

/// The position of the first such byte outside references. Where no `$` precedes the first such
/// byte, references needn't be parsed.
fn place_outside(alloc: Global, byte: u8, text: &[u8]) -> Result<Option<usize>, AllocError>
    ensures exact { IfOk result (λ at. at ≡ first_outside (is_byte byte) text.now) }
    ensures within { IfOk result (λ at. IfSome at (λ k. k < length text.now)) }
{
    let at = first_place(byte, text);
    if first_place(b'$', &text[..at]) < at {
        return first_outside(alloc, &[byte], text);
    }
    if at == text.len() {
        return Ok(None);
    }
    Ok(Some(at))
}

/// The texts before and after the byte at a position.
fn split_around(text: &[u8], at: usize) -> (&[u8], &[u8])
    requires { at < length text.now }
    ensures before { result.0.now ≡ take at text.now }
    ensures behind { result.1.now ≡ drop (suc at) text.now }
{
    (&text[..at], &text[at + 1..])
}

/// The parts of the text inside a reference.
#[derive(Clone, Copy, Debug)]
pub struct ReferenceParts<'a> {
    /// The name, before its expansion.
    pub name: &'a [u8],
    /// The two texts of a substitution, if there is one.
    pub ends: Option<Substitution<'a>>,
}

/// The two texts of a substitution `:old=new`, before their expansion.
#[derive(Clone, Copy, Debug)]
pub struct Substitution<'a> {
    /// What a word ends with, or a pattern.
    pub old: &'a [u8],
    /// What replaces it.
    pub new: &'a [u8],
}

/// Splits the text inside a reference: the first `:` outside inner references ends the name, and
/// the first later `=` outside them separates the two texts. Fails with `BadMacroName` (11) where a
/// `:` has no `=` after it, or with `Memory`, out of memory.
pub fn parse_reference(alloc: Global, inside: &[u8]) -> Result<ReferenceParts<'_>, MacroFault>
    ensures { Gives parts_view result (parse_reference inside.now) }
{
    let Some((name, rest)) = cut_outside(alloc, b':', inside)? else {
        return Ok(ReferenceParts {
            name: inside,
            ends: None,
        });
    };
    let Some((old, new)) = cut_outside(alloc, b'=', rest)? else {
        return Err(MacroFault::BadMacroName);
    };
    Ok(ReferenceParts {
        name,
        ends: Some(Substitution { old, new }),
    })
}
