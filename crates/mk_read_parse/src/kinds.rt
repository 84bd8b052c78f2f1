//! Parses plain lines.

ghost use Rattle.std.specs.Prelude.{◌≡◌, ◌<◌, length, position, IfSome};
ghost use Rattle.std.specs.List.{before_first, after_first};
ghost use Rattle.mk_lines.specs.Bytes.{is_blank};
ghost use Rattle.std.specs.Option.{option_map};
ghost use Rattle.mk_read.specs.Kinds.{include_line, assigned, assignment_line, words_and_command, rule_line, by_parts, of_trimmed, kind_of};
ghost use Rattle.mk_read_parse.specs.KindViews.{GivesKind, include_view, rule_view, kind_view};

use mk_lines::{first_outside, is_blank, trimmed};
use mk_macros::{Op, without_blanks};
use mk_read::KindFault;
use std::alloc::Global;

/// An include line.
#[derive(Debug, Clone, Copy)]
pub struct IncludeLine<'a> {
    /// Whether missing files are skipped: the line begins with `-include`.
    pub optional: bool,
    /// The text with the names of the files, before its expansion.
    pub names: &'a [u8],
}

/// An assignment.
#[derive(Debug, Clone, Copy)]
pub struct AssignmentLine<'a> {
    /// The text with the name, before its expansion, without blanks at its ends.
    pub name: &'a [u8],
    /// The operator.
    pub op: Op,
    /// The assigned text, without its leading blanks.
    pub value: &'a [u8],
}

/// A rule line.
#[derive(Debug, Clone, Copy)]
pub struct RuleLine<'a> {
    /// The text before the colon, before its expansion. It isn't empty.
    pub targets: &'a [u8],
    /// The text after the colon, up to the first `;` outside references, before its expansion.
    pub words: &'a [u8],
    /// The command after that `;`, if there is one, without its leading blanks.
    pub command: Option<&'a [u8]>,
}

/// What a plain line is.
#[derive(Debug, Clone, Copy)]
pub enum Kind<'a> {
    /// A comment line: it has nothing but blanks and a comment.
    Comment,
    /// An include line.
    Include(IncludeLine<'a>),
    /// An assignment.
    Assignment(AssignmentLine<'a>),
    /// A rule line.
    Rule(RuleLine<'a>),
}

/// The position of the first blank.
fn blank_at(text: &[u8]) -> Option<usize>
    ensures { result ≡ position is_blank text.now }
{
    text.iter().position(|b| is_blank(*b))
}

/// The texts before and after the first blank.
fn cut_at_blank(text: &[u8]) -> (&[u8], &[u8])
    ensures word { result.0.now ≡ before_first is_blank text.now }
    ensures rest { result.1.now ≡ after_first is_blank text.now }
{
    match blank_at(text) {
        Some(at) => (&text[..at], &text[at + 1..]),
        None => (text, &[]),
    }
}

/// The line as an include line, where its first word is `include` or `-include`. The line has no
/// leading blanks.
fn include_line(line: &[u8]) -> Option<IncludeLine<'_>>
    ensures { option_map include_view result ≡ include_line line.now }
{
    let (word, names) = cut_at_blank(line);
    let optional = word == b"-include".as_slice();
    if optional || word == b"include".as_slice() {
        Some(IncludeLine { optional, names })
    } else {
        None
    }
}

/// An assignment with this operator, without the blanks around it.
fn assigned<'a>(name: &'a [u8], op: Op, value: &'a [u8]) -> Kind<'a>
    ensures { kind_view result ≡ assigned name.now op value.now }
{
    Kind::Assignment(AssignmentLine {
        name: without_blanks(name),
        op,
        value: trimmed(value),
    })
}

/// An assignment with `=`, `?=` or `+=`, by the byte before the `=`. Fails with `ShellAssign` (21)
/// for `!=`.
fn assignment_line<'a>(before: &'a [u8], value: &'a [u8]) -> Result<Kind<'a>, KindFault>
    ensures { GivesKind kind_view result (assignment_line before.now value.now) }
{
    match before {
        [_, .., b'!'] | [b'!'] => Err(KindFault::ShellAssign),
        [name @ .., b'?'] => Ok(assigned(name, Op::IfUnset, value)),
        [name @ .., b'+'] => Ok(assigned(name, Op::Append, value)),
        _ => Ok(assigned(before, Op::Delay, value)),
    }
}

/// A rule line, its text after the colon split at the position of the first `=` or `;` outside
/// references. Fails with `TargetMacro` (24) for `=`.
fn words_and_command<'a>(
    targets: &'a [u8],
    rest: &'a [u8],
    at: Option<usize>,
) -> Result<RuleLine<'a>, KindFault>
    requires { IfSome at (λ k. k < length rest.now) }
    ensures { GivesKind rule_view result (words_and_command targets.now rest.now at) }
{
    let Some(at) = at else {
        return Ok(RuleLine {
            targets,
            words: rest,
            command: None,
        });
    };
    if rest[at] == b'=' {
        return Err(KindFault::TargetMacro);
    }
    Ok(RuleLine {
        targets,
        words: &rest[..at],
        command: Some(trimmed(&rest[at + 1..])),
    })
}

/// The rule line with these texts before and after its colon.
fn rule_line<'a>(alloc: Global, targets: &'a [u8], rest: &'a [u8]) -> Result<Kind<'a>, KindFault>
    ensures { GivesKind kind_view result (rule_line targets.now rest.now) }
{
    let at = first_outside(alloc, b"=;", rest)?;
    let line = words_and_command(targets, rest, at)?;
    if line.targets.is_empty() {
        return Err(KindFault::NotALine);
    }
    Ok(Kind::Rule(line))
}

/// The kind of a line, from the text before its first `=`, `:` or `;` outside references, and from
/// what begins there.
fn by_parts<'a>(alloc: Global, before: &'a [u8], from: &'a [u8]) -> Result<Kind<'a>, KindFault>
    ensures { GivesKind kind_view result (by_parts before.now from.now) }
{
    match from {
        [b'=', value @ ..] => assignment_line(before, value),
        [b':', b':', b':', b'=', value @ ..] => Ok(assigned(before, Op::Double, value)),
        [b':', b':', b'=', value @ ..] => Ok(assigned(before, Op::Now, value)),
        [b':', b'=', ..] => Err(KindFault::ColonAssign),
        [b':', b':', ..] => Err(KindFault::DoubleColon),
        [b':', rest @ ..] => rule_line(alloc, before, rest),
        _ => Err(KindFault::NotALine),
    }
}

/// The kind of a line without leading blanks.
fn of_trimmed<'a>(alloc: Global, line: &'a [u8]) -> Result<Kind<'a>, KindFault>
    ensures { GivesKind kind_view result (of_trimmed line.now) }
{
    if line.is_empty() {
        return Ok(Kind::Comment);
    }
    if let Some(include) = include_line(line) {
        return Ok(Kind::Include(include));
    }
    let Some(at) = first_outside(alloc, b"=:;", line)? else {
        return Err(KindFault::NotALine);
    };
    by_parts(alloc, &line[..at], &line[at..])
}

/// The kind of a plain line whose comment has been removed (the standard's `make`, "Makefile
/// Syntax").
///
/// A line with nothing but blanks is a comment line. A line whose first word is `include` or
/// `-include` is an include line. Any other line is decided by the first of `=`, `:` and `;`
/// outside references: `=` makes an assignment, with the operator `?=` or `+=` where a `?` or `+`
/// directly precedes; `:::=` and `::=` make an assignment; any other `:` makes a rule line.
///
/// Fails with `ShellAssign` (21) for `!=`; `ColonAssign` (22) for `:=`; `DoubleColon` (23) for
/// another `::`; `TargetMacro` (24) where a rule line has an `=` outside references before the
/// first `;` outside them; `NotALine` (25) where there is no text before the colon of a rule line,
/// a `;` comes first, or the line has none of the three; or `Memory`, out of memory.
#[tactic(auto, unfolding(mk_read::specs::Kinds::kind_of))]
pub fn kind_of<'a>(alloc: Global, text: &'a [u8]) -> Result<Kind<'a>, KindFault>
    ensures { GivesKind kind_view result (kind_of text.now) }
{
    of_trimmed(alloc, trimmed(text))
}
