//! The logical lines of a text.

ghost use Rattle.std.specs.Prelude.{◌≡◌, ◌==◌, length, map, IfOk};
ghost use Rattle.std.specs.List.{slice_split};
ghost use Rattle.std.specs.Cow.{cow_slice_items};
ghost use Rattle.mk_lines.specs.Borrowed.{is_borrowed};
ghost use Rattle.mk_lines.specs.Bytes.{is_byte};
ghost use Rattle.mk_lines.specs.Lines.{is_command, joined, line_fault, unless, logical_lines, runs_of};
ghost use Rattle.mk_lines.specs.Results.{Gives};
ghost use Rattle.mk_lines.specs.Views.{borrows_text, is_single_line, line_view};

use crate::bytes::{has_byte, is_blank_alone};
use crate::fault::LineFault;
use crate::joins::{joined, without_tab};
use crate::runs::take_run;
use std::alloc::{AllocError, Global};
use std::borrow::CowSlice;

/// The most bytes of a line.
const MAX_LINE: usize = 65_536;

/// The most lines of a text, blank lines not counted.
const MAX_LINES: usize = 65_536;

/// A logical line of a text that isn't blank.
#[derive(Debug, Drop)]
pub struct Line<'a> {
    /// The number of its first physical line, counted from 1.
    pub first: usize,
    /// Whether it is a command line: one that begins with a tab.
    pub command: bool,
    /// Its text, without the leading tab of a command line. It borrows from the text that was read
    /// where the line is a single physical line.
    pub text: CowSlice<'a, u8>,
}

fn is_command(run: &[u8]) -> bool
    ensures { result ≡ is_command run.now }
{
    matches!(run, [b'\t', ..])
}

/// The logical line of a run whose first physical line has this number.
fn line_from(alloc: Global, first: usize, run: &[u8]) -> Result<Line<'_>, AllocError>
    ensures exact { IfOk result (λ line. line_view line ≡
        joined first (slice_split (is_byte 10) run.now)) }
    ensures lends { IfOk result (λ line. borrows_text line ≡
        (length (slice_split (is_byte 10) run.now) == 1)) }
{
    let command = is_command(run);
    let text = joined(alloc, command, without_tab(run))?;
    Ok(Line {
        first,
        command,
        text,
    })
}

/// The first fault of a line that has `before` lines before it.
fn check_line(before: usize, line: &Line) -> Result<(), LineFault>
    ensures exact { result ≡ unless (line_fault before (line_view line.now)) tt }
{
    if has_byte(&line.text, 0) {
        return Err(LineFault::NulByte(line.first));
    }
    if line.text.len() > MAX_LINE {
        return Err(LineFault::LineTooLong(line.first));
    }
    if before >= MAX_LINES {
        return Err(LineFault::TooManyLines(line.first));
    }
    Ok(())
}

/// The logical lines of a text, in order. Blank lines are dropped.
///
/// Physical lines end at newlines. A newline is escaped where an odd number of backslashes directly
/// precedes it; the line then goes on in the next physical line (the standard's `make`, "Makefile
/// Syntax"). On an error no lines are returned; the error is the first that applies to the first
/// faulty line: `NulByte` (1), a line holds byte 0; `LineTooLong` (2), a line is longer than 65,536
/// bytes; `TooManyLines` (3), there are more than 65,536 lines; or `Memory`, out of memory.
#[tactic(auto, unfolding(crate::specs::Lines::logical_lines))]
pub fn logical_lines<'a>(alloc: Global, text: &'a [u8]) -> Result<Vec<Line<'a>>, LineFault>
    ensures exact { Gives LineFault.Memory (λ lines.
        map line_view lines.items) result (logical_lines text.now) }
    ensures lends { IfOk result (λ lines. map borrows_text lines.items ≡
        map is_single_line (runs_of text.now)) }
{
    let mut lines = Vec::new(alloc);
    let mut rest = Some(text);
    let mut first = 1;
    while let Some(text) = rest {
        let (run, after, count) = take_run(text);
        rest = after;
        let line = line_from(alloc, first, run)?;
        if !is_blank_alone(&line.text) {
            check_line(lines.len(), &line)?;
            lines.push(line)?;
        }
        first += count;
    }
    Ok(lines)
}
