//! Reading plans.

ghost use Rattle.std.specs.Prelude.{◌≡◌, ◌∷◌, ◌<◌, length, position};
ghost use Rattle.mk_lines.specs.Bytes.{is_byte};
ghost use Rattle.mk_lines.specs.Results.{Gives};
ghost use Rattle.mk_world_plan.specs.PlanReading.{is_passed_over, lines_of, line_read, plan_of};

use crate::line_parser::parse_line;
use mk_lines::trimmed;
use mk_world::{Plan, PlanFault, PlanLine};
use std::alloc::Global;

/// The most lines of a plan.
const MAX_LINES: usize = 65_536;

/// The position of the first newline.
fn newline(text: &[u8]) -> Option<usize>
    ensures { result ≡ position (is_byte 10) text.now }
{
    text.iter().position(|b| *b == b'\n')
}

/// The first line of a text, and what follows its newline.
fn first_line(text: &[u8]) -> (&[u8], &[u8])
    requires { 0 < length text.now }
    ensures lines { lines_of text.now ≡ result.0.now ∷ lines_of result.1.now }
    ensures shorter { length result.1.now < length text.now }
{
    match newline(text) {
        Some(at) => (&text[..at], &text[at + 1..]),
        None => (text, &text[text.len()..]),
    }
}

/// Whether a line is skipped: it has only blanks, or its first byte that isn't a blank is `#`.
fn is_passed_over(line: &[u8]) -> bool
    ensures { result ≡ is_passed_over line.now }
{
    matches!(trimmed(line), [] | [b'#', ..])
}

/// The plan line of the line with this number, or `None` if it is skipped. `PlanFault::Line` (69)
/// if it is malformed or its number is above 65,536; or out of memory.
fn read_line(alloc: Global, number: usize, line: &[u8]) -> Result<Option<PlanLine>, PlanFault>
    ensures { Gives PlanFault.Memory (λ found. found) result (line_read (number, line.now)) }
{
    if number > MAX_LINES {
        return Err(PlanFault::Line(number));
    }
    if is_passed_over(line) {
        return Ok(None);
    }
    match parse_line(alloc, line)? {
        Some(order) => Ok(Some(PlanLine { number, order })),
        None => Err(PlanFault::Line(number)),
    }
}

/// Reads a plan: lines of words separated by blanks. `PlanFault::Line` (69) with the number of the
/// first line that is malformed or the 65,537th; or out of memory.
///
/// The lines are `make N G..`, `stop`, `begin T`, `look T F`, `put T F`, `put T F N`, `done T`,
/// `finish T`, `run T`, `pass T`, `end`, `edit F` and `edit F N`. A number has only digits and is
/// at most 18,446,744,073,709,551,615; a make has 1 to 4,096 jobs. A line with a word that isn't
/// UTF-8 is malformed. Empty lines, and those whose first byte that isn't a blank is `#`, are
/// skipped but counted. A newline at the end of the text doesn't begin another line.
pub fn read_plan(alloc: Global, text: &[u8]) -> Result<Plan, PlanFault>
    ensures { Gives PlanFault.Memory (λ plan. plan) result (plan_of text.now) }
{
    let mut lines = Vec::new(alloc);
    let mut rest = text;
    let mut number = 0;
    while !rest.is_empty() {
        let (line, after) = first_line(rest);
        rest = after;
        number += 1;
        if let Some(line) = read_line(alloc, number, line)? {
            lines.push(line)?;
        }
    }
    Ok(Plan::new(lines))
}
