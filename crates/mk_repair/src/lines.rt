//! The text of the lines that say words.

ghost use Rattle.std.specs.Prelude.{◌≡◌, ◌++◌, map, IfOk, OnOk};
ghost use Rattle.std.specs.List.{flat_map};
ghost use Rattle.std.specs.String.{string_bytes};
ghost use Rattle.mk_repair.specs.Lines.{grouped, lacking, line_text, line_with, lines_between, lines_text, phony_lines, phony_targets};
ghost use Rattle.mk_repair.specs.Rows.{groups_view, names_view, rows_view};
ghost use Rattle.mk_repair.specs.Words.{stored_view};

use crate::pieces::pieces_of;
use crate::rows::{Groups, Rows, groups_of, rows_of};
use crate::word::{StoredWord, Word};
use crate::words::Words;
use std::alloc::{AllocError, Global};

/// Appends a line with these targets and prerequisites. The only error is out of memory.
fn push_line(out: &mut String, targets: &str, prerequisites: &str) -> Result<(), AllocError>
    ensures { OnOk result (string_bytes out.new ≡
        string_bytes out.old ++ line_with targets.now prerequisites.now) }
{
    out.push_str(targets)?;
    out.push_str(": ")?;
    out.push_str(prerequisites)?;
    out.push_str("\n")
}

/// Appends a line with these targets for each piece of the prerequisites. The only error is out of
/// memory.
fn push_lines_with(
    out: &mut String,
    targets: &str,
    prerequisites: &[String],
) -> Result<(), AllocError>
    ensures { OnOk result (string_bytes out.new ≡ string_bytes out.old ++
        flat_map (λ part. line_with targets.now (string_bytes part)) prerequisites.now) }
{
    for part in prerequisites {
        push_line(out, targets, part.as_str())?;
    }
    Ok(())
}

/// Appends a line for each piece of the targets and each piece of the prerequisites. The only error
/// is out of memory.
fn push_lines(
    out: &mut String,
    targets: &[String],
    prerequisites: &[String],
) -> Result<(), AllocError>
    ensures { OnOk result (string_bytes out.new ≡ string_bytes out.old ++ flat_map (λ piece.
        flat_map (λ part. line_with (string_bytes piece) (string_bytes part)) prerequisites.now)
        targets.now) }
{
    for piece in targets {
        push_lines_with(out, piece.as_str(), prerequisites)?;
    }
    Ok(())
}

/// Appends the lines that give all of the targets all of the prerequisites. The only error is out
/// of memory.
pub fn push_lines_between(
    alloc: Global,
    out: &mut String,
    targets: &[&str],
    prerequisites: &[&str],
) -> Result<(), AllocError>
    ensures { OnOk result (string_bytes out.new ≡ string_bytes out.old ++ flat_map line_text
        (lines_between (names_view targets.now) (names_view prerequisites.now))) }
{
    let targets = pieces_of(alloc, targets)?;
    let prerequisites = pieces_of(alloc, prerequisites)?;
    push_lines(out, &targets, &prerequisites)
}

/// The targets that the words say are phony. The only error is out of memory.
fn phony_targets<'a>(alloc: Global, words: &'a [StoredWord]) -> Result<Vec<&'a str>, AllocError>
    ensures { IfOk result (λ targets. names_view targets.items ≡
        phony_targets (map stored_view words.entry.now)) }
{
    let mut targets = Vec::new(alloc);
    for word in words {
        let Word::Phony { target } = word.as_word() else {
            continue;
        };
        targets.push(target)?;
    }
    Ok(targets)
}

/// Appends the lines of phony targets. The only error is out of memory.
fn push_phony(alloc: Global, out: &mut String, words: &[StoredWord]) -> Result<(), AllocError>
    ensures { OnOk result (string_bytes out.new ≡ string_bytes out.old ++ flat_map line_text
        (phony_lines (map stored_view words.now))) }
{
    let targets = phony_targets(alloc, words)?;
    push_lines_between(alloc, out, &[".PHONY"], &targets)
}

/// Appends the lines of each group. The only error is out of memory.
fn push_groups(alloc: Global, out: &mut String, groups: &Groups<'_>) -> Result<(), AllocError>
    ensures { OnOk result (string_bytes out.new ≡ string_bytes out.old ++ flat_map (λ group.
        flat_map line_text (lines_between group.1 group.0)) (groups_view groups.now.entries)) }
{
    for place in 0..groups.len() {
        let Some((prerequisites, targets)) = groups.get_index(place) else {
            continue;
        };
        push_lines_between(alloc, out, targets, prerequisites)?;
    }
    Ok(())
}

/// Appends the lines of the targets of the rows. The only error is out of memory.
fn push_rows(alloc: Global, out: &mut String, rows: &Rows<'_>) -> Result<(), AllocError>
    ensures { OnOk result (string_bytes out.new ≡ string_bytes out.old ++ flat_map (λ group.
        flat_map line_text (lines_between group.1 group.0))
        (grouped (rows_view rows.now.entries))) }
{
    let groups = groups_of(alloc, rows)?;
    push_groups(alloc, out, &groups)
}

/// Appends the lines of targets that lack prerequisites. The only error is out of memory.
fn push_lacking(alloc: Global, out: &mut String, words: &[StoredWord]) -> Result<(), AllocError>
    ensures { OnOk result (string_bytes out.new ≡ string_bytes out.old ++ flat_map (λ group.
        flat_map line_text (lines_between group.1 group.0))
        (grouped (lacking (map stored_view words.now)))) }
{
    let rows = rows_of(alloc, words)?;
    push_rows(alloc, out, &rows)
}

/// The text of the lines that say the words: first `.PHONY: T..`, then `T..: P..`, where targets
/// that lack the same prerequisites share a line, in the order of their first words. A list of over
/// 2,000 bytes is cut into several lines. Each line ends with a newline. The only error is out of
/// memory.
pub fn lines_text(alloc: Global, words: &Words) -> Result<String, AllocError>
    ensures { IfOk result (λ text. string_bytes text ≡ lines_text words.now) }
{
    let mut out = String::new(alloc);
    push_phony(alloc, &mut out, words.as_slice())?;
    push_lacking(alloc, &mut out, words.as_slice())?;
    Ok(out)
}
