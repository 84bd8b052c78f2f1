//! The lines to add to the makefile that mend a group.

ghost use Rattle.std.specs.Prelude.{◌≡◌, ◌++◌, OnOk};
ghost use Rattle.std.specs.List.{flat_map};
ghost use Rattle.std.specs.String.{string_bytes};
ghost use Rattle.mk_repair.specs.Lines.{line_text, lines_between};
ghost use Rattle.mk_repair.specs.Rows.{names_view};
ghost use Rattle.mk_claims.specs.Topics.{topic_view};
ghost use Rattle.mk_sentences.specs.Adding.{added_lines, added_with, lines_of};

use mk_claims::{Kind, Topic};
use mk_repair::{pieces_of, push_lines_between};
use std::alloc::{AllocError, Global};

/// Appends a line to add with these targets and prerequisites.
fn push_added(out: &mut String, targets: &str, prerequisites: &str) -> Result<(), AllocError>
    ensures { OnOk result (string_bytes out.new ≡
        string_bytes out.old ++ added_with targets.now prerequisites.now) }
{
    write!(out, "  add: {targets}: {prerequisites}\n")
}

/// Appends a line to add with these targets for each piece of the prerequisites.
fn push_added_with(
    out: &mut String,
    targets: &str,
    prerequisites: &[String],
) -> Result<(), AllocError>
    ensures { OnOk result (string_bytes out.new ≡ string_bytes out.old ++
        flat_map (λ part. added_with targets.now (string_bytes part)) prerequisites.now) }
{
    for part in prerequisites {
        push_added(out, targets, part.as_str())?;
    }
    Ok(())
}

/// Appends a line to add for each piece of the targets and each piece of the prerequisites.
fn push_added_pieces(
    out: &mut String,
    targets: &[String],
    prerequisites: &[String],
) -> Result<(), AllocError>
    ensures { OnOk result (string_bytes out.new ≡ string_bytes out.old ++ flat_map (λ piece.
        flat_map (λ part. added_with (string_bytes piece) (string_bytes part)) prerequisites.now)
        targets.now) }
{
    for piece in targets {
        push_added_with(out, piece.as_str(), prerequisites)?;
    }
    Ok(())
}

/// Appends the lines to add that give all of the targets all of the prerequisites.
fn push_added_between(
    alloc: Global,
    out: &mut String,
    targets: &[&str],
    prerequisites: &[&str],
) -> Result<(), AllocError>
    ensures { OnOk result (string_bytes out.new ≡ string_bytes out.old ++ added_lines
        (lines_between (names_view targets.now) (names_view prerequisites.now))) }
{
    let targets = pieces_of(alloc, targets)?;
    let prerequisites = pieces_of(alloc, prerequisites)?;
    push_added_pieces(out, &targets, &prerequisites)
}

/// Appends the lines to add that mend a group, each on a line of its own. The only error is out of
/// memory.
pub fn push_added_lines(
    alloc: Global,
    out: &mut String,
    topic: &Topic<'_>,
    who: &[&str],
    what: &[&str],
) -> Result<(), AllocError>
    ensures { OnOk result (string_bytes out.new ≡ string_bytes out.old ++
        added_lines (lines_of (topic_view topic.now).kind (topic_view topic.now).first
        (names_view who.now) (names_view what.now))) }
{
    match topic.kind {
        Kind::NoTarget => push_added_between(alloc, out, &[".PHONY"], who),
        Kind::OutputRace | Kind::OutputStale | Kind::OutputRaceAndStale | Kind::UnreachedRead => {
            push_added_between(alloc, out, who, &[topic.first])
        }
        _ => push_added_between(alloc, out, who, what),
    }
}

/// Appends the lines that mend a group, as a makefile has them. The only error is out of memory.
pub fn push_lines(
    alloc: Global,
    out: &mut String,
    topic: &Topic<'_>,
    who: &[&str],
    what: &[&str],
) -> Result<(), AllocError>
    ensures { OnOk result (string_bytes out.new ≡ string_bytes out.old ++
        flat_map line_text (lines_of (topic_view topic.now).kind (topic_view topic.now).first
        (names_view who.now) (names_view what.now))) }
{
    match topic.kind {
        Kind::NoTarget => push_lines_between(alloc, out, &[".PHONY"], who),
        Kind::OutputRace | Kind::OutputStale | Kind::OutputRaceAndStale | Kind::UnreachedRead => {
            push_lines_between(alloc, out, who, &[topic.first])
        }
        _ => push_lines_between(alloc, out, who, what),
    }
}
