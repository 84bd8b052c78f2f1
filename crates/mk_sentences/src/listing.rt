//! All names of a list of which a sentence leaves some out.

ghost use Rattle.std.specs.Prelude.{◌≡◌, ◌++◌, OnOk};
ghost use Rattle.std.specs.List.{flat_map};
ghost use Rattle.std.specs.String.{string_bytes};
ghost use Rattle.mk_repair.specs.Rows.{names_view};
ghost use Rattle.mk_sentences.specs.Listing.{left_out, listed_line, who_are};

use mk_claims::Kind;
use mk_repair::pieces_of;
use std::alloc::{AllocError, Global};

/// What the names that a group of this kind is about are: files that two recipes write, else
/// targets.
pub fn who_are(kind: Kind) -> &'static str
    ensures { result.now ≡ who_are kind }
{
    match kind {
        Kind::TwoWriters => "files",
        _ => "targets",
    }
}

/// Appends a line for each piece of a list, which says what the names are.
fn push_listed(out: &mut String, what: &str, pieces: &[String]) -> Result<(), AllocError>
    ensures { OnOk result (string_bytes out.new ≡ string_bytes out.old ++
        flat_map (λ piece. listed_line what.now (string_bytes piece)) pieces.now) }
{
    for piece in pieces {
        write!(out, "  {what}: {piece}\n")?;
    }
    Ok(())
}

/// Appends lines with all of the names, each after what they are, if a sentence leaves some of them
/// out. The only error is out of memory.
pub fn push_left_out(
    alloc: Global,
    out: &mut String,
    what: &str,
    names: &[&str],
) -> Result<(), AllocError>
    ensures { OnOk result (string_bytes out.new ≡
        string_bytes out.old ++ left_out what.now (names_view names.now)) }
{
    if names.len() < 3 {
        return Ok(());
    }
    let pieces = pieces_of(alloc, names)?;
    push_listed(out, what, &pieces)
}
