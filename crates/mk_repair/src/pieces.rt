//! Cuts lists of names into pieces that fit on a line.

ghost use Rattle.std.specs.Prelude.{◌≡◌, ◌+◌, length, map, nat_le, IfOk};
ghost use Rattle.std.specs.String.{string_bytes};
ghost use Rattle.mk_repair.specs.Lines.{pieces, spaced};

use std::alloc::{AllocError, Global};

/// The most bytes of a piece that has more than one name.
const MAX_BYTES: usize = 2000;

/// Whether a piece has room for a space and one more name.
fn has_room(piece: &str, name: &str) -> bool
    ensures { result ≡ nat_le (length piece.now + (length name.now + 1)) 2000 }
{
    piece.len() < MAX_BYTES && name.len() <= MAX_BYTES - 1 - piece.len()
}

/// The names cut into as few pieces as fit, each as a text with spaces between its names. A name
/// that is too long is a piece of its own. The only error is out of memory.
pub fn pieces_of(alloc: Global, names: &[&str]) -> Result<Vec<String>, AllocError>
    ensures { IfOk result (λ texts. map string_bytes texts.items ≡
        map spaced (pieces (map (λ name. name.now) names.now))) }
{
    let mut pieces = Vec::new(alloc);
    let Some((first, others)) = names.split_first() else {
        return Ok(pieces);
    };
    let mut piece = String::from_str(alloc, first)?;
    for name in others {
        if has_room(piece.as_str(), name) {
            piece.push_str(" ")?;
            piece.push_str(name)?;
            continue;
        }
        pieces.push(piece)?;
        piece = String::from_str(alloc, name)?;
    }
    pieces.push(piece)?;
    Ok(pieces)
}
