//! Finds repeated names in a list.

ghost use Rattle.std.specs.Prelude.{◌≡◌, ◌<◌, ◌+◌, [], length, map, take, slice_index_or, IfOk, OnOk};
ghost use Rattle.std.specs.String.{string_bytes};
ghost use Rattle.mk_lines.specs.Names.{has_name, once};

use crate::laws::once_keeps_first;
use mk_lines::BorrowedNames;
use std::alloc::{AllocError, Global};

/// Up to this many names are compared with each other, which costs less than a set.
const FEW: usize = 4;

/// Whether a name is among others. It compares them one by one, so it is for short lists.
pub fn contains_by_scan(names: &[String], name: &str) -> bool
    ensures { result ≡ has_name (map string_bytes names.now) name.now }
{
    for other in names {
        if name == other.as_str() {
            return true;
        }
    }
    false
}

/// Returns an empty set for `is_repeated`, with capacity for a list of `count` names. The only
/// error is out of memory.
pub fn empty_seen_set<'s>(alloc: Global, count: usize) -> Result<BorrowedNames<'s>, AllocError>
    ensures { IfOk result (λ seen. seen ≡ []) }
{
    if count <= FEW {
        return Ok(BorrowedNames::new(alloc));
    }
    BorrowedNames::with_capacity(alloc, count)
}

/// Whether the name at a place of a list also occurs before that place. `seen` must come from
/// `empty_seen_set`, and all earlier places of the same list must have been passed with it, in
/// order. The only error is out of memory.
pub fn is_repeated<'s>(
    names: &'s [String],
    place: usize,
    seen: &mut BorrowedNames<'s>,
) -> Result<bool, AllocError>
    requires place { place < length names.now }
    requires seen { 4 < length names.now →
        seen.old ≡ once (take place (map string_bytes names.now)) }
    ensures repeated { IfOk result (λ is. is ≡
        has_name (take place (map string_bytes names.entry.now))
        (slice_index_or (map string_bytes names.entry.now) place [])) }
    ensures seen { OnOk result (4 < length names.now →
        seen.new ≡ once (take (place + 1) (map string_bytes names.now))) }
{
    once_keeps_first();
    let name = names[place].as_str();
    if names.len() <= FEW {
        return Ok(contains_by_scan(&names[..place], name));
    }
    Ok(!seen.insert(name)?)
}
