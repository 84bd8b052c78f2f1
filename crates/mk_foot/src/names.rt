//! Copies of names, and lists of names without repeats.

ghost use Rattle.std.specs.Prelude.{◌≡◌, true, map, IfOk};
ghost use Rattle.std.specs.String.{string_bytes};
ghost use Rattle.mk_foot.specs.Names.{once};

use crate::repeats::{empty_seen_set, is_repeated};
use mk_lines::BorrowedNames;
use std::alloc::{AllocError, Global};

/// Copies texts into strings of their own. The only error is out of memory.
pub fn copied(alloc: Global, texts: &[&str]) -> Result<Vec<String>, AllocError>
    ensures { IfOk result (λ copies. map string_bytes copies.items ≡
        map (λ text. text.now) texts.now) }
{
    let mut copies = Vec::with_capacity(alloc, texts.len())?;
    for text in texts {
        copies.push(String::from_str(alloc, text)?)?;
    }
    Ok(copies)
}

/// Clones names. The only error is out of memory.
pub fn clones_of(alloc: Global, names: &[String]) -> Result<Vec<String>, AllocError>
    ensures { IfOk result (λ clones. map string_bytes clones.items ≡ map string_bytes names.now) }
{
    let mut clones = Vec::with_capacity(alloc, names.len())?;
    for name in names {
        clones.push(name.clone()?)?;
    }
    Ok(clones)
}

/// Whether no name occurs twice. The only error is out of memory.
pub fn are_distinct(alloc: Global, names: &[String]) -> Result<bool, AllocError>
    ensures { IfOk result (λ apart. apart ≡ true →
        once (map string_bytes names.now) ≡ map string_bytes names.now) }
{
    if names.len() < 2 {
        return Ok(true);
    }
    let mut seen = empty_seen_set(alloc, names.len())?;
    for place in 0..names.len() {
        if is_repeated(names, place, &mut seen)? {
            return Ok(false);
        }
    }
    Ok(true)
}

/// Returns each name once, at its first place. A list without repeats is returned as it is. The
/// only error is out of memory.
pub fn once(alloc: Global, names: Vec<String>) -> Result<Vec<String>, AllocError>
    ensures { IfOk result (λ kept. map string_bytes kept.items ≡
        once (map string_bytes names.items)) }
{
    if are_distinct(alloc, &names)? {
        return Ok(names);
    }
    let mut set = BorrowedNames::with_capacity(alloc, names.len())?;
    set.insert_all(&names)?;
    copied(alloc, set.as_slice())
}

/// Returns each name once, at its first place. If `apart` is true, the list has no repeats and is
/// returned as it is. The only error is out of memory.
pub fn kept(alloc: Global, apart: bool, names: Vec<String>) -> Result<Vec<String>, AllocError>
    requires { apart ≡ true →
        once (map string_bytes names.items) ≡ map string_bytes names.items }
    ensures { IfOk result (λ kept. map string_bytes kept.items ≡
        once (map string_bytes names.items)) }
{
    if apart {
        return Ok(names);
    }
    once(alloc, names)
}
