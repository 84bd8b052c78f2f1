//! Names cut before their last dot: the part before it is the front, the rest is the back.

ghost use Rattle.std.specs.Prelude.{◌≡◌, ◌∷◌, ◌++◌, [], List, ℕ, map, IfOk, OnOk, if◌then◌else◌};
ghost use Rattle.std.specs.Option.{option_map_or};
ghost use Rattle.std.specs.Str.{bytes_eq};
ghost use Rattle.indexmap.specs.IndexMap.{get_by};
ghost use Rattle.std.specs.String.{string_bytes};
ghost use Rattle.mk_infer.specs.Table.{AddsBacks, HasBacks, IsCut, texts_at};

use indexmap::IndexMap;
use mk_lines::BorrowedNames;
use std::alloc::{AllocError, Global};

/// For each front the backs of the names that have it.
pub type Backs<'m> = IndexMap<&'m str, Vec<&'m str>>;

/// Cuts a name before its last dot. A name without a dot, or with its only dot at the start, is
/// returned whole, with an empty back. So `.c.o` is cut into `.c` and `.o`, `main.o` into `main`
/// and `.o`, and `.c` stays whole.
fn cut(name: &str) -> (&str, &str)
    ensures whole { result.0.now ++ result.1.now ≡ name.now }
    ensures parts { IsCut name.now result.0.now result.1.now }
{
    match name.rfind('.') {
        Some(at) if at > 0 => (&name[..at], &name[at..]),
        _ => (name, ""),
    }
}

/// Adds a back to a front.
fn add_back<'m>(
    alloc: Global,
    backs: &mut Backs<'m>,
    front: &'m str,
    back: &'m str,
) -> Result<(), AllocError>
    ensures { OnOk result ((name : List ℕ) →
        option_map_or (λ texts. texts.items) (get_by (λ k. bytes_eq name k.now) backs.new) []
        ≡ (if bytes_eq name front.entry.now
        then option_map_or (λ texts. texts.items) (get_by (λ k. bytes_eq name k.now) backs.old)
        [] ++ back.entry ∷ []
        else option_map_or (λ texts. texts.items) (get_by (λ k. bytes_eq name k.now) backs.old)
        [])) }
{
    let behind = backs.entry(front)?.or_insert(Vec::new(alloc));
    behind.push(back)?;
    Ok(())
}

/// Adds the fronts and backs of names to `backs`. A name that isn't cut is skipped.
pub fn add_backs<'m>(
    alloc: Global,
    backs: &mut Backs<'m>,
    names: &'m [String],
) -> Result<(), AllocError>
    ensures { OnOk result (AddsBacks backs.old (map string_bytes names.now) backs.new) }
{
    for name in names {
        let (front, back) = cut(name);
        if !back.is_empty() {
            add_back(alloc, backs, front, back)?;
        }
    }
    Ok(())
}

/// Cuts all names. A name that isn't cut has an empty back.
pub fn backs_among<'m>(alloc: Global, names: &BorrowedNames<'m>) -> Result<Backs<'m>, AllocError>
    ensures { IfOk result (λ backs. HasBacks names.now backs) }
{
    let mut backs = IndexMap::new(alloc);
    for name in names.as_slice() {
        let (front, back) = cut(name);
        add_back(alloc, &mut backs, front, back)?;
    }
    Ok(backs)
}

/// Returns the backs of a front, or `None` if it has none.
pub fn backs_of<'b, 'm>(backs: &'b Backs<'m>, front: &str) -> Option<&'b [&'m str]>
    ensures { option_map_or (λ found. map (λ back. back.now) found.now) result [] ≡
        texts_at backs.now front.now }
{
    match backs.get(front) {
        Some(found) => Some(found.as_slice()),
        None => None,
    }
}
