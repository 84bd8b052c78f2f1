//! What each target lacks, and which targets lack the same.

ghost use Rattle.std.specs.Prelude.{◌≡◌, map, IfOk};
ghost use Rattle.mk_repair.specs.Lines.{grouped, lacking};
ghost use Rattle.mk_repair.specs.Words.{stored_view};
ghost use Rattle.mk_repair.specs.Rows.{groups_view, rows_view};

use crate::gathering::add_value;
use crate::word::{StoredWord, Word};
use indexmap::IndexMap;
use std::alloc::{AllocError, Global};

/// Each target that lacks prerequisites, with these.
pub type Rows<'a> = IndexMap<&'a str, Vec<&'a str>>;

/// Each list of prerequisites, with the targets that lack just this list.
pub type Groups<'a> = IndexMap<&'a [&'a str], Vec<&'a str>>;

/// Each target that lacks prerequisites by these words, with these, in the order of the words. The
/// only error is out of memory.
pub fn rows_of<'a>(alloc: Global, words: &'a [StoredWord]) -> Result<Rows<'a>, AllocError>
    ensures { IfOk result (λ rows. rows_view rows.entries ≡
        lacking (map stored_view words.entry.now)) }
{
    let mut rows = IndexMap::new(alloc);
    for word in words {
        let Word::Needs {
            target,
            prerequisite,
        } = word.as_word()
        else {
            continue;
        };
        add_value(alloc, &mut rows, target, prerequisite)?;
    }
    Ok(rows)
}

/// The targets of the rows, those with equal lists together, in the order of the rows. The only
/// error is out of memory.
pub fn groups_of<'a>(alloc: Global, rows: &'a Rows<'a>) -> Result<Groups<'a>, AllocError>
    ensures { IfOk result (λ groups. groups_view groups.entries ≡
        grouped (rows_view rows.entry.now.entries)) }
{
    let mut groups = IndexMap::new(alloc);
    for place in 0..rows.len() {
        let Some((target, prerequisites)) = rows.get_index(place) else {
            continue;
        };
        add_value(alloc, &mut groups, prerequisites.as_slice(), *target)?;
    }
    Ok(groups)
}
