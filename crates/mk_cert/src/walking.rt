//! Whether an entry of a certificate is good.

ghost use Rattle.std.specs.Prelude.{◌≡◌, ◌↔◌, ℕ, [], true, drop, slice_index_or, IfOk, IfSome, MatchOption, OnOk};
ghost use Rattle.mk_lines.specs.Names.{has_name};
ghost use Rattle.mk_graph.specs.Membership.{Has};
ghost use Rattle.mk_subject.specs.Subject.{name_of, reads_of, IsRecipe};
ghost use Rattle.mk_cert.specs.Cursor.{IsReadOf};
ghost use Rattle.mk_cert.specs.Verdict.{IsGood};
ghost use Rattle.mk_subject.specs.WayTables.{AreLinks};
ghost use Rattle.mk_cert.specs.WalkTables.{HoldReads};
ghost use Rattle.mk_subject.specs.Target.{target_of};
ghost use Rattle.mk_cert.specs.Walking.{GoesOver, LeadsToFile};

use crate::cursor::{Cursor, NamedRead};
use crate::read_lists::ReadLists;
use crate::seen_names::SeenNames;
use mk_build::build_laws::names_have_one_number;
use mk_cert_text::{Finish, Path, Way};
use mk_subject::{Subject, Target, WayTables, ends_at, has_at};
use std::alloc::{AllocError, Global};

/// Whether the name is in the set at an index.
pub fn stands_at(sets: &[SeenNames<'_>], place: usize, name: &str) -> bool
    ensures { result ≡ has_name (slice_index_or sets.now place []) name.now }
{
    match sets.get(place) {
        Some(set) => set.contains(name),
        None => false,
    }
}

/// Whether the node has a recipe and this name.
fn is_recipe_named(subject: &Subject<'_>, number: usize, name: &str) -> bool
    ensures { result ≡ true →
        IsRecipe subject.now number × (name_of subject.now number ≡ name.now) }
{
    match subject.graph().nodes().get(number) {
        Some(node) => node.recipe && node.name.as_str() == name,
        None => false,
    }
}

/// The number of the recipe with this name, if there is one. It tries the node `likely` first.
fn recipe_named(subject: &Subject<'_>, likely: usize, name: &str) -> Option<usize>
    ensures { MatchOption result ((n : ℕ) → IsRecipe subject.now n →
        ¬ (name_of subject.now n ≡ name.now))
        (λ n. IsRecipe subject.now n × (name_of subject.now n ≡ name.now)) }
{
    names_have_one_number();
    if is_recipe_named(subject, likely, name) {
        return Some(likely);
    }
    let number = subject.names().number_of(name);
    let Some(node) = subject.graph().nodes().get(number) else {
        return None;
    };
    if !node.recipe {
        return None;
    }
    Some(number)
}

/// A guess at the next recipe on a path to a file: at the end of the path the first writer of the
/// file, else the first recipe that `last` carries.
fn likely_behind(links: &WayTables<'_>, last: usize, file: &Target<'_>, is_end: bool) -> usize {
    let first = if is_end {
        file.writers().first().copied()
    } else {
        match links.carried.get(last) {
            Some(carried) => carried.first(),
            None => None,
        }
    };
    first.unwrap_or(0)
}

/// The last recipe of the path, if the path begins at `start`, all its other names are those of
/// recipes, and each recipe carries the next. The first name of the path isn't looked at.
fn last_over(
    subject: &Subject<'_>,
    links: &WayTables<'_>,
    start: usize,
    path: &Path<'_>,
    file: &Target<'_>,
) -> Option<usize>
    requires { AreLinks subject.now links.now.carried.items links.now.ends.needed.items
        links.now.ends.always.items }
    ensures { MatchOption result
        ((last : ℕ) → ¬ (GoesOver subject.now start (drop 1 path.now) last))
        (λ last. GoesOver subject.now start (drop 1 path.now) last) }
{
    names_have_one_number();
    let _graph = subject.graph();
    let count = path.len();
    let mut last = start;
    for place in 1..count {
        let likely = likely_behind(links, last, file, place + 1 == count);
        let Some(next) = recipe_named(subject, likely, path.at(place)) else {
            return None;
        };
        if !has_at(&links.carried, last, next) {
            return None;
        }
        last = next;
    }
    Some(last)
}

/// Whether the path of the entry leads from its first recipe, `start`, to its file.
fn leads(
    subject: &Subject<'_>,
    links: &WayTables<'_>,
    start: usize,
    way: &Way<'_>,
    file: &Target<'_>,
) -> bool
    requires links { AreLinks subject.now links.now.carried.items links.now.ends.needed.items
        links.now.ends.always.items }
    requires file { file.now ≡ target_of subject.now way.now.file }
    ensures { (result ≡ true) ↔ LeadsToFile subject.now start (drop 1 way.now.path) way.now }
{
    names_have_one_number();
    let _graph = subject.graph();
    let Some(last) = last_over(subject, links, start, &way.path, file) else {
        return false;
    };
    if way.path.len() < 2 && way.finish == Finish::Written {
        return false;
    }
    ends_at(subject, &links.ends, file, way.finish, last)
}

/// What finds the reads that the entries are for.
#[derive(Drop)]
pub struct ReadFinder<'s> {
    /// The guess at the next read, which is tried first.
    pub cursor: Cursor,
    /// The files that each recipe reads, for a read that isn't the guess.
    pub lists: ReadLists<'s>,
}

/// The recipe and the file with these names, if the recipe reads the file. It tries the cursor's
/// guess before it looks up the names.
fn read_named<'s>(
    alloc: Global,
    subject: &'s Subject<'_>,
    finder: &mut ReadFinder<'s>,
    recipe: &str,
    file: &str,
) -> Result<Option<NamedRead<'s>>, AllocError>
    requires { IfSome finder.old.lists.lists (λ lists. HoldReads subject.now lists.items) }
    ensures found { IfOk result (λ found. MatchOption found
        ((t : ℕ) → IsRecipe subject.entry.now t → name_of subject.entry.now t ≡ recipe.now →
        ¬ (Has (reads_of subject.entry.now t) file.now))
        (λ found. IsReadOf subject.entry.now recipe.now file.now found.recipe found.file)) }
    ensures lists { OnOk result
        (IfSome finder.new.lists.lists (λ lists. HoldReads subject.entry.now lists.items)) }
{
    names_have_one_number();
    let _graph = subject.graph();
    if let Some(found) = finder.cursor.found(subject, recipe, file) {
        return Ok(Some(found));
    }
    let Some(number) = recipe_named(subject, 0, recipe) else {
        return Ok(None);
    };
    let Some(target) = subject.file(file) else {
        return Ok(None);
    };
    if !finder.lists.has(alloc, subject, number, file)? {
        return Ok(None);
    }
    Ok(Some(NamedRead {
        recipe: number,
        file: target,
    }))
}

/// Whether the entry is good, where `found` is its read.
fn is_good(
    subject: &Subject<'_>,
    links: &WayTables<'_>,
    way: &Way<'_>,
    found: &NamedRead<'_>,
) -> bool
    requires links { AreLinks subject.now links.now.carried.items links.now.ends.needed.items
        links.now.ends.always.items }
    requires found { IsReadOf subject.now way.now.recipe way.now.file found.now.recipe
        found.now.file }
    ensures { (result ≡ true) ↔ IsGood subject.now way.now }
{
    names_have_one_number();
    let _graph = subject.graph();
    if way.path.is_empty() || way.path.at(0) != way.recipe {
        return false;
    }
    found.file.can_change(subject) && leads(subject, links, found.recipe, way, &found.file)
}

/// The number of the entry's recipe, if the entry is good. The only error is out of memory.
pub fn good_start<'s>(
    alloc: Global,
    subject: &'s Subject<'_>,
    links: &WayTables<'_>,
    finder: &mut ReadFinder<'s>,
    way: &Way<'_>,
) -> Result<Option<usize>, AllocError>
    requires links { AreLinks subject.now links.now.carried.items
        links.now.ends.needed.items links.now.ends.always.items }
    requires lists { IfSome finder.old.lists.lists (λ lists. HoldReads subject.now lists.items) }
    ensures start { IfOk result (λ start. MatchOption start (¬ (IsGood subject.entry.now way.now))
        (λ n. IsGood subject.entry.now way.now × IsRecipe subject.entry.now n ×
        (name_of subject.entry.now n ≡ way.now.recipe))) }
    ensures lists { OnOk result
        (IfSome finder.new.lists.lists (λ lists. HoldReads subject.entry.now lists.items)) }
{
    let Some(found) = read_named(alloc, subject, finder, way.recipe, way.file)? else {
        return Ok(None);
    };
    if !is_good(subject, links, way, &found) {
        return Ok(None);
    }
    Ok(Some(found.recipe))
}
