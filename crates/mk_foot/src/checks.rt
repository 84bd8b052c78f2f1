//! Checks of a footprint file after its JSON shape was read.

ghost use Rattle.std.specs.Prelude.{◌≡◌, ◌∷◌, [], map, find, IfOk, IfSome};
ghost use Rattle.std.specs.List.{list_all};
ghost use Rattle.std.specs.Option.{option_map, option_copied};
ghost use Rattle.std.specs.String.{string_bytes};
ghost use Rattle.mk_lines.specs.Paths.{is_plain_path as is_plain};
ghost use Rattle.mk_foot.specs.Names.{has_name, is_prefix, begins_with_any, first_repeat, same_names};
ghost use Rattle.mk_foot.specs.Steps.{Gives, test_each, check_that};
ghost use Rattle.mk_foot.specs.Checks.{are_plain, entry_is_plain, goals_are_plain, group_is_plain, list_is_plain, names_are_plain, targets_differ, sources_are_not_fixed, list_names, shared_lists_exist, check_all, serves, group_for};

use crate::fault::FootFault;
use crate::key::Key;
use crate::names::clones_of;
use crate::parts::{FootprintFile, Group, RawRecord, SharedList};
use mk_lines::{BorrowedNames, Name, NameTable, Prefixes, is_plain_path, is_plain_text_path};
use std::alloc::Global;

/// Whether a text is `/`, or a plain path followed by `/`.
fn is_prefix(text: &[u8]) -> bool
    ensures { result ≡ is_prefix text.now }
{
    match text {
        b"/" => true,
        [path @ .., b'/'] => is_plain_path(path),
        _ => false,
    }
}

/// Whether all texts are plain paths.
pub fn are_paths(texts: &[String]) -> bool
    ensures { result ≡ list_all is_plain (map string_bytes texts.now) }
{
    texts.iter().all(|text| is_plain_text_path(text.as_str()))
}

/// Fails with `BadName` (55) if the name is no plain path.
fn is_path(key: Key, name: &str) -> Result<(), FootFault>
    ensures { Gives (λ done. done) result (are_plain key (name.now ∷ [])) }
{
    if is_plain_text_path(name) {
        Ok(())
    } else {
        Err(FootFault::BadName(key))
    }
}

/// Fails with `BadName` (55) if one of the names is no plain path.
fn are_plain(key: Key, names: &[String]) -> Result<(), FootFault>
    ensures { Gives (λ done. done) result (are_plain key (map string_bytes names.now)) }
{
    if are_paths(names) {
        Ok(())
    } else {
        Err(FootFault::BadName(key))
    }
}

/// Whether all texts are prefixes.
fn are_prefixes(texts: &[String]) -> bool
    ensures { result ≡ list_all is_prefix (map string_bytes texts.now) }
{
    texts.iter().all(|text| is_prefix(text.as_bytes()))
}

/// Checks the target, the reads and the writes of a record. The check is skipped if the reader has
/// found them plain already.
#[tactic(auto, unfolding(crate::specs::Checks::entry_is_plain))]
fn entry_is_plain(entry: &RawRecord) -> Result<(), FootFault>
    ensures { Gives (λ done. done) result (entry_is_plain entry.now) }
{
    if entry.plain {
        return Ok(());
    }
    is_path(Key::Target, entry.target.as_str())?;
    are_plain(Key::Reads, &entry.reads)?;
    are_plain(Key::Writes, &entry.writes)
}

fn entries_are_plain(entries: &[RawRecord]) -> Result<(), FootFault>
    ensures { Gives (λ done. done) result (test_each entry_is_plain entries.now) }
{
    for entry in entries {
        entry_is_plain(entry)?;
    }
    Ok(())
}

/// Checks the goals of a group and the names in its records.
#[tactic(auto, unfolding(crate::specs::Checks::group_is_plain))]
fn group_is_plain(group: &Group) -> Result<(), FootFault>
    ensures { Gives (λ done. done) result (group_is_plain group.now) }
{
    if let Some(goals) = &group.goals {
        are_plain(Key::Goals, goals)?;
    }
    entries_are_plain(&group.records)
}

fn groups_are_plain(groups: &[Group]) -> Result<(), FootFault>
    ensures { Gives (λ done. done) result (test_each group_is_plain groups.now) }
{
    for group in groups {
        group_is_plain(group)?;
    }
    Ok(())
}

fn list_is_plain(list: &SharedList) -> Result<(), FootFault>
    ensures { Gives (λ done. done) result (list_is_plain list.now) }
{
    are_plain(Key::Lists, &list.names)
}

fn lists_are_plain(lists: &[SharedList]) -> Result<(), FootFault>
    ensures { Gives (λ done. done) result (test_each list_is_plain lists.now) }
{
    for list in lists {
        list_is_plain(list)?;
    }
    Ok(())
}

/// Checks all names and prefixes of a file, in the order of the format.
#[tactic(auto, unfolding(crate::specs::Checks::names_are_plain))]
fn names_are_plain(file: &FootprintFile) -> Result<(), FootFault>
    ensures { Gives (λ done. done) result (names_are_plain file.now) }
{
    if !are_prefixes(&file.fixed) {
        return Err(FootFault::BadName(Key::Fixed));
    }
    are_plain(Key::Sources, &file.sources)?;
    lists_are_plain(&file.lists)?;
    groups_are_plain(&file.groups)
}

/// Returns the first target that an earlier record has too.
fn first_repeat(alloc: Global, entries: &[RawRecord]) -> Result<Option<&str>, FootFault>
    ensures { Gives (λ found. option_map (λ name. name.now) found) result (Ok (first_repeat []
        (map (λ entry. entry.target) entries.now))) }
{
    let mut seen = BorrowedNames::with_capacity(alloc, entries.len())?;
    for entry in entries {
        let target = entry.target.as_str();
        if !seen.insert(target)? {
            return Ok(Some(target));
        }
    }
    Ok(None)
}

/// Fails with `TwoRecords` (54) if a target occurs twice in the group.
fn targets_differ(alloc: Global, group: &Group) -> Result<(), FootFault>
    ensures { Gives (λ done. done) result (targets_differ group.now) }
{
    match first_repeat(alloc, &group.records)? {
        Some(target) => Err(FootFault::TwoRecords(Name::new(alloc, target)?)),
        None => Ok(()),
    }
}

fn all_targets_differ(alloc: Global, groups: &[Group]) -> Result<(), FootFault>
    ensures { Gives (λ done. done) result (test_each targets_differ groups.now) }
{
    for group in groups {
        targets_differ(alloc, group)?;
    }
    Ok(())
}

/// Returns the first source that is under a fixed prefix.
fn first_fixed<'a>(fixed: &Prefixes, sources: &'a [String]) -> Option<&'a str>
    ensures { option_map (λ name. name.now) result ≡
        find (begins_with_any fixed.now) (map string_bytes sources.now) }
{
    for source in sources {
        if fixed.begins_with_any(source.as_str()) {
            return Some(source.as_str());
        }
    }
    None
}

/// Fails with `SourceIsFixed` (56) if a source is under a fixed prefix.
fn sources_are_not_fixed(alloc: Global, file: &FootprintFile) -> Result<(), FootFault>
    ensures { Gives (λ done. done) result (sources_are_not_fixed file.now) }
{
    let fixed = Prefixes::new(alloc, clones_of(alloc, &file.fixed)?)?;
    match first_fixed(&fixed, &file.sources) {
        Some(source) => Err(FootFault::SourceIsFixed(Name::new(alloc, source)?)),
        None => Ok(()),
    }
}

/// Whether the table has all names of `shared`.
fn are_listed(names: &NameTable, shared: &[String]) -> bool
    ensures { result ≡ list_all (has_name names.now) (map string_bytes shared.now) }
{
    shared.iter().all(|name| names.contains(name))
}

/// Whether the table has all shared lists that the record names.
fn entry_is_listed(names: &NameTable, entry: &RawRecord) -> bool
    ensures { result ≡ list_all (has_name names.now) entry.now.shared }
{
    are_listed(names, &entry.shared)
}

fn entries_are_listed(names: &NameTable, entries: &[RawRecord]) -> bool
    ensures { result ≡ list_all (λ entry. list_all (has_name names.now) entry.shared) entries.now }
{
    entries.iter().all(|entry| entry_is_listed(names, entry))
}

/// Fails with `NoList` (58) if a record of the group names a shared list that the table doesn't
/// have.
fn group_is_listed(names: &NameTable, group: &Group) -> Result<(), FootFault>
    ensures { Gives (λ done. done) result (shared_lists_exist names.now group.now) }
{
    if entries_are_listed(names, &group.records) {
        Ok(())
    } else {
        Err(FootFault::NoList)
    }
}

fn groups_are_listed(names: &NameTable, groups: &[Group]) -> Result<(), FootFault>
    ensures { Gives (λ done. done) result (test_each (shared_lists_exist names.now) groups.now) }
{
    for group in groups {
        group_is_listed(names, group)?;
    }
    Ok(())
}

/// Makes all checks in their order and returns the first fault. `names` are the names of the shared
/// lists. It fails with `Memory` when out of memory.
#[tactic(auto, unfolding(crate::specs::Checks::check_all))]
pub fn check_all(alloc: Global, file: &FootprintFile, names: &NameTable) -> Result<(), FootFault>
    requires { names.now ≡ list_names file.now }
    ensures { Gives (λ done. done) result (check_all file.now) }
{
    names_are_plain(file)?;
    all_targets_differ(alloc, &file.groups)?;
    sources_are_not_fixed(alloc, file)?;
    groups_are_listed(names, &file.groups)
}

/// Whether both lists have the same names in the same order.
fn same_names(goals: &[Name], own: &[String]) -> bool
    ensures { result ≡ same_names goals.now (map string_bytes own.now) }
{
    if goals.len() != own.len() {
        return false;
    }
    for (i, goal) in goals.iter().enumerate() {
        if goal.as_str() != own[i].as_str() {
            return false;
        }
    }
    true
}

/// Whether a group has these goals, or serves any goals.
fn serves(goals: &[Name], group: &Group) -> bool
    ensures { result ≡ serves goals.now group.now.goals }
{
    match &group.goals {
        Some(own) => same_names(goals, own),
        None => true,
    }
}

/// Returns the first group that serves the goals, or `NoGroup` (57).
pub fn group_for(goals: &[Name], groups: Vec<Group>) -> Result<Group, FootFault>
    ensures { Gives (λ group. group) result (group_for goals.now groups.items) }
{
    for group in groups {
        if serves(goals, &group) {
            return Ok(group);
        }
    }
    Err(FootFault::NoGroup)
}
