//! The prerequisites of a node as groups of numbers.

ghost use Rattle.std.specs.Prelude.{◌≡◌, ◌∷◌, ◌++◌, [], false, map, filter, OnOk, IfOk};
ghost use Rattle.std.specs.Option.{option_map};
ghost use Rattle.mk_read.specs.Needs.{groups};
ghost use Rattle.mk_lines.specs.Names.{number_of};
ghost use Rattle.mk_infer.specs.Selection.{in_node_numbers, with_choice};
ghost use Rattle.mk_infer_select.specs.Walked.{has_numbers, with_number};
ghost use Rattle.mk_infer.specs.Table.{words_in};

use mk_graph::Groups;
use mk_infer::NameRules;
use mk_lines::BorrowedNames;
use std::alloc::{AllocError, Global};
use std::mem;

/// Returns the numbers of names: their places in `met`. The only error is out of memory.
pub fn numbers(
    alloc: Global,
    met: &BorrowedNames<'_>,
    names: &[&str],
) -> Result<Vec<usize>, AllocError>
    ensures { IfOk result (λ found. found.items ≡
        map (number_of met.now) (map (λ name. name.now) names.now)) }
{
    let mut numbers = Vec::with_capacity(alloc, names.len())?;
    for name in names {
        numbers.push(met.number_of(name))?;
    }
    Ok(numbers)
}

/// Appends a group unless it is empty.
fn push_group(groups: &mut Vec<Vec<usize>>, group: Vec<usize>) -> Result<(), AllocError>
    ensures { OnOk result (map (λ group. group.items) groups.new.items ≡
        map (λ group. group.items) groups.old.items ++ filter has_numbers (group.items ∷ [])) }
{
    if group.is_empty() {
        return Ok(());
    }
    // Most names have a single group, so the first one is stored without spare capacity.
    if groups.is_empty() {
        groups.reserve_exact(1)?;
    }
    groups.push(group)?;
    Ok(())
}

/// Returns the numbers of the names, in a group for each part between `.WAIT`s that isn't empty.
fn cut_groups(
    alloc: Global,
    met: &BorrowedNames<'_>,
    words: &[&str],
) -> Result<Vec<Vec<usize>>, AllocError>
    ensures { IfOk result (λ found. map (λ group. group.items) found.items ≡
        in_node_numbers met.now (groups false (map (λ word. word.now) words.now))) }
{
    let mut groups = Vec::new(alloc);
    // Most names have a single group, before which one number more may be put.
    let mut group = Vec::with_capacity(alloc, words.len().saturating_add(1))?;
    for word in words {
        if *word == ".WAIT" {
            let closed = mem::replace(&mut group, Vec::new(alloc));
            push_group(&mut groups, closed)?;
        } else {
            group.push(met.number_of(word))?;
        }
    }
    push_group(&mut groups, group)?;
    Ok(groups)
}

/// Returns the numbers of the names, each in a group of its own.
fn single_groups(
    alloc: Global,
    met: &BorrowedNames<'_>,
    names: &[&str],
) -> Result<Vec<Vec<usize>>, AllocError>
    ensures { IfOk result (λ found. map (λ group. group.items) found.items ≡
        map (λ name. number_of met.now name ∷ []) (map (λ name. name.now) names.now)) }
{
    let mut groups = Vec::with_capacity(alloc, names.len())?;
    for name in names {
        groups.push(vec![in alloc; met.number_of(name)]?)?;
    }
    Ok(groups)
}

/// Puts a number first: into the first group, or in a group of its own if `apart` is true.
fn with_number(
    alloc: Global,
    groups: Vec<Vec<usize>>,
    apart: bool,
    number: usize,
) -> Result<Vec<Vec<usize>>, AllocError>
    ensures { IfOk result (λ found. map (λ group. group.items) found.items ≡
        with_number apart number (map (λ group. group.items) groups.items)) }
{
    let mut groups = groups;
    match groups.first_mut() {
        Some(group) if !apart => group.insert(0, number)?,
        _ => groups.insert(0, vec![in alloc; number]?)?,
    }
    Ok(groups)
}

/// Returns the prerequisites of the rule lines of a name in groups. If `apart` is true, each one is
/// a group of its own.
fn rule_groups(
    alloc: Global,
    apart: bool,
    met: &BorrowedNames<'_>,
    rules: &NameRules<'_>,
) -> Result<Vec<Vec<usize>>, AllocError>
    ensures { IfOk result (λ found. map (λ group. group.items) found.items ≡
        in_node_numbers met.now (groups apart (words_in rules.now))) }
{
    if apart {
        let mut names = Vec::new(alloc);
        rules.push_prerequisites(&mut names)?;
        return single_groups(alloc, met, &names);
    }
    let words = rules.words(alloc)?;
    cut_groups(alloc, met, &words)
}

/// Returns the prerequisites of a name in groups, the inferred one first. The only error is out of
/// memory.
pub fn groups_with(
    alloc: Global,
    apart: bool,
    met: &BorrowedNames<'_>,
    choice: Option<&str>,
    rules: &NameRules<'_>,
) -> Result<Groups, AllocError>
    ensures { IfOk result (λ found. found ≡
        in_node_numbers met.now (with_choice apart (option_map (λ name. name.now) choice.entry)
        (groups apart (words_in rules.now)))) }
{
    let groups = rule_groups(alloc, apart, met, rules)?;
    let Some(inferred) = choice else {
        return Ok(Groups::new(groups));
    };
    let number = met.number_of(inferred);
    Ok(Groups::new(with_number(alloc, groups, apart, number)?))
}
