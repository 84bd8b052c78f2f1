//! Checks of a node that need no files.

ghost use Rattle.std.specs.Prelude.{◌≡◌, ◌↔◌, ◌∷◌, [], true, Some, map, OnOk};
ghost use Rattle.mk_subject.specs.Subject.{Subject};
ghost use Rattle.mk_find.specs.Candidates.{no_record, other_commands, varying_commands, no_target, selection, choice_with_writes};
ghost use Rattle.mk_subject.specs.NodeRow.{IsRow};
ghost use Rattle.mk_find.specs.Listed.{Adds};
ghost use Rattle.mk_find.specs.Tests.{lacks_record, has_varying, has_other_commands};

use crate::finding::Finding;
use crate::finding_list::FindingList;
use mk_subject::{NodeRow, SharedName};
use std::alloc::AllocError;

/// Whether the node has a recipe without a record.
fn lacks_record(row: &NodeRow<'_>) -> bool
    ensures { result ≡ lacks_record row.now }
{
    row.recorded.is_none() && row.recipe
}

/// Adds the finding `NoRecord`, if the node's recipe has no record. The only error is out of
/// memory.
pub fn note_no_record(row: &NodeRow<'_>, found: &mut FindingList) -> Result<(), AllocError>
    ensures { OnOk result ((x : Subject) → IsRow x row.now →
        Adds x (no_record row.now.number ∷ []) found.old found.new) }
{
    if !lacks_record(row) {
        return Ok(());
    }
    let recipe = row.copy_of_name()?;
    found.push(Finding::NoRecord { recipe })?;
    Ok(())
}

/// Whether the node has a recipe whose commands vary.
fn has_varying(row: &NodeRow<'_>) -> bool
    ensures { result ≡ has_varying row.now }
{
    row.varying && row.recipe
}

/// Adds the finding `VaryingCommands`, if the commands vary. The only error is out of memory.
pub fn note_varying(row: &NodeRow<'_>, found: &mut FindingList) -> Result<(), AllocError>
    ensures { OnOk result ((x : Subject) → IsRow x row.now →
        Adds x (varying_commands row.now.number ∷ []) found.old found.new) }
{
    if !has_varying(row) {
        return Ok(());
    }
    let recipe = row.copy_of_name()?;
    found.push(Finding::VaryingCommands { recipe })?;
    Ok(())
}

/// Adds the finding `NoTarget`, if the recipe doesn't write the target that it should. The only
/// error is out of memory.
pub fn note_no_target(row: &NodeRow<'_>, found: &mut FindingList) -> Result<(), AllocError>
    ensures { OnOk result ((x : Subject) → IsRow x row.now →
        Adds x (no_target row.now.number ∷ []) found.old found.new) }
{
    if !row.unwritten {
        return Ok(());
    }
    let recipe = row.copy_of_name()?;
    found.push(Finding::NoTarget { recipe })?;
    Ok(())
}

/// Whether the recipe's commands don't vary and differ from those of its record.
fn has_other_commands(row: &NodeRow<'_>) -> bool
    ensures { result ≡ has_other_commands row.now }
{
    row.others && row.recipe && !row.varying
}

/// Adds the finding `OtherCommands`, if the record has other commands than the recipe. The only
/// error is out of memory.
pub fn note_other_commands(row: &NodeRow<'_>, found: &mut FindingList) -> Result<(), AllocError>
    ensures { OnOk result ((x : Subject) → IsRow x row.now →
        Adds x (other_commands row.now.number ∷ []) found.old found.new) }
{
    if !has_other_commands(row) {
        return Ok(());
    }
    let recipe = row.copy_of_name()?;
    found.push(Finding::OtherCommands { recipe })?;
    Ok(())
}

/// Whether `chosen` is this name.
fn is_choice(chosen: &Option<SharedName>, name: &SharedName) -> bool
    ensures { (result ≡ true) ↔ (chosen.now ≡ Some name.now) }
{
    match chosen {
        Some(chosen) => chosen.as_str() == name.as_str(),
        None => false,
    }
}

/// Adds the finding `Selection`, if the node gets another inferred prerequisite once all recipes
/// have written their files. The only error is out of memory.
pub fn note_selection(row: &NodeRow<'_>, found: &mut FindingList) -> Result<(), AllocError>
    ensures { OnOk result ((x : Subject) → IsRow x row.now →
        Adds x (map (λ c. selection row.now.number c) (choice_with_writes x row.now.number))
        found.old found.new) }
{
    let Some(after) = &row.chosen_after else {
        return Ok(());
    };
    if is_choice(&row.chosen, after) {
        return Ok(());
    }
    let name = found.name_of_node(row)?;
    let chosen = after.clone()?;
    found.push(Finding::Selection { name, chosen })?;
    Ok(())
}
