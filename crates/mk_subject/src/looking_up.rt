//! Looks up what a `NodeRow` holds, for all nodes.

ghost use Rattle.std.specs.Prelude.{◌≡◌, ◌<◌, ◌⊎◌, ◌++◌, ℕ, All, List, [], true, length, map, Err, IfErr, IfOk, IfSome, MatchOption, OnOk};
ghost use Rattle.std.specs.List.{flat_map};
ghost use Rattle.std.specs.Option.{option_map};
ghost use Rattle.std.specs.String.{string_bytes};
ghost use Rattle.mk_graph.specs.Graph.{IsGraph, node};
ghost use Rattle.mk_graph.specs.Membership.{Has};
ghost use Rattle.mk_graph.specs.Serial.{serial_order};
ghost use Rattle.mk_build.specs.Setting as build;
ghost use Rattle.mk_infer.specs.Inference.{choice};
ghost use Rattle.mk_infer.specs.Laws.{with_more};
ghost use Rattle.mk_infer.specs.There.{is_there};
ghost use Rattle.mk_infer.specs.declared.fault.InferFault.TheVariants.{Memory};
ghost use Rattle.mk_subject.specs.Subject.{footprints, commands_of, subject_of};
ghost use Rattle.mk_subject.specs.NodeRow.{IsRow, AreRows, AreEntriesOf, IsFaultOf, IsFirstFault, StaysChosen, choice_after};

use crate::node_row::{NodeRow, has_others, is_unwritten, kept_lines};
use crate::records::Records;
use crate::shared_name::SharedName;
use mk_graph::Graph;
use mk_graph::laws::serial_reaches_each_once;
use mk_infer::{
    ChoiceAndCommands, Choices, Exists, InferFault, RuleTable, choice, choice_and_commands,
};
use mk_lines::NameTable;
use std::alloc::{AllocError, Global};

/// Appends copies of names.
fn push_copies(copies: &mut Vec<String>, names: &[String]) -> Result<(), AllocError>
    ensures { OnOk result (map string_bytes copies.new.items ≡
        map string_bytes copies.old.items ++ map string_bytes names.now) }
{
    for name in names {
        copies.push(name.clone()?)?;
    }
    Ok(())
}

/// All files that the recipes of these nodes write, with repeats.
fn writes_among(
    alloc: Global,
    records: &Records<'_>,
    order: &[usize],
) -> Result<Vec<String>, AllocError>
    requires { All (λ n. n < length records.now.graph.nodes) order.now }
    ensures { IfOk result (λ names. map string_bytes names.items ≡
        flat_map (build.writes records.now.graph (footprints records.now.setting)) order.now) }
{
    let mut names = Vec::new(alloc);
    for number in order {
        push_copies(&mut names, records.writes_of(*number))?;
    }
    Ok(names)
}

/// Makes a shared copy of a name, if there is one.
fn shared(alloc: Global, name: Option<&str>) -> Result<Option<SharedName>, AllocError>
    ensures { IfOk result (λ copy. copy ≡ option_map (λ name. name.now) name.entry) }
{
    match name {
        Some(name) => Ok(Some(SharedName::new(alloc, name)?)),
        None => Ok(None),
    }
}

/// The inferred prerequisite of a name, if it has one.
fn choice_of(
    alloc: Global,
    choices: &Choices<'_>,
    name: &str,
) -> Result<Option<SharedName>, AllocError>
    ensures { IfOk result (λ chosen. chosen ≡
        choice choices.now.makefile choices.now.exists name.now) }
{
    shared(alloc, choice(alloc, choices, name)?)
}

/// The inferred prerequisite of each of these nodes.
fn choices_of(
    alloc: Global,
    choices: &Choices<'_>,
    graph: &Graph,
    order: &[usize],
) -> Result<Vec<Option<SharedName>>, AllocError>
    requires { All (λ n. n < length graph.now.nodes) order.now }
    ensures { IfOk result (λ chosen. chosen.items ≡
        map (λ n. choice choices.now.makefile choices.now.exists (node graph.now n).name)
        order.now) }
{
    let mut chosen = Vec::with_capacity(alloc, order.len())?;
    for number in order {
        let name = graph.nodes()[*number].name.as_str();
        chosen.push(choice_of(alloc, choices, name)?)?;
    }
    Ok(chosen)
}

/// The inferred prerequisite of each of these nodes if the files `names` exist too.
fn choices_with(
    alloc: Global,
    choices: &Choices<'_>,
    names: &NameTable,
    graph: &Graph,
    order: &[usize],
) -> Result<Vec<Option<SharedName>>, AllocError>
    requires { All (λ n. n < length graph.now.nodes) order.now }
    ensures { IfOk result (λ chosen. chosen.items ≡ map (λ n. choice choices.now.makefile (with_more
        choices.now.exists names.now) (node graph.now n).name) order.now) }
{
    let there = choices.exists();
    let with = Exists {
        any_leaf: there.any_leaf,
        sources: there.sources,
        fixed: there.fixed,
        texts: there.texts,
        more: names,
    };
    let choices_then = Choices::new(alloc, choices.table(), &with)?;
    choices_of(alloc, &choices_then, graph, order)
}

/// Shares the name, if there is one.
fn copy_of(name: &Option<SharedName>) -> Result<Option<SharedName>, AllocError>
    ensures { IfOk result (λ copy. copy ≡ name.now) }
{
    match name {
        Some(name) => Ok(Some(name.clone()?)),
        None => Ok(None),
    }
}

/// Looks up what a `NodeRow` holds for a node. `after` is its inferred prerequisite after all
/// recipes have written their files; with `None` it is taken to be the same as before. The error is
/// the fault of the node's commands, or out of memory.
fn entry_of<'a>(
    alloc: Global,
    choices: &Choices<'_>,
    records: &Records<'a>,
    number: usize,
    after: Option<&Option<SharedName>>,
) -> Result<NodeRow<'a>, InferFault>
    requires { number < length records.now.graph.nodes }
    ensures number { IfOk result (λ entry. entry.number ≡ number) }
    ensures told { IfOk result (λ entry. commands_of
        (subject_of choices.now.makefile choices.now.exists
        records.now.graph records.now.setting) number ≡ Ok entry.commands) }
    ensures entry { IfOk result (λ entry. MatchOption after.entry
        (StaysChosen (subject_of choices.now.makefile choices.now.exists
        records.now.graph records.now.setting)
        number)
        (λ after. after.now ≡ choice_after
        (subject_of choices.now.makefile choices.now.exists
        records.now.graph records.now.setting) number) →
        IsRow (subject_of choices.now.makefile choices.now.exists
        records.now.graph records.now.setting) entry) }
    ensures fault { IfErr result (λ fault. (fault ≡ Memory) ⊎ (commands_of
        (subject_of choices.now.makefile choices.now.exists
        records.now.graph records.now.setting) number
        ≡ Err fault)) }
{
    let node = &records.graph().nodes()[number];
    let name = node.name.as_str();
    let ChoiceAndCommands { choice, commands } = choice_and_commands(alloc, choices, name)?;
    let chosen = shared(alloc, choice)?;
    let chosen_after = match after {
        Some(after) => copy_of(after)?,
        None => copy_of(&chosen)?,
    };
    let recorded = records.at(number);
    let others = has_others(recorded, &commands.lines);
    Ok(NodeRow {
        number,
        node,
        recorded,
        own: kept_lines(alloc, recorded, others, commands.lines),
        recipe: node.recipe,
        varying: commands.varying,
        others,
        unwritten: is_unwritten(node, recorded),
        chosen,
        chosen_after,
    })
}

/// Whether inference rules take a file to exist before any recipe has written it: it is a target or
/// a source.
fn is_there(table: &RuleTable<'_>, exists: &Exists<'_>, name: &str) -> bool
    ensures { result ≡ true → is_there table.now exists.now name.now ≡ true }
{
    match table.target(name) {
        Some(_target) => true,
        None => exists.sources.contains(name),
    }
}

/// Whether inference rules take all these files to exist before any recipe has written them.
fn are_there(table: &RuleTable<'_>, exists: &Exists<'_>, files: &[String]) -> bool
    ensures { result ≡ true → (f : List ℕ) → Has (map string_bytes files.now) f →
        is_there table.now exists.now f ≡ true }
{
    for file in files {
        if !is_there(table, exists, file.as_str()) {
            return false;
        }
    }
    true
}

/// The entry of each node, in this order, if inference rules take all files that recipes write to
/// exist from the start, as they nearly always do: then no inferred prerequisite changes. Else
/// `None`. The error is the first fault of the nodes' commands, or out of memory.
fn entries_that_stay<'a>(
    alloc: Global,
    choices: &Choices<'_>,
    records: &Records<'a>,
    order: &[usize],
) -> Result<Option<Vec<NodeRow<'a>>>, InferFault>
    requires nodes { All (λ n. n < length records.now.graph.nodes) order.now }
    requires order { order.now ≡ serial_order records.now.graph }
    requires nothing_more { choices.now.exists.more ≡ [] }
    ensures entries { IfOk result (λ entries. IfSome entries (λ entries. AreRows
        (subject_of choices.now.makefile choices.now.exists
        records.now.graph records.now.setting) entries.items)) }
    ensures fault { IfErr result (λ fault. IsFaultOf
        (subject_of choices.now.makefile choices.now.exists
        records.now.graph records.now.setting) fault) }
{
    let mut entries = Vec::with_capacity(alloc, order.len())?;
    for number in order {
        if !are_there(
            choices.table(),
            choices.exists(),
            records.writes_of(*number),
        ) {
            return Ok(None);
        }
        entries.push(entry_of(alloc, choices, records, *number, None)?)?;
    }
    Ok(Some(entries))
}

/// The inferred prerequisite of each node after all recipes have written their files.
fn choices_after(
    alloc: Global,
    choices: &Choices<'_>,
    records: &Records<'_>,
    order: &[usize],
) -> Result<Vec<Option<SharedName>>, AllocError>
    requires nodes { All (λ n. n < length records.now.graph.nodes) order.now }
    requires order { order.now ≡ serial_order records.now.graph }
    ensures { IfOk result (λ chosen. chosen.items ≡ map (choice_after
        (subject_of choices.now.makefile choices.now.exists
        records.now.graph records.now.setting)) order.now) }
{
    let writes = writes_among(alloc, records, order)?;
    let names = NameTable::new(alloc, writes)?;
    choices_with(alloc, choices, &names, records.graph(), order)
}

/// The entry of each of these nodes, given their inferred prerequisites after all recipes have
/// written their files. The error is the first fault of the nodes' commands, or out of memory.
fn entries_with<'a>(
    alloc: Global,
    choices: &Choices<'_>,
    records: &Records<'a>,
    order: &[usize],
    after: &[Option<SharedName>],
) -> Result<Vec<NodeRow<'a>>, InferFault>
    requires nodes { All (λ n. n < length records.now.graph.nodes) order.now }
    requires after { after.now ≡ map (choice_after
        (subject_of choices.now.makefile choices.now.exists
        records.now.graph records.now.setting)) order.now }
    ensures entries { IfOk result (λ entries. AreEntriesOf
        (subject_of choices.now.makefile choices.now.exists
        records.now.graph records.now.setting) order.now
        entries.items) }
    ensures fault { IfErr result (λ fault. (fault ≡ Memory) ⊎ IsFirstFault
        (subject_of choices.now.makefile choices.now.exists
        records.now.graph records.now.setting) order.now
        fault) }
{
    let mut entries = Vec::with_capacity(alloc, order.len())?;
    for (place, number) in order.iter().enumerate() {
        let here = Some(&after[place]);
        entries.push(entry_of(alloc, choices, records, *number, here)?)?;
    }
    Ok(entries)
}

/// The numbers of the nodes, in the serial order.
fn numbers_in_order(graph: &Graph) -> Result<Vec<usize>, AllocError>
    ensures order { IfOk result (λ order. order.items ≡ serial_order graph.now) }
    ensures nodes { IfOk result (λ order. All (λ n. n < length graph.now.nodes) order.items) }
    ensures graph { IsGraph graph.now }
{
    serial_reaches_each_once();
    let _nodes = graph.nodes();
    graph.serial()
}

/// The entry of each node, in the serial order. The error is the first fault of the nodes'
/// commands, or out of memory.
pub fn entries_for<'a>(
    alloc: Global,
    table: &RuleTable<'_>,
    exists: &Exists<'_>,
    records: &Records<'a>,
) -> Result<Vec<NodeRow<'a>>, InferFault>
    requires { exists.now.more ≡ [] }
    ensures entries { IfOk result (λ entries. AreRows
        (subject_of table.now exists.now
        records.now.graph records.now.setting) entries.items) }
    ensures fault { IfErr result (λ fault. IsFaultOf
        (subject_of table.now exists.now
        records.now.graph records.now.setting) fault) }
{
    let order = numbers_in_order(records.graph())?;
    let choices = Choices::new(alloc, table, exists)?;
    if let Some(entries) = entries_that_stay(alloc, &choices, records, &order)? {
        return Ok(entries);
    }
    let after = choices_after(alloc, &choices, records, &order)?;
    entries_with(alloc, &choices, records, &order, &after)
}
