//! The first disk of a world.

ghost use Rattle.std.specs.Prelude.{◌≡◌, ℕ, List, ◌⊎◌, ◌↔◌, length, IfOk, OnOk};
ghost use Rattle.mk_graph.specs.Membership.{Has};
ghost use Rattle.mk_build.specs.World.{IsOfWorld};
ghost use Rattle.mk_world.specs.State.{setting_of};
ghost use Rattle.mk_world.specs.First.{AreSorted, first_files, given_among, IsNameOf};

use crate::file::File;
use crate::sorted::in_order;
use mk_foot::Setting;
use mk_graph::{Graph, Node};
use mk_lines::BorrowedNames;
use std::alloc::{AllocError, Global};

/// The files of a first disk, and their number: each given file has its number among the given ones
/// as content and stamp. The only error is out of memory.
pub fn first_files(
    alloc: Global,
    setting: &Setting,
    names: &BorrowedNames,
) -> Result<(Vec<Option<File>>, u64), AllocError>
    ensures files { IfOk result (λ r. r.0.items ≡ first_files setting.now 0 names.now) }
    ensures clock { IfOk result (λ r. r.1 ≡ length (given_among setting.now names.now)) }
{
    let names = names.as_slice();
    let mut files = Vec::with_capacity(alloc, names.len())?;
    let mut clock: u64 = 0;
    for name in names {
        if !setting.is_given(name) {
            files.push(None)?;
            continue;
        }
        clock += 1;
        files.push(Some(File {
            content: clock,
            stamp: clock,
        }))?;
    }
    Ok((files, clock))
}

/// Adds the name of a node, and of the files that its recipe reads and writes. The only error is
/// out of memory.
fn add_node<'a>(
    names: &mut BorrowedNames<'a>,
    setting: &'a Setting,
    node: &'a Node,
) -> Result<(), AllocError>
    ensures { OnOk result ((f : List ℕ) → Has names.new f ↔
        (Has names.old f ⊎ IsNameOf setting.entry.now node.entry.now f)) }
{
    names.insert(node.name.as_str())?;
    if !node.recipe {
        return Ok(());
    }
    let Some(record) = setting.record_of(node.name.as_str()) else {
        return Ok(());
    };
    names.insert_all(&record.reads)?;
    names.insert_all(&record.writes)
}

/// The names of a world, in the order of their bytes. The only error is out of memory.
pub fn names_of<'a>(
    alloc: Global,
    graph: &'a Graph,
    setting: &'a Setting,
) -> Result<BorrowedNames<'a>, AllocError>
    ensures sorted { IfOk result (λ names. AreSorted names) }
    ensures all { IfOk result (λ names. (f : List ℕ) → Has names f ↔
        IsOfWorld graph.entry.now (setting_of setting.entry.now) f) }
{
    let mut names = BorrowedNames::new(alloc);
    names.insert_all(setting.sources().as_slice())?;
    for node in graph.nodes() {
        add_node(&mut names, setting, node)?;
    }
    in_order(alloc, &names)
}
