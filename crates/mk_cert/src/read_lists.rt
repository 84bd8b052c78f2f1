//! The files that each recipe reads, looked up by name.

ghost use Rattle.std.specs.Prelude.{◌≡◌, ◌↔◌, ℕ, List, [], None, true, slice_index_or, IfOk, IfSome, OnOk};
ghost use Rattle.mk_lines.specs.Names.{has_name};
ghost use Rattle.mk_graph.specs.Membership.{Has};
ghost use Rattle.mk_build.specs.Setting as build;
ghost use Rattle.mk_cert.specs.WalkTables.{HoldReads};
ghost use Rattle.mk_subject.specs.Subject.{footprints, reads_of};

use mk_foot::Setting;
use mk_graph::Graph;
use mk_subject::{NameList, Records, Subject};
use std::alloc::{AllocError, Global};

/// For each node, at its number, the files that its recipe reads. They are built on the first
/// lookup; if the entries of a certificate come in the order of the reads, there is none.
#[derive(Drop)]
pub struct ReadLists<'a> {
    lists: Option<Vec<NameList<'a>>>,
}

/// Builds the list of each node.
fn lists_of<'a>(
    alloc: Global,
    graph: &'a Graph,
    setting: &'a Setting,
) -> Result<Vec<NameList<'a>>, AllocError>
    ensures { IfOk result (λ lists. (t : ℕ) (f : List ℕ) →
        (has_name (slice_index_or lists.items t []) f ≡ true) ↔
        Has (build.reads graph.now (footprints setting.now) t) f) }
{
    let records = Records::new(alloc, graph, setting)?;
    let count = graph.nodes().len();
    let mut lists = Vec::with_capacity(alloc, count)?;
    for number in 0..count {
        lists.push(NameList::new(records.reads_of(number)))?;
    }
    Ok(lists)
}

/// Whether the name is in the list at an index; counts as a lookup in that list.
fn has_at(
    alloc: Global,
    lists: &mut Vec<NameList<'_>>,
    place: usize,
    name: &str,
) -> Result<bool, AllocError>
    ensures has { IfOk result (λ has. has ≡
        has_name (slice_index_or lists.old.items place []) name.now) }
    ensures same { lists.new.items ≡ lists.old.items }
{
    if place >= lists.len() {
        return Ok(false);
    }
    let list = &mut lists[place];
    list.note_use(alloc)?;
    Ok(list.has(name))
}

impl<'a> ReadLists<'a> {
    /// Nothing built yet. Doesn't allocate.
    pub fn new() -> ReadLists<'a>
        ensures { result.lists ≡ None }
    {
        ReadLists { lists: None }
    }

    /// Whether the recipe of a node reads a file. The only error is out of memory.
    pub fn has(
        &mut self,
        alloc: Global,
        subject: &'a Subject<'_>,
        number: usize,
        file: &str,
    ) -> Result<bool, AllocError>
        requires { IfSome self.old.lists (λ lists. HoldReads subject.now lists.items) }
        ensures has { IfOk result (λ has. (has ≡ true) ↔
            Has (reads_of subject.entry.now number) file.now) }
        ensures kept { OnOk result
            (IfSome self.new.lists (λ lists. HoldReads subject.entry.now lists.items)) }
    {
        let mut lists = match self.lists.take() {
            Some(lists) => lists,
            None => lists_of(alloc, subject.graph(), subject.setting())?,
        };
        let has = has_at(alloc, &mut lists, number, file)?;
        self.lists = Some(lists);
        Ok(has)
    }
}
