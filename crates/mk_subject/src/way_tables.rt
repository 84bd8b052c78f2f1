//! The tables that a walk along a way uses.

ghost use Rattle.std.specs.Prelude.{◌≡◌, ◌<◌, ◌↔◌, ℕ, [], true, false, length, map, slice_index_or, IfOk};
ghost use Rattle.mk_graph.specs.Graph.{node, prerequisites};
ghost use Rattle.mk_graph.specs.Membership.{Has};
ghost use Rattle.mk_build.specs.Setting.{IsAlwaysMade, HasDirectPrerequisite};
ghost use Rattle.mk_build.specs.Ways.{Carries};
ghost use Rattle.mk_subject.specs.Subject.{footprints};
ghost use Rattle.mk_subject.specs.Carried.{carried};
ghost use Rattle.mk_subject.specs.WayTables.{AreEnds, AreLinks};
ghost use Rattle.mk_subject.specs.Paths.{EndsAt};
ghost use Rattle.mk_subject.specs.Target.{target_of};

use crate::laws::carried_exactly;
use crate::number_list::{NumberList, has_number};
use crate::subject::Subject;
use crate::target::Target;
use mk_build::build_laws::names_have_one_number;
use mk_cert_text::Finish;
use mk_graph::laws::serial_reaches_each_once;
use mk_graph::{Graph, Groups};
use mk_lines::BorrowedNames;
use std::alloc::{AllocError, Global};

/// The tables for the end of a way, indexed by node number.
#[derive(Drop)]
pub struct EndTables<'a> {
    /// The direct prerequisites of each node.
    pub needed: Vec<NumberList<'a>>,
    /// Whether each node is made in each make: it is phony, or has a phony direct prerequisite.
    pub always: Vec<bool>,
}

/// The tables for the steps and the end of a way, indexed by node number.
#[derive(Drop)]
pub struct WayTables<'a> {
    /// The tables for its end.
    pub ends: EndTables<'a>,
    /// The recipes that each node carries: the writers of its direct prerequisites.
    pub carried: Vec<NumberList<'a>>,
}

/// The names of the nodes, each at its number. The only error is out of memory.
pub fn node_names<'a>(alloc: Global, graph: &'a Graph) -> Result<BorrowedNames<'a>, AllocError>
    ensures { IfOk result (λ names. names ≡ map (λ n. n.name) graph.now.nodes) }
{
    let nodes = graph.nodes();
    let mut names = BorrowedNames::with_capacity(alloc, nodes.len())?;
    for node in nodes {
        names.insert(node.name.as_str())?;
    }
    Ok(names)
}

/// The list at `number`, ready for lookups.
fn carried_at<'a>(
    alloc: Global,
    subject: &Subject<'_>,
    lists: &'a Groups,
    number: usize,
) -> Result<NumberList<'a>, AllocError>
    requires many { length lists.now ≡ length subject.now.graph.nodes }
    requires lists { (t : ℕ) → slice_index_or lists.now t [] ≡ carried subject.now t }
    requires node { number < length subject.now.graph.nodes }
    ensures { IfOk result (λ set. (o : ℕ) → Has set o ↔
        Carries subject.now.graph (footprints subject.now.setting) number o) }
{
    carried_exactly();
    serial_reaches_each_once();
    let _graph = subject.graph();
    let set = NumberList::new(alloc, lists.as_slice()[number].as_slice())?;
    Ok(set)
}

/// All the lists, ready for lookups.
fn carried_sets<'a>(
    alloc: Global,
    subject: &Subject<'_>,
    lists: &'a Groups,
) -> Result<Vec<NumberList<'a>>, AllocError>
    requires many { length lists.now ≡ length subject.now.graph.nodes }
    requires lists { (t : ℕ) → slice_index_or lists.now t [] ≡ carried subject.now t }
    ensures { IfOk result (λ sets. (t o : ℕ) → Has (slice_index_or sets.items t []) o ↔
        Carries subject.now.graph (footprints subject.now.setting) t o) }
{
    let count = subject.graph().nodes().len();
    let mut sets = Vec::with_capacity(alloc, count)?;
    for number in 0..count {
        sets.push(carried_at(alloc, subject, lists, number)?)?;
    }
    Ok(sets)
}

/// The direct prerequisites of each node, ready for lookups.
fn needed_by<'a>(alloc: Global, graph: &'a Graph) -> Result<Vec<NumberList<'a>>, AllocError>
    ensures { IfOk result (λ lists. (t p : ℕ) → Has (slice_index_or lists.items t []) p ↔
        Has (prerequisites graph.now t) p) }
{
    let count = graph.nodes().len();
    let mut lists = Vec::with_capacity(alloc, count)?;
    for number in 0..count {
        lists.push(NumberList::new(alloc, graph.prerequisites(number))?)?;
    }
    Ok(lists)
}

/// Whether one of these nodes is phony.
fn some_phony(graph: &Graph, numbers: &[usize]) -> bool
    requires { (n : ℕ) → Has numbers.now n → n < length graph.now.nodes }
    ensures { (result ≡ true) ↔
        ((p : ℕ) × Has numbers.now p × ((node graph.now p).phony ≡ true)) }
{
    let nodes = graph.nodes();
    for number in numbers {
        if nodes[*number].phony {
            return true;
        }
    }
    false
}

/// For each node whether it is made in each make: it is phony, or has a phony direct prerequisite.
/// The only error is out of memory.
fn always_made(alloc: Global, graph: &Graph) -> Result<Vec<bool>, AllocError>
    ensures { IfOk result (λ always. (t : ℕ) →
        (slice_index_or always.items t false ≡ true) ↔ IsAlwaysMade graph.now t) }
{
    let nodes = graph.nodes();
    let mut always = Vec::with_capacity(alloc, nodes.len())?;
    for (number, node) in nodes.iter().enumerate() {
        always.push(node.phony || some_phony(graph, graph.prerequisites(number)))?;
    }
    Ok(always)
}

/// Builds the tables for the ends of ways, in time linear in the graph. The only error is out of
/// memory.
pub fn end_tables_of<'a>(
    alloc: Global,
    subject: &'a Subject<'_>,
) -> Result<EndTables<'a>, AllocError>
    ensures { IfOk result (λ e. AreEnds subject.now e.needed.items e.always.items) }
{
    let graph = subject.graph();
    Ok(EndTables {
        needed: needed_by(alloc, graph)?,
        always: always_made(alloc, graph)?,
    })
}

/// Builds the tables for ways from the result of `carried_lists`, in time linear in it and in the
/// graph. The only error is out of memory.
pub fn way_tables_of<'a>(
    alloc: Global,
    subject: &'a Subject<'_>,
    carried_lists: &'a Groups,
) -> Result<WayTables<'a>, AllocError>
    requires many { length carried_lists.now ≡ length subject.now.graph.nodes }
    requires lists { (t : ℕ) → slice_index_or carried_lists.now t [] ≡ carried subject.now t }
    ensures { IfOk result (λ l. AreLinks subject.now l.carried.items l.ends.needed.items
        l.ends.always.items) }
{
    let _graph = subject.graph();
    Ok(WayTables {
        ends: end_tables_of(alloc, subject)?,
        carried: carried_sets(alloc, subject, carried_lists)?,
    })
}

/// Whether the number is in the list at an index.
pub fn has_at(lists: &[NumberList<'_>], place: usize, number: usize) -> bool
    ensures { (result ≡ true) ↔ Has (slice_index_or lists.now place []) number }
{
    match lists.get(place) {
        Some(list) => list.has(number),
        None => false,
    }
}

/// Whether the file is a direct prerequisite of the node.
fn needs(subject: &Subject<'_>, ends: &EndTables<'_>, number: usize, file: &Target<'_>) -> bool
    requires ends { AreEnds subject.now ends.now.needed.items
        ends.now.always.items }
    requires file { file.now ≡ target_of subject.now file.now.file }
    ensures { (result ≡ true) ↔ HasDirectPrerequisite subject.now.graph number file.now.file }
{
    names_have_one_number();
    let _graph = subject.graph();
    let known = file.known;
    has_at(&ends.needed, number, known.number)
}

/// Whether a path to the file may end at this recipe with this `finish`. Without `TwoWriters`
/// findings a file has one writer, so a linear search of its writers is fast.
pub fn ends_at(
    subject: &Subject<'_>,
    ends: &EndTables<'_>,
    file: &Target<'_>,
    finish: Finish,
    number: usize,
) -> bool
    requires ends { AreEnds subject.now ends.now.needed.items
        ends.now.always.items }
    requires file { file.now ≡ target_of subject.now file.now.file }
    ensures { (result ≡ true) ↔ EndsAt subject.now.graph (footprints subject.now.setting)
        file.now.file finish number }
{
    serial_reaches_each_once();
    let _graph = subject.graph();
    let known = file.known;
    match finish {
        Finish::Written => has_number(file.writers(), number),
        Finish::Source => known.editable && needs(subject, ends, number, file),
        Finish::Always => ends.always.get(number) == Some(&true),
    }
}
