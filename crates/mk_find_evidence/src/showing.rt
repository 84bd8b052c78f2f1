//! Evidence of a finding.

ghost use Rattle.std.specs.Prelude.{◌≡◌, ℕ, map, IfOk, IfSome, MatchOption};
ghost use Rattle.mk_build.specs.Setting.{IsNumberOf};
ghost use Rattle.mk_world.specs.NamedStep.{step_view};
ghost use Rattle.mk_find_evidence.specs.Numbers.{HaveSmallNumbers};
ghost use Rattle.mk_find_evidence.specs.Shown.{IsNotShown, IsReported, Shows};

use crate::race::race;
use crate::stale::stale;
use mk_build::build_laws::names_have_one_number;
use mk_find::Finding;
use mk_find::finding_laws::listed_exactly;
use mk_graph::Graph;
use mk_subject::{SharedName, Subject};
use mk_world::Step;
use std::alloc::{AllocError, Global};

/// The number of the node with this name.
fn number_of(graph: &Graph, name: &SharedName) -> Option<usize>
    ensures { MatchOption result ((n : ℕ) → ¬ (IsNumberOf graph.now name.now n))
        (λ number. IsNumberOf graph.now name.now number) }
{
    graph
        .nodes()
        .iter()
        .position(|node| node.name.as_str() == name.as_str())
}

/// A legal schedule that shows the finding if it is a race or a stale read; `None` for any other
/// finding.
///
/// For a race it is a make with one job whose last step begins the recipe while the writer isn't
/// done. For a stale read it is a make of all goals with one job, an edit of the file if it is
/// editable, and the same make again, in which the recipe and all recipes that it carries, directly
/// or over others, are passed; at its end the file is newer than each file that the recipe writes.
///
/// It is also `None` if the given files, two writings of each file that a recipe writes, and an
/// edit would need more than 18,446,744,073,709,551,615 stamps. The only error is out of memory.
pub fn evidence<'a>(
    alloc: Global,
    subject: &'a Subject<'_>,
    finding: &'a Finding,
) -> Result<Option<Vec<Step<'a>>>, AllocError>
    requires { IsReported subject.now finding.now }
    ensures shown { IfOk result (λ found. MatchOption found
        (IsNotShown subject.entry.now finding.entry.now)
        (λ steps. Shows subject.entry.now finding.entry.now (map step_view steps.items))) }
    ensures numbers { IfOk result (λ found. IfSome found
        (λ steps. HaveSmallNumbers (map step_view steps.items))) }
{
    listed_exactly();
    names_have_one_number();
    let graph = subject.graph();
    match finding {
        Finding::Race { recipe, writer, .. } => {
            let Some(o) = number_of(graph, writer) else {
                return Ok(None);
            };
            let Some(t) = number_of(graph, recipe) else {
                return Ok(None);
            };
            race(alloc, subject, o, t)
        }
        Finding::Stale { recipe, file } => {
            let Some(t) = number_of(graph, recipe) else {
                return Ok(None);
            };
            stale(alloc, subject, t, file.as_str())
        }
        _ => Ok(None),
    }
}
