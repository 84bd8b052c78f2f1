//! Lookups of names for writing a plan.

ghost use Rattle.std.specs.Prelude.{◌≡◌, ℕ, List, map, IfOk};
ghost use Rattle.mk_lines.specs.Names.{has_name};
ghost use Rattle.mk_world_plan.specs.PlanText.{is_idle};

use mk_graph::Graph;
use mk_lines::BorrowedNames;
use std::alloc::{AllocError, Global};

/// The names of the nodes without a recipe. The only error is out of memory.
pub fn idle_names<'a>(alloc: Global, graph: &'a Graph) -> Result<BorrowedNames<'a>, AllocError>
    ensures { IfOk result (λ names. (name : List ℕ) →
        has_name names name ≡ is_idle graph.entry.now name) }
{
    let mut names = BorrowedNames::new(alloc);
    for node in graph.nodes() {
        if !node.recipe {
            names.insert(node.name.as_str())?;
        }
    }
    Ok(names)
}

/// These names as a set. The only error is out of memory.
pub fn set_of<'a>(alloc: Global, names: &[&'a str]) -> Result<BorrowedNames<'a>, AllocError>
    ensures { IfOk result (λ set. (name : List ℕ) →
        has_name set name ≡ has_name (map (λ name. name.now) names.now) name) }
{
    let mut set = BorrowedNames::new(alloc);
    for name in names {
        set.insert(*name)?;
    }
    Ok(set)
}
