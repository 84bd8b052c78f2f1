//! The numbers of goals by their names.

ghost use Rattle.std.specs.Prelude.{◌≡◌, map, IfOk, MatchOption};
ghost use Rattle.mk_graph.specs.Schedules.{IsPart};
ghost use Rattle.mk_world.specs.State.{number_of};

use crate::scene::Scene;
use mk_graph::NodeSet;
use std::alloc::{AllocError, Global};

/// The numbers of the nodes with these names. The only error is out of memory.
fn numbers_of(alloc: Global, scene: &Scene, names: &[&str]) -> Result<Vec<usize>, AllocError>
    ensures { IfOk result (λ numbers. numbers.items ≡
        map (number_of scene.now.graph) (map (λ name. name.now) names.now)) }
{
    let mut numbers = Vec::with_capacity(alloc, names.len())?;
    for name in names {
        numbers.push(scene.number(name))?;
    }
    Ok(numbers)
}

/// The numbers of these names, or `None` if there are no names or one isn't a goal of the graph.
/// The only error is out of memory.
pub fn goals_of(
    alloc: Global,
    scene: &Scene,
    names: &[&str],
) -> Result<Option<Vec<usize>>, AllocError>
    ensures { IfOk result (λ found. MatchOption found
        (¬ (IsPart (map (number_of scene.now.graph) (map (λ name. name.now) names.now))
        scene.now.graph.goals)) (λ numbers. (numbers.items ≡
        map (number_of scene.now.graph) (map (λ name. name.now) names.now)) ×
        IsPart numbers.items scene.now.graph.goals)) }
{
    if names.is_empty() {
        return Ok(None);
    }
    let mut goals = NodeSet::new();
    goals.insert_all(scene.graph().goals());
    let numbers = numbers_of(alloc, scene, names)?;
    if !goals.has_all(&numbers) {
        return Ok(None);
    }
    Ok(Some(numbers))
}
