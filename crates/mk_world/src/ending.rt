//! The end of a recipe.

ghost use Rattle.std.specs.Prelude.{◌≡◌, ◌<◌, ◌⊎◌, length, map, Some, None, IfOk, OnOk, OnErr, MatchOption};
ghost use Rattle.mk_graph.specs.Membership.{Has};
ghost use Rattle.mk_build.specs.Setting.{FileName};
ghost use Rattle.mk_build.specs.Steps as model;
ghost use Rattle.mk_world.specs.Tables.{look};
ghost use Rattle.mk_world.specs.State.{busy};
ghost use Rattle.mk_world.specs.Fits.{Fits, HasSeen};
ghost use Rattle.mk_world.specs.Steps.{Judges};

use crate::disk::Disk;
use crate::fault::StepFault;
use crate::lent::{LentNames, get};
use crate::making::Making;
use crate::outcomes::Sight;
use crate::scene::Scene;
use std::alloc::{AllocError, Global};

/// The values of all names, or `None` if a name has no value. The only error is out of memory.
fn all_of<T: Copy + Drop>(
    alloc: Global,
    names: &LentNames<'_>,
    values: &[Option<T>],
) -> Result<Option<Vec<T>>, AllocError>
    requires { length values.now ≡ length names.now }
    ensures { IfOk result (λ found. MatchOption found
        ((f : FileName) × Has names.now f × (look names.now values.now f ≡ None))
        (λ all. map (look names.now values.now) names.now ≡ map (λ x. Some x) all.items)) }
{
    let mut all = Vec::with_capacity(alloc, values.len())?;
    for name in names.as_slice() {
        match get(names, values, name.as_str()) {
            Some(value) => all.push(value)?,
            None => return Ok(None),
        }
    }
    Ok(Some(all))
}

/// Ends a running recipe that has read this. `NotAllDone` (68) if it hasn't written all its files;
/// then `OtherOutcome` (60) if it is known to write something else after reading this; or out of
/// memory. An error changes nothing.
pub fn end_seeing(
    alloc: Global,
    scene: &Scene,
    disk: &mut Disk,
    making: &mut Making,
    sight: Sight,
) -> Result<(), StepFault>
    requires fits { Fits scene.now making.old }
    requires runs { Has making.old.running sight.recipe }
    requires seen { HasSeen scene.now making.old sight.recipe sight.seen.items }
    ensures fits { Fits scene.now making.new }
    ensures names { disk.new.names ≡ disk.old.names }
    ensures err { OnErr result (making.new ≡ making.old) }
    ensures disk_err { OnErr result (disk.new ≡ disk.old) }
    ensures judged { Judges scene.now (busy scene.now making.old disk.old)
        (busy scene.now making.new disk.new) (model.End sight.recipe) result }
{
    let footprint = scene.footprint(sight.recipe);
    let run = making.run(sight.recipe);
    let Some(written) = all_of(alloc, &footprint.writes, run.puts())? else {
        return Err(StepFault::NotAllDone);
    };
    if !disk.agrees(&sight, &written) {
        return Err(StepFault::OtherOutcome);
    }
    disk.end(sight, written, making)?;
    Ok(())
}

/// Ends a running recipe. `NotRunning` (66) if it isn't running; then `NotAllDone` (68) if it
/// hasn't read and written all its files; then `OtherOutcome` (60) if it is known to write
/// something else after reading this; or out of memory. An error changes nothing.
pub fn end(
    alloc: Global,
    scene: &Scene,
    disk: &mut Disk,
    making: &mut Making,
    number: usize,
) -> Result<(), StepFault>
    requires { Fits scene.now making.old }
    ensures fits { Fits scene.now making.new }
    ensures names { disk.new.names ≡ disk.old.names }
    ensures err { OnErr result (making.new ≡ making.old) }
    ensures disk_err { OnErr result (disk.new ≡ disk.old) }
    ensures judged { Judges scene.now (busy scene.now making.old disk.old)
        (busy scene.now making.new disk.new) (model.End number) result }
{
    if !making.is_running(number) {
        return Err(StepFault::NotRunning);
    }
    let footprint = scene.footprint(number);
    let run = making.run(number);
    let Some(seen) = all_of(alloc, &footprint.reads, run.looks())? else {
        return Err(StepFault::NotAllDone);
    };
    let sight = Sight {
        recipe: number,
        seen,
    };
    end_seeing(alloc, scene, disk, making, sight)
}
