//! Recipes that break off.

ghost use Rattle.std.specs.Prelude.{◌≡◌, true, false, OnErr};
ghost use Rattle.mk_lines.specs.Names.{has_name};
ghost use Rattle.mk_build.specs.Steps as model;
ghost use Rattle.mk_build.specs.Setting.{FileName, writes};
ghost use Rattle.mk_graph.specs.Membership.{Has};
ghost use Rattle.mk_world.specs.State.{busy, setting};
ghost use Rattle.mk_world.specs.Fits.{Fits};
ghost use Rattle.mk_world.specs.Steps.{Judges};

use crate::disk::Disk;
use crate::fault::StepFault;
use crate::judging::must_run;
use crate::making::Making;
use crate::scene::Scene;

/// Breaks off a running recipe that is recorded to write its target, which is removed. `NotRunning`
/// (66) if it isn't running; then `NotLeftToRun` (78) if it isn't recorded to write its target; or
/// out of memory. An error changes nothing.
pub fn break_and_remove(
    scene: &Scene,
    disk: &mut Disk,
    making: &mut Making,
    number: usize,
) -> Result<(), StepFault>
    requires fits { Fits scene.now making.old }
    requires named { (f : FileName) → Has (writes scene.now.graph (setting scene.now) number) f →
        has_name disk.old.names f ≡ true }
    ensures fits { Fits scene.now making.new }
    ensures names { disk.new.names ≡ disk.old.names }
    ensures err { OnErr result (making.new ≡ making.old) }
    ensures disk_err { OnErr result (disk.new ≡ disk.old) }
    ensures judged { Judges scene.now (busy scene.now making.old disk.old)
        (busy scene.now making.new disk.new) (model.Break number true) result }
{
    if !making.is_running(number) {
        return Err(StepFault::NotRunning);
    }
    let graph = scene.graph();
    let nodes = graph.nodes();
    let node = &nodes[number];
    let target = node.name.as_str();
    let footprint = scene.footprint(number);
    if !footprint.writes.contains(target) {
        return Err(StepFault::NotLeftToRun);
    }
    making.break_off(number)?;
    disk.remove(target);
    Ok(())
}

/// Breaks off a running recipe that must run on the disk as it is. `NotRunning` (66) if it isn't
/// running; then `NotLeftToRun` (78) if it need not run; or out of memory. An error changes
/// nothing.
pub fn break_off(
    scene: &Scene,
    disk: &Disk,
    making: &mut Making,
    number: usize,
) -> Result<(), StepFault>
    requires { Fits scene.now making.old }
    ensures fits { Fits scene.now making.new }
    ensures err { OnErr result (making.new ≡ making.old) }
    ensures judged { Judges scene.now (busy scene.now making.old disk.now)
        (busy scene.now making.new disk.now) (model.Break number false) result }
{
    if !making.is_running(number) {
        return Err(StepFault::NotRunning);
    }
    let graph = scene.graph();
    if !must_run(graph, disk, number) {
        return Err(StepFault::NotLeftToRun);
    }
    making.break_off(number)?;
    Ok(())
}
