//! Steps of one recipe in the make in progress.

ghost use Rattle.std.specs.Prelude.{◌≡◌, ◌<◌, length, true, OnOk, OnErr};
ghost use Rattle.mk_lines.specs.Names.{has_name};
ghost use Rattle.mk_build.specs.Steps as model;
ghost use Rattle.mk_build.specs.Setting.{FileName, writes};
ghost use Rattle.mk_graph.specs.Membership.{Has};
ghost use Rattle.mk_world.specs.State.{DiskState, busy, setting};
ghost use Rattle.mk_world.specs.Fits.{Fits};
ghost use Rattle.mk_world.specs.Kept.{IsKept};
ghost use Rattle.mk_world.specs.Steps.{Judges};

use crate::disk::Disk;
use crate::fault::StepFault;
use crate::judging::must_run;
use crate::making::Making;
use crate::progress::RunningRecipe;
use crate::scene::Scene;
use mk_graph_ready::Readiness;
use std::alloc::Global;

/// Begins a recipe. `NotReady` (63) if the node isn't ready or has no recipe; then `NoJobFree` (64)
/// if as many recipes run as there are jobs; or out of memory. An error changes nothing.
pub fn begin(
    alloc: Global,
    scene: &Scene,
    making: &mut Making,
    readiness: &Readiness,
    number: usize,
) -> Result<(), StepFault>
    requires fits { Fits scene.now making.old }
    requires kept { IsKept scene.now making.old readiness.now }
    ensures fits { Fits scene.now making.new }
    ensures err { OnErr result (making.new ≡ making.old) }
    ensures judged { (d : DiskState) → Judges scene.now (busy scene.now making.old d)
        (busy scene.now making.new d) (model.Begin number) result }
{
    let graph = scene.graph();
    if !making.is_ready(readiness, number) {
        return Err(StepFault::NotReady);
    }
    let nodes = graph.nodes();
    let node = &nodes[number];
    if !node.recipe {
        return Err(StepFault::NotReady);
    }
    if !making.has_job() {
        return Err(StepFault::NoJobFree);
    }
    let footprint = scene.footprint(number);
    let run = RunningRecipe::new(
        alloc,
        footprint.reads.as_slice().len(),
        footprint.writes.as_slice().len(),
    )?;
    making.begin(number, run)?;
    Ok(())
}

/// Lets a running recipe read a file. `NotRunning` (66) if it isn't running; then `NotInFootprint`
/// (67) if it isn't recorded to read the file. An error changes nothing.
pub fn look(
    scene: &Scene,
    disk: &Disk,
    making: &mut Making,
    number: usize,
    file: &str,
) -> Result<(), StepFault>
    requires { Fits scene.now making.old }
    ensures fits { Fits scene.now making.new }
    ensures err { OnErr result (making.new ≡ making.old) }
    ensures judged { Judges scene.now (busy scene.now making.old disk.now)
        (busy scene.now making.new disk.now) (model.Look number file.now) result }
{
    if !making.is_running(number) {
        return Err(StepFault::NotRunning);
    }
    let footprint = scene.footprint(number);
    if !making.look(number, &footprint.reads, file, disk.content(file)) {
        return Err(StepFault::NotInFootprint);
    }
    Ok(())
}

/// What a running recipe writes.
#[derive(Clone, Copy)]
pub struct Written<'a> {
    /// The number of its node.
    pub number: usize,
    pub file: &'a str,
    /// The new content.
    pub content: u64,
}

/// Lets a running recipe write a content into a file. `NotRunning` (66) if it isn't running; then
/// `NotInFootprint` (67) if it isn't recorded to write the file; then `ClockSpent` (59) if no stamp
/// is left. An error changes nothing.
pub fn put(
    scene: &Scene,
    disk: &mut Disk,
    making: &mut Making,
    written: &Written<'_>,
) -> Result<(), StepFault>
    requires fits { Fits scene.now making.old }
    requires named { (f : FileName) → Has (writes scene.now.graph (setting scene.now)
        written.now.number) f → has_name disk.old.names f ≡ true }
    ensures fits { Fits scene.now making.new }
    ensures names { disk.new.names ≡ disk.old.names }
    ensures err { OnErr result (making.new ≡ making.old) }
    ensures disk_err { OnErr result (disk.new ≡ disk.old) }
    ensures judged { Judges scene.now (busy scene.now making.old disk.old) (busy scene.now
        making.new disk.new) (model.Put written.now.number written.now.file.now written.now.content)
        result }
{
    if !making.is_running(written.number) {
        return Err(StepFault::NotRunning);
    }
    let footprint = scene.footprint(written.number);
    let file = written.file;
    if !footprint.writes.contains(file) {
        return Err(StepFault::NotInFootprint);
    }
    if !disk.has_stamp() {
        return Err(StepFault::ClockSpent);
    }
    making.put(written.number, &footprint.writes, file, written.content);
    disk.write(file, written.content);
    Ok(())
}

/// Passes a node. `NotReady` (63) if it isn't ready; then `OutOfDate` (65) if it has a recipe that
/// must run; or out of memory. An error changes nothing.
pub fn pass(
    scene: &Scene,
    disk: &Disk,
    making: &mut Making,
    readiness: &Readiness,
    number: usize,
) -> Result<(), StepFault>
    requires fits { Fits scene.now making.old }
    requires kept { IsKept scene.now making.old readiness.now }
    ensures fits { Fits scene.now making.new }
    ensures node { OnOk result (number < length scene.now.graph.nodes) }
    ensures err { OnErr result (making.new ≡ making.old) }
    ensures judged { Judges scene.now (busy scene.now making.old disk.now)
        (busy scene.now making.new disk.now) (model.Pass number) result }
{
    let graph = scene.graph();
    if !making.is_ready(readiness, number) {
        return Err(StepFault::NotReady);
    }
    let nodes = graph.nodes();
    let node = &nodes[number];
    if node.recipe && must_run(graph, disk, number) {
        return Err(StepFault::OutOfDate);
    }
    making.finish(number)?;
    Ok(())
}
