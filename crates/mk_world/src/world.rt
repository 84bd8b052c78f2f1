//! The world in which steps are taken.

ghost use Rattle.std.specs.Prelude.{◌≡◌, ◌<◌, length, map, true, false, IfOk, None};
ghost use Rattle.std.specs.String.{string_bytes};
ghost use Rattle.mk_build.specs.Steps as model;
ghost use Rattle.mk_build.specs.Setting.{reads, writes};
ghost use Rattle.mk_build.specs.SerialMake.{rest_of_run, whole_run};
ghost use Rattle.mk_world.specs.NamedStep.{step_view};
ghost use Rattle.mk_world.specs.State.{disk_of, number_of, setting};
ghost use Rattle.mk_world.specs.First.{AreNamesOf, AreSorted};
ghost use Rattle.mk_world.specs.Listing.{listing};
ghost use Rattle.mk_world.specs.Steps.{Answers, IsFirstOf, MayTake, MayTakeAll, TakesAllowed, step_of};
ghost use Rattle.mk_world.specs.Running.{AnswersInTurn, PassesIdle, TakesAllAllowed, contents_of, finish_steps, is_node, new_stamp};
ghost use Rattle.mk_lines.specs.Names.{has_name};

use crate::disk::Disk;
use crate::fault::{StepFault, is_memory};
use crate::file::Listed;
use crate::first::names_of;
use crate::laws::allowed_where_all_holds;
use crate::making::Making;
use crate::names::goals_of;
use crate::places::Places;
use crate::scene::Scene;
use crate::step::Step;
use crate::{breaking, ending, finishing, passing, recipes};
use mk_foot::Setting;
use mk_graph::Graph;
use mk_graph_ready::Readiness;
use std::alloc::{AllocError, Global};
use std::marker::Model;

/// A world: its files with their stamps, the known outcomes, and the make in progress, if there is
/// one. Contracts see its parts as lists; `specs.State` maps them to the world of mk_build.
#[derive(Drop)]
pub struct World<'a> {
    alloc: Global,
    scene: Scene<'a>,
    places: Places,
    disk: Disk<'a>,
    make: Option<Making>,
    readiness: Readiness<'a>,
}

impl<'a> Model for World<'a> {
    ghost use Rattle.mk_world.specs.State as state;
    ghost use Rattle.mk_world.specs.First.{AreNamesOf};
    ghost use Rattle.mk_world.specs.Fits.{FitsIn};
    ghost use Rattle.mk_world.specs.Kept.{IsKeptIn};
    ghost use Rattle.mk_world.specs.Places.{ArePlaces};

    ghost Value = { state.State };

    ghost view = { λ w. record { scene = w.scene; disk = w.disk; make = w.make } };

    ghost invariant = { λ w.
        FitsIn w.scene w.make × AreNamesOf w.scene w.disk.names ×
        IsKeptIn w.scene w.make w.readiness × ArePlaces w.scene w.disk.names w.places };
}

/// A world with this scene and disk, and no make in progress. The only error is out of memory.
fn in_scene<'a>(alloc: Global, scene: Scene<'a>, disk: Disk<'a>) -> Result<World<'a>, AllocError>
    requires { AreNamesOf scene disk.names }
    ensures scene { IfOk result (λ w. w.scene ≡ scene.entry) }
    ensures disk { IfOk result (λ w. w.disk ≡ disk.entry) }
    ensures idle { IfOk result (λ w. w.make ≡ None) }
{
    let readiness = Readiness::new(alloc, scene.graph())?;
    let places = Places::new(alloc, &scene, &disk)?;
    Ok(World {
        alloc,
        scene,
        places,
        disk,
        make: None,
        readiness,
    })
}

impl<'a> World<'a> {
    /// The first world of a graph and recorded inputs, with no make in progress. The only error is
    /// out of memory.
    ///
    /// Its names are those of nodes and sources, and of the files that recipes of the graph read or
    /// write. Exactly the given files exist. In the order of their bytes the first has content and
    /// stamp 1, the next 2, and so on.
    pub fn new(
        alloc: Global,
        graph: &'a Graph,
        setting: &'a Setting,
    ) -> Result<World<'a>, AllocError>
        ensures { IfOk result (λ w. IsFirstOf graph.entry.now setting.entry.now w) }
    {
        let names = names_of(alloc, graph, setting)?;
        let disk = Disk::first(alloc, setting, names)?;
        let scene = Scene::new(alloc, graph, setting)?;
        let world = in_scene(alloc, scene, disk)?;
        Ok(world)
    }

    /// The files that exist, by the bytes of their names. The only error is out of memory.
    pub fn files(&self) -> Result<Vec<Listed>, AllocError>
        ensures listed { IfOk result (λ files. files.items ≡ listing self.now.disk) }
        ensures ascending { IfOk result (λ files. AreSorted (map (λ file. file.name) files.items)) }
    {
        self.disk.files(self.alloc)
    }

    /// Takes a step, if it is allowed. Otherwise returns the fault of the first test that fails, or
    /// out of memory, and nothing changes. The tests, in order:
    ///
    /// - Edit: `MakeRuns` (62) if a make is in progress; `NotEditable` (70); `ClockSpent` (59) if
    ///   no stamp is left.
    /// - Make: `MakeRuns` (62) if a make is in progress; `NoJobFree` (64) if it has no jobs;
    ///   `NotAGoal` (77) if it has no goals or one that isn't a goal of the graph.
    /// - Every other step: `NoMake` (61) if no make is in progress.
    /// - Begin: `NotReady` (63) if the node isn't ready or has no recipe; `NoJobFree` (64).
    /// - Look: `NotRunning` (66); `NotInFootprint` (67) if the recipe doesn't read the file.
    /// - Put: `NotRunning` (66); `NotInFootprint` (67) if the recipe doesn't write the file;
    ///   `ClockSpent` (59).
    /// - End: `NotRunning` (66); `NotAllDone` (68) if it hasn't read and written all its files;
    ///   `OtherOutcome` (60) if it has read the same before and wrote something else.
    /// - Break: `NotRunning` (66); `NotLeftToRun` (78) if the recipe would not have to run then:
    /// its
    ///   target isn't removed and it need not run, or it doesn't write the target that is removed.
    /// - Pass: `NotReady` (63); `OutOfDate` (65) if the node has a recipe that must run.
    /// - Stop: `NotAllDone` (68) if a recipe runs.
    /// - EndMake: `NotAllDone` (68) if a goal isn't done or a recipe runs.
    pub fn step(&mut self, step: Step<'_>) -> Result<(), StepFault>
        ensures { Answers self.old self.new
            (step_of self.old.scene.graph (step_view step.entry)) result }
    {
        self.ask(&step)
    }

    /// Takes a step that the caller guarantees to be allowed. The only error is out of memory,
    /// which changes nothing.
    pub fn take_allowed(&mut self, step: &Step<'_>) -> Result<(), AllocError>
        requires { MayTake self.old (step_of self.old.scene.graph (step_view step.now)) }
        ensures { TakesAllowed self.old self.new
            (step_of self.old.scene.graph (step_view step.now)) result }
    {
        allowed_where_all_holds();
        match self.ask(step) {
            Err(StepFault::Memory) => Err(AllocError),
            _ => Ok(()),
        }
    }

    /// Runs the recipe of a node whole: it begins, reads all its files, writes these contents into
    /// those that it writes, and ends. The caller guarantees that each step is allowed. The only
    /// error is out of memory; the steps taken before it remain.
    pub fn run_allowed(&mut self, number: usize, contents: &[u64]) -> Result<(), AllocError>
        requires node { number < length self.old.scene.graph.nodes }
        requires allowed { MayTakeAll self.old (whole_run self.old.scene.graph
            (setting self.old.scene) number contents.now) }
        ensures { TakesAllAllowed self.old self.new (whole_run self.old.scene.graph
            (setting self.old.scene) number contents.now) result }
    {
        match self.run_with(number, contents) {
            Ok(()) => Ok(()),
            Err(fault) => {
                if is_memory(&fault) {
                    return Err(AllocError);
                }
                Ok(())
            }
        }
    }

    /// Takes a step as `step` does, without consuming it.
    fn ask(&mut self, step: &Step<'_>) -> Result<(), StepFault>
        ensures { Answers self.old self.new
            (step_of self.old.scene.graph (step_view step.now)) result }
    {
        match step {
            Step::Edit { file, content } => self.edit(file, *content),
            Step::Make { jobs, goals } => self.start(*jobs, goals.as_slice()),
            Step::Begin { node } => self.begin(node),
            Step::Look { node, file } => self.look(node, file),
            Step::Put {
                node,
                file,
                content,
            } => self.put(node, file, *content),
            Step::End { node } => self.end(node),
            Step::Break { node, removed } => self.break_off(node, *removed),
            Step::Pass { node } => self.pass(node),
            Step::Stop => self.stop(),
            Step::EndMake => self.end_make(),
        }
    }

    /// The last stamp that was given out. Before the first step it is the number of given files.
    pub fn clock(&self) -> u64
        ensures { result ≡ self.now.disk.clock }
    {
        self.disk.clock()
    }

    /// What `finish` writes for a recipe: the known outcome for what its reads contain now, or, if
    /// none is known, the new stamps. The only error is out of memory.
    pub fn contents_for(&self, number: usize) -> Result<Vec<u64>, AllocError>
        requires { number < length self.now.scene.graph.nodes }
        ensures { IfOk result (λ contents. contents.items ≡
            contents_of self.now.scene.graph (setting self.now.scene) (disk_of self.now.disk)
            number) }
    {
        finishing::contents_of(self.alloc, &self.scene, &self.places, &self.disk, number)
    }

    /// The files that the recipe of a node reads, and those that it writes. It allocates nothing.
    pub fn files_of(&self, number: usize) -> (&'a [String], &'a [String])
        requires { number < length self.now.scene.graph.nodes }
        ensures reads { map string_bytes result.0.now ≡
            reads self.now.scene.graph (setting self.now.scene) number }
        ensures writes { map string_bytes result.1.now ≡
            writes self.now.scene.graph (setting self.now.scene) number }
    {
        let footprint = self.scene.footprint(number);
        (footprint.reads.as_slice(), footprint.writes.as_slice())
    }

    /// Edits a source. Errors are those of `step` for this step.
    pub(crate) fn edit(&mut self, file: &str, content: u64) -> Result<(), StepFault>
        ensures { Answers self.old self.new (model.Edit file.now content) result }
    {
        if self.make.is_some() {
            return Err(StepFault::MakeRuns);
        }
        if !self.scene.is_editable(file) {
            return Err(StepFault::NotEditable);
        }
        if !self.disk.has_stamp() {
            return Err(StepFault::ClockSpent);
        }
        self.disk.write(file, content);
        Ok(())
    }

    /// Begins a make. Errors are those of `step` for this step.
    pub(crate) fn start(&mut self, jobs: usize, goals: &[&str]) -> Result<(), StepFault>
        ensures { Answers self.old self.new (model.Make jobs
            (map (number_of self.old.scene.graph) (map (λ goal. goal.now) goals.now))) result }
    {
        if self.make.is_some() {
            return Err(StepFault::MakeRuns);
        }
        if jobs == 0 {
            return Err(StepFault::NoJobFree);
        }
        let graph = self.scene.graph();
        let Some(numbers) = goals_of(self.alloc, &self.scene, goals)? else {
            return Err(StepFault::NotAGoal);
        };
        let many = graph.nodes().len();
        self.readiness.start(self.alloc, &numbers)?;
        self.make = Some(Making::new(self.alloc, jobs, numbers, many)?);
        Ok(())
    }

    /// Begins a recipe. Errors are those of `step` for this step.
    pub(crate) fn begin(&mut self, node: &str) -> Result<(), StepFault>
        ensures { Answers self.old self.new
            (model.Begin (number_of self.old.scene.graph node.now)) result }
    {
        let number = self.scene.number(node);
        self.begin_number(number)
    }

    /// Begins the recipe of the node with this number.
    fn begin_number(&mut self, number: usize) -> Result<(), StepFault>
        ensures { Answers self.old self.new (model.Begin number) result }
    {
        let Some(making) = &mut self.make else {
            return Err(StepFault::NoMake);
        };
        recipes::begin(self.alloc, &self.scene, making, &self.readiness, number)
    }

    /// Lets a running recipe read a file. Errors are those of `step` for this step.
    pub(crate) fn look(&mut self, node: &str, file: &str) -> Result<(), StepFault>
        ensures { Answers self.old self.new
            (model.Look (number_of self.old.scene.graph node.now) file.now) result }
    {
        let Some(making) = &mut self.make else {
            return Err(StepFault::NoMake);
        };
        let number = self.scene.number(node);
        recipes::look(&self.scene, &self.disk, making, number, file)
    }

    /// Lets a running recipe write a content into a file. Errors are those of `step` for this step.
    pub(crate) fn put(&mut self, node: &str, file: &str, content: u64) -> Result<(), StepFault>
        ensures { Answers self.old self.new
            (model.Put (number_of self.old.scene.graph node.now) file.now content) result }
    {
        let Some(making) = &mut self.make else {
            return Err(StepFault::NoMake);
        };
        let number = self.scene.number(node);
        let written = recipes::Written {
            number,
            file: &*file,
            content,
        };
        recipes::put(&self.scene, &mut self.disk, making, &written)
    }

    /// Ends a running recipe. Errors are those of `step` for this step.
    pub(crate) fn end(&mut self, node: &str) -> Result<(), StepFault>
        ensures { Answers self.old self.new
            (model.End (number_of self.old.scene.graph node.now)) result }
    {
        let Some(making) = &mut self.make else {
            return Err(StepFault::NoMake);
        };
        let number = self.scene.number(node);
        ending::end(self.alloc, &self.scene, &mut self.disk, making, number)?;
        self.readiness.mark_done(number);
        Ok(())
    }

    /// Breaks off a running recipe. Errors are those of `step` for this step.
    pub(crate) fn break_off(&mut self, node: &str, removed: bool) -> Result<(), StepFault>
        ensures { Answers self.old self.new
            (model.Break (number_of self.old.scene.graph node.now) removed) result }
    {
        let number = self.scene.number(node);
        if removed {
            self.break_and_remove(number)
        } else {
            self.break_only(number)
        }
    }

    /// Breaks off the running recipe of the node with this number, and removes its target.
    fn break_and_remove(&mut self, number: usize) -> Result<(), StepFault>
        ensures { Answers self.old self.new (model.Break number true) result }
    {
        let Some(making) = &mut self.make else {
            return Err(StepFault::NoMake);
        };
        breaking::break_and_remove(&self.scene, &mut self.disk, making, number)
    }

    /// Breaks off the running recipe of the node with this number.
    fn break_only(&mut self, number: usize) -> Result<(), StepFault>
        ensures { Answers self.old self.new (model.Break number false) result }
    {
        let Some(making) = &mut self.make else {
            return Err(StepFault::NoMake);
        };
        breaking::break_off(&self.scene, &self.disk, making, number)
    }

    /// Passes a node. Errors are those of `step` for this step.
    pub(crate) fn pass(&mut self, node: &str) -> Result<(), StepFault>
        ensures { Answers self.old self.new
            (model.Pass (number_of self.old.scene.graph node.now)) result }
    {
        let Some(making) = &mut self.make else {
            return Err(StepFault::NoMake);
        };
        let number = self.scene.number(node);
        recipes::pass(&self.scene, &self.disk, making, &self.readiness, number)?;
        self.readiness.mark_done(number);
        Ok(())
    }

    /// Gives up the make. Errors are those of `step` for this step.
    pub(crate) fn stop(&mut self) -> Result<(), StepFault>
        ensures { Answers self.old self.new model.Stop result }
    {
        let Some(making) = &self.make else {
            return Err(StepFault::NoMake);
        };
        if !making.is_quiet() {
            return Err(StepFault::NotAllDone);
        }
        self.make = None;
        Ok(())
    }

    /// Ends the make. Errors are those of `step` for this step.
    pub(crate) fn end_make(&mut self) -> Result<(), StepFault>
        ensures { Answers self.old self.new model.EndMake result }
    {
        let Some(making) = &self.make else {
            return Err(StepFault::NoMake);
        };
        if !(making.has_goals() && making.is_quiet()) {
            return Err(StepFault::NotAllDone);
        }
        self.make = None;
        Ok(())
    }

    /// Begins a make of all goals. Errors are those of `step` for this step.
    pub(crate) fn start_all(&mut self, jobs: usize) -> Result<(), StepFault>
        ensures { Answers self.old self.new
            (model.Make jobs self.old.scene.graph.goals) result }
    {
        if self.make.is_some() {
            return Err(StepFault::MakeRuns);
        }
        if jobs < 1 {
            return Err(StepFault::NoJobFree);
        }
        let graph = self.scene.graph();
        if graph.goals().is_empty() {
            return Err(StepFault::NotAGoal);
        }
        let goals = Vec::from_slice(self.alloc, graph.goals())?;
        let many = graph.nodes().len();
        self.readiness.start(self.alloc, &goals)?;
        self.make = Some(Making::new(self.alloc, jobs, goals, many)?);
        Ok(())
    }

    /// Finishes a running recipe: it reads all its files, writes all its files, and ends. An error
    /// is that of the first step that is refused; the steps before it remain.
    pub(crate) fn finish(&mut self, node: &str) -> Result<(), StepFault>
        requires { is_node self.old.scene.graph node.now ≡ true }
        ensures { AnswersInTurn self.old self.new (finish_steps self.old node.now) result }
    {
        let Some(making) = &mut self.make else {
            return Err(StepFault::NoMake);
        };
        let number = self.scene.number(node);
        let placed = finishing::PlacedScene {
            alloc: self.alloc,
            scene: &self.scene,
            places: &self.places,
        };
        finishing::finish(&placed, &mut self.disk, making, number)?;
        self.readiness.mark_done(number);
        Ok(())
    }

    /// Finishes a running recipe, which writes these contents.
    fn finish_with(&mut self, number: usize, contents: &[u64]) -> Result<(), StepFault>
        requires { number < length self.old.scene.graph.nodes }
        ensures { AnswersInTurn self.old self.new (rest_of_run self.old.scene.graph
            (setting self.old.scene) number contents.now) result }
    {
        let Some(making) = &mut self.make else {
            return Err(StepFault::NoMake);
        };
        let placed = finishing::PlacedScene {
            alloc: self.alloc,
            scene: &self.scene,
            places: &self.places,
        };
        finishing::finish_with(&placed, &mut self.disk, making, number, contents)?;
        self.readiness.mark_done(number);
        Ok(())
    }

    /// Runs a recipe whole, which writes these contents.
    fn run_with(&mut self, number: usize, contents: &[u64]) -> Result<(), StepFault>
        requires { number < length self.old.scene.graph.nodes }
        ensures { AnswersInTurn self.old self.new (whole_run self.old.scene.graph
            (setting self.old.scene) number contents.now) result }
    {
        self.begin_number(number)?;
        self.finish_with(number, contents)
    }

    /// Passes all ready nodes without a recipe, if a make is in progress. The only error is out of
    /// memory; the nodes passed before it stay done.
    pub(crate) fn pass_idle(&mut self) -> Result<(), AllocError>
        ensures { PassesIdle self.old self.new result }
    {
        let Some(making) = &mut self.make else {
            return Ok(());
        };
        passing::pass_idle(&self.scene, making, &mut self.readiness)
    }

    /// Whether a node has this name.
    pub(crate) fn has_node(&self, name: &str) -> bool
        ensures { result ≡ is_node self.now.scene.graph name.now }
    {
        self.scene.has_node(name)
    }

    /// Whether the name belongs to the world.
    pub(crate) fn has_file(&self, name: &str) -> bool
        ensures { result ≡ has_name self.now.disk.names name.now }
    {
        self.disk.has(name)
    }

    /// The next stamp, or the last one if there is no further stamp.
    pub(crate) fn new_stamp(&self) -> u64
        ensures { result ≡ new_stamp self.now.disk.clock }
    {
        self.disk.clock().saturating_add(1)
    }
}
