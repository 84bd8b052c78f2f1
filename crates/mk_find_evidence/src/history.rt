//! Builds a schedule step by step, from the first world.

ghost use Rattle.std.specs.Prelude.{◌≡◌, ◌∷◌, ◌<◌, ◌+◌, [], length, map, true, IfOk, OnOk};
ghost use Rattle.std.specs.String.{string_bytes};
ghost use Rattle.mk_graph.specs.Graph.{IsGraph, node};
ghost use Rattle.mk_build.specs.Steps as model;
ghost use Rattle.mk_build.specs.Setting.{name};
ghost use Rattle.mk_build.specs.SerialMake.{puts, whole_run};
ghost use Rattle.mk_build.specs.World.{last_stamp};
ghost use Rattle.mk_world.specs.NamedStep.{step_view};
ghost use Rattle.mk_world.specs.Running.{contents_of};
ghost use Rattle.mk_world.specs.State.{disk_of, number_of, setting};
ghost use Rattle.mk_world.specs.Steps.{IsFirstOf, step_of};
ghost use Rattle.mk_find_evidence.specs.Histories.{GoesOn, MayGoOn, Notes, looks_and_puts, puts_in};
ghost use Rattle.mk_find_evidence.specs.Numbers.{HasSmallNumbers, HaveSmallNumbers};

use mk_foot::Setting;
use mk_graph::{Graph, Node};
use mk_world::laws::whole_runs_agree;
use mk_world::{Step, World};
use std::alloc::{AllocError, Global};
use std::marker::Model;

/// The steps taken from the first world of a graph and its footprints, and the world that they lead
/// to. Its model is that world and the list of steps.
#[derive(Drop)]
pub struct History<'a> {
    alloc: Global,
    graph: &'a Graph,
    world: World<'a>,
    steps: Vec<Step<'a>>,
}

impl<'a> Model for History<'a> {
    ghost use Rattle.std.specs.Prelude.{◌≡◌, map};
    ghost use Rattle.mk_world.specs.NamedStep.{step_view};
    ghost use Rattle.mk_find_evidence.specs.Histories as value;
    ghost use Rattle.mk_find_evidence.specs.Numbers.{HaveSmallNumbers};

    ghost Value = { value.History };

    ghost view = { λ h. record { world = h.world; steps = map step_view h.steps.items } };

    ghost invariant = { λ h.
        (h.world.scene.graph ≡ h.graph.now) ×
        HaveSmallNumbers (map step_view h.steps.items) };
}

impl<'a> History<'a> {
    /// No steps, in the first world. The only error is out of memory.
    pub fn new(
        alloc: Global,
        graph: &'a Graph,
        setting: &'a Setting,
    ) -> Result<History<'a>, AllocError>
        ensures first { IfOk result (λ h. IsFirstOf graph.entry.now setting.entry.now h.world) }
        ensures steps { IfOk result (λ h. h.steps ≡ []) }
    {
        Ok(History {
            alloc,
            graph,
            world: World::new(alloc, graph, setting)?,
            steps: Vec::new(alloc),
        })
    }

    /// The steps.
    pub fn into_steps(self) -> Vec<Step<'a>>
        ensures steps { map step_view result.items ≡ self.entry.steps }
        ensures numbers { HaveSmallNumbers (map step_view result.items) }
    {
        self.steps
    }

    /// The last stamp that was used.
    pub fn clock(&self) -> u64
        ensures { result ≡ self.now.world.disk.clock }
    {
        self.world.clock()
    }

    /// Appends a step without taking it.
    fn note(&mut self, step: Step<'a>) -> Result<(), AllocError>
        requires { HasSmallNumbers (step_view step) }
        ensures { OnOk result (Notes self.old self.new
            (step_of self.old.world.scene.graph (step_view step.entry) ∷ [])) }
    {
        self.steps.push(step)?;
        Ok(())
    }

    /// Takes a step that is allowed, and appends it.
    fn take(&mut self, step: Step<'a>) -> Result<(), AllocError>
        requires numbers { HasSmallNumbers (step_view step) }
        requires legal { MayGoOn self.old
            (step_of self.old.world.scene.graph (step_view step) ∷ []) }
        ensures { OnOk result (GoesOn self.old self.new
            (step_of self.old.world.scene.graph (step_view step.entry) ∷ [])) }
    {
        self.world.take_allowed(&step)?;
        self.note(step)?;
        Ok(())
    }

    fn node(&self, number: usize) -> &'a Node
        requires { number < length self.now.world.scene.graph.nodes }
        ensures value { result.now ≡ node self.now.world.scene.graph number }
        ensures graph { IsGraph self.now.world.scene.graph }
    {
        let nodes = self.graph.nodes();
        &nodes[number]
    }

    /// The name of a node.
    fn name_of(&self, number: usize) -> &'a str
        requires { number < length self.now.world.scene.graph.nodes }
        ensures { number_of self.now.world.scene.graph result.now ≡ number }
    {
        let node = self.node(number);
        node.name.as_str()
    }

    /// The names of all goals, in their order.
    fn goals(&self) -> Result<Vec<&'a str>, AllocError>
        ensures { IfOk result (λ goals. map (number_of self.now.world.scene.graph)
            (map (λ goal. goal.now) goals.items) ≡ self.now.world.scene.graph.goals) }
    {
        let goals = self.graph.goals();
        let mut names = Vec::with_capacity(self.alloc, goals.len())?;
        for goal in goals {
            names.push(self.name_of(*goal))?;
        }
        Ok(names)
    }

    /// Starts a make of all goals with one job. This and the other public steps must be legal in
    /// the current world; their only error is out of memory, after which the world and the list of
    /// steps need not agree.
    pub fn start(&mut self) -> Result<(), AllocError>
        requires { MayGoOn self.old (model.Make 1 self.old.world.scene.graph.goals ∷ []) }
        ensures { OnOk result (GoesOn self.old self.new
            (model.Make 1 self.old.world.scene.graph.goals ∷ [])) }
    {
        let goals = self.goals()?;
        self.take(Step::Make { jobs: 1, goals })
    }

    /// Ends the make.
    pub fn end_make(&mut self) -> Result<(), AllocError>
        requires { MayGoOn self.old (model.EndMake ∷ []) }
        ensures { OnOk result (GoesOn self.old self.new (model.EndMake ∷ [])) }
    {
        self.take(Step::EndMake)
    }

    /// Edits a file; its content is its new stamp.
    pub fn edit(&mut self, file: &'a str) -> Result<(), AllocError>
        requires stamp { self.old.world.disk.clock < last_stamp }
        requires legal { MayGoOn self.old
            (model.Edit file.now (self.old.world.disk.clock + 1) ∷ []) }
        ensures { OnOk result (GoesOn self.old self.new
            (model.Edit file.entry.now (self.old.world.disk.clock + 1) ∷ [])) }
    {
        let content = self.clock() + 1;
        self.take(Step::Edit { file, content })
    }

    /// Passes a node.
    pub fn pass(&mut self, number: usize) -> Result<(), AllocError>
        requires node { number < length self.old.world.scene.graph.nodes }
        requires legal { MayGoOn self.old (model.Pass number ∷ []) }
        ensures { OnOk result (GoesOn self.old self.new (model.Pass number ∷ [])) }
    {
        let node = self.name_of(number);
        self.take(Step::Pass { node })
    }

    /// Begins a recipe.
    pub fn begin(&mut self, number: usize) -> Result<(), AllocError>
        requires node { number < length self.old.world.scene.graph.nodes }
        requires legal { MayGoOn self.old (model.Begin number ∷ []) }
        ensures { OnOk result (GoesOn self.old self.new (model.Begin number ∷ [])) }
    {
        let node = self.name_of(number);
        self.take(Step::Begin { node })
    }

    /// Appends the begin of a recipe.
    fn push_begin(&mut self, number: usize) -> Result<(), AllocError>
        requires { number < length self.old.world.scene.graph.nodes }
        ensures { OnOk result (Notes self.old self.new (model.Begin number ∷ [])) }
    {
        let node = self.name_of(number);
        self.note(Step::Begin { node })
    }

    /// Appends a recipe's look at a file.
    fn push_look(&mut self, number: usize, file: &'a str) -> Result<(), AllocError>
        requires { number < length self.old.world.scene.graph.nodes }
        ensures { OnOk result (Notes self.old self.new (model.Look number file.entry.now ∷ [])) }
    {
        let node = self.name_of(number);
        self.note(Step::Look { node, file })
    }

    /// Appends a recipe's writing of a content to a file.
    fn push_put(&mut self, number: usize, file: &'a str, content: u64) -> Result<(), AllocError>
        requires { number < length self.old.world.scene.graph.nodes }
        ensures { OnOk result (Notes self.old self.new
            (model.Put number file.entry.now content ∷ [])) }
    {
        let node = self.name_of(number);
        self.note(Step::Put {
            node,
            file,
            content,
        })
    }

    /// Appends the end of a recipe.
    fn push_end(&mut self, number: usize) -> Result<(), AllocError>
        requires { number < length self.old.world.scene.graph.nodes }
        ensures { OnOk result (Notes self.old self.new (model.End number ∷ [])) }
    {
        let node = self.name_of(number);
        self.note(Step::End { node })
    }

    /// Appends a recipe's looks at these files.
    fn push_looks(&mut self, number: usize, files: &'a [String]) -> Result<(), AllocError>
        requires { number < length self.old.world.scene.graph.nodes }
        ensures { OnOk result (Notes self.old self.new
            (map (λ f. model.Look number f) (map string_bytes files.entry.now))) }
    {
        for file in files {
            self.push_look(number, file.as_str())?;
        }
        Ok(())
    }

    /// Appends a recipe's writings of these contents to these files.
    fn push_puts(
        &mut self,
        number: usize,
        files: &'a [String],
        contents: &[u64],
    ) -> Result<(), AllocError>
        requires { number < length self.old.world.scene.graph.nodes }
        ensures { OnOk result (Notes self.old self.new
            (puts number (map string_bytes files.entry.now) contents.now)) }
    {
        let mut rest = contents;
        for file in files {
            let [content, after @ ..] = rest else {
                return Ok(());
            };
            rest = after;
            self.push_put(number, file.as_str(), *content)?;
        }
        Ok(())
    }

    /// Appends a recipe's looks at all files that it reads, and its writings of these contents to
    /// all files that it writes.
    fn push_files(&mut self, number: usize, contents: &[u64]) -> Result<(), AllocError>
        requires { number < length self.old.world.scene.graph.nodes }
        ensures { OnOk result (Notes self.old self.new
            (looks_and_puts self.old number contents.now)) }
    {
        let (reads, writes) = self.world.files_of(number);
        self.push_looks(number, reads)?;
        self.push_puts(number, writes, contents)?;
        Ok(())
    }

    /// Appends a whole run of a recipe that writes these contents.
    fn push_run(&mut self, number: usize, contents: &[u64]) -> Result<(), AllocError>
        requires { number < length self.old.world.scene.graph.nodes }
        ensures { OnOk result (Notes self.old self.new (whole_run self.old.world.scene.graph
            (setting self.old.world.scene) number contents.now)) }
    {
        self.push_begin(number)?;
        self.push_files(number, contents)?;
        self.push_end(number)?;
        Ok(())
    }

    /// Runs a recipe as a whole: it begins, looks at all files that it reads, writes all files that
    /// it writes, and ends. The contents are those of an earlier run that saw the same, else the
    /// new stamps.
    pub fn run(&mut self, number: usize) -> Result<(), AllocError>
        requires node { number < length self.old.world.scene.graph.nodes }
        requires legal { MayGoOn self.old (whole_run self.old.world.scene.graph
            (setting self.old.world.scene) number (puts_in self.old number)) }
        ensures { OnOk result (GoesOn self.old self.new (whole_run self.old.world.scene.graph
            (setting self.old.world.scene) number (puts_in self.old number))) }
    {
        whole_runs_agree();
        let contents = self.world.contents_for(number)?;
        self.world.run_allowed(number, &contents)?;
        self.push_run(number, &contents)?;
        Ok(())
    }
}
