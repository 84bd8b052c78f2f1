//! The make in progress.

ghost use Rattle.std.specs.Prelude.{◌≡◌, ℕ, [], ◌<◌, ◌↔◌, length, true, IfOk, OnOk, OnErr, filter, not, nat_eq, replicate};
ghost use Rattle.std.specs.Bool.{OnTrue, OnFalse};
ghost use Rattle.mk_lines.specs.Names.{has_name};
ghost use Rattle.mk_graph.specs.Graph.{max_nodes};
ghost use Rattle.mk_graph.specs.Membership.{Has};
ghost use Rattle.mk_graph.specs.Schedules.{CanStart, HasAll};
ghost use Rattle.mk_world.specs.Kept.{IsKept};
ghost use Rattle.mk_world.specs.State.{Scene, begun, broken_off, finished, run_at, no_run, start_of, with_run, HasLooked, HasPut};

use crate::lent::LentNames;
use crate::progress::RunningRecipe;
use mk_graph::{NodeSet, schedule_laws};
use mk_graph_ready::Readiness;
use std::alloc::{AllocError, Global};
use std::marker::Model;

/// The make in progress.
#[derive(Drop)]
pub struct Making {
    jobs: usize,
    goals: Vec<usize>,
    done: Vec<usize>,
    is_done: NodeSet,
    running: Vec<usize>,
    broken: Vec<usize>,
    runs: Vec<RunningRecipe>,
}

impl Model for Making {
    ghost use Rattle.std.specs.Prelude.{ℕ, ◌↔◌, reverse};
    ghost use Rattle.mk_graph.specs.Membership.{Has};
    ghost use Rattle.mk_world.specs.State as state;

    ghost Value = { state.MakeState };

    ghost view = { λ m.
        record {
          jobs = m.jobs;
          goals = m.goals.items;
          done = reverse m.done.items;
          running = m.running.items;
          broken = m.broken.items;
          runs = m.runs.items;
        } };

    ghost invariant = { λ m. (n : ℕ) → Has m.is_done n ↔ Has (reverse m.done.items) n };
}

/// Removes a number from the list.
fn take_out(numbers: &mut Vec<usize>, number: usize)
    ensures { numbers.new.items ≡ filter (λ n. not (nat_eq number n)) numbers.old.items }
{
    numbers.retain(move |n| number != *n);
}

/// The runs of this many recipes, none of which is running. The only error is out of memory.
fn no_runs(alloc: Global, many: usize) -> Result<Vec<RunningRecipe>, AllocError>
    ensures { IfOk result (λ runs. runs.items ≡ replicate many no_run) }
{
    let mut runs = Vec::with_capacity(alloc, many)?;
    for _ in 0..many {
        runs.push(RunningRecipe::none(alloc))?;
    }
    Ok(runs)
}

impl Making {
    /// A make of these goals that has just begun, in a graph with this many nodes. The only error
    /// is out of memory.
    pub fn new(
        alloc: Global,
        jobs: usize,
        goals: Vec<usize>,
        nodes: usize,
    ) -> Result<Making, AllocError>
        ensures { IfOk result (λ making. making ≡ start_of jobs goals.items nodes) }
    {
        Ok(Making {
            jobs,
            goals,
            done: Vec::new(alloc),
            is_done: NodeSet::new(),
            running: Vec::new(alloc),
            broken: Vec::new(alloc),
            runs: no_runs(alloc, nodes)?,
        })
    }

    /// Whether the recipe of a node is running.
    pub fn is_running(&self, number: usize) -> bool
        ensures { (result ≡ true) ↔ Has self.now.running number }
    {
        self.running.contains(&number)
    }

    /// Whether the recipe of a node broke off.
    pub fn is_broken(&self, number: usize) -> bool
        ensures { (result ≡ true) ↔ Has self.now.broken number }
    {
        self.broken.contains(&number)
    }

    /// Whether the recipe of a node isn't running and didn't break off.
    fn is_free(&self, number: usize) -> bool
        ensures { (result ≡ true) ↔
            ((¬ (Has self.now.running number)) × (¬ (Has self.now.broken number))) }
    {
        !self.is_running(number) && !self.is_broken(number)
    }

    /// Whether a job is free.
    pub fn has_job(&self) -> bool
        ensures { (result ≡ true) ↔ (length self.now.running < self.now.jobs) }
    {
        self.running.len() < self.jobs
    }

    /// Whether no recipe is running.
    pub fn is_quiet(&self) -> bool
        ensures { (result ≡ true) ↔ (self.now.running ≡ []) }
    {
        self.running.is_empty()
    }

    /// Whether all goals are done.
    pub fn has_goals(&self) -> bool
        ensures { (result ≡ true) ↔ HasAll self.now.done self.now.goals }
    {
        self.is_done.has_all(&self.goals)
    }

    /// Whether a node can start, isn't running and didn't break off. `readiness` must follow this
    /// make.
    pub fn is_ready(&self, readiness: &Readiness, number: usize) -> bool
        ensures { (scene : Scene) → IsKept scene self.now readiness.now → ((result ≡ true) ↔
            (CanStart scene.graph self.now.goals self.now.done number ×
            (¬ (Has self.now.running number)) × (¬ (Has self.now.broken number)))) }
    {
        schedule_laws::can_start_stays();
        readiness.can_start(number) && self.is_free(number)
    }

    /// The run of a node's recipe.
    pub fn run(&self, number: usize) -> &RunningRecipe
        requires { number < length self.now.runs }
        ensures { result.now ≡ run_at self.now.runs number }
    {
        &self.runs[number]
    }

    /// Marks a recipe as running, with this run. The only error is out of memory, which changes
    /// nothing.
    pub fn begin(&mut self, number: usize, run: RunningRecipe) -> Result<(), AllocError>
        requires { number < length self.old.runs }
        ensures ok { OnOk result (self.new ≡ begun self.old number run) }
        ensures err { OnErr result (self.new ≡ self.old) }
    {
        self.running.insert(0, number)?;
        self.runs[number] = run;
        Ok(())
    }

    /// Marks a node as done, and no longer running. The only error is out of memory, which changes
    /// nothing.
    pub fn finish(&mut self, number: usize) -> Result<(), AllocError>
        requires node { number < length self.old.runs }
        requires small { number < max_nodes }
        ensures ok { OnOk result (self.new ≡ finished self.old number) }
        ensures err { OnErr result (self.new ≡ self.old) }
    {
        self.done.push(number)?;
        self.is_done.insert(number);
        take_out(&mut self.running, number);
        self.runs[number].clear();
        Ok(())
    }

    /// Marks a running recipe as broken off. The only error is out of memory, which changes
    /// nothing.
    pub fn break_off(&mut self, number: usize) -> Result<(), AllocError>
        requires { number < length self.old.runs }
        ensures ok { OnOk result (self.new ≡ broken_off self.old number) }
        ensures err { OnErr result (self.new ≡ self.old) }
    {
        self.broken.insert(0, number)?;
        take_out(&mut self.running, number);
        self.runs[number].clear();
        Ok(())
    }

    /// Records that a recipe read this content of a file, if it is recorded to read the file.
    /// Returns whether it is; if not, nothing changes.
    pub fn look(
        &mut self,
        number: usize,
        reads: &LentNames<'_>,
        file: &str,
        content: Option<u64>,
    ) -> bool
        requires node { number < length self.old.runs }
        requires len { length (run_at self.old.runs number).looks ≡ length reads.now }
        ensures there { result ≡ has_name reads.now file.now }
        ensures same { OnFalse result (self.new ≡ self.old) }
        ensures looked { OnTrue result
            (HasLooked self.old self.new number reads.now file.now content) }
    {
        self.runs[number].look(reads, file, content)
    }

    /// Records that a recipe read all its files, with these contents in order.
    pub fn look_at_all(&mut self, number: usize, looks: Vec<Option<Option<u64>>>)
        requires { number < length self.old.runs }
        ensures { self.new ≡ with_run self.old number (record {
          looks = looks.items;
          puts = (run_at self.old.runs number).puts;
        }) }
    {
        self.runs[number].look_at_all(looks);
    }

    /// Records that a recipe wrote this content into a file, if it is recorded to write the file.
    /// Returns whether it is; if not, nothing changes.
    pub fn put(&mut self, number: usize, writes: &LentNames<'_>, file: &str, content: u64) -> bool
        requires node { number < length self.old.runs }
        requires len { length (run_at self.old.runs number).puts ≡ length writes.now }
        ensures there { result ≡ has_name writes.now file.now }
        ensures same { OnFalse result (self.new ≡ self.old) }
        ensures looked { OnTrue result
            (HasPut self.old self.new number writes.now file.now content) }
    {
        self.runs[number].put(writes, file, content)
    }
}
