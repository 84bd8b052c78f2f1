//! The command `simulate`.

ghost use Rattle.std.specs.Prelude.{◌≡◌, true, IfErr, IfOk, OnErr};
ghost use Rattle.mk_foot.specs.Setting.{Setting as SettingValue};
ghost use Rattle.mk_graph.specs.Graph.{Graph as GraphValue};
ghost use Rattle.mk_world.specs.Running.{stage_of};
ghost use Rattle.mk_world.specs.State.{world_of};
ghost use Rattle.mk_world.specs.Steps.{IsFirstOf};
ghost use Rattle.mk_read.specs.Files.{IfFits, Keeps};
ghost use Rattle.mk_core.specs.NotRead.{simulation_not_read};
ghost use Rattle.mk_core.specs.Answer.{Answers, NotesFailure};
ghost use Rattle.mk_core.specs.Ready.{macros_for};
ghost use Rattle.mk_core.specs.Simulation.{ShowsRun, end_text, end_words, left_text, run_text, run_words};
ghost use Rattle.mk_core.specs.SimulationAnswer.{AnswersSimulation};
ghost use Rattle.mk_core.specs.Steps.{is_out_of_memory};
ghost use Rattle.mk_core.specs.Views.{RunsTextOver, SimulatesOver};
ghost use Rattle.mk_core_text.specs.declared.fault.Fault.TheVariants.{Memory};

use crate::command::{Command, answer_request};
use crate::file_text::file_text;
use crate::ready::Ready;
use crate::request::Request;
use crate::selecting::selected;
use mk_core_text::{Fault, step_fault_text, step_fault_words};
use mk_foot::Setting;
use mk_graph::Graph;
use mk_read_files::Files;
use mk_world::{Plan, StepFault, World, print_files, run_plan};
use mk_world_plan::read_plan;
use std::alloc::{AllocError, Global};
use std::marker::Model;

/// The output of a plan's run. Its model has the texts as bytes.
#[derive(Debug, Drop)]
pub struct Simulation {
    /// At each `end` line of the plan a line `name content stamp` for each file.
    pub printed: Vec<u8>,
    /// The line of the plan that was refused, if one was, and why.
    pub refused: Option<(usize, StepFault)>,
    /// Such a line for each file that is there when a line was refused; else empty.
    pub left: Vec<u8>,
}

impl Model for Simulation {
    ghost use Rattle.mk_core.specs.Simulation as value;

    ghost Value = { value.Simulation };

    ghost view = { λ s. record {
      printed = s.printed.items;
      refused = s.refused;
      left = s.left.items;
    } };
}

/// The text of the files that a refused line leaves; nothing where no line was refused.
fn left_text(
    alloc: Global,
    world: &World<'_>,
    refused: &Option<(usize, StepFault)>,
) -> Result<Vec<u8>, AllocError>
    ensures { IfOk result (λ text. text.items ≡
        left_text (stage_of world.now) refused.now (world_of world.now)) }
{
    if refused.is_none() {
        return Ok(Vec::new(alloc));
    }
    let mut files = String::new(alloc);
    print_files(alloc, world, &mut files)?;
    Ok(files.into_bytes())
}

/// Runs a plan in a world, which must be the first one.
fn shown_in(alloc: Global, world: &mut World<'_>, plan: &Plan) -> Result<Simulation, AllocError>
    ensures { IfOk result (λ shown. (g : GraphValue) (s : SettingValue) →
        IsFirstOf g s world.old → ShowsRun g s plan.now shown) }
{
    let run = run_plan(alloc, world, plan)?;
    let left = left_text(alloc, world, &run.refused)?;
    Ok(Simulation {
        printed: run.text.into_bytes(),
        refused: run.refused,
        left,
    })
}

/// Runs a plan in the first world.
fn shown(
    alloc: Global,
    graph: &Graph,
    setting: &Setting,
    plan: &Plan,
) -> Result<Simulation, AllocError>
    ensures { IfOk result (λ shown. ShowsRun graph.now setting.now plan.now shown) }
{
    let mut world = World::new(alloc, graph, setting)?;
    shown_in(alloc, &mut world, plan)
}

/// Reads a plan, and runs it over this graph and these footprints.
fn run_file<F: Files>(
    alloc: Global,
    files: &mut F,
    graph: &Graph,
    setting: &Setting,
    plan: &str,
) -> Result<Simulation, Fault>
    ensures keeps { Keeps (F.fits files.old) (F.fits files.new) }
    ensures answer { IfFits (F.fits files.new)
        (λ told. RunsTextOver told plan.now graph.now setting.now result) }
    ensures memory { IfErr result (λ fault. is_out_of_memory fault ≡ true → fault ≡ Memory) }
    ensures noted { NotesFailure (F.failed files.old) (F.failed files.new) result }
{
    let text = file_text(alloc, files, plan)?;
    let plan = read_plan(alloc, &text)?;
    let shown = shown(alloc, graph, setting, &plan)?;
    Ok(shown)
}

/// The answer to a prepared request.
fn simulated<F: Files>(
    alloc: Global,
    files: &mut F,
    ready: &Ready<'_>,
    plan: &str,
) -> Result<Simulation, Fault>
    ensures keeps { Keeps (F.fits files.old) (F.fits files.new) }
    ensures answer { IfFits (F.fits files.new)
        (λ told. SimulatesOver told plan.now ready.now result) }
    ensures memory { IfErr result (λ fault. is_out_of_memory fault ≡ true → fault ≡ Memory) }
    ensures noted { NotesFailure (F.failed files.old) (F.failed files.new) result }
{
    let graph = selected(alloc, ready, &ready.exists())?;
    run_file(alloc, files, &graph, ready.setting(), plan)
}

/// The command `simulate`, with the name of the plan file.
#[derive(Drop)]
struct SimulatePlan<'a> {
    plan: &'a str,
}

impl Command for SimulatePlan<'_> {
    type Answer = Simulation;

    ghost answers = { λ c told ready answer. AnswersSimulation told c.plan.now ready answer };

    fn is_brief(&self) -> bool {
        false
    }

    fn answer<F: Files>(
        &self,
        alloc: Global,
        files: &mut F,
        ready: &Ready<'_>,
    ) -> Result<Simulation, Fault> {
        simulated(alloc, files, ready, self.plan)
    }

    ghost not_read = { λ c told ready fault. simulation_not_read told c.plan.now ready fault };
}

/// How a run ended: `plan ok`, or the refused line's fault.
fn end_text(alloc: Global, refused: &Option<(usize, StepFault)>) -> Result<Vec<u8>, AllocError>
    ensures { IfOk result (λ text. text.items ≡ end_text refused.now) }
{
    let Some((line, fault)) = refused else {
        return Vec::from_slice(alloc, b"plan ok\n");
    };
    let mut text = step_fault_text(alloc, *line, fault)?;
    text.push(b'\n')?;
    Ok(text)
}

/// The same, with the fault in words.
fn end_words(alloc: Global, refused: &Option<(usize, StepFault)>) -> Result<Vec<u8>, AllocError>
    ensures { IfOk result (λ text. text.items ≡ end_words refused.now) }
{
    let Some((line, fault)) = refused else {
        return Vec::from_slice(alloc, b"plan ok\n");
    };
    let mut text = step_fault_words(alloc, *line, fault)?;
    text.push(b'\n')?;
    Ok(text)
}

/// What `mkcheck simulate` prints of a run: what its lines print, how it ended, and the files that a
/// refused line leaves. The only error is out of memory.
pub fn run_text(alloc: Global, run: Simulation) -> Result<Vec<u8>, AllocError>
    ensures { IfOk result (λ text. text.items ≡ run_text run) }
{
    let end = end_text(alloc, &run.refused)?;
    let mut text = run.printed;
    text.extend_from_slice(&end)?;
    text.extend_from_slice(&run.left)?;
    Ok(text)
}

/// What `mkcheck simulate -w` prints of a run: the same, with a fault in words. The only error is out
/// of memory.
pub fn run_words(alloc: Global, run: Simulation) -> Result<Vec<u8>, AllocError>
    ensures { IfOk result (λ text. text.items ≡ run_words run) }
{
    let end = end_words(alloc, &run.refused)?;
    let mut text = run.printed;
    text.extend_from_slice(&end)?;
    text.extend_from_slice(&run.left)?;
    Ok(text)
}

/// The run, over the graph and the footprints, of the plan in the file with this name, as `mkcheck
/// simulate` shows it: the files at each `end`, and the refused line and the files then, if one is
/// refused.
///
/// The error is the first fault in this order: the makefile's name, the operands, the reading of
/// the makefile (1 to 37); `InferencePrerequisites` (45), the goals (27, 28), `NoGoal` (44); the
/// footprint file (35, 38, 51 to 58); `NoRule` (41) and `TooManyNodes` (43) as the walk from the
/// goals meets them, `Cycle` (42); the plan file (35, 38, 69). Out of memory can come in place of
/// any result. A line that is refused while the plan runs is no error: the run has it. A bad
/// name of the makefile and a bad operand are refused before any file is read.
pub fn simulate<F: Files>(
    alloc: Global,
    files: &mut F,
    request: &Request,
    plan: &str,
) -> Result<Simulation, Fault>
    ensures keeps { Keeps (F.fits files.old) (F.fits files.new) }
    ensures answer { IfFits (F.fits files.new)
        (λ told. Answers told request.now (AnswersSimulation told plan.now) result) }
    ensures memory { IfErr result (λ fault. is_out_of_memory fault ≡ true → fault ≡ Memory) }
    ensures noted { NotesFailure (F.failed files.old) (F.failed files.new) result }
    ensures untouched { OnErr (macros_for request.now) (files.new ≡ files.old) }
{
    answer_request(alloc, files, request, &SimulatePlan { plan })
}
