//! Runs of plans.

ghost use Rattle.std.specs.Prelude.{◌≡◌, ◌++◌, true, map, option_map, IfOk, OnOk, OnErr};
ghost use Rattle.std.specs.List.{list_all};
ghost use Rattle.std.specs.String.{string_bytes};
ghost use Rattle.mk_build.specs.World.{disk_of};
ghost use Rattle.mk_world.specs.State.{setting, world_of};
ghost use Rattle.mk_build.specs.Steps as model;
ghost use Rattle.mk_world.specs.Steps.{Answers};
ghost use Rattle.mk_world.specs.State as state;
ghost use Rattle.mk_world.specs.Running.{is_known, is_node, goals_among, steps_of, run_steps, content_or_stamp, AnswersInTurn, AnswersLine, Prepares, file_text, files_text, printed, RunsTo, RunsPartly, LeadsTo, stage_of};

use crate::fault::{StepFault, is_memory};
use crate::file::Listed;
use crate::plan::{Plan, PlanCommand};
use crate::world::World;
use mk_lines::Name;
use std::alloc::{AllocError, Global};

/// What the run of a plan printed, and which line was refused, if one was.
#[derive(Debug, Drop)]
pub struct Run {
    /// The files at each `end`: a line `name content stamp` for each, by the bytes of their names.
    pub text: String,
    /// The number of the refused line, and its fault.
    pub refused: Option<(usize, StepFault)>,
}

/// Whether all these names are names of nodes.
fn are_nodes(world: &World, names: &[Name]) -> bool
    ensures { result ≡ list_all (is_node world.now.scene.graph) names.now }
{
    names.iter().all(|name| world.has_node(name.as_str()))
}

/// Whether all names in a command are known.
fn knows(world: &World, order: &PlanCommand) -> bool
    ensures { result ≡ is_known world.now.scene.graph world.now.disk.names order.now }
{
    match order {
        PlanCommand::Make { goals, .. } => are_nodes(world, goals.as_slice()),
        PlanCommand::Begin { node }
        | PlanCommand::Done { node }
        | PlanCommand::Break { node, .. }
        | PlanCommand::Finish { node }
        | PlanCommand::Run { node }
        | PlanCommand::Pass { node } => world.has_node(node.as_str()),
        PlanCommand::Look { node, file } | PlanCommand::Put { node, file, .. } => {
            world.has_node(node.as_str()) && world.has_file(file.as_str())
        }
        PlanCommand::Edit { file, .. } => world.has_file(file.as_str()),
        PlanCommand::Stop | PlanCommand::End => true,
    }
}

/// The content that the line gives, or else the new stamp.
fn content_or_stamp(world: &World, content: Option<u64>) -> u64
    ensures { result ≡ content_or_stamp (state.disk_of world.now.disk) content }
{
    match content {
        Some(content) => content,
        None => world.new_stamp(),
    }
}

/// Borrows these names. The only error is out of memory.
fn lent<'a>(alloc: Global, names: &'a [Name]) -> Result<Vec<&'a str>, AllocError>
    ensures { IfOk result (λ lent. map (λ name. name.now) lent.items ≡ names.entry.now) }
{
    let mut lent = Vec::with_capacity(alloc, names.len())?;
    for name in names {
        lent.push(name.as_str())?;
    }
    Ok(lent)
}

/// Begins a make of these goals, or of all goals if none is named.
fn start(alloc: Global, world: &mut World, jobs: usize, goals: &[Name]) -> Result<(), StepFault>
    ensures { Answers world.old world.new
        (model.Make jobs (goals_among world.old.scene.graph goals.now)) result }
{
    if goals.is_empty() {
        return world.start_all(jobs);
    }
    let goals = lent(alloc, goals)?;
    world.start(jobs, &goals)
}

/// Runs a recipe whole.
#[tactic(auto, using(crate::proofs::Lines::whole_answers, crate::proofs::Lines::whole_refused))]
fn run_whole(world: &mut World, node: &str) -> Result<(), StepFault>
    requires { is_node world.old.scene.graph node.now ≡ true }
    ensures { AnswersInTurn world.old world.new (run_steps world.old node.now) result }
{
    world.begin(node)?;
    world.finish(node)
}

/// Takes the steps of a command, one after another.
#[tactic(auto, using(crate::proofs::InTurn::answers_one))]
fn obey(alloc: Global, world: &mut World, order: &PlanCommand) -> Result<(), StepFault>
    requires { is_known world.old.scene.graph world.old.disk.names order.now ≡ true }
    ensures { AnswersInTurn world.old world.new (steps_of world.old order.now) result }
{
    match order {
        PlanCommand::Make { jobs, goals } => start(alloc, world, *jobs, goals.as_slice()),
        PlanCommand::Stop => world.stop(),
        PlanCommand::Begin { node } => world.begin(node.as_str()),
        PlanCommand::Look { node, file } => world.look(node.as_str(), file.as_str()),
        PlanCommand::Put {
            node,
            file,
            content,
        } => {
            let content = content_or_stamp(world, *content);
            world.put(node.as_str(), file.as_str(), content)
        }
        PlanCommand::Done { node } => world.end(node.as_str()),
        PlanCommand::Break { node, removed } => world.break_off(node.as_str(), *removed),
        PlanCommand::Finish { node } => world.finish(node.as_str()),
        PlanCommand::Run { node } => run_whole(world, node.as_str()),
        PlanCommand::Pass { node } => world.pass(node.as_str()),
        PlanCommand::End => world.end_make(),
        PlanCommand::Edit { file, content } => {
            let content = content_or_stamp(world, *content);
            world.edit(file.as_str(), content)
        }
    }
}

/// Passes the idle nodes, if the command needs that.
fn prepare(world: &mut World, order: &PlanCommand) -> Result<(), AllocError>
    ensures { Prepares world.old world.new order.now result }
{
    match order {
        PlanCommand::Begin { .. }
        | PlanCommand::Run { .. }
        | PlanCommand::Pass { .. }
        | PlanCommand::End => { world.pass_idle() }
        _ => Ok(()),
    }
}

/// Executes a command: tests its names, passes idle nodes if it needs that, and takes its steps.
fn follow(alloc: Global, world: &mut World, order: &PlanCommand) -> Result<(), StepFault>
    ensures { AnswersLine world.old world.new order.now result }
{
    if !knows(world, order) {
        return Err(StepFault::PlanLine);
    }
    prepare(world, order)?;
    obey(alloc, world, order)
}

/// The line of a file. The only error is out of memory.
fn file_text(alloc: Global, file: &Listed) -> Result<String, AllocError>
    ensures { IfOk result (λ text. string_bytes text ≡ file_text file.now) }
{
    let name = file.name.as_str();
    let content = file.content;
    let stamp = file.stamp;
    format!(in alloc; "{name} {content} {stamp}\n")
}

/// Appends the files of a world: a line `name content stamp` for each, by the bytes of their names.
/// The only error is out of memory.
pub fn print_files(alloc: Global, world: &World, text: &mut String) -> Result<(), AllocError>
    ensures { OnOk result (string_bytes text.new ≡ string_bytes text.old ++
        files_text world.now.disk.names (disk_of (world_of world.now))) }
{
    for file in &world.files()? {
        text.push_str(&file_text(alloc, file)?)?;
    }
    Ok(())
}

/// Appends what is printed after a command.
fn print(
    alloc: Global,
    world: &World,
    order: &PlanCommand,
    text: &mut String,
) -> Result<(), AllocError>
    ensures { OnOk result (string_bytes text.new ≡ string_bytes text.old ++
        printed world.now.disk.names order.now (world_of world.now)) }
{
    match order {
        PlanCommand::End => print_files(alloc, world, text),
        _ => Ok(()),
    }
}

/// Runs a plan in a world, line by line, up to the first line that is refused. Returns what it
/// printed and the refusal. The only error is out of memory: then the first lines have been run,
/// and of the steps of the next line at most the first ones have been taken.
///
/// Before `begin`, `run`, `pass` and `end`, if a make is in progress, every ready node without a
/// recipe is passed, each time the first in the serial order, until there is none. `finish` reads
/// all files that the recipe reads, writes all files that it writes, and ends; the contents are the
/// known outcome for what it read, or else the new stamps. `run` begins the recipe first. `make`
/// without goals makes all goals. The files are printed at each `end`.
///
/// A line is refused with the fault of its first step that isn't allowed, and the steps before that
/// one remain. A line that names an unknown node or file is refused with `PlanLine` (69) before
/// anything is done for it.
pub fn run_plan(alloc: Global, world: &mut World, plan: &Plan) -> Result<Run, AllocError>
    ensures scene { world.new.scene ≡ world.old.scene }
    ensures names { world.new.disk.names ≡ world.old.disk.names }
    ensures ran { IfOk result (λ run. RunsTo (stage_of world.old) (world_of world.old) plan.now
        (string_bytes run.text) run.refused (world_of world.new)) }
    ensures part { OnErr result (RunsPartly (stage_of world.old) (world_of world.old)
        (world_of world.new) plan.now) }
    ensures leads { LeadsTo world.old.scene.graph (setting world.old.scene) (world_of world.old)
        (world_of world.new) }
{
    let mut text = String::new(alloc);
    for line in plan.as_slice() {
        match follow(alloc, world, &line.order) {
            Ok(()) => print(alloc, world, &line.order, &mut text)?,
            Err(fault) => {
                if is_memory(&fault) {
                    return Err(AllocError);
                }
                return Ok(Run {
                    text,
                    refused: Some((line.number, fault)),
                });
            }
        }
    }
    Ok(Run {
        text,
        refused: None,
    })
}
