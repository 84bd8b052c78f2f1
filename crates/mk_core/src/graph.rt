//! The command `graph`.

ghost use Rattle.std.specs.Prelude.{◌≡◌, ℕ, List, true, IfErr, OnErr};
ghost use Rattle.mk_read.specs.Files.{IfFits, Keeps};
ghost use Rattle.mk_core.specs.NotRead.{graph_not_read};
ghost use Rattle.mk_core.specs.Answer.{Answers, NotesFailure};
ghost use Rattle.mk_core.specs.Ready.{macros_for};
ghost use Rattle.mk_core.specs.GraphAnswer.{AnswersGraph};
ghost use Rattle.mk_core.specs.Steps.{is_out_of_memory, seen};
ghost use Rattle.mk_core.specs.Views.{DrawsOver, PrintsOver};
ghost use Rattle.mk_core_text.specs.declared.fault.Fault.TheVariants.{Memory};

use crate::command::{Command, answer_request};
use crate::ready::Ready;
use crate::request::Request;
use mk_core_text::{Fault, text_of};
use mk_infer::{Choices, InferFault};
use mk_infer_select::select;
use mk_read_files::Files;
use std::alloc::Global;

/// The text of the graph that is selected for the goals.
fn selected_text(alloc: Global, ready: &Ready<'_>, commands: bool) -> Result<Vec<u8>, InferFault>
    ensures { PrintsOver commands ready.now (seen (λ text. text.items) result) }
{
    let exists = ready.exists();
    let choices = Choices::new(alloc, ready.table(), &exists)?;
    let graph = select(alloc, &choices, ready.goals())?;
    text_of(alloc, &choices, &graph, commands)
}

/// The answer to a prepared request. It reads no file.
fn drawn(alloc: Global, ready: &Ready<'_>, commands: bool) -> Result<Vec<u8>, Fault>
    ensures answer { DrawsOver commands ready.now (seen (λ text. text.items) result) }
    ensures memory { IfErr result (λ fault. is_out_of_memory fault ≡ true → fault ≡ Memory) }
    ensures noted { (failed : List (List ℕ)) → NotesFailure failed failed result }
{
    let text = selected_text(alloc, ready, commands)?;
    Ok(text)
}

/// The command `graph`.
#[derive(Drop)]
struct DrawGraph {
    /// Whether the commands of nodes are printed.
    commands: bool,
}

impl Command for DrawGraph {
    type Answer = Vec<u8>;

    ghost answers = { λ c told ready answer.
        AnswersGraph c.commands ready (seen (λ text. text.items) answer) };

    fn is_brief(&self) -> bool {
        false
    }

    fn answer<F: Files>(
        &self,
        alloc: Global,
        _files: &mut F,
        ready: &Ready<'_>,
    ) -> Result<Vec<u8>, Fault> {
        drawn(alloc, ready, self.commands)
    }

    ghost not_read = { λ c told ready fault. graph_not_read c.commands ready fault };
}

/// What `mkcheck graph` prints: a line with the goals, then a line for each node in the serial
/// order, followed by its commands if the request asks for them (IEEE Std 1003.1-2024, XCU make,
/// "Target Rules", "Inference Rules", "Macros").
///
/// The error is the first fault in this order: the makefile's name, the operands, the reading of
/// the makefile (1 to 37); `InferencePrerequisites` (45), the goals (27, 28), `NoGoal` (44); the
/// footprint file (35, 38, 51 to 58); `NoRule` (41) and `TooManyNodes` (43) as the walk from the
/// goals meets them, `Cycle` (42); and if commands are printed, those of the commands (11 to 17),
/// node by node in the serial order. Out of memory can come in place of any result. A bad name of
/// the makefile and a bad operand are refused before any file is read.
pub fn graph_text<F: Files>(
    alloc: Global,
    files: &mut F,
    request: &Request,
) -> Result<Vec<u8>, Fault>
    ensures keeps { Keeps (F.fits files.old) (F.fits files.new) }
    ensures answer { IfFits (F.fits files.new)
        (λ told.
        Answers told request.now (AnswersGraph request.now.commands)
        (seen (λ text. text.items) result)) }
    ensures memory { IfErr result (λ fault. is_out_of_memory fault ≡ true → fault ≡ Memory) }
    ensures noted { NotesFailure (F.failed files.old) (F.failed files.new) result }
    ensures untouched { OnErr (macros_for request.now) (files.new ≡ files.old) }
{
    let command = DrawGraph {
        commands: request.commands,
    };
    answer_request(alloc, files, request, &command)
}
