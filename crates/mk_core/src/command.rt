//! Commands of the program, and how each request is answered.

ghost use Rattle.std.specs.Prelude.{◌≡◌, ◌⊎◌, true, Result, Err, IfErr, IsOk, OnErr, OnOk};
ghost use Rattle.mk_read.specs.Files.{IfFits, Keeps, Told};
ghost use Rattle.mk_read.specs.declared.fault.ReadFault as read;
ghost use Rattle.mk_core.specs.Answer.{Answers, NotesFailure};
ghost use Rattle.mk_core.specs.Ready.{Ready as ReadyValue, macros_for};
ghost use Rattle.mk_core.specs.Steps.{is_out_of_memory};
ghost use Rattle.mk_core.specs.Views.{AnswersOver};
ghost use Rattle.mk_core_text.specs.declared.fault.Fault as faults;
ghost use Rattle.mk_core_text.specs.declared.fault.Fault.TheVariants.{Memory, Read};

use crate::leaking::drop_or_leak;
use crate::ready::{Ready, ready_over};
use crate::request::Request;
use mk_core_text::Fault;
use mk_infer::RuleTable;
use mk_read::Makefile;
use mk_read_files::Files;
use mk_read_parse::read_makefile;
use std::alloc::Global;

/// A command of the program, given by its answer to a prepared request.
pub(crate) trait Command {
    /// The type of its answers.
    type Answer: Drop;

    /// The answers that the command may give to a prepared request, when the files have these
    /// contents.
    ghost answers: { Self → Told → ReadyValue → Result Self.Answer faults.Fault → Type 0 };

    /// Whether the answer is a single line, however large the input is.
    fn is_brief(&self) -> bool;

    /// Answers a prepared request. It may read files other than makefiles.
    fn answer<F: Files>(
        &self,
        alloc: Global,
        files: &mut F,
        ready: &Ready<'_>,
    ) -> Result<Self::Answer, Fault>
        ensures keeps { Keeps (F.fits files.old) (F.fits files.new) }
        ensures answer { IfFits (F.fits files.new)
            (λ told. (result ≡ Err Memory) ⊎ answers self.now told ready.now result) }
        ensures memory { IfErr result (λ fault. is_out_of_memory fault ≡ true → fault ≡ Memory) }
        ensures noted { NotesFailure (F.failed files.old) (F.failed files.new) result };

    /// A command never returns a fault of the makefile itself.
    ghost not_read: { (command : Self) (told : Told) (ready : ReadyValue)
        (fault : read.ReadFault) → answers command told ready (Err (Read fault)) → ⊥ };
}

/// Prepares the request over the indexed makefile, and lets the command answer it.
fn answer_with<F: Files, C: Command>(
    alloc: Global,
    files: &mut F,
    request: &Request,
    table: &RuleTable<'_>,
    command: &C,
) -> Result<C::Answer, Fault>
    ensures keeps { Keeps (F.fits files.old) (F.fits files.new) }
    ensures answer { IfFits (F.fits files.new)
        (λ told. AnswersOver told request.now table.now (C.answers command.now told) result) }
    ensures memory { IfErr result (λ fault. is_out_of_memory fault ≡ true → fault ≡ Memory) }
    ensures noted { NotesFailure (F.failed files.old) (F.failed files.new) result }
{
    let ready = ready_over(alloc, files, request, table)?;
    let answer = command.answer(alloc, files, &ready);
    let leaves_memory = ready.leaves_memory(command.is_brief());
    drop_or_leak(ready, leaves_memory);
    answer
}

/// Indexes the makefile, and answers the request over it.
fn answer_over<F: Files, C: Command>(
    alloc: Global,
    files: &mut F,
    request: &Request,
    makefile: &Makefile,
    command: &C,
) -> Result<C::Answer, Fault>
    ensures keeps { Keeps (F.fits files.old) (F.fits files.new) }
    ensures answer { IfFits (F.fits files.new)
        (λ told. AnswersOver told request.now makefile.now (C.answers command.now told) result) }
    ensures memory { IfErr result (λ fault. is_out_of_memory fault ≡ true → fault ≡ Memory) }
    ensures noted { NotesFailure (F.failed files.old) (F.failed files.new) result }
{
    let table = RuleTable::new(alloc, makefile)?;
    let answer = answer_with(alloc, files, request, &table, command);
    drop_or_leak(table, request.leaves_memory);
    answer
}

/// Answers a request: what the command answers to the prepared request, or the first fault before
/// that, in this order: the makefile's name, the operands, the reading of the makefile (1 to 37);
/// `InferencePrerequisites` (45), the goals (27, 28), `NoGoal` (44); the footprint file (35, 38, 51
/// to 58). Out of memory can come in place of any result. A bad name of the makefile and a bad
/// operand are refused before any file is read.
pub(crate) fn answer_request<F: Files, C: Command>(
    alloc: Global,
    files: &mut F,
    request: &Request,
    command: &C,
) -> Result<C::Answer, Fault>
    ensures keeps { Keeps (F.fits files.old) (F.fits files.new) }
    ensures answer { IfFits (F.fits files.new)
        (λ told. Answers told request.now (C.answers command.now told) result) }
    ensures memory { IfErr result (λ fault. is_out_of_memory fault ≡ true → fault ≡ Memory) }
    ensures noted { NotesFailure (F.failed files.old) (F.failed files.new) result }
    ensures untouched { OnErr (macros_for request.now) (files.new ≡ files.old) }
    ensures accepted { OnOk result (IsOk (macros_for request.now)) }
{
    let makefile = read_makefile(
        alloc,
        files,
        request.makefile.as_ref(),
        request.defaults,
        request.operands.as_slice(),
    )?;
    let answer = answer_over(alloc, files, request, &makefile, command);
    drop_or_leak(makefile, request.leaves_memory);
    answer
}
