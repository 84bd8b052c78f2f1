//! Commands that judge a build: what `check`, `check -e` and `verify` share.

ghost use Rattle.std.specs.Prelude.{◌≡◌, ◌⊎◌, true, Result, Ok, Err, IfErr, IsOk, OnErr, OnOk};
ghost use Rattle.mk_subject.specs.Subject.{Subject as SubjectValue};
ghost use Rattle.mk_infer.specs.Selection.{Selects};
ghost use Rattle.mk_read.specs.Files.{IfFits, Keeps, Told};
ghost use Rattle.mk_read.specs.declared.fault.ReadFault as read;
ghost use Rattle.mk_core.specs.NotRead.{judged_not_read};
ghost use Rattle.mk_core.specs.Answer.{Answers, NotesFailure};
ghost use Rattle.mk_core.specs.Ready.{macros_for};
ghost use Rattle.mk_core.specs.Judging.{AnswersJudged, AnswersTold, recorded, subject_over};
ghost use Rattle.mk_core.specs.Steps.{is_out_of_memory};
ghost use Rattle.mk_core_text.specs.declared.fault.Fault as faults;
ghost use Rattle.mk_core_text.specs.declared.fault.Fault.TheVariants.{Memory, Read};

use crate::command::{Command, answer_request};
use crate::leaking::drop_or_leak;
use crate::ready::Ready;
use crate::request::Request;
use crate::selecting::selected;
use mk_core_text::Fault;
use mk_graph::Graph;
use mk_read_files::Files;
use mk_subject::Subject;
use mk_subject::laws::selected_goals;
use std::alloc::Global;

/// A command that judges a build, given by its answer to a subject.
pub trait Judge {
    /// The type of its answers.
    type Answer: Drop;

    /// The answers that the command may give to a subject, when the files have these contents.
    ghost judges: { Self → Told → SubjectValue → Result Self.Answer faults.Fault → Type 0 };

    /// Whether the answer is a single line, however large the input is.
    fn is_brief(&self) -> bool;

    /// Answers for a subject. It may read files other than makefiles.
    fn judge<F: Files>(
        &self,
        alloc: Global,
        files: &mut F,
        subject: &Subject<'_>,
    ) -> Result<Self::Answer, Fault>
        ensures keeps { Keeps (F.fits files.old) (F.fits files.new) }
        ensures answer { IfFits (F.fits files.new)
            (λ told. (result ≡ Err Memory) ⊎ judges self.now told subject.now result) }
        ensures memory { IfErr result (λ fault. is_out_of_memory fault ≡ true → fault ≡ Memory) }
        ensures noted { NotesFailure (F.failed files.old) (F.failed files.new) result };

    /// Such a command never returns a fault of the makefile itself.
    ghost not_read: { (judge : Self) (told : Told) (x : SubjectValue) (fault : read.ReadFault) →
        judges judge told x (Err (Read fault)) → ⊥ };
}

/// The answer for the build of this graph. The errors are the first fault of the nodes' commands
/// (11 to 17), in the serial order, and those of `judge`.
fn judge_graph<F: Files, J: Judge>(
    alloc: Global,
    files: &mut F,
    ready: &Ready<'_>,
    graph: &Graph,
    judge: &J,
) -> Result<J::Answer, Fault>
    requires selected { Selects ready.now.makefile (recorded ready.now) ready.now.goals
        (Ok graph.now) }
    ensures keeps { Keeps (F.fits files.old) (F.fits files.new) }
    ensures answer { IfFits (F.fits files.new)
        (λ told. (result ≡ Err Memory) ⊎
        AnswersTold (J.judges judge.now told) (subject_over ready.now graph.now) result) }
    ensures memory { IfErr result (λ fault. is_out_of_memory fault ≡ true → fault ≡ Memory) }
    ensures noted { NotesFailure (F.failed files.old) (F.failed files.new) result }
{
    selected_goals();
    let subject = Subject::new(
        alloc,
        ready.table(),
        ready.recorded(),
        graph,
        ready.setting(),
    )?;
    let _graph = subject.graph();
    let answer = judge.judge(alloc, files, &subject);
    drop_or_leak(subject, ready.leaves_memory(judge.is_brief()));
    answer
}

/// Turns a `Judge` into a `Command`.
#[derive(Drop)]
struct Judged<J> {
    judge: J,
}

impl<J: Judge + Drop> Command for Judged<J> {
    type Answer = J::Answer;

    ghost answers = { λ c told ready answer.
        AnswersJudged (J.judges c.judge told) ready answer };

    fn is_brief(&self) -> bool {
        self.judge.is_brief()
    }

    fn answer<F: Files>(
        &self,
        alloc: Global,
        files: &mut F,
        ready: &Ready<'_>,
    ) -> Result<J::Answer, Fault> {
        let graph = selected(alloc, ready, &ready.recorded())?;
        let answer = judge_graph(alloc, files, ready, &graph, &self.judge);
        drop_or_leak(graph, ready.leaves_memory(self.judge.is_brief()));
        answer
    }

    ghost not_read = { λ c told ready fault.
        judged_not_read (J.judges c.judge told) ready fault
        (λ x. J.not_read c.judge told x fault) };
}

/// Answers a request with a command that judges the build of its goals.
///
/// The error is the first fault in the order that `check` lists, then that of the command itself. A
/// bad name of the makefile and a bad operand are refused before any file is read.
pub fn answer_judged<F: Files, J: Judge + Drop>(
    alloc: Global,
    files: &mut F,
    request: &Request,
    judge: J,
) -> Result<J::Answer, Fault>
    ensures keeps { Keeps (F.fits files.old) (F.fits files.new) }
    ensures answer { IfFits (F.fits files.new)
        (λ told. Answers told request.now (AnswersJudged (J.judges judge told)) result) }
    ensures memory { IfErr result (λ fault. is_out_of_memory fault ≡ true → fault ≡ Memory) }
    ensures noted { NotesFailure (F.failed files.old) (F.failed files.new) result }
    ensures untouched { OnErr (macros_for request.now) (files.new ≡ files.old) }
    ensures accepted { OnOk result (IsOk (macros_for request.now)) }
{
    let command = Judged { judge };
    answer_request(alloc, files, request, &command)
}
