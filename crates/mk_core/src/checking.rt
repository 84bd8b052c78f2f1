//! The command `check`: the verdict on a build.

ghost use Rattle.std.specs.Prelude.{◌≡◌, true, IfErr, IfOk, OnErr};
ghost use Rattle.mk_read.specs.Files.{IfFits, Keeps};
ghost use Rattle.mk_core.specs.NotRead.{verdict_not_read};
ghost use Rattle.mk_core.specs.Answer.{Answers, NotesFailure};
ghost use Rattle.mk_core.specs.Ready.{macros_for};
ghost use Rattle.mk_core.specs.CheckAnswer.{AnswersCheck, GivesVerdict, IsVerdict, IsYes};
ghost use Rattle.mk_core.specs.Right.{IsRightFor};
ghost use Rattle.mk_core.specs.Steps.{is_out_of_memory};
ghost use Rattle.mk_core_text.specs.declared.fault.Fault.TheVariants.{Memory};

use crate::judging::{Judge, answer_judged};
use crate::laws::yes_is_right;
use crate::request::Request;
use mk_core_text::{Fault, Findings, Verdict};
use mk_find::finding_laws::no_findings;
use mk_find::judge;
use mk_read_files::Files;
use mk_subject::{Subject, counts};
use std::alloc::{AllocError, Global};

/// The verdict on a build. The only error is out of memory.
pub fn verdict_of(alloc: Global, subject: &Subject<'_>) -> Result<Verdict, AllocError>
    ensures { IfOk result (λ verdict. IsVerdict subject.now verdict) }
{
    no_findings();
    match judge(alloc, subject)? {
        Err(found) => Ok(Verdict::No(Findings::new(found))),
        Ok(certificate) => {
            let (recipes, reads) = counts(subject);
            Ok(Verdict::Yes {
                certificate,
                recipes,
                reads,
            })
        }
    }
}

/// The command `check`.
#[derive(Drop)]
struct CheckBuild;

impl Judge for CheckBuild {
    type Answer = Verdict;

    ghost judges = { λ _ _ x answer. GivesVerdict x answer };

    fn is_brief(&self) -> bool {
        false
    }

    fn judge<F: Files>(
        &self,
        alloc: Global,
        _files: &mut F,
        subject: &Subject<'_>,
    ) -> Result<Verdict, Fault> {
        let verdict = verdict_of(alloc, subject)?;
        Ok(verdict)
    }

    ghost not_read = { λ _ _ x fault. verdict_not_read x fault };
}

/// The verdict on the build of the goals, for `mkcheck check`: yes, with a way for each read of a
/// file that can change, or no, with the findings.
///
/// After a yes every legal history of source edits, makes of any of the goals, stops between
/// recipes, and recipes that fail or are killed, with any number of jobs and in any order that make
/// allows, is right: after each finished make, each file that a recipe reached from its goals
/// writes holds what a clean serial build of these goals gives from the sources as they are then
/// (IEEE Std 1003.1-2024, XCU make).
///
/// Without a footprint file there are no records, and only the makefile's texts are given.
///
/// The error is the first fault in this order: the makefile's name, the operands, the reading of
/// the makefile (1 to 37); `InferencePrerequisites` (45), the goals (27, 28), `NoGoal` (44); the
/// footprint file (35, 38, 51 to 58); `NoRule` (41) and `TooManyNodes` (43) as the walk from the
/// goals meets them, `Cycle` (42); the commands (11 to 17), node by node in the serial order. Out
/// of memory can come in place of any result. A bad name of the makefile and a bad operand are
/// refused before any file is read.
pub fn check<F: Files>(alloc: Global, files: &mut F, request: &Request) -> Result<Verdict, Fault>
    ensures keeps { Keeps (F.fits files.old) (F.fits files.new) }
    ensures answer { IfFits (F.fits files.new)
        (λ told. Answers told request.now AnswersCheck result) }
    ensures right { IfFits (F.fits files.new)
        (λ told. IsYes result → IsRightFor told request.now) }
    ensures memory { IfErr result (λ fault. is_out_of_memory fault ≡ true → fault ≡ Memory) }
    ensures noted { NotesFailure (F.failed files.old) (F.failed files.new) result }
    ensures untouched { OnErr (macros_for request.now) (files.new ≡ files.old) }
{
    yes_is_right();
    answer_judged(alloc, files, request, CheckBuild)
}
