//! The command `check --json`: the verdict on a build as JSON.

ghost use Rattle.std.specs.Prelude.{◌≡◌, true, IfErr, IfOk, OnErr};
ghost use Rattle.mk_read.specs.Files.{IfFits, Keeps};
ghost use Rattle.mk_core.specs.Answer.{Answers, NotesFailure};
ghost use Rattle.mk_core.specs.Ready.{macros_for};
ghost use Rattle.mk_core.specs.Right.{IsRightFor};
ghost use Rattle.mk_core.specs.Steps.{is_out_of_memory};
ghost use Rattle.mk_core_text.specs.declared.fault.Fault.TheVariants.{Memory};
ghost use Rattle.mk_core_json.specs.InJsonAnswer.{AnswersInJson, GivesInJson, HasYes, IsInJson, Shows, ShowsNo};
ghost use Rattle.mk_core_json.specs.NotRead.{in_json_not_read};

use crate::no::no_text;
use crate::yes::yes_text;
use mk_claims::has_static;
use mk_core::laws::yes_is_right;
use mk_core::{Fault, Judge, Request, Verdict, answer_judged, drop_or_leak, verdict_of};
use mk_find::{Finding, hidden_findings};
use mk_read_files::Files;
use mk_subject::Subject;
use std::alloc::{AllocError, Global};

/// The verdict on a build, as the text of a JSON value and a newline.
#[derive(Debug, Drop)]
pub enum InJson {
    /// The verdict yes.
    Yes(Vec<u8>),
    /// The verdict no.
    No(Vec<u8>),
}

/// What is printed for the answer no, with the findings that these hide.
fn no_shown(alloc: Global, subject: &Subject<'_>, found: &[Finding]) -> Result<Vec<u8>, AllocError>
    ensures { IfOk result (λ text. ShowsNo subject.now found.now text.items) }
{
    if !has_static(found) {
        return no_text(alloc, subject, found, &[]);
    }
    let hidden = hidden_findings(alloc, subject)?;
    no_text(alloc, subject, found, hidden.as_slice())
}

/// The verdict on a build as JSON.
fn shown(alloc: Global, subject: &Subject<'_>, verdict: &Verdict) -> Result<InJson, AllocError>
    ensures { IfOk result (λ shown. Shows subject.now verdict.now shown) }
{
    match verdict {
        Verdict::Yes {
            certificate,
            recipes,
            reads,
        } => Ok(InJson::Yes(yes_text(alloc, certificate, *recipes, *reads)?)),
        Verdict::No(found) => Ok(InJson::No(no_shown(alloc, subject, found.as_slice())?)),
    }
}

/// The verdict on a build, as JSON.
fn in_json(alloc: Global, subject: &Subject<'_>, leaves_memory: bool) -> Result<InJson, AllocError>
    ensures { IfOk result (λ shown. IsInJson subject.now shown) }
{
    let verdict = verdict_of(alloc, subject)?;
    let answer = shown(alloc, subject, &verdict)?;
    drop_or_leak(verdict, leaves_memory);
    Ok(answer)
}

/// The command `check --json`.
#[derive(Drop)]
struct CheckInJson {
    leaves_memory: bool,
}

impl Judge for CheckInJson {
    type Answer = InJson;

    ghost judges = { λ _ _ x answer. GivesInJson x answer };

    fn is_brief(&self) -> bool {
        false
    }

    fn judge<F: Files>(
        &self,
        alloc: Global,
        _files: &mut F,
        subject: &Subject<'_>,
    ) -> Result<InJson, Fault> {
        let shown = in_json(alloc, subject, self.leaves_memory)?;
        Ok(shown)
    }

    ghost not_read = { λ _ _ x fault. in_json_not_read x fault };
}

/// The verdict on the build of the goals, for `mkcheck check --json`: the yes or the findings that
/// `check` returns, as a JSON value.
///
/// The errors are those of `check`, in their order.
pub fn check_in_json<F: Files>(
    alloc: Global,
    files: &mut F,
    request: &Request,
) -> Result<InJson, Fault>
    ensures keeps { Keeps (F.fits files.old) (F.fits files.new) }
    ensures answer { IfFits (F.fits files.new)
        (λ told. Answers told request.now AnswersInJson result) }
    ensures right { IfFits (F.fits files.new)
        (λ told. HasYes result → IsRightFor told request.now) }
    ensures memory { IfErr result (λ fault. is_out_of_memory fault ≡ true → fault ≡ Memory) }
    ensures noted { NotesFailure (F.failed files.old) (F.failed files.new) result }
    ensures untouched { OnErr (macros_for request.now) (files.new ≡ files.old) }
{
    yes_is_right();
    let check = CheckInJson {
        leaves_memory: request.leaves_memory,
    };
    answer_judged(alloc, files, request, check)
}
