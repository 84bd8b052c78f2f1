//! The command `check -w`: the verdict on a build, with its findings in sentences.

ghost use Rattle.std.specs.Prelude.{◌≡◌, true, IfErr, IfOk, OnErr};
ghost use Rattle.mk_read.specs.Files.{IfFits, Keeps};
ghost use Rattle.mk_core.specs.Answer.{Answers, NotesFailure};
ghost use Rattle.mk_core.specs.Ready.{macros_for};
ghost use Rattle.mk_core.specs.Right.{IsRightFor};
ghost use Rattle.mk_core.specs.Steps.{is_out_of_memory};
ghost use Rattle.mk_core_text.specs.declared.fault.Fault.TheVariants.{Memory};
ghost use Rattle.mk_core_sentences.specs.InWordsAnswer.{AnswersInWords, GivesInWords, HasYes, IsInWords, Tells};
ghost use Rattle.mk_core_sentences.specs.NotRead.{in_words_not_read};

use mk_claims::has_static;
use mk_core::laws::yes_is_right;
use mk_core::{Fault, Judge, Request, Verdict, answer_judged, drop_or_leak, verdict_of};
use mk_find::{Finding, hidden_findings};
use mk_read_files::Files;
use mk_sentences::sentences;
use mk_subject::Subject;
use std::alloc::{AllocError, Global};

/// The verdict on a build, with its findings in sentences.
#[derive(Debug, Drop)]
pub enum InWords {
    /// The verdict yes.
    Yes(Verdict),
    /// The findings of a no and those that they hide, as `sentences` tells them.
    No(Vec<u8>),
}

/// The findings of a no in sentences, with the races and stale reads that they hide, as `sentences`
/// of mk_sentences tells them. The only error is out of memory.
pub fn in_sentences(
    alloc: Global,
    subject: &Subject<'_>,
    found: &[Finding],
) -> Result<Vec<u8>, AllocError>
    ensures { IfOk result (λ text. Tells subject.now found.now text.items) }
{
    if !has_static(found) {
        return sentences(alloc, subject, found, &[]);
    }
    let hidden = hidden_findings(alloc, subject)?;
    sentences(alloc, subject, found, hidden.as_slice())
}

/// The verdict on a build, with its findings in sentences.
fn in_words(
    alloc: Global,
    subject: &Subject<'_>,
    leaves_memory: bool,
) -> Result<InWords, AllocError>
    ensures { IfOk result (λ found. IsInWords subject.now found) }
{
    let verdict = verdict_of(alloc, subject)?;
    match &verdict {
        Verdict::Yes { .. } => Ok(InWords::Yes(verdict)),
        Verdict::No(found) => {
            let text = in_sentences(alloc, subject, found.as_slice())?;
            drop_or_leak(verdict, leaves_memory);
            Ok(InWords::No(text))
        }
    }
}

/// The command `check -w`.
#[derive(Drop)]
struct CheckInWords {
    leaves_memory: bool,
}

impl Judge for CheckInWords {
    type Answer = InWords;

    ghost judges = { λ _ _ x answer. GivesInWords x answer };

    fn is_brief(&self) -> bool {
        false
    }

    fn judge<F: Files>(
        &self,
        alloc: Global,
        _files: &mut F,
        subject: &Subject<'_>,
    ) -> Result<InWords, Fault> {
        let found = in_words(alloc, subject, self.leaves_memory)?;
        Ok(found)
    }

    ghost not_read = { λ _ _ x fault. in_words_not_read x fault };
}

/// The verdict on the build of the goals, for `mkcheck check -w`: the yes that `check` returns, or
/// its findings in sentences, each group at a line of the makefile, and those that they hide.
///
/// The errors are those of `check`, in their order.
pub fn check_in_words<F: Files>(
    alloc: Global,
    files: &mut F,
    request: &Request,
) -> Result<InWords, Fault>
    ensures keeps { Keeps (F.fits files.old) (F.fits files.new) }
    ensures answer { IfFits (F.fits files.new)
        (λ told. Answers told request.now AnswersInWords result) }
    ensures right { IfFits (F.fits files.new)
        (λ told. HasYes result → IsRightFor told request.now) }
    ensures memory { IfErr result (λ fault. is_out_of_memory fault ≡ true → fault ≡ Memory) }
    ensures noted { NotesFailure (F.failed files.old) (F.failed files.new) result }
    ensures untouched { OnErr (macros_for request.now) (files.new ≡ files.old) }
{
    yes_is_right();
    let check = CheckInWords {
        leaves_memory: request.leaves_memory,
    };
    answer_judged(alloc, files, request, check)
}
