//! The old build.

ghost use Rattle.std.specs.Prelude.{◌≡◌, [], true, IfErr, IfOk};
ghost use Rattle.mk_read.specs.Files.{IfFits, Keeps};
ghost use Rattle.mk_core.specs.Answer.{NotesFailure};
ghost use Rattle.mk_core.specs.Steps.{is_out_of_memory};
ghost use Rattle.mk_core_text.specs.declared.fault.Fault.TheVariants.{Memory};
ghost use Rattle.mk_find.specs.Findings.{AreFindings};
ghost use Rattle.mk_since.specs.Doubts.{HasNoStatic};
ghost use Rattle.mk_core_since.specs.OldAnswer.{AnswersOld, GivesOld, IsOld};
ghost use Rattle.mk_core_since.specs.NotRead.{old_not_read};

use crate::old_request::before;
use mk_core::{Fault, Files, Findings, Judge, Request, Verdict, answer_judged, verdict_of};
use mk_find::finding_laws::no_findings;
use mk_find::{Finding, first_static};
use mk_since::{Past, past_of};
use mk_subject::Subject;
use std::alloc::{AllocError, Global};

/// What is known of an old build.
#[derive(Drop)]
pub enum OldBuild {
    /// What the rules need of it, where all its findings are races and stale reads.
    Kept(Past),
    /// Its findings, where others are among them.
    Unsure(Findings),
}

/// What is kept of a build with these findings, all of them races and stale reads.
fn kept(alloc: Global, subject: &Subject<'_>, found: &[Finding]) -> Result<OldBuild, AllocError>
    requires late { HasNoStatic subject.now }
    requires found { AreFindings subject.now found.now }
    ensures { IfOk result (λ old. IsOld subject.now old) }
{
    let past = past_of(alloc, subject, found)?;
    Ok(OldBuild::Kept(past))
}

/// What is kept of a build with these findings if all of them are races and stale reads, else the
/// findings.
fn kept_or_unsure(
    alloc: Global,
    subject: &Subject<'_>,
    found: Findings,
) -> Result<OldBuild, AllocError>
    requires some { ¬ (found ≡ []) }
    requires found { AreFindings subject.now found }
    ensures { IfOk result (λ old. IsOld subject.now old) }
{
    match first_static(alloc, subject)? {
        Some(_) => Ok(OldBuild::Unsure(found)),
        None => kept(alloc, subject, found.as_slice()),
    }
}

/// What is known of the old build with this subject.
fn old_of(alloc: Global, subject: &Subject<'_>) -> Result<OldBuild, AllocError>
    ensures { IfOk result (λ old. IsOld subject.now old) }
{
    no_findings();
    match verdict_of(alloc, subject)? {
        Verdict::Yes { .. } => kept(alloc, subject, &[]),
        Verdict::No(found) => kept_or_unsure(alloc, subject, found),
    }
}

/// Keeps the old build.
#[derive(Drop)]
struct KeepOld;

impl Judge for KeepOld {
    type Answer = OldBuild;

    ghost judges = { λ _ _ x answer. GivesOld x answer };

    fn is_brief(&self) -> bool {
        false
    }

    fn judge<F: Files>(
        &self,
        alloc: Global,
        _files: &mut F,
        subject: &Subject<'_>,
    ) -> Result<OldBuild, Fault> {
        let found = old_of(alloc, subject)?;
        Ok(found)
    }

    ghost not_read = { λ _ _ x fault. old_not_read x fault };
}

/// What is known of the old build that these files hold. The error is the first fault in this
/// order: the words (35, 27), the options (35, 27), then as `check` lists them.
pub fn old_build<F: Files>(
    alloc: Global,
    files: &mut F,
    request: &Request,
) -> Result<OldBuild, Fault>
    ensures keeps { Keeps (F.fits files.old) (F.fits files.new) }
    ensures answer { IfFits (F.fits files.new) (λ was. AnswersOld was request.now result) }
    ensures memory { IfErr result (λ fault. is_out_of_memory fault ≡ true → fault ≡ Memory) }
    ensures noted { NotesFailure (F.failed files.old) (F.failed files.new) result }
{
    match before(alloc, files, request) {
        Ok(asked) => answer_judged(alloc, files, &asked, KeepOld),
        Err(fault) => Err(fault),
    }
}
