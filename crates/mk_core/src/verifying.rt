//! The command `verify`.

ghost use Rattle.std.specs.Prelude.{◌≡◌, ℕ, List, true, IfErr, OnOk, OnErr};
ghost use Rattle.mk_read.specs.Files.{IfFits, Keeps};
ghost use Rattle.mk_core.specs.NotRead.{verified_not_read};
ghost use Rattle.mk_core.specs.Answer.{Answers, NotesFailure, failing_of};
ghost use Rattle.mk_core.specs.Ready.{macros_for};
ghost use Rattle.mk_core.specs.FileText.{text_of};
ghost use Rattle.mk_core.specs.Right.{IsRightFor};
ghost use Rattle.mk_core.specs.Steps.{is_out_of_memory, seen};
ghost use Rattle.mk_core.specs.VerifyAnswer.{AnswersVerify, VerifiesCertificate, VerifiesText};
ghost use Rattle.mk_core.specs.Views.{AcceptsOver, VerifiesOver};
ghost use Rattle.mk_core_text.specs.declared.fault.Fault.TheVariants.{Memory};

use crate::file_text::file_text;
use crate::judging::{Judge, answer_judged};
use crate::laws::accepted_is_right;
use crate::request::Request;
use mk_cert::verify;
use mk_cert_text::{Certificate, read_certificate};
use mk_core_text::{Fault, yes_line};
use mk_lines::Name;
use mk_read_files::Files;
use mk_subject::{Subject, counts};
use std::alloc::Global;

/// The answer to a certificate: `yes N recipes M reads`, or its fault (73 to 76).
fn accepted(
    alloc: Global,
    subject: &Subject<'_>,
    certificate: &Certificate,
) -> Result<Vec<u8>, Fault>
    ensures answer { AcceptsOver subject.now certificate.now (seen (λ text. text.items) result) }
    ensures memory { IfErr result (λ fault. is_out_of_memory fault ≡ true → fault ≡ Memory) }
    ensures noted { (failed : List (List ℕ)) → NotesFailure failed failed result }
{
    verify(alloc, subject, certificate)?;
    let (recipes, reads) = counts(subject);
    let line = yes_line(alloc, recipes, reads)?;
    Ok(line)
}

/// The answer to the certificate in the file with this name.
fn verified<F: Files>(
    alloc: Global,
    files: &mut F,
    subject: &Subject<'_>,
    name: &str,
) -> Result<Vec<u8>, Fault>
    ensures keeps { Keeps (F.fits files.old) (F.fits files.new) }
    ensures answer { IfFits (F.fits files.new)
        (λ told. VerifiesOver told name.now subject.now (seen (λ text. text.items) result)) }
    ensures memory { IfErr result (λ fault. is_out_of_memory fault ≡ true → fault ≡ Memory) }
    ensures noted { NotesFailure (F.failed files.old) (F.failed files.new) result }
{
    let text = file_text(alloc, files, name)?;
    let certificate = read_certificate(alloc, &text)?;
    accepted(alloc, subject, &certificate)
}

/// The command `verify`, with the name of the certificate file.
#[derive(Drop)]
struct VerifyBuild<'a> {
    name: &'a str,
}

impl Judge for VerifyBuild<'_> {
    type Answer = Vec<u8>;

    ghost judges = { λ v told x answer.
        VerifiesText x (text_of told (failing_of answer) v.name.now)
        (seen (λ text. text.items) answer) };

    fn is_brief(&self) -> bool {
        true
    }

    fn judge<F: Files>(
        &self,
        alloc: Global,
        files: &mut F,
        subject: &Subject<'_>,
    ) -> Result<Vec<u8>, Fault> {
        verified(alloc, files, subject, self.name)
    }

    ghost not_read = { λ v told x fault. verified_not_read told v.name.now x fault };
}

/// What `mkcheck verify` prints if the certificate in the file with this name shows that the build
/// of the goals is right: `yes N recipes M reads`.
///
/// After a yes all holds that `check` promises of a yes.
///
/// The error is the first fault in this order: those that `check` lists; the certificate file (35,
/// 38, 71, 72); `OtherGoals` (73), `Static` (76), `BadWay` (75) for the first bad entry, `NoWay`
/// (74) for the first read without an entry. Out of memory can come in place of any result.
pub fn verify_text<F: Files>(
    alloc: Global,
    files: &mut F,
    request: &Request,
    certificate: &str,
) -> Result<Vec<u8>, Fault>
    ensures keeps { Keeps (F.fits files.old) (F.fits files.new) }
    ensures answer { IfFits (F.fits files.new)
        (λ told.
        Answers told request.now (AnswersVerify told certificate.now)
        (seen (λ text. text.items) result)) }
    ensures right { IfFits (F.fits files.new)
        (λ told. OnOk result (IsRightFor told request.now)) }
    ensures memory { IfErr result (λ fault. is_out_of_memory fault ≡ true → fault ≡ Memory) }
    ensures noted { NotesFailure (F.failed files.old) (F.failed files.new) result }
    ensures untouched { OnErr (macros_for request.now) (files.new ≡ files.old) }
{
    accepted_is_right();
    let judge = VerifyBuild { name: certificate };
    answer_judged(alloc, files, request, judge)
}
