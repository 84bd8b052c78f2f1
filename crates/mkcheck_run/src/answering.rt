//! Carries out a command.

ghost use Rattle.std.specs.Prelude.{◌≡◌, ◌∷◌, ◌++◌, [], None, Some, IfErr, IfOk, OnErr, OnOk};
ghost use Rattle.std.specs.Option.{option_map};
ghost use Rattle.std.specs.String.{string_bytes};
ghost use Rattle.mk_core.specs.Files.{IfFits, Keeps, Told};
ghost use Rattle.mk_core_text.specs.declared.fault.Fault.TheVariants.{Memory};
ghost use Rattle.mk_core.specs.Answer.{NotesFailure};
ghost use Rattle.mk_core.specs.Ready.{macros_for};
ghost use Rattle.mk_core.specs.Right.{IsRightFor};
ghost use Rattle.mk_cert_text.specs.Writing.{value_of};
ghost use Rattle.serde_json.specs.Written.{compact_text};
ghost use Rattle.mk_command.specs.Invocation.{request_in};
ghost use Rattle.mk_core_repair.specs.Outcome.{outcome_of};
ghost use Rattle.mkcheck_run.specs.Run.{AnswersInvocation, AnswersOver, Promises, evidence_response, form_response, plan_response, lines_response, repair_in_json, repair_response, repair_status, lines_printed, explain_response, explained_response, first_explained, first_near, instead_text, is_words, near, printed_response, json_response, noted_response, run_printed, run_response, run_status, since_response, since_status, text_response, unknown_text, verdict_response, words_response, response_without_plan, since_in_json, since_lines, yes_note};
ghost use Rattle.mk_command.specs.declared.invocation.Invocation.TheVariants.{Check, CheckInJson, CheckInWords, Explain, Graph, Repair as Mend, Simulate, Since as Compare, Verify};

use crate::running::{DONE, NO, REFUSED};
use mk_cert_text::{Certificate, certificate_text};
use mk_command::{Form, Invocation};
use mk_core::{
    Fault, Files, Name, Names, Request, Simulation, Verdict, check, drop_or_leak, graph_text,
    render, run_text, run_words, simulate, verify_text,
};
use mk_core_evidence::{Evidence, evidence_or_verdict};
use mk_core_json::{
    InJson, check_in_json, mended_in_json, named_in_json, old_refusal_in_json, printed_in_json,
    run_in_json, told_in_json, unmended_in_json,
};
use mk_core_repair::{Repair, repair, repair_message, repair_part, repair_text};
use mk_core_sentences::{InWords, check_in_words};
use mk_core_since::{Change, Folder, Since, since, since_message, since_output};
use mk_explain::{explain, near_words, overview};
use mk_read_files::Cause;
use std::alloc::{AllocError, Global};
use std::marker::Model;

/// The response to a command: a text for standard output, one for standard error, and the exit
/// status.
#[derive(Debug, Drop)]
pub struct Response {
    /// The text for standard output.
    pub text: Vec<u8>,
    /// The text for standard error.
    pub err: Vec<u8>,
    /// The exit status: 0 for yes or done, 1 for no, 2 for a refusal.
    pub status: u8,
}

impl Model for Response {
    ghost use Rattle.mkcheck_run.specs.Run as value;

    ghost Value = { value.Response };

    ghost view = { λ s. record {
      text = s.text.items;
      err = s.err.items;
      status = s.status;
    } };
}

// The response with this text and status 0: for a graph, and for a certificate that is accepted.
fn text_response(alloc: Global, text: Vec<u8>) -> Response
    ensures { result ≡ text_response text.items }
{
    printed_response(alloc, text, DONE)
}

// The response with this text and this status, and nothing for standard error.
fn printed_response(alloc: Global, text: Vec<u8>, status: u8) -> Response
    ensures { result ≡ printed_response text.items status }
{
    Response {
        text,
        err: Vec::new(alloc),
        status,
    }
}

// The certificate on one line.
fn certificate_line(alloc: Global, certificate: &Certificate) -> Result<Vec<u8>, AllocError>
    ensures { IfOk result (λ text. text.items ≡
        compact_text (value_of certificate.now) ++ 10 ∷ []) }
{
    let mut text = certificate_text(alloc, certificate)?.into_bytes();
    text.push(b'\n')?;
    Ok(text)
}

// The response with a verdict, or with its certificate alone.
fn verdict_response(
    alloc: Global,
    verdict: &Verdict,
    only_certificate: bool,
) -> Result<Response, AllocError>
    ensures { IfOk result (λ shown. shown ≡ verdict_response only_certificate verdict.now) }
{
    match verdict {
        Verdict::Yes { certificate, .. } if only_certificate => {
            Ok(text_response(alloc, certificate_line(alloc, certificate)?))
        }
        Verdict::Yes { .. } => Ok(text_response(alloc, render(alloc, verdict)?)),
        Verdict::No(_) => Ok(printed_response(alloc, render(alloc, verdict)?, NO)),
    }
}

// The response with a plan that shows a finding: status 1.
fn plan_response(alloc: Global, plan: Vec<u8>) -> Response
    ensures { result ≡ plan_response plan.items }
{
    printed_response(alloc, plan, NO)
}

// The response with a verdict where a plan alone was asked for and there is none: a yes as usual,
// for a no `no plan`.
fn response_without_plan(
    alloc: Global,
    verdict: &Verdict,
    only_certificate: bool,
) -> Result<Response, AllocError>
    ensures { IfOk result (λ shown. shown ≡ response_without_plan only_certificate verdict.now) }
{
    match verdict {
        Verdict::Yes { .. } => verdict_response(alloc, verdict, only_certificate),
        Verdict::No(_) => Ok(plan_response(alloc, Vec::from_slice(alloc, b"no plan\n")?)),
    }
}

// The text of a run in this form.
fn run_printed(alloc: Global, form: Form, run: Simulation) -> Result<Vec<u8>, AllocError>
    ensures { IfOk result (λ text. text.items ≡ run_printed form run) }
{
    match form {
        Form::Lines => run_text(alloc, run),
        Form::Words => run_words(alloc, run),
        Form::Json => run_in_json(alloc, &run),
    }
}

// The status of the run of a plan: 2 where a line was refused.
fn run_status(run: &Simulation) -> u8
    ensures { result ≡ run_status run.now }
{
    if run.refused.is_some() { REFUSED } else { DONE }
}

// The response with the run of a plan: status 2 where a line was refused.
fn run_response(alloc: Global, form: Form, run: Simulation) -> Result<Response, AllocError>
    ensures { IfOk result (λ shown. shown ≡ run_response form run) }
{
    let status = run_status(&run);
    let text = run_printed(alloc, form, run)?;
    Ok(printed_response(alloc, text, status))
}

// The response with the text of a graph, or of a certificate that is accepted, in this form.
fn form_response(alloc: Global, form: Form, text: Vec<u8>) -> Result<Response, AllocError>
    ensures { IfOk result (λ shown. shown ≡ form_response form text.items) }
{
    match form {
        Form::Lines | Form::Words => Ok(text_response(alloc, text)),
        Form::Json => Ok(text_response(alloc, printed_in_json(alloc, &text)?)),
    }
}

// Carries out `check` without `-e`.
fn answer_check<F: Files>(
    alloc: Global,
    files: &mut F,
    request: &Request,
    only_certificate: bool,
) -> Result<Response, Fault>
    ensures keeps { Keeps (F.fits files.old) (F.fits files.new) }
    ensures answer { IfFits (F.fits files.new)
        (λ told. AnswersInvocation told (Check request.now only_certificate None) result) }
    ensures right { IfFits (F.fits files.new)
        (λ told. IfOk result (λ shown. shown.status ≡ 0 → IsRightFor told request.now)) }
    ensures noted { NotesFailure (F.failed files.old) (F.failed files.new) result }
    ensures untouched { OnErr (macros_for request.now) (files.new ≡ files.old) }
{
    let verdict = check(alloc, files, request)?;
    let shown = verdict_response(alloc, &verdict, only_certificate)?;
    drop_or_leak(verdict, request.leaves_memory);
    Ok(shown)
}

// The response with a plan or, where there is none, with the verdict.
fn evidence_response(
    alloc: Global,
    evidence: Evidence,
    only_certificate: bool,
) -> Result<Response, AllocError>
    ensures { IfOk result (λ shown. shown ≡ evidence_response only_certificate evidence) }
{
    match evidence {
        Evidence::Plan(plan) => Ok(plan_response(alloc, plan)),
        Evidence::NoPlan(verdict) => response_without_plan(alloc, &verdict, only_certificate),
    }
}

// Carries out `check -e`: the plan that shows the finding with this number, or the verdict where
// there is no such plan.
fn answer_plan<F: Files>(
    alloc: Global,
    files: &mut F,
    request: &Request,
    only_certificate: bool,
    number: u64,
) -> Result<Response, Fault>
    ensures keeps { Keeps (F.fits files.old) (F.fits files.new) }
    ensures answer { IfFits (F.fits files.new)
        (λ told. AnswersInvocation told (Check request.now only_certificate (Some number)) result) }
    ensures right { IfFits (F.fits files.new)
        (λ told. IfOk result (λ shown. shown.status ≡ 0 → IsRightFor told request.now)) }
    ensures noted { NotesFailure (F.failed files.old) (F.failed files.new) result }
    ensures untouched { OnErr (macros_for request.now) (files.new ≡ files.old) }
{
    let evidence = evidence_or_verdict(alloc, files, request, number)?;
    let shown = evidence_response(alloc, evidence, only_certificate)?;
    Ok(shown)
}

// What follows a yes in words: that nothing was judged, if the goals reach no recipe.
fn yes_note(verdict: &Verdict, only_certificate: bool) -> &'static str
    ensures { result.now ≡ yes_note only_certificate verdict.now }
{
    match verdict {
        Verdict::Yes { recipes: 0, .. } if !only_certificate => {
            "the goals reach no recipe, so nothing was judged; name other goals\n"
        }
        _ => "",
    }
}

// The response with a verdict in words: a yes as without words, and that nothing was judged, if that
// is so.
fn noted_response(
    alloc: Global,
    verdict: &Verdict,
    only_certificate: bool,
) -> Result<Response, AllocError>
    ensures { IfOk result (λ shown. shown ≡ noted_response only_certificate verdict.now) }
{
    let mut shown = verdict_response(alloc, verdict, only_certificate)?;
    let note = yes_note(verdict, only_certificate);
    shown.text.extend_from_slice(note.as_bytes())?;
    Ok(shown)
}

// The response with a verdict in words.
fn words_response(
    alloc: Global,
    found: InWords,
    only_certificate: bool,
) -> Result<Response, AllocError>
    ensures { IfOk result (λ shown. shown ≡ words_response only_certificate found) }
{
    match found {
        InWords::Yes(verdict) => noted_response(alloc, &verdict, only_certificate),
        InWords::No(text) => Ok(printed_response(alloc, text, NO)),
    }
}

// Carries out `check -w`.
fn answer_in_words<F: Files>(
    alloc: Global,
    files: &mut F,
    request: &Request,
    only_certificate: bool,
) -> Result<Response, Fault>
    ensures keeps { Keeps (F.fits files.old) (F.fits files.new) }
    ensures answer { IfFits (F.fits files.new)
        (λ told. AnswersInvocation told (CheckInWords request.now only_certificate) result) }
    ensures right { IfFits (F.fits files.new)
        (λ told. IfOk result (λ shown. shown.status ≡ 0 → IsRightFor told request.now)) }
    ensures noted { NotesFailure (F.failed files.old) (F.failed files.new) result }
    ensures untouched { OnErr (macros_for request.now) (files.new ≡ files.old) }
{
    let found = check_in_words(alloc, files, request)?;
    let shown = words_response(alloc, found, only_certificate)?;
    Ok(shown)
}

// The response with a verdict as JSON.
fn json_response(alloc: Global, found: InJson) -> Response
    ensures { result ≡ json_response found }
{
    match found {
        InJson::Yes(text) => text_response(alloc, text),
        InJson::No(text) => printed_response(alloc, text, NO),
    }
}

// Carries out `check --json`.
fn answer_in_json<F: Files>(
    alloc: Global,
    files: &mut F,
    request: &Request,
) -> Result<Response, Fault>
    ensures keeps { Keeps (F.fits files.old) (F.fits files.new) }
    ensures answer { IfFits (F.fits files.new)
        (λ told. AnswersInvocation told (CheckInJson request.now) result) }
    ensures right { IfFits (F.fits files.new)
        (λ told. IfOk result (λ shown. shown.status ≡ 0 → IsRightFor told request.now)) }
    ensures noted { NotesFailure (F.failed files.old) (F.failed files.new) result }
    ensures untouched { OnErr (macros_for request.now) (files.new ≡ files.old) }
{
    let found = check_in_json(alloc, files, request)?;
    Ok(json_response(alloc, found))
}

// The explanation of the first of the words that has one.
fn first_explained(alloc: Global, words: &[Name]) -> Result<Option<String>, AllocError>
    ensures { IfOk result (λ told. option_map string_bytes told ≡ first_explained words.now) }
{
    for word in words {
        if let Some(text) = explain(alloc, word.as_str())? {
            return Ok(Some(text));
        }
    }
    Ok(None)
}

// What begins like this word among what is explained, if something does.
fn near(alloc: Global, word: &str) -> Result<Option<String>, AllocError>
    ensures { IfOk result (λ told. option_map string_bytes told ≡ near word.now) }
{
    let text = near_words(alloc, word)?;
    if text.is_empty() {
        return Ok(None);
    }
    Ok(Some(text))
}

// What begins like the first of the words for which there is such a thing.
fn first_near(alloc: Global, words: &[Name]) -> Result<Option<String>, AllocError>
    ensures { IfOk result (λ told. option_map string_bytes told ≡ first_near words.now) }
{
    for word in words {
        if let Some(text) = near(alloc, word.as_str())? {
            return Ok(Some(text));
        }
    }
    Ok(None)
}

// What to look up in place of words that aren't explained.
fn instead_text(alloc: Global, near: Option<String>) -> Result<Vec<u8>, AllocError>
    ensures { IfOk result (λ text. text.items ≡ instead_text (option_map string_bytes near)) }
{
    match near {
        Some(near) => {
            let mut text = Vec::from_slice(alloc, b"these begin alike: ")?;
            text.extend_from_slice(near.as_bytes())?;
            Ok(text)
        }
        None => Vec::from_slice(alloc, b"mkcheck explain lists those that are"),
    }
}

// What standard error gets where none of the words is explained.
fn unknown_text(alloc: Global, words: &[Name]) -> Result<Vec<u8>, AllocError>
    ensures { IfOk result (λ text. text.items ≡ unknown_text words.now) }
{
    let instead = instead_text(alloc, first_near(alloc, words)?)?;
    let mut text = Vec::from_slice(alloc, b"error: none of these words is explained; ")?;
    text.extend_from_slice(&instead)?;
    text.push(b'\n')?;
    Ok(text)
}

// The response with the explanation of the first of the words that has one, or with status 2 where
// none has.
fn explained_response(alloc: Global, words: &[Name]) -> Result<Response, AllocError>
    ensures { IfOk result (λ shown. shown ≡
        explained_response words.now (first_explained words.now)) }
{
    match first_explained(alloc, words)? {
        Some(text) => Ok(text_response(alloc, text.into_bytes())),
        None => Ok(Response {
            text: Vec::new(alloc),
            err: unknown_text(alloc, words)?,
            status: REFUSED,
        }),
    }
}

// The response to `explain`.
fn explain_response(alloc: Global, words: &[Name]) -> Result<Response, AllocError>
    ensures { IfOk result (λ shown. shown ≡ explain_response words.now) }
{
    match words {
        [] => Ok(text_response(alloc, overview(alloc)?.into_bytes())),
        [_, ..] => explained_response(alloc, words),
    }
}

// Carries out `explain`. The only error is out of memory.
fn answer_explain(alloc: Global, words: &Names) -> Result<Response, Fault>
    ensures answer { (told : Told) → AnswersInvocation told (Explain words.now) result }
    ensures memory { IfErr result (λ fault. fault ≡ Memory) }
{
    let shown = explain_response(alloc, words.as_slice())?;
    Ok(shown)
}

// The status of what comes of mending: 1 where nothing known mends the makefile.
fn repair_status(found: &Repair) -> u8
    ensures { result ≡ repair_status (outcome_of found.now) }
{
    match found {
        Repair::Right | Repair::Mended(_) => DONE,
        Repair::Unmended(..) => NO,
    }
}

// What comes of mending, as JSON, always with the lines for a part of the findings.
fn repair_in_json(alloc: Global, found: &Repair) -> Result<Vec<u8>, AllocError>
    ensures { IfOk result (λ text. text.items ≡ repair_in_json (outcome_of found.now)) }
{
    match found {
        Repair::Right | Repair::Mended(_) => {
            let text = repair_text(alloc, found)?;
            mended_in_json(alloc, &text)
        }
        Repair::Unmended(..) => {
            let message = repair_message(alloc, found)?;
            unmended_in_json(alloc, &message, repair_part(found))
        }
    }
}

// The lines for standard output, also those for a part of the findings where these are asked
// for.
fn lines_printed(alloc: Global, found: &Repair, part: bool) -> Result<Vec<u8>, AllocError>
    ensures { IfOk result (λ text. text.items ≡ lines_printed part (outcome_of found.now)) }
{
    if part {
        return Vec::from_slice(alloc, repair_part(found));
    }
    repair_text(alloc, found)
}

// The response with what comes of mending, in lines.
fn lines_response(alloc: Global, found: &Repair, part: bool) -> Result<Response, AllocError>
    ensures { IfOk result (λ shown. shown ≡ lines_response part (outcome_of found.now)) }
{
    let text = lines_printed(alloc, found, part)?;
    let err = repair_message(alloc, found)?;
    Ok(Response {
        text,
        err,
        status: repair_status(found),
    })
}

// The response with what comes of mending, in this form.
fn repair_response(
    alloc: Global,
    form: Form,
    found: &Repair,
    part: bool,
) -> Result<Response, AllocError>
    ensures { IfOk result (λ shown. shown ≡ repair_response form part found.now) }
{
    match form {
        Form::Lines | Form::Words => lines_response(alloc, found, part),
        Form::Json => {
            let text = repair_in_json(alloc, found)?;
            Ok(printed_response(alloc, text, repair_status(found)))
        }
    }
}

// The response with what comes of mending, in this form. What came of it is dropped, or leaked
// where memory may be left. The only error is out of memory.
fn mending_shown(
    alloc: Global,
    form: Form,
    found: Repair,
    part: bool,
    leaves_memory: bool,
) -> Result<Response, AllocError>
    ensures { IfOk result (λ shown. shown ≡ repair_response form part found) }
{
    let shown = repair_response(alloc, form, &found, part);
    drop_or_leak(found, leaves_memory);
    shown
}

// Carries out `repair`.
fn answer_repair<F: Files>(
    alloc: Global,
    files: &mut F,
    request: &Request,
    form: Form,
    part: bool,
) -> Result<Response, Fault>
    ensures keeps { Keeps (F.fits files.old) (F.fits files.new) }
    ensures answer { IfFits (F.fits files.new)
        (λ told. AnswersInvocation told (Mend request.now form part) result) }
    ensures right { IfFits (F.fits files.new)
        (λ told. IfOk result (λ shown.
        shown.status ≡ 0 → Promises told (Mend request.now form part) shown.text)) }
    ensures noted { NotesFailure (F.failed files.old) (F.failed files.new) result }
    ensures untouched { OnErr (macros_for request.now) (files.new ≡ files.old) }
{
    let found = repair(alloc, files, request)?;
    let shown = mending_shown(alloc, form, found, part, request.leaves_memory)?;
    Ok(shown)
}

// Carries out `graph`.
fn answer_graph<F: Files>(
    alloc: Global,
    files: &mut F,
    request: &Request,
    form: Form,
) -> Result<Response, Fault>
    ensures keeps { Keeps (F.fits files.old) (F.fits files.new) }
    ensures answer { IfFits (F.fits files.new)
        (λ told. AnswersInvocation told (Graph request.now form) result) }
    ensures noted { NotesFailure (F.failed files.old) (F.failed files.new) result }
    ensures untouched { OnErr (macros_for request.now) (files.new ≡ files.old) }
{
    let text = graph_text(alloc, files, request)?;
    let shown = form_response(alloc, form, text)?;
    Ok(shown)
}

// Carries out `verify`.
fn answer_verify<F: Files>(
    alloc: Global,
    files: &mut F,
    request: &Request,
    certificate: &Name,
    form: Form,
) -> Result<Response, Fault>
    ensures keeps { Keeps (F.fits files.old) (F.fits files.new) }
    ensures answer { IfFits (F.fits files.new)
        (λ told. AnswersInvocation told (Verify request.now certificate.now form) result) }
    ensures right { IfFits (F.fits files.new)
        (λ told. IfOk result (λ shown. shown.status ≡ 0 → IsRightFor told request.now)) }
    ensures noted { NotesFailure (F.failed files.old) (F.failed files.new) result }
    ensures untouched { OnErr (macros_for request.now) (files.new ≡ files.old) }
{
    let text = verify_text(alloc, files, request, certificate.as_str())?;
    let shown = form_response(alloc, form, text)?;
    Ok(shown)
}

// Carries out `simulate`.
fn answer_plan_run<F: Files>(
    alloc: Global,
    files: &mut F,
    request: &Request,
    plan: &Name,
    form: Form,
) -> Result<Response, Fault>
    ensures keeps { Keeps (F.fits files.old) (F.fits files.new) }
    ensures answer { IfFits (F.fits files.new)
        (λ told. AnswersInvocation told (Simulate request.now plan.now form) result) }
    ensures noted { NotesFailure (F.failed files.old) (F.failed files.new) result }
    ensures untouched { OnErr (macros_for request.now) (files.new ≡ files.old) }
{
    let run = simulate(alloc, files, request, plan.as_str())?;
    let shown = run_response(alloc, form, run)?;
    Ok(shown)
}

// The status of what comes of `since`: 1 for findings, 2 where the old build is refused.
fn since_status(found: &Since) -> u8
    ensures { result ≡ since_status found.now }
{
    match found {
        Since::Named(_) => DONE,
        Since::No(..) | Since::Unsure(_) => NO,
        Since::Refused(_) => REFUSED,
    }
}

// What comes of `since`, as JSON.
fn since_in_json(alloc: Global, found: &Since, cause: Cause) -> Result<Vec<u8>, AllocError>
    ensures { IfOk result (λ text. text.items ≡ since_in_json cause found.now) }
{
    match found {
        Since::Named(names) => named_in_json(alloc, names.as_slice()),
        Since::No(found, _) => told_in_json(alloc, "new", found.as_slice()),
        Since::Unsure(found) => told_in_json(alloc, "old", found.as_slice()),
        Since::Refused(fault) => old_refusal_in_json(alloc, fault, cause),
    }
}

// The response with what comes of `since`, in lines; a refusal in words where a cause is given.
fn since_lines(
    alloc: Global,
    found: &Since,
    folder: &str,
    cause: Option<Cause>,
) -> Result<Response, AllocError>
    ensures { IfOk result (λ shown. shown ≡ since_lines folder.now cause found.now) }
{
    let text = since_output(alloc, found)?;
    let err = since_message(alloc, found, folder, cause)?;
    Ok(Response {
        text,
        err,
        status: since_status(found),
    })
}

// The response with what comes of `since` in this form, given the cause of the last failed read.
fn since_response(
    alloc: Global,
    form: Form,
    cause: Cause,
    found: &Since,
    folder: &str,
) -> Result<Response, AllocError>
    ensures { IfOk result (λ shown. shown ≡ since_response form cause folder.now found.now) }
{
    match form {
        Form::Lines => since_lines(alloc, found, folder, None),
        Form::Words => since_lines(alloc, found, folder, Some(cause)),
        Form::Json => {
            let text = since_in_json(alloc, found, cause)?;
            Ok(printed_response(alloc, text, since_status(found)))
        }
    }
}

// Whether the form is that of words.
fn is_words(form: Form) -> bool
    ensures { result ≡ is_words form }
{
    matches!(form, Form::Words)
}

// Carries out `since`.
fn answer_since<F: Files, B: Folder>(
    alloc: Global,
    files: &mut F,
    below: &mut B,
    change: &Change<'_>,
    form: Form,
) -> Result<Response, Fault>
    ensures keeps { Keeps (F.fits files.old) (F.fits files.new) }
    ensures answer { IfFits (B.fits below.new)
        (λ was. IfFits (F.fits files.new)
        (λ told. AnswersOver was told
        (Compare change.now.request.now change.now.folder.now form) result)) }
    ensures noted { NotesFailure (F.failed files.old) (F.failed files.new) result }
    ensures untouched { OnErr (macros_for change.now.request.now) (files.new ≡ files.old) }
{
    below.enter(alloc, change.folder)?;
    let found = since(alloc, below, files, change, is_words(form))?;
    let shown = since_response(alloc, form, below.cause(), &found, change.folder)?;
    drop_or_leak(found, change.request.leaves_memory);
    Ok(shown)
}

/// Carries out a command, and returns the response. Only `since` reads by `below`. On an error
/// nothing is returned; the error is the first fault, or `Memory`, out of memory. Status 0 for
/// `check` and `verify` says that the build is right, and for `repair` that it is with the text
/// appended to the makefile.
pub fn answer<F: Files, B: Folder>(
    alloc: Global,
    files: &mut F,
    below: &mut B,
    asked: &Invocation,
) -> Result<Response, Fault>
    ensures keeps { Keeps (F.fits files.old) (F.fits files.new) }
    ensures answer { IfFits (B.fits below.new)
        (λ was. IfFits (F.fits files.new) (λ told. AnswersOver was told asked.now result)) }
    ensures right { IfFits (F.fits files.new)
        (λ told. IfOk result (λ shown.
        shown.status ≡ 0 → Promises told asked.now shown.text)) }
    ensures noted { NotesFailure (F.failed files.old) (F.failed files.new) result }
    ensures untouched { OnErr (macros_for (request_in asked.now)) (files.new ≡ files.old) }
{
    match asked {
        Invocation::Graph { request, form } => answer_graph(alloc, files, request, *form),
        Invocation::Check {
            request,
            only_certificate,
            evidence: None,
        } => answer_check(alloc, files, request, *only_certificate),
        Invocation::Check {
            request,
            only_certificate,
            evidence: Some(number),
        } => answer_plan(alloc, files, request, *only_certificate, *number),
        Invocation::CheckInWords {
            request,
            only_certificate,
        } => answer_in_words(alloc, files, request, *only_certificate),
        Invocation::CheckInJson(request) => answer_in_json(alloc, files, request),
        Invocation::Repair {
            request,
            form,
            part,
        } => answer_repair(alloc, files, request, *form, *part),
        Invocation::Explain(words) => answer_explain(alloc, words),
        Invocation::Verify {
            request,
            certificate,
            form,
        } => answer_verify(alloc, files, request, certificate, *form),
        Invocation::Since {
            request,
            folder,
            form,
        } => {
            let change = Change {
                request,
                folder: folder.as_str(),
            };
            answer_since(alloc, files, below, &change, *form)
        }
        Invocation::Simulate {
            request,
            plan,
            form,
        } => answer_plan_run(alloc, files, request, plan, *form),
    }
}
