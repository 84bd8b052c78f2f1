//! Runs the program over the words of its command line.

ghost use Rattle.std.specs.Prelude.{ℕ, List, Option, length, ◌≡◌, ◌≢◌, ◌<◌, ◌^◌, [], true, map, Err, IfOk, OnErr};
ghost use Rattle.clap.specs.Words.{has_subcommand, kind_of, subcommand_rows_of};
ghost use Rattle.mk_core.specs.Files.{IfFits, Keeps};
ghost use Rattle.mk_core.specs.Ready.{macros_for};
ghost use Rattle.mk_core_sentences.specs.RefusedLine.{FindsLine};
ghost use Rattle.mk_command.specs.Invocation.{AreRefusedUnread, invocation_of, asked_with, asking, faults_of, form_of, request_in};
ghost use Rattle.mk_command.specs.CommandLine.{HasNoOption, graph_words};
ghost use Rattle.mkcheck_host.specs.Outcome.{written};
ghost use Rattle.mkcheck_run.specs.Run.{Explains, IsAnswered, IsRefused, Promises, Shows, line_shown, refusal_text, refusal_written, since_refusal};
ghost use Rattle.mk_command.specs.declared.invocation.Form.TheVariants.{Lines};
ghost use Rattle.mk_command.specs.declared.invocation.Invocation.TheVariants.{Graph};

use crate::answering::{Response, answer};
use clap::error::ErrorKind;
use clap::{ArgMatches, Error};
use mk_command::{Form, Invocation, command_line, form_of, invocation_by, request_of};
use mk_core::{Fault, Files, fault_text};
use mk_core_sentences::line_of_fault;
use mk_core_since::Folder;
use mk_core_text::caused_words;
use mk_read_files::Cause;
use mkcheck_host::{FAULT, Outcome};
use std::alloc::{AllocError, Global};
use std::convert::AsStr;

/// The exit status of a yes, of any other success, of help and of the version.
pub const DONE: u8 = 0;

/// The exit status of a no.
pub const NO: u8 = 1;

/// The exit status of a refusal.
pub const REFUSED: u8 = 2;

// What is printed for a refusal, given the cause of the last failed read, and the line of a file
// that is shown for it.
fn refusal_text(
    alloc: Global,
    form: Form,
    fault: &Fault,
    cause: Cause,
    line: &[u8],
) -> Result<Vec<u8>, AllocError>
    ensures { IfOk result (λ text. text.items ≡ refusal_text form fault.now cause line.now) }
{
    let mut text = match form {
        Form::Lines => fault_text(alloc, fault)?,
        Form::Words => caused_words(alloc, fault, cause)?,
        Form::Json => mk_core_json::refusal_text(alloc, fault, cause, line)?,
    };
    text.push(b'\n')?;
    if let Form::Words = form {
        text.extend_from_slice(line)?;
    }
    Ok(text)
}

// The line of a file that is shown for the refusal, with its newline; nothing where there is none.
fn line_after<F: Files>(
    alloc: Global,
    files: &mut F,
    asked: &Invocation,
    fault: &Fault,
) -> Result<Vec<u8>, AllocError>
    ensures keeps { Keeps (F.fits files.old) (F.fits files.new) }
    ensures line { IfOk result (λ line. FindsLine (F.fits files.new) (F.failed files.old)
        (F.failed files.new) (line_shown asked.now fault.now) line.items) }
    ensures untouched { OnErr (macros_for (request_in asked.now)) (files.new ≡ files.old) }
{
    match (form_of(asked), request_of(asked)) {
        (Form::Words | Form::Json, Some(request)) => line_of_fault(alloc, files, request, fault),
        _ => Ok(Vec::new(alloc)),
    }
}

// The outcome of a refusal of `since` with this text.
fn since_refusal(alloc: Global, form: Form, text: Vec<u8>) -> Outcome
    ensures { written result ≡ since_refusal form text.items }
{
    match form {
        Form::Json => Outcome {
            out: text,
            err: Vec::new(alloc),
            status: REFUSED,
        },
        Form::Lines | Form::Words => Outcome {
            out: Vec::new(alloc),
            err: text,
            status: REFUSED,
        },
    }
}

// The outcome of a refusal with this text.
fn refusal_outcome(alloc: Global, asked: &Invocation, text: Vec<u8>) -> Outcome
    ensures { written result ≡ refusal_written asked.now text.items }
{
    match asked {
        Invocation::Since { form, .. } => since_refusal(alloc, *form, text),
        _ => Outcome {
            out: text,
            err: Vec::new(alloc),
            status: REFUSED,
        },
    }
}

// The outcome of a refusal. Out of memory is an error.
fn refused<F: Files>(
    alloc: Global,
    files: &mut F,
    asked: &Invocation,
    fault: &Fault,
) -> Result<Outcome, AllocError>
    ensures keeps { Keeps (F.fits files.old) (F.fits files.new) }
    ensures shows { IfOk result (λ outcome. Shows (F.fits files.new) (F.failed files.old)
        (F.failed files.new) asked.now (Err fault.now) (written outcome)) }
    ensures untouched { OnErr (macros_for (request_in asked.now)) (files.new ≡ files.old) }
{
    if fault.is_out_of_memory() {
        return Err(AllocError);
    }
    let cause = files.cause();
    let line = line_after(alloc, files, asked, fault)?;
    let text = refusal_text(alloc, form_of(asked), fault, cause, &line)?;
    Ok(refusal_outcome(alloc, asked, text))
}

// The outcome of a response, or of the fault in its place.
fn shown<F: Files>(
    alloc: Global,
    files: &mut F,
    asked: &Invocation,
    answer: Result<Response, Fault>,
) -> Result<Outcome, AllocError>
    ensures keeps { Keeps (F.fits files.old) (F.fits files.new) }
    ensures shows { IfOk result (λ outcome. Shows (F.fits files.new) (F.failed files.old)
        (F.failed files.new) asked.now answer (written outcome)) }
    ensures untouched { OnErr (macros_for (request_in asked.now)) (files.new ≡ files.old) }
{
    match answer {
        Ok(shown) => Ok(Outcome {
            out: shown.text,
            err: shown.err,
            status: shown.status,
        }),
        Err(fault) => refused(alloc, files, asked, &fault),
    }
}

// What is said of a value of `-e`, the one option whose values are tested.
const BAD_NUMBER: &[u8] = b"\
error: -e takes the number of a finding, a whole number from 1 on

For more information, try '--help'.
";

// The text of a fault of the words without the tips that say how an option could be given as a
// WORD, each with the empty line behind it.
fn without_tips(alloc: Global, text: &str) -> Result<Vec<u8>, AllocError> {
    let mut out = Vec::new(alloc);
    let mut behind = false;
    for line in text.as_bytes().split(|byte| *byte == b'\n') {
        if line.starts_with(b"  tip: to pass '") {
            behind = true;
            continue;
        }
        if behind && line.is_empty() {
            behind = false;
            continue;
        }
        out.extend_from_slice(line)?;
        out.push(b'\n')?;
    }
    out.pop();
    Ok(out)
}

// The outcome where the words aren't a command: help or the version with status 0, a fault of the
// words with status 2.
fn explained(alloc: Global, error: &Error) -> Result<Outcome, AllocError>
    ensures { IfOk result (λ outcome. Explains (kind_of error.now) (written outcome)) }
{
    match error.kind() {
        ErrorKind::OutOfMemory => Err(AllocError),
        ErrorKind::DisplayHelp | ErrorKind::DisplayVersion => Ok(Outcome {
            out: error.to_string(alloc)?.into_bytes(),
            err: Vec::new(alloc),
            status: DONE,
        }),
        ErrorKind::ValueValidation => Ok(Outcome {
            out: Vec::new(alloc),
            err: Vec::from_slice(alloc, BAD_NUMBER)?,
            status: FAULT,
        }),
        _ => Ok(Outcome {
            out: Vec::new(alloc),
            err: without_tips(alloc, error.to_string(alloc)?.as_str())?,
            status: FAULT,
        }),
    }
}

// The outcome of the command that the matches give.
fn answered<F: Files, B: Folder>(
    alloc: Global,
    files: &mut F,
    below: &mut B,
    matches: &ArgMatches<'_>,
) -> Result<Outcome, AllocError>
    requires met { has_subcommand matches.now ≡ true }
    ensures keeps { Keeps (F.fits files.old) (F.fits files.new) }
    ensures answered { IfOk result (λ outcome. IsAnswered (B.fits below.new) (F.fits files.new)
        (F.failed files.old) (F.failed files.new)
        (asked_with (subcommand_rows_of matches.now)) (written outcome)) }
    ensures right { IfOk result (λ outcome. outcome.status ≡ 0 → IfFits (F.fits files.new)
        (λ told. Promises told (asked_with (subcommand_rows_of matches.now)) outcome.out.items)) }
    ensures untouched { OnErr
        (macros_for (request_in (asked_with (subcommand_rows_of matches.now))))
        (files.new ≡ files.old) }
{
    let (name, met) = matches.subcommand().unwrap();
    let asked = invocation_by(alloc, name, met)?;
    let found = answer(alloc, files, below, &asked);
    shown(alloc, files, &asked, found)
}

/// Parses the words after the program's name, and carries out the command that they give (the
/// standard's `make`, "Options", "Operands" and "Exit Status"). The outcome has status 0 for a yes
/// or any other success, and for help and the version; 1 for a no; 2 for a refusal, for the run of
/// a plan in which a line was refused, and for a fault of the words. Only `since` reads by `below`.
/// The only error is out of memory.
pub fn run<F: Files, B: Folder, S: AsStr>(
    alloc: Global,
    files: &mut F,
    below: &mut B,
    words: &[S],
) -> Result<Outcome, AllocError>
    ensures keeps { Keeps (F.fits files.old) (F.fits files.new) }

    // Words without a fault give a command, which is carried out.
    ensures taken { IfOk result (λ outcome. faults_of (map S.text words.now) ≡ [] →
        IsAnswered (B.fits below.new) (F.fits files.new) (F.failed files.old) (F.failed files.new)
        (invocation_of (map S.text words.now)) (written outcome)) }

    // Where the command judges a build, status 0 says that the build is right; where it mends one,
    // that it is right with the printed text appended to the makefile; for each map that fits what
    // was read.
    ensures right { IfOk result (λ outcome. faults_of (map S.text words.now) ≡ [] →
        outcome.status ≡ 0 → IfFits (F.fits files.new)
        (λ told. Promises told (invocation_of (map S.text words.now)) outcome.out.items)) }

    // Without any option but `-f F`, `graph [-f F] WORD..` is the command that it says.
    ensures plain { IfOk result (λ outcome. (makefile : Option (List ℕ)) (asked : List (List ℕ)) →
        map S.text words.now ≡ graph_words makefile asked → HasNoOption makefile asked →
        length asked < 2 ^ 64 →
        IsAnswered (B.fits below.new) (F.fits files.new) (F.failed files.old) (F.failed files.new)
        (Graph (asking makefile asked) Lines) (written outcome)) }

    // Words with a fault are refused.
    ensures refused { IfOk result (λ outcome. faults_of (map S.text words.now) ≢ [] →
        IsRefused (faults_of (map S.text words.now)) (written outcome)) }

    // Words with a fault, a bad name of the makefile and a bad macro operand are refused before any
    // file is read.
    ensures untouched { AreRefusedUnread (map S.text words.now) → files.new ≡ files.old }
{
    let command = command_line(alloc)?;
    match command.try_get_matches_from(words) {
        Ok(matches) => answered(alloc, files, below, &matches),
        Err(error) => explained(alloc, &error),
    }
}
