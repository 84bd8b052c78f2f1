//! The request for an old build.

ghost use Rattle.std.specs.Prelude.{◌≡◌, true, IfErr, IfOk};
ghost use Rattle.mk_read.specs.Files.{IfFits, Keeps};
ghost use Rattle.mk_core.specs.Answer.{NotesFailure};
ghost use Rattle.mk_core.specs.Steps.{is_out_of_memory};
ghost use Rattle.mk_core_text.specs.declared.fault.Fault.TheVariants.{Memory};
ghost use Rattle.mk_core_since.specs.Before.{IsUnlessFailed, before, old_request, with_options};

use crate::options::{Options, old_options};
use crate::words::old_words;
use mk_core::{Fault, Files, Name, Names, Operands, Request};
use std::alloc::{AllocError, Global};

/// The name of the old build's footprint file in its folder.
const BOOK: &str = "footprint.json";

/// The request for the old build, with these operands and goals, and these options.
fn request_with(
    alloc: Global,
    request: &Request,
    given: (Operands, Names),
    options: Options,
) -> Result<Request, AllocError>
    ensures { IfOk result (λ old. old ≡ old_request request.now given options) }
{
    let (operands, goals) = given;
    Ok(Request {
        makefile: options.makefile,
        defaults: options.defaults,
        operands,
        goals,
        book: Some(Name::new(alloc, BOOK)?),
        commands: false,
        leaves_memory: request.leaves_memory,
    })
}

/// The request for the old build with these operands and goals, whose options are read here. The
/// errors are those of `old_options`.
fn with_options<F: Files>(
    alloc: Global,
    files: &mut F,
    request: &Request,
    given: (Operands, Names),
) -> Result<Request, Fault>
    ensures keeps { Keeps (F.fits files.old) (F.fits files.new) }
    ensures request { IfFits (F.fits files.new)
        (λ was. IsUnlessFailed (with_options was request.now given) result) }
    ensures memory { IfErr result (λ fault. is_out_of_memory fault ≡ true → fault ≡ Memory) }
    ensures noted { NotesFailure (F.failed files.old) (F.failed files.new) result }
{
    match old_options(alloc, files, request) {
        Ok(options) => Ok(request_with(alloc, request, given, options)?),
        Err(fault) => Err(fault),
    }
}

/// The request for the old build, whose words and options are read here. The errors, in this order,
/// are `FileReadFailed` (35) and `BadGoal` (27) for the words, `FileReadFailed` (35) and `BadName`
/// (27) for the options, and out of memory at any place.
pub fn before<F: Files>(alloc: Global, files: &mut F, request: &Request) -> Result<Request, Fault>
    ensures keeps { Keeps (F.fits files.old) (F.fits files.new) }
    ensures request { IfFits (F.fits files.new)
        (λ was. IsUnlessFailed (before was request.now) result) }
    ensures memory { IfErr result (λ fault. is_out_of_memory fault ≡ true → fault ≡ Memory) }
    ensures noted { NotesFailure (F.failed files.old) (F.failed files.new) result }
{
    match old_words(alloc, files, request) {
        Ok(given) => with_options(alloc, files, request, given),
        Err(fault) => Err(fault),
    }
}
