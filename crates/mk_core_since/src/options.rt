//! The options of an old build.

ghost use Rattle.std.specs.Prelude.{◌≡◌, ◌⊎◌, ◌+◌, ℕ, List, true, false, map, Err, IfErr, IfOk, MatchOption};
ghost use Rattle.mk_read.specs.Files.{IfFits, Keeps, text_at};
ghost use Rattle.mk_core.specs.Answer.{NotesFailure};
ghost use Rattle.mk_core.specs.Steps.{is_out_of_memory};
ghost use Rattle.mk_core_text.specs.declared.fault.Fault.TheVariants.{Memory};
ghost use Rattle.mk_core_since.specs.Before.{IsUnlessFailed};
ghost use Rattle.mk_core_since.specs.Options.{bad_option, is_makefile_name, no_options, options_by, options_from, options_in, options_name, with_line, with_makefile, with_option};

use crate::words::{lines_of, utf8};
use mk_core::{Fault, Files, FilesError, Name, Request};
use mk_lines::is_plain_text_path;
use mk_read::{Place, ReadFault, Word};
use std::alloc::{AllocError, Global};

/// The name of the old build's options in its folder.
const OPTIONS: &str = "options";

/// What lines of options say.
#[derive(Drop)]
pub struct Options {
    /// The makefile's name, if it is given.
    pub makefile: Option<Name>,
    /// Whether the default text is read.
    pub defaults: bool,
    /// Whether the last line is `-f`, so that the name stands on the next one.
    pub awaits: bool,
}

/// `BadName` (27) for this line of the options. The only error is out of memory.
fn bad_option(alloc: Global, line: usize, text: &[u8]) -> Result<Fault, AllocError>
    ensures { IfOk result (λ fault. fault ≡ bad_option line text.now) }
{
    let file = Name::new(alloc, OPTIONS)?;
    let word = Word::new(alloc, text)?;
    Ok(Fault::Read(ReadFault::BadName(Place { file, line }, word)))
}

/// The line as the name of a makefile, if it is one.
#[tactic(auto, unfolding(mk_lines::specs::Paths::is_plain_path))]
fn makefile_name(line: &[u8]) -> Option<&str>
    ensures { MatchOption result (is_makefile_name line.now ≡ false) (λ name.
        (name.now ≡ line.now) × (is_makefile_name line.now ≡ true)) }
{
    let Some(name) = utf8(line) else {
        return None;
    };
    if !is_plain_text_path(name) || name == "-" {
        return None;
    }
    Some(name)
}

/// The options with the makefile's name on the line with this number. The error is `BadName` (27)
/// for the name, or for the line before where this one is empty; or out of memory.
fn with_makefile(
    alloc: Global,
    options: Options,
    number: usize,
    line: &[u8],
) -> Result<Options, Fault>
    ensures options { (result ≡ Err Memory) ⊎
        (result ≡ with_makefile options number line.now) }
    ensures memory { IfErr result (λ fault. is_out_of_memory fault ≡ true → fault ≡ Memory) }
    ensures noted { (failed : List (List ℕ)) → NotesFailure failed failed result }
{
    if line.is_empty() {
        return Err(bad_option(alloc, number.saturating_sub(1), b"-f")?);
    }
    match makefile_name(line) {
        Some(name) => Ok(Options {
            makefile: Some(Name::new(alloc, name)?),
            awaits: false,
            ..options
        }),
        None => Err(bad_option(alloc, number, line)?),
    }
}

/// The options with that of the line with this number: the first `-f`, a `-r`, or an empty line.
/// The error is `BadName` (27) for another line, or out of memory.
fn with_option(
    alloc: Global,
    options: Options,
    number: usize,
    line: &[u8],
) -> Result<Options, Fault>
    ensures options { (result ≡ Err Memory) ⊎
        (result ≡ with_option options number line.now) }
    ensures memory { IfErr result (λ fault. is_out_of_memory fault ≡ true → fault ≡ Memory) }
    ensures noted { (failed : List (List ℕ)) → NotesFailure failed failed result }
{
    if line == b"-r".as_slice() {
        return Ok(Options {
            defaults: false,
            ..options
        });
    }
    if line == b"-f".as_slice() && options.makefile.is_none() {
        return Ok(Options {
            awaits: true,
            ..options
        });
    }
    if !line.is_empty() {
        return Err(bad_option(alloc, number, line)?);
    }
    Ok(options)
}

/// The options with what the line with this number says. The error is `BadName` (27), or out of
/// memory.
fn with_line(alloc: Global, options: Options, number: usize, line: &[u8]) -> Result<Options, Fault>
    ensures options { (result ≡ Err Memory) ⊎ (result ≡ with_line options number line.now) }
    ensures memory { IfErr result (λ fault. is_out_of_memory fault ≡ true → fault ≡ Memory) }
    ensures noted { (failed : List (List ℕ)) → NotesFailure failed failed result }
{
    if options.awaits {
        with_makefile(alloc, options, number, line)
    } else {
        with_option(alloc, options, number, line)
    }
}

/// The options that lines say. The error is `BadName` (27) for the first line that says none, also
/// for a `-f` without a name after it; or out of memory.
fn options_from(alloc: Global, lines: &[&[u8]]) -> Result<Options, Fault>
    ensures options { (result ≡ Err Memory) ⊎
        (result ≡ options_from 1 no_options (map (λ line. line.now) lines.now)) }
    ensures memory { IfErr result (λ fault. is_out_of_memory fault ≡ true → fault ≡ Memory) }
    ensures noted { (failed : List (List ℕ)) → NotesFailure failed failed result }
{
    let mut options = Options {
        makefile: None,
        defaults: true,
        awaits: false,
    };
    for (at, line) in lines.iter().enumerate() {
        options = match with_line(alloc, options, at + 1, line) {
            Ok(next) => next,
            Err(fault) => return Err(fault),
        };
    }
    if options.awaits {
        return Err(bad_option(alloc, lines.len(), b"-f")?);
    }
    Ok(options)
}

/// The options in a text. The error is `BadName` (27) for the first line that says none, or out of
/// memory.
fn options_in(alloc: Global, text: &[u8]) -> Result<Options, Fault>
    ensures options { (result ≡ Err Memory) ⊎ (result ≡ options_in text.now) }
    ensures memory { IfErr result (λ fault. is_out_of_memory fault ≡ true → fault ≡ Memory) }
    ensures noted { (failed : List (List ℕ)) → NotesFailure failed failed result }
{
    let lines = lines_of(alloc, text)?;
    options_from(alloc, &lines)
}

/// The options of a request.
fn options_of(request: &Request) -> Result<Options, AllocError>
    ensures makefile { IfOk result (λ options. options.makefile ≡ request.now.makefile) }
    ensures defaults { IfOk result (λ options. options.defaults ≡ request.now.defaults) }
    ensures awaits { IfOk result (λ options. options.awaits ≡ false) }
{
    let makefile = match &request.makefile {
        Some(name) => Some(name.clone()?),
        None => None,
    };
    Ok(Options {
        makefile,
        defaults: request.defaults,
        awaits: false,
    })
}

/// The options of the old build: those in the file `options`, else those of the request. The errors
/// are `FileReadFailed` (35), `BadName` (27) for a line, and out of memory.
pub fn old_options<F: Files>(
    alloc: Global,
    files: &mut F,
    request: &Request,
) -> Result<Options, Fault>
    ensures keeps { Keeps (F.fits files.old) (F.fits files.new) }
    ensures options { IfFits (F.fits files.new)
        (λ was. IsUnlessFailed (options_by (text_at was options_name) request.now) result) }
    ensures memory { IfErr result (λ fault. is_out_of_memory fault ≡ true → fault ≡ Memory) }
    ensures noted { NotesFailure (F.failed files.old) (F.failed files.new) result }
{
    let name = Name::new(alloc, OPTIONS)?;
    match files.read(alloc, name.as_str()) {
        Ok(Some(text)) => options_in(alloc, &text),
        Ok(None) => Ok(options_of(request)?),
        Err(FilesError::ReadFailed) => Err(Fault::FileReadFailed(name)),
        Err(FilesError::Memory) => Err(Fault::Memory),
    }
}
