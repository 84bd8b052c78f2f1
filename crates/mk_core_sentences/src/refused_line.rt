//! The line of a file that `check -w` prints after a refusal.

ghost use Rattle.std.specs.Prelude.{◌≡◌, ◌∷◌, ◌++◌, [], Some, map, take, codes, is_ok, IfOk, OnErr, OnOk};
ghost use Rattle.std.specs.Option.{option_map, unwrap_or};
ghost use Rattle.mk_read.specs.Files.{Keeps};
ghost use Rattle.mk_read.specs.declared.fault.Place as place;
ghost use Rattle.mk_lines.specs.Bytes.{begins_with};
ghost use Rattle.mk_core.specs.Ready.{macros_for};
ghost use Rattle.mk_core_sentences.specs.RefusedLine.{FindsLine, in_file, is_no_file, lies_outside, line_end, line_place, line_text, max_shown, physical_line, place_of, place_of_infer, place_of_line, place_of_read, shown_byte, shown_line, shown_place};
ghost use Rattle.mk_read_files.specs.declared.cause.Cause.TheVariants.{Other};

use mk_core::{Fault, Request};
use mk_infer::InferFault;
use mk_lines::{LineFault, Name};
use mk_read::{Place, ReadFault};
use mk_read_files::{Cause, Files, FilesError};
use mk_read_parse::read_makefile;
use std::alloc::{AllocError, Global};
use std::marker::Model;

/// How many bytes of a line are printed.
const MAX_SHOWN: usize = 200;

/// A line of a file. Its model is a place.
#[derive(Debug, Drop)]
pub struct FileLine<'a> {
    /// The file.
    pub file: &'a Name,
    /// The number of the line, from 1.
    pub line: usize,
}

impl<'a> Model for FileLine<'a> {
    ghost use Rattle.mk_read.specs.declared.fault.Place as place;

    ghost Value = { place.Place };

    ghost view = { λ l. record { file = l.file.now; line = l.line } };
}

/// The place as a line of a file.
fn line_of(place: &Place) -> FileLine<'_>
    ensures { result ≡ place.now }
{
    FileLine {
        file: &place.file,
        line: place.line,
    }
}

/// The line of this file that has the fault.
fn place_of_line<'a>(file: &'a Name, fault: &LineFault) -> Option<FileLine<'a>>
    ensures { result ≡ place_of_line file.now fault.now }
{
    match fault {
        LineFault::NulByte(line) | LineFault::LineTooLong(line) | LineFault::TooManyLines(line) =>
            Some(FileLine { file, line: *line }),
        LineFault::Memory => None,
    }
}

/// The place that a fault of the makefile names, if it names one.
fn place_of_read(fault: &ReadFault) -> Option<FileLine<'_>>
    ensures { result ≡ place_of_read fault.now }
{
    match fault {
        ReadFault::Line(file, fault) => place_of_line(file, fault),
        ReadFault::Macro(place, _)
        | ReadFault::Kind(place, _)
        | ReadFault::StrayCommand(place)
        | ReadFault::BadName(place, _)
        | ReadFault::ArchiveMember(place, _)
        | ReadFault::UnknownSpecial(place)
        | ReadFault::SpecialShape(place)
        | ReadFault::TwoRecipes(place, _)
        | ReadFault::IncludeMissing(place, _)
        | ReadFault::IncludeDepth(place)
        | ReadFault::IncludeEmpty(place)
        | ReadFault::ReadFailed(Some(place), _)
        | ReadFault::TooManyFiles(place) => Some(line_of(place)),
        ReadFault::BadMakefileName(_)
        | ReadFault::ReadFailed(None, _)
        | ReadFault::NoMakefile(_)
        | ReadFault::Memory => None,
    }
}

/// The place that a fault of goals, of their graph or of commands names, if it names one.
fn place_of_infer(fault: &InferFault) -> Option<FileLine<'_>>
    ensures { result ≡ place_of_infer fault.now }
{
    match fault {
        InferFault::BadGoal(place)
        | InferFault::GoalIsMember(place)
        | InferFault::InferencePrerequisites(place)
        | InferFault::Macro(place, _)
        | InferFault::NoRule(_, Some(place))
        | InferFault::Graph(_, Some(place)) => Some(line_of(place)),
        _ => None,
    }
}

/// The place that a fault names, if it names one.
fn place_of(fault: &Fault) -> Option<FileLine<'_>>
    ensures { result ≡ place_of fault.now }
{
    match fault {
        Fault::Read(fault) => place_of_read(fault),
        Fault::Infer(fault) => place_of_infer(fault),
        _ => None,
    }
}

/// Whether this stands for the file in the place of a macro operand, of a goal or of the default
/// text.
fn is_no_file(file: &Name) -> bool
    ensures { result ≡ is_no_file file.now }
{
    let file = file.as_str();
    file == "operand" || file == "goal" || file == "(default)"
}

/// The line of a file that the fault names, if it names one.
pub fn line_in_file(fault: &Fault) -> Option<FileLine<'_>>
    ensures { result ≡ in_file (place_of fault.now) }
{
    match place_of(fault) {
        Some(place) if !is_no_file(place.file) => Some(place),
        _ => None,
    }
}

/// Whether a text begins with `front`.
fn begins_with(front: &[u8], text: &[u8]) -> bool
    ensures { result ≡ begins_with front.now text.now }
{
    text.starts_with(front)
}

/// Whether the file lies outside of the folder in which the program runs, and of those below it. Its
/// lines may be secret.
fn lies_outside(file: &Name) -> bool
    ensures { result ≡ lies_outside file.now }
{
    let file = file.as_str().as_bytes();
    begins_with(b"/", file) || begins_with(b"../", file)
}

/// The line of a file that the fault names, if it names one that may be shown.
fn shown_line_of(fault: &Fault) -> Option<FileLine<'_>>
    ensures { result ≡ shown_place (in_file (place_of fault.now)) }
{
    match line_in_file(fault) {
        Some(place) if !lies_outside(place.file) => Some(place),
        _ => None,
    }
}

/// A reader that has one file, which is empty.
#[derive(Clone, Copy, Debug)]
struct EmptyFile<'a> {
    name: &'a str,
}

impl<'a> Files for EmptyFile<'a> {
    ghost fits = { λ one told. told ≡ (one.name.now, []) ∷ [] };

    ghost failed = { λ _. [] };

    ghost cause = { λ _. Other };

    fn read(&mut self, alloc: Global, name: &str) -> Result<Option<Vec<u8>>, FilesError> {
        if self.name == name {
            Ok(Some(Vec::new(alloc)))
        } else {
            Ok(None)
        }
    }

    fn cause(&self) -> Cause {
        Cause::Other
    }
}

/// The name of the makefile that is read first.
fn first_makefile(request: &Request) -> &str
    ensures { result.now ≡ unwrap_or request.now.makefile (codes "makefile") }
{
    match &request.makefile {
        Some(name) => name.as_str(),
        None => "makefile",
    }
}

/// Whether the makefile's name and the macro operands are accepted, so that files may be read. The
/// request is read over an empty makefile: then it is refused only where those are.
fn is_accepted(alloc: Global, request: &Request) -> Result<bool, AllocError>
    ensures { IfOk result (λ accepted. accepted ≡ is_ok (macros_for request.now)) }
{
    let mut files = EmptyFile {
        name: first_makefile(request),
    };
    let read = read_makefile(
        alloc,
        &mut files,
        request.makefile.as_ref(),
        request.defaults,
        request.operands.as_slice(),
    );
    match read {
        Ok(_makefile) => Ok(true),
        Err(fault) => {
            if fault.is_out_of_memory() {
                return Err(AllocError);
            }
            Ok(false)
        }
    }
}

/// The physical line with this number, counted from 1, without its newline, if there is one.
fn physical_line(text: &[u8], number: usize) -> Option<&[u8]>
    ensures { option_map (λ line. line.now) result ≡ physical_line text.now number }
{
    text.split(|b| *b == b'\n').nth(number.saturating_sub(1))
}

/// A control byte other than a tab is printed as a question mark.
fn shown_byte(byte: u8) -> u8
    ensures { result ≡ shown_byte byte }
{
    if (byte < b' ' && byte != b'\t') || byte == 127 {
        b'?'
    } else {
        byte
    }
}

/// Appends the bytes as they are printed.
fn push_shown(out: &mut Vec<u8>, bytes: &[u8]) -> Result<(), AllocError>
    ensures { OnOk result (out.new.items ≡ out.old.items ++ map shown_byte bytes.now) }
{
    for byte in bytes {
        out.push(shown_byte(*byte))?;
    }
    Ok(())
}

/// The bytes of a line that are printed.
fn first_bytes(line: &[u8]) -> &[u8]
    ensures { result.now ≡ take max_shown line.now }
{
    if line.len() > MAX_SHOWN {
        &line[..MAX_SHOWN]
    } else {
        line
    }
}

/// What ends the printed line: a mark where bytes are left out, and a newline.
fn line_end(line: &[u8]) -> &'static [u8]
    ensures { result.now ≡ line_end line.now }
{
    if line.len() > MAX_SHOWN {
        b" ..\n"
    } else {
        b"\n"
    }
}

/// A line as it is printed: after two spaces, its first bytes.
fn shown_line(alloc: Global, line: &[u8]) -> Result<Vec<u8>, AllocError>
    ensures { IfOk result (λ text. text.items ≡ shown_line line.now) }
{
    let mut text = Vec::from_slice(alloc, b"  ")?;
    push_shown(&mut text, first_bytes(line))?;
    text.extend_from_slice(line_end(line))?;
    Ok(text)
}

/// The line, if there is one, as it is printed; else nothing.
fn line_text(alloc: Global, line: Option<&[u8]>) -> Result<Vec<u8>, AllocError>
    ensures { IfOk result (λ text. text.items ≡
        line_text (option_map (λ line. line.now) line.entry)) }
{
    match line {
        Some(line) => shown_line(alloc, line),
        None => Ok(Vec::new(alloc)),
    }
}

/// What is printed of a line of a file: nothing where the file doesn't exist, has no such line, or
/// can't be read.
fn line_at<F: Files>(
    alloc: Global,
    files: &mut F,
    place: FileLine<'_>,
) -> Result<Vec<u8>, AllocError>
    ensures keeps { Keeps (F.fits files.old) (F.fits files.new) }
    ensures line { IfOk result (λ line. FindsLine (F.fits files.new) (F.failed files.old)
        (F.failed files.new) (Some place.entry) line.items) }
{
    match files.read(alloc, place.file.as_str()) {
        Ok(Some(text)) => line_text(alloc, physical_line(&text, place.line)),
        Ok(None) | Err(FilesError::ReadFailed) => Ok(Vec::new(alloc)),
        Err(FilesError::Memory) => Err(AllocError),
    }
}

/// The line of a file that is printed after the refusal of this request by this fault, with its
/// newline; nothing where the fault has no such line, where the file lies outside of the folder in
/// which the program runs and of those below it, or where it can't be read again. The
/// only error is out of memory.
pub fn line_of_fault<F: Files>(
    alloc: Global,
    files: &mut F,
    request: &Request,
    fault: &Fault,
) -> Result<Vec<u8>, AllocError>
    ensures keeps { Keeps (F.fits files.old) (F.fits files.new) }
    ensures line { IfOk result (λ line. FindsLine (F.fits files.new) (F.failed files.old)
        (F.failed files.new) (line_place request.now fault.now) line.items) }
    ensures untouched { OnErr (macros_for request.now) (files.new ≡ files.old) }
{
    let Some(place) = shown_line_of(fault) else {
        return Ok(Vec::new(alloc));
    };
    // A fault at such a place comes from a file. That isn't known of every reader, so it is tested
    // that the request isn't one that is refused before any file is read.
    if !is_accepted(alloc, request)? {
        return Ok(Vec::new(alloc));
    }
    line_at(alloc, files, place)
}
