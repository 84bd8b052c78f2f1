//! Reads texts line by line, and the files that their include lines name.

ghost use Rattle.std.specs.Prelude.{◌≡◌, ◌<◌, ◌^◌, ◌-◌, ◌⊎◌, Some, map, IfErr, IfOk};
ghost use Rattle.std.specs.Option.{option_map};
ghost use Rattle.std.specs.String.{string_bytes};
ghost use Rattle.mk_lines.specs.Lines.{Line, logical_lines};
ghost use Rattle.mk_lines.specs.Views.{line_view};
ghost use Rattle.mk_lines.specs.Comments.{uncomment};
ghost use Rattle.mk_read.specs.declared.fault.ReadFault.TheVariants.{Memory, ReadFailed};
ghost use Rattle.mk_read.specs.Files.{IfFits, Keeps, text_at};
ghost use Rattle.mk_read.specs.Following.{NotesFailure, Follows, IsOfText, below};
ghost use Rattle.mk_read.specs.Kinds.{kind_of};
ghost use Rattle.mk_read_parse.specs.KindViews.{include_view, kind_view};
ghost use Rattle.mk_read.specs.Reading.{files as all_files, include, one_file, plain_line, with_line, with_lines, with_text};
ghost use Rattle.mk_read.specs.State.{State};
ghost use Rattle.mk_read.specs.Steps.{Gives, in_file, of_kind, seen};
ghost use Rattle.mk_read_parse.specs.Views.{IsTooMany, behind_commands, found_after, include_names, not_found, place_at, read_below, text_more, text_of};

use crate::kinds::{IncludeLine, Kind, kind_of};
use crate::line_location::LineLocation;
use crate::rules::names_in;
use crate::state::{Owner, RuleLines, State};
use mk_lines::{Line, LineFault, Name, logical_lines, uncomment};
use mk_macros::MacroTable;
use mk_read::{KindFault, ReadFault};
use mk_read_files::{Files, FilesError};
use std::alloc::Global;
use std::mem;

/// A text to be read.
#[derive(Debug, Clone, Copy)]
pub(crate) struct Source<'a> {
    /// The allocator of all results.
    pub(crate) alloc: Global,
    /// The name of its file.
    pub(crate) file: &'a Name,
    /// Whether it is the default text.
    pub(crate) default: bool,
    /// How many levels of included texts are allowed below it.
    pub(crate) levels: usize,
}

/// An include line whose files are read.
#[derive(Clone, Copy)]
struct Include<'a> {
    /// Where the line stands.
    location: &'a LineLocation<'a>,
    /// How many levels of included texts are allowed below its files.
    levels: usize,
    /// Whether its files may be missing.
    optional: bool,
}

/// The logical lines of a text, or the fault of its first faulty line, in this file.
fn lines_of<'a>(source: &Source<'_>, text: &'a [u8]) -> Result<Vec<Line<'a>>, ReadFault>
    ensures exact { Gives (λ lines.
        map line_view lines.items) result (in_file source.now.file.now (logical_lines text.now)) }
    ensures own { IfErr result IsOfText }
{
    match logical_lines(source.alloc, text) {
        Ok(lines) => Ok(lines),
        Err(LineFault::Memory) => Err(ReadFault::Memory),
        Err(fault) => Err(ReadFault::Line(source.file.clone()?, fault)),
    }
}

/// The kind of a plain line without its comment, or its fault at this place.
fn kind_at<'a>(location: &LineLocation<'_>, text: &'a [u8]) -> Result<Kind<'a>, ReadFault>
    ensures exact { Gives kind_view result (of_kind (place_at location.now) (kind_of text.now)) }
    ensures own { IfErr result IsOfText }
{
    match kind_of(location.alloc, text) {
        Ok(kind) => Ok(kind),
        Err(KindFault::Memory) => Err(ReadFault::Memory),
        Err(fault) => Err(ReadFault::Kind(location.place()?, fault)),
    }
}

/// Reads a command line.
fn read_command(
    location: &LineLocation<'_>,
    state: &mut State,
    text: &[u8],
) -> Result<(), ReadFault>
    ensures exact { Gives (λ done.
        state.new) result (behind_commands (place_at location.now) text.now state.old) }
    ensures own { IfErr result IsOfText }
{
    let lines = mem::replace(&mut state.lines, RuleLines::new(location.alloc));
    state.lines = lines.with_command(location, text)?;
    Ok(())
}

/// Reads the lines of a text.
#[cycle(read)]
fn read_lines<F: Files>(
    files: &mut F,
    source: &Source<'_>,
    lines: &[Line<'_>],
    state: &mut State,
) -> Result<(), ReadFault>
    ensures keeps { Keeps (F.fits files.old) (F.fits files.new) }
    ensures follows { IfFits (F.fits files.new)
        (λ told. Follows told (λ reader. with_lines reader (below source.now.levels reader)
        (text_of source.now)
        (map line_view lines.now) state.old) state.old (seen (λ done. state.new) result)) }
    ensures noted { NotesFailure (F.failed files.old) (F.failed files.new) result }
{
    for line in lines {
        read_line(files, source, line, state)?;
    }
    Ok(())
}

/// Reads one more line.
#[cycle(read)]
fn read_line<F: Files>(
    files: &mut F,
    source: &Source<'_>,
    line: &Line<'_>,
    state: &mut State,
) -> Result<(), ReadFault>
    ensures keeps { Keeps (F.fits files.old) (F.fits files.new) }
    ensures follows { IfFits (F.fits files.new)
        (λ told. Follows told (λ reader. with_line reader (below source.now.levels reader)
        (text_of source.now) state.old (line_view line.now)) state.old (seen (λ done.
        state.new) result)) }
    ensures noted { NotesFailure (F.failed files.old) (F.failed files.new) result }
{
    let location = LineLocation {
        alloc: source.alloc,
        file: source.file,
        line: line.first,
    };
    if line.command {
        return read_command(&location, state, &line.text);
    }
    let text = uncomment(source.alloc, &line.text)?;
    let kind = kind_at(&location, &text)?;
    read_kind(files, source, &location, kind, state)
}

/// Reads a plain line, whose kind is known.
#[cycle(read)]
fn read_kind<F: Files>(
    files: &mut F,
    source: &Source<'_>,
    location: &LineLocation<'_>,
    kind: Kind<'_>,
    state: &mut State,
) -> Result<(), ReadFault>
    ensures keeps { Keeps (F.fits files.old) (F.fits files.new) }
    ensures follows { IfFits (F.fits files.new)
        (λ told.
        Follows told (λ reader.
        plain_line reader (below source.now.levels reader) source.now.default (place_at location.now)
        state.old (kind_view kind.entry)) state.old (seen (λ done. state.new) result)) }
    ensures noted { NotesFailure (F.failed files.old) (F.failed files.new) result }
{
    match kind {
        Kind::Comment => Ok(()),
        Kind::Include(line) => read_include(files, source, location, line, state),
        Kind::Assignment(line) => state.assign(location, &line),
        Kind::Rule(line) => state.add_rule(location, source.default, &line),
    }
}

/// The names of the files of an include line. Fails with `IncludeDepth` (33) where no level is
/// left; then with a fault of the names; then with `IncludeEmpty` (34) where there are none.
fn include_names(
    levels: usize,
    location: &LineLocation<'_>,
    macros: &MacroTable,
    text: &[u8],
) -> Result<Vec<String>, ReadFault>
    ensures exact { Gives (λ names.
        map string_bytes names.items) result (include_names levels (place_at location.now) macros.now
        text.now) }
    ensures levels { IfOk result (λ _. 0 < levels) }
    ensures own { IfErr result IsOfText }
{
    if levels == 0 {
        return Err(ReadFault::IncludeDepth(location.place()?));
    }
    let names = names_in(location, macros, text)?;
    if names.is_empty() {
        return Err(ReadFault::IncludeEmpty(location.place()?));
    }
    Ok(names)
}

/// Reads an include line and its files.
#[cycle(read)]
fn read_include<F: Files>(
    files: &mut F,
    source: &Source<'_>,
    location: &LineLocation<'_>,
    line: IncludeLine<'_>,
    state: &mut State,
) -> Result<(), ReadFault>
    ensures keeps { Keeps (F.fits files.old) (F.fits files.new) }
    ensures follows { IfFits (F.fits files.new)
        (λ told. Follows told (λ reader. include reader (below source.now.levels reader)
        (place_at location.now) state.old (include_view line.entry)) state.old (seen (λ done.
        state.new) result)) }
    ensures noted { NotesFailure (F.failed files.old) (F.failed files.new) result }
{
    let names = include_names(source.levels, location, &state.macros, line.names)?;
    state.own(Owner::Nobody)?;
    let include = Include {
        location: &*location,
        levels: source.levels - 1,
        optional: line.optional,
    };
    read_files(files, &include, &names, state)
}

/// Reads the files of an include line.
#[cycle(read)]
fn read_files<F: Files>(
    files: &mut F,
    include: &Include<'_>,
    names: &[String],
    state: &mut State,
) -> Result<(), ReadFault>
    ensures keeps { Keeps (F.fits files.old) (F.fits files.new) }
    ensures follows { IfFits (F.fits files.new) (λ told. Follows told (λ reader. all_files reader
        (read_below include.now.levels reader) (place_at include.now.location.now) include.now.optional
        (map string_bytes names.now) state.old) state.old (seen (λ done. state.new) result)) }
    ensures noted { NotesFailure (F.failed files.old) (F.failed files.new) result }
{
    for name in names {
        read_file(files, include, name, state)?;
    }
    Ok(())
}

/// The text of an included file, or `None` where it doesn't exist. Fails with `ReadFailed` (35)
/// where the reader fails.
fn text_at<F: Files>(
    files: &mut F,
    location: &LineLocation<'_>,
    name: &str,
) -> Result<Option<Vec<u8>>, ReadFault>
    ensures keeps { Keeps (F.fits files.old) (F.fits files.new) }
    ensures text { IfOk result (λ found. IfFits (F.fits files.new)
        (λ told. option_map (λ text. text.items) found ≡ text_at told name.now)) }
    ensures fault { IfErr result (λ fault. (fault ≡ Memory) ⊎
        (fault ≡ ReadFailed (Some (place_at location.now)) name.now)) }
    ensures noted { NotesFailure (F.failed files.old) (F.failed files.new) result }
{
    let place = location.place()?;
    let file = Name::new(location.alloc, name)?;
    match files.read(location.alloc, name) {
        Ok(found) => Ok(found),
        Err(FilesError::ReadFailed) => Err(ReadFault::ReadFailed(Some(place), file)),
        Err(FilesError::Memory) => Err(ReadFault::Memory),
    }
}

/// `TooManyFiles` (36) at this place, or `Memory`.
fn too_many(location: &LineLocation<'_>) -> ReadFault
    ensures exact { IsTooMany (place_at location.now) result }
    ensures own { IsOfText result }
{
    match location.place() {
        Ok(place) => ReadFault::TooManyFiles(place),
        Err(_) => ReadFault::Memory,
    }
}

/// Reads an included file. Fails with `TooManyFiles` (36) where 1,024 texts have been read; then
/// with `ReadFailed` (35); then with `IncludeMissing` (32) where the file doesn't exist and may not
/// be missing.
#[cycle(read)]
fn read_file<F: Files>(
    files: &mut F,
    include: &Include<'_>,
    name: &str,
    state: &mut State,
) -> Result<(), ReadFault>
    ensures keeps { Keeps (F.fits files.old) (F.fits files.new) }
    ensures follows { IfFits (F.fits files.new) (λ told. Follows told (λ reader. one_file reader
        (read_below include.now.levels reader) (place_at include.now.location.now) include.now.optional
        state.old name.now) state.old (seen (λ done. state.new) result)) }
    ensures noted { NotesFailure (F.failed files.old) (F.failed files.new) result }
{
    if state.is_full() {
        return Err(too_many(include.location));
    }
    match text_at(files, include.location, name)? {
        Some(text) => read_found(files, include, name, &text, state),
        None => pass_over(include.location, include.optional, name, state),
    }
}

/// Skips a file that doesn't exist. Fails with `IncludeMissing` (32) where it may not be missing.
fn pass_over(
    location: &LineLocation<'_>,
    optional: bool,
    name: &str,
    state: &mut State,
) -> Result<(), ReadFault>
    ensures exact { Gives (λ done.
        state.new) result (not_found (place_at location.now) optional state.old name.now) }
    ensures own { IfErr result IsOfText }
{
    let file = Name::new(location.alloc, name)?;
    if !optional {
        return Err(ReadFault::IncludeMissing(location.place()?, file));
    }
    Ok(state.note_missing(file)?)
}

/// Reads the text of an included file. No command line after it belongs to its last rule.
#[cycle(read)]
fn read_found<F: Files>(
    files: &mut F,
    include: &Include<'_>,
    name: &str,
    text: &[u8],
    state: &mut State,
) -> Result<(), ReadFault>
    ensures keeps { Keeps (F.fits files.old) (F.fits files.new) }
    ensures follows { IfFits (F.fits files.new) (λ told. Follows told (λ reader. found_after
        (read_below include.now.levels reader) name.now text.now (text_more state.old name.now))
        (text_more state.old name.now) (seen (λ done. state.new) result)) }
    ensures noted { NotesFailure (F.failed files.old) (F.failed files.new) result }
{
    let file = Name::new(include.location.alloc, name)?;
    state.note_text(include.location.alloc, name)?;
    let source = Source {
        alloc: include.location.alloc,
        file: &file,
        default: false,
        levels: include.levels,
    };
    read_text(files, &source, text, state)?;
    Ok(state.own(Owner::Nobody)?)
}

/// Reads a text. Faults of splitting it into lines come before any line is read.
#[cycle(read)]
pub(crate) fn read_text<F: Files>(
    files: &mut F,
    source: &Source<'_>,
    text: &[u8],
    state: &mut State,
) -> Result<(), ReadFault>
    ensures keeps { Keeps (F.fits files.old) (F.fits files.new) }
    ensures follows { IfFits (F.fits files.new)
        (λ told. Follows told (λ reader. with_text reader (below source.now.levels reader)
        (text_of source.now) text.now state.old) state.old (seen (λ done. state.new) result)) }
    ensures noted { NotesFailure (F.failed files.old) (F.failed files.new) result }
{
    let lines = lines_of(source, text)?;
    read_lines(files, source, &lines, state)
}
