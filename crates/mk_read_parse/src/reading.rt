//! Reads a whole makefile.

ghost use Rattle.std.specs.Prelude.{◌≡◌, ◌⊎◌, ◌∷◌, [], true, ◌+◌, ◌<◌, ◌^◌, ◌-◌, ◌||◌, Some, None, codes, filter, map, IfOk, IfErr, IsOk, OnErr, OnOk};
ghost use Rattle.std.specs.List.{list_any};
ghost use Rattle.std.specs.Option.{option_copied, option_map};
ghost use Rattle.std.specs.Str.{bytes_eq};
ghost use Rattle.std.specs.String.{string_bytes};
ghost use Rattle.mk_macros.specs.Definitions.{with_operand};
ghost use Rattle.mk_read.specs.declared.fault.ReadFault.TheVariants.{Memory, ReadFailed};
ghost use Rattle.mk_read.specs.Files.{IfFits, Keeps, text_at};
ghost use Rattle.mk_read.specs.Following.{Answers, NotesFailure, Follows, IsOfText, answered};
ghost use Rattle.mk_read.specs.Reading.{after_default, counts, from_named, makefile, makefile_of, named, reading, with_operands};
ghost use Rattle.mk_read.specs.Special.{is_inference_name};
ghost use Rattle.mk_read.specs.Names.{has_name};
ghost use Rattle.mk_read.specs.State.{nothing_read, rules_of};
ghost use Rattle.mk_read.specs.Steps.{Gives, at_place, is_out_of_memory, seen};
ghost use Rattle.mk_read_parse.specs.Requests.{no_files, request_read};
ghost use Rattle.mk_read_parse.specs.Views.{IsUnread, begun, is_joined, second_text, state_read, without_makefile};

use crate::including::{Source, read_text};
use crate::no_files::NoFiles;
use crate::state::{Owner, RuleLines, State, with_last};
use mk_lines::{Name, is_plain_path};
use mk_macros::{MacroFault, MacroTable};
use mk_read::default_text::default_text_says_this;
use mk_read::{Makefile, Place, ReadFault, Rule, SpecialTargets, SuffixList};
use mk_read_files::{Files, FilesError};
use std::alloc::{AllocError, Global};

/// The default text, which is read first where that is wanted.
const DEFAULT_TEXT: &[u8] = b".SUFFIXES: .o .c .sh
MAKE = make
CC = c17
CFLAGS = -O1
LDFLAGS =
.c:
\t$(CC) $(CFLAGS) $(LDFLAGS) -o $@ $<
.sh:
\tcp $< $@
\tchmod a+x $@
.c.o:
\t$(CC) $(CFLAGS) -c $<
";

/// How many levels of include lines are allowed below the makefile.
const MAX_LEVELS: usize = 16;

/// Fails with `BadMakefileName` (27) where the name is no plain path, or is `-`.
fn test_name(alloc: Global, name: Option<&Name>) -> Result<(), ReadFault>
    ensures exact { Gives (λ _.
        option_copied name.entry) result (named (option_copied name.entry)) }
    ensures own { IfErr result IsOfText }
{
    let Some(name) = name else {
        return Ok(());
    };
    let text = name.as_str();
    if !is_plain_path(text.as_bytes()) || text == "-" {
        return Err(ReadFault::BadMakefileName(Name::new(alloc, text)?));
    }
    Ok(())
}

/// Reads the default text, where that is wanted. It has no include lines, so no file is read.
#[tactic(auto, unfolding(mk_read::specs::Reading::after_default))]
fn read_default(alloc: Global, defaults: bool, state: &mut State) -> Result<(), ReadFault>
    ensures exact { state.old ≡ nothing_read →
        Gives (λ done. state.new) result (after_default no_files defaults) }
    ensures own { IfErr result IsOfText }
{
    if !defaults {
        return Ok(());
    }
    let file = Name::new(alloc, "(default)")?;
    let source = Source {
        alloc,
        file: &file,
        default: true,
        levels: 0,
    };
    let mut files = NoFiles;
    read_text(&mut files, &source, DEFAULT_TEXT, state)
}

/// Applies the macro operand with this number.
fn fix_operand(
    alloc: Global,
    number: usize,
    macros: &mut MacroTable,
    operand: &[u8],
) -> Result<(), ReadFault>
    ensures exact { Gives (λ done.
        macros.new) result (at_place (record { file = codes "operand"; line = number })
        (with_operand macros.old operand.now)) }
    ensures own { IfErr result IsOfText }
{
    let place = Place {
        file: Name::new(alloc, "operand")?,
        line: number,
    };
    match macros.fix(operand) {
        Ok(()) => Ok(()),
        Err(MacroFault::Memory) => Err(ReadFault::Memory),
        Err(fault) => Err(ReadFault::Macro(place, fault)),
    }
}

/// Applies the macro operands in order.
fn fix_operands(
    alloc: Global,
    macros: &mut MacroTable,
    operands: &[Vec<u8>],
) -> Result<(), ReadFault>
    ensures exact { Gives (λ done.
        macros.new) result (with_operands 1 (map (λ operand.
        operand.items) operands.now) macros.old) }
    ensures own { IfErr result IsOfText }
{
    for (i, operand) in operands.iter().enumerate() {
        fix_operand(alloc, i + 1, macros, operand)?;
    }
    Ok(())
}

/// The text of the makefile, or `None` where the file doesn't exist. Fails with `ReadFailed` (35)
/// where the reader fails.
fn makefile_at<F: Files>(
    alloc: Global,
    files: &mut F,
    name: &str,
) -> Result<Option<Vec<u8>>, ReadFault>
    ensures keeps { Keeps (F.fits files.old) (F.fits files.new) }
    ensures text { IfOk result (λ found. IfFits (F.fits files.new)
        (λ told. option_map (λ text. text.items) found ≡ text_at told name.now)) }
    ensures fault { IfErr result (λ fault. (fault ≡ Memory) ⊎ (fault ≡ ReadFailed None name.now)) }
    ensures noted { NotesFailure (F.failed files.old) (F.failed files.new) result }
{
    let file = Name::new(alloc, name)?;
    match files.read(alloc, name) {
        Ok(found) => Ok(found),
        Err(FilesError::ReadFailed) => Err(ReadFault::ReadFailed(None, file)),
        Err(FilesError::Memory) => Err(ReadFault::Memory),
    }
}

/// A list with this name alone.
fn alone(alloc: Global, name: &str) -> Result<Vec<String>, AllocError>
    ensures { IfOk result (λ names. map string_bytes names.items ≡ name.now ∷ []) }
{
    let mut names = Vec::new(alloc);
    names.push(String::from_str(alloc, name)?)?;
    Ok(names)
}

/// Reads the text of the makefile.
fn read_own_text<F: Files>(
    alloc: Global,
    files: &mut F,
    name: &str,
    text: &[u8],
    state: &mut State,
) -> Result<(), ReadFault>
    ensures keeps { Keeps (F.fits files.old) (F.fits files.new) }
    ensures follows { IfFits (F.fits files.new)
        (λ told.
        Follows told (λ reader. reading 16 reader name.now text.now (begun state.old name.now))
        (begun state.old name.now) (seen (λ done. state.new) result)) }
    ensures noted { NotesFailure (F.failed files.old) (F.failed files.new) result }
{
    let file = Name::new(alloc, name)?;
    let texts = alone(alloc, name)?;
    state.own(Owner::Nobody)?;
    state.texts = texts;
    let source = Source {
        alloc,
        file: &file,
        default: false,
        levels: MAX_LEVELS,
    };
    read_text(files, &source, text, state)
}

/// Reads the makefile with this name. Fails with `NoMakefile` (37) where it doesn't exist.
fn read_named<F: Files>(
    alloc: Global,
    files: &mut F,
    name: &Name,
    state: &mut State,
) -> Result<(), ReadFault>
    ensures keeps { Keeps (F.fits files.old) (F.fits files.new) }
    ensures follows { IfFits (F.fits files.new) (λ told. IsUnread state.old →
        Follows told (λ reader.
        from_named reader state.old (Some name.now)) state.old (seen (λ done. state.new) result)) }
    ensures noted { NotesFailure (F.failed files.old) (F.failed files.new) result }
{
    let text = name.as_str();
    let copy = Name::new(alloc, text)?;
    match makefile_at(alloc, files, text)? {
        Some(bytes) => read_own_text(alloc, files, text, &bytes, state),
        None => Err(ReadFault::NoMakefile(Some(copy))),
    }
}

/// Reads `Makefile`, where `makefile` doesn't exist. Fails with `NoMakefile` (37) where it doesn't
/// exist either.
fn read_second<F: Files>(alloc: Global, files: &mut F, state: &mut State) -> Result<(), ReadFault>
    ensures keeps { Keeps (F.fits files.old) (F.fits files.new) }
    ensures follows { IfFits (F.fits files.new) (λ told. state.old.texts ≡ [] →
        Follows told (λ reader. second_text reader state.old) (without_makefile state.old)
        (seen (λ done. state.new) result)) }
    ensures noted { NotesFailure (F.failed files.old) (F.failed files.new) result }
{
    match makefile_at(alloc, files, "Makefile")? {
        Some(text) => {
            state.missing = alone(alloc, "makefile")?;
            read_own_text(alloc, files, "Makefile", &text, state)
        }
        None => Err(ReadFault::NoMakefile(None)),
    }
}

/// Reads `makefile`, or else `Makefile`.
fn read_usual<F: Files>(alloc: Global, files: &mut F, state: &mut State) -> Result<(), ReadFault>
    ensures keeps { Keeps (F.fits files.old) (F.fits files.new) }
    ensures follows { IfFits (F.fits files.new) (λ told. IsUnread state.old →
        Follows told (λ reader.
        from_named reader state.old None) state.old (seen (λ done. state.new) result)) }
    ensures noted { NotesFailure (F.failed files.old) (F.failed files.new) result }
{
    match makefile_at(alloc, files, "makefile")? {
        Some(text) => read_own_text(alloc, files, "makefile", &text, state),
        None => read_second(alloc, files, state),
    }
}

/// Whether the bytes are one of the suffixes.
fn has_suffix(suffixes: &[String], bytes: &[u8]) -> bool
    ensures { result ≡ has_name (map string_bytes suffixes.now) bytes.now }
{
    for suffix in suffixes {
        if bytes == suffix.as_bytes() {
            return true;
        }
    }
    false
}

/// Whether the name is this suffix, or this suffix followed by one of the suffixes.
fn is_joined(suffixes: &[String], name: &[u8], suffix: &[u8]) -> bool
    ensures { result ≡ is_joined (map string_bytes suffixes.now) name.now suffix.now }
{
    if !name.starts_with(suffix) {
        return false;
    }
    let rest = &name[suffix.len()..];
    rest.is_empty() || has_suffix(suffixes, rest)
}

/// Whether the name is a known suffix, or two known suffixes in a row.
fn is_inference_name(suffixes: &[String], name: &str) -> bool
    ensures { result ≡ is_inference_name (map string_bytes suffixes.now) name.now }
{
    for suffix in suffixes {
        if is_joined(suffixes, name.as_bytes(), suffix.as_bytes()) {
            return true;
        }
    }
    false
}

/// Whether one of the targets is an inference name.
fn has_inference_name(suffixes: &[String], targets: &[String]) -> bool
    ensures { result ≡
        list_any (is_inference_name (map string_bytes suffixes.now))
        (map string_bytes targets.now) }
{
    for target in targets {
        if is_inference_name(suffixes, target) {
            return true;
        }
    }
    false
}

/// Whether a rule line belongs to the makefile: it isn't from the default text, or one of its
/// targets is an inference name by the final suffixes.
fn counts(suffixes: &SuffixList, rule: &Rule) -> bool
    ensures { result ≡ counts suffixes.now rule.now }
{
    !rule.default || has_inference_name(suffixes.as_slice(), &rule.targets)
}

/// The rule lines that belong to the makefile.
fn counted(suffixes: &SuffixList, rules: Vec<Rule>) -> Vec<Rule>
    ensures { result.items ≡ filter (counts suffixes.now) rules.items }
{
    let mut kept = rules;
    kept.retain(|rule| counts(suffixes, rule));
    kept
}

/// All rule lines that were read and belong to the makefile.
fn rules_of(suffixes: &SuffixList, lines: RuleLines) -> Result<Vec<Rule>, AllocError>
    ensures { IfOk result (λ kept. kept.items ≡ filter (counts suffixes.now) (rules_of lines)) }
{
    let RuleLines { earlier, owner, .. } = lines;
    let all = with_last(earlier, owner)?;
    Ok(counted(suffixes, all))
}

/// The makefile of a state, when all has been read.
fn makefile_of(state: State) -> Result<Makefile, AllocError>
    ensures { IfOk result (λ makefile. makefile ≡ makefile_of state) }
{
    let State {
        macros,
        suffixes,
        phony,
        not_parallel,
        lines,
        texts,
        missing,
    } = state;
    let rules = rules_of(&suffixes, lines)?;
    let special = SpecialTargets {
        suffixes,
        phony,
        not_parallel,
    };
    Ok(Makefile::new(rules, special, macros, texts, missing))
}

/// Which makefile is to be read, and what is read before it.
#[derive(Clone, Copy)]
struct Request<'a> {
    /// The name of the makefile, where one is given.
    name: Option<&'a Name>,
    /// Whether the default text is read.
    defaults: bool,
    /// The macro operands.
    operands: &'a [Vec<u8>],
}

/// Reads the default text, where that is wanted, the operands, and the makefile.
fn read_all<F: Files>(
    alloc: Global,
    files: &mut F,
    request: &Request<'_>,
    state: &mut State,
) -> Result<(), ReadFault>
    ensures keeps { Keeps (F.fits files.old) (F.fits files.new) }
    ensures follows { IfFits (F.fits files.new) (λ told. state.old ≡ nothing_read →
        Follows told (λ reader.
        state_read reader (option_copied request.now.name) request.now.defaults (map (λ operand.
        operand.items) request.now.operands.now)) nothing_read (seen (λ done. state.new) result)) }
    ensures noted { NotesFailure (F.failed files.old) (F.failed files.new) result }
    ensures untouched { state.old ≡ nothing_read →
        OnErr (request_read (option_copied request.now.name) request.now.defaults (map (λ operand.
        operand.items) request.now.operands.now)) (files.new ≡ files.old) }
    ensures accepted { OnOk result (state.old ≡ nothing_read →
        IsOk (request_read (option_copied request.now.name) request.now.defaults (map (λ operand.
        operand.items) request.now.operands.now))) }
{
    default_text_says_this();
    test_name(alloc, request.name)?;
    read_default(alloc, request.defaults, state)?;
    fix_operands(alloc, &mut state.macros, request.operands)?;
    match request.name {
        Some(name) => read_named(alloc, files, name, state),
        None => read_usual(alloc, files, state),
    }
}

/// The fault that is returned: each form of out of memory becomes `Memory`.
fn answered(fault: ReadFault) -> ReadFault
    ensures { result ≡ answered fault }
{
    if fault.is_out_of_memory() {
        return ReadFault::Memory;
    }
    fault
}

/// Reads the makefile with this name or, without a name, `makefile` or else `Makefile`: after the
/// default text, where `defaults` asks for that, and after the macro operands (the standard's
/// `make`, "Makefile Syntax", "Target Rules", "Macros").
///
/// On an error nothing is returned. The error is the first fault in this order: `BadMakefileName`
/// (27); the faults of the operands, in order; `ReadFailed` (35) and `NoMakefile` (37) for the
/// makefile; then those of its text. In a text the faults of splitting it into lines (1 to 3) come
/// first; then its lines are read in order, an include line with all lines of its files. In a line
/// the order is:
///
/// - faults 21 to 26 and `IncludeDepth` (33), by number;
/// - the faults of the targets, or of the macro's name: first of expanding (11 to 17), then of each
///   word in turn (27, 28);
/// - the same faults of the rest of the line;
/// - `UnknownSpecial` (29), `SpecialShape` (30), `TwoRecipes` (31) and `IncludeEmpty` (34);
/// - the faults of reading: `TooManyFiles` (36), `ReadFailed` (35), `IncludeMissing` (32).
///
/// A bad name and a bad operand are refused before any file is read. `ReadFailed` comes only where
/// a read failed in this call, and names the file of that read. Out of memory is always `Memory`,
/// and can come in place of any result.
pub fn read_makefile<F: Files>(
    alloc: Global,
    files: &mut F,
    name: Option<&Name>,
    defaults: bool,
    operands: &[Vec<u8>],
) -> Result<Makefile, ReadFault>
    ensures keeps { Keeps (F.fits files.old) (F.fits files.new) }
    ensures answer { IfFits (F.fits files.new)
        (λ told.
        Answers told (λ reader.
        makefile reader (option_copied name.entry) defaults (map (λ operand.
        operand.items) operands.now)) (seen (λ m. m) result)) }
    ensures memory { IfErr result (λ fault. is_out_of_memory fault ≡ true → fault ≡ Memory) }
    ensures noted { NotesFailure (F.failed files.old) (F.failed files.new) result }

    // What is refused before any file is read leaves the reader as it was, and gives no makefile.
    ensures untouched { OnErr (request_read (option_copied name.entry) defaults (map (λ operand.
        operand.items) operands.now)) (files.new ≡ files.old) }
    ensures accepted { OnOk result (IsOk (request_read (option_copied name.entry) defaults
        (map (λ operand. operand.items) operands.now))) }
{
    let mut state = State::new(alloc);
    let request = Request {
        name,
        defaults,
        operands,
    };
    match read_all(alloc, files, &request, &mut state) {
        Ok(()) => Ok(makefile_of(state)?),
        Err(fault) => Err(answered(fault)),
    }
}
