//! The internal macros `$@ $* $< $^ $+`, with their directory and file parts.

ghost use Rattle.std.specs.Prelude.{◌≡◌, ◌∷◌, ◌++◌, map, IfOk, OnOk, if◌then◌else◌};
ghost use Rattle.std.specs.List.{slice_split, join_with_byte};
ghost use Rattle.mk_lines.specs.Bytes.{is_byte};
ghost use Rattle.mk_macros.specs.Forms.{is_internal};
ghost use Rattle.mk_macros.specs.Locals.{distinct, directory, file, part_of, internal_value, recipe_of, internal_of};

use crate::bytes::first_place;
use indexmap::IndexSet;
use std::alloc::{AllocError, Global};

/// The values of the internal macros.
#[derive(Debug, Drop)]
pub enum Locals<'a> {
    /// For a text outside commands: all internal macros are empty.
    Empty,
    /// For a command.
    Recipe {
        /// `$@`: the target.
        target: &'a str,
        /// `$*`: the target without its known suffix.
        stem: &'a str,
        /// `$<`: the inferred prerequisite; in a target rule, the first prerequisite.
        first: Option<&'a str>,
        /// `$+`: all prerequisites. `$^` is these without repetition.
        all: &'a [&'a str],
    },
}

/// Which part of a name a reference takes.
#[derive(Debug, Clone, Copy, PartialEq, Eq)]
pub enum Part {
    /// The whole name.
    Whole,
    /// `D`: the directory, before the last slash. It is `.` where there is no slash, and `/` where
    /// the only slash is the first byte.
    Directory,
    /// `F`: the file name, after the last slash; the whole name where there is no slash.
    File,
}

/// Whether a byte is an internal macro: one of `@ * < ^ + ? %`.
pub fn is_internal(byte: u8) -> bool
    ensures { result ≡ is_internal byte }
{
    matches!(byte, b'@' | b'*' | b'<' | b'^' | b'+' | b'?' | b'%')
}

/// The internal macro and the part that a name means: one of `@ * < ^ + ? %`, alone or followed by
/// `D` or `F`. `None` for any other name.
pub fn internal_of(name: &[u8]) -> Option<(u8, Part)>
    ensures { result ≡ internal_of name.now }
{
    let (byte, part) = match name {
        [byte] => (*byte, Part::Whole),
        [byte, b'D'] => (*byte, Part::Directory),
        [byte, b'F'] => (*byte, Part::File),
        _ => return None,
    };
    if !is_internal(byte) {
        return None;
    }
    Some((byte, part))
}

/// The text after the last slash of a name.
fn file(name: &[u8]) -> &[u8]
    ensures { result.now ≡ file name.now }
{
    let mut rest = name;
    loop {
        let at = first_place(b'/', rest);
        if at == rest.len() {
            return rest;
        }
        rest = &rest[at + 1..];
    }
}

/// The text before the last slash of a name: `.` where there is no slash, and `/` where the only
/// slash is the first byte.
fn directory(name: &[u8]) -> &[u8]
    ensures { result.now ≡ directory name.now }
{
    let start = name.len() - file(name).len();
    match start {
        0 => b".",
        1 => b"/",
        _ => &name[..start - 1],
    }
}

/// The given part of a name.
fn part_of(part: Part, name: &[u8]) -> &[u8]
    ensures { result.now ≡ part_of part name.now }
{
    match part {
        Part::Whole => name,
        Part::Directory => directory(name),
        Part::File => file(name),
    }
}

/// Appends a word, after a space where it isn't the first.
fn push_next(into: &mut Vec<u8>, is_first: bool, word: &[u8]) -> Result<(), AllocError>
    ensures { OnOk result (into.new.items ≡
        into.old.items ++ (if is_first then word.now else 32 ∷ word.now)) }
{
    if !is_first {
        into.push(b' ')?;
    }
    into.extend_from_slice(word)?;
    Ok(())
}

/// The given part of each name, separated by one space.
fn joined(alloc: Global, names: &[&str], part: Part) -> Result<Vec<u8>, AllocError>
    ensures { IfOk result (λ value. value.items ≡
        join_with_byte 32 (map (part_of part) (map (λ name. name.now) names.now))) }
{
    let mut value = Vec::new(alloc);
    for (i, name) in names.iter().enumerate() {
        push_next(&mut value, i == 0, part_of(part, name.as_bytes()))?;
    }
    Ok(value)
}

/// The names without repetition, each at its first place.
fn distinct<'a>(alloc: Global, names: &[&'a str]) -> Result<IndexSet<&'a str>, AllocError>
    ensures { IfOk result (λ set. map (λ name. name.now) set.keys ≡
        distinct (map (λ name. name.now) names.now)) }
{
    let mut set = IndexSet::new(alloc);
    for name in names {
        set.insert(*name)?;
    }
    Ok(set)
}

/// The value of an internal macro: the given part of each name that it stands for, separated by one
/// space. It is empty outside commands, and for `$?` and `$%`. The only error is out of memory.
pub fn internal_value(
    alloc: Global,
    locals: &Locals,
    byte: u8,
    part: Part,
) -> Result<Vec<u8>, AllocError>
    ensures { IfOk result (λ value. value.items ≡ internal_value (recipe_of locals.now) byte part) }
{
    let Locals::Recipe {
        target,
        stem,
        first,
        all,
    } = locals
    else {
        return Ok(Vec::new(alloc));
    };
    match byte {
        b'@' => joined(alloc, &[*target], part),
        b'*' => joined(alloc, &[*stem], part),
        b'<' => match first {
            Some(name) => joined(alloc, &[*name], part),
            None => Ok(Vec::new(alloc)),
        },
        b'^' => {
            let names = distinct(alloc, all)?;
            joined(alloc, names.as_slice(), part)
        }
        b'+' => joined(alloc, all, part),
        _ => Ok(Vec::new(alloc)),
    }
}
