//! The makefile that a request reads, and the names of the files that the rounds know.

ghost use Rattle.std.specs.Prelude.{◌≡◌, ◌∷◌, ◌++◌, [], List, ℕ, map, IfErr, IfOk, OnOk};
ghost use Rattle.std.specs.String.{string_bytes};
ghost use Rattle.mk_read.specs.Files.{IfFits, Keeps, Told};
ghost use Rattle.mk_core.specs.Answer.{NotesFailure};
ghost use Rattle.mk_core_repair.specs.Amending.{IsCutTo, book_names, looked_for, makefile_name};
ghost use Rattle.mk_core_repair.specs.Known.{IsBase, IsReadFault, known_by};

use crate::known_files::{KnownFiles, read_file};
use mk_core::{Fault, Files, Name, Names, Request};
use mk_lines::NameTable;
use std::alloc::{AllocError, Global};

/// The makefile that a request reads.
#[derive(Debug, Drop)]
pub struct OwnMakefile {
    pub name: Name,
    pub text: Vec<u8>,
}

/// The name of the makefile that a request reads: the given one; else `makefile` where that exists,
/// or `Makefile`. The errors are `FileReadFailed` (35) and out of memory.
pub fn own_name<F: Files>(alloc: Global, files: &mut F, request: &Request) -> Result<Name, Fault>
    ensures keeps { Keeps (F.fits files.old) (F.fits files.new) }
    ensures name { IfOk result (λ name. IfFits (F.fits files.new)
        (λ told. name ≡ makefile_name told request.now)) }
    ensures fault { IfErr result (IsReadFault (looked_for request.now.makefile)) }
    ensures noted { NotesFailure (F.failed files.old) (F.failed files.new) result }
{
    if let Some(name) = &request.makefile {
        return Ok(name.clone()?);
    }
    let usual = match read_file(alloc, files, "makefile")? {
        Some(_) => "makefile",
        None => "Makefile",
    };
    Ok(Name::new(alloc, usual)?)
}

/// Appends a copy of the name. The only error is out of memory.
fn push_name(alloc: Global, names: &mut Vec<String>, name: &str) -> Result<(), AllocError>
    ensures { OnOk result (map string_bytes names.new.items ≡
        map string_bytes names.old.items ++ name.now ∷ []) }
{
    names.push(String::from_str(alloc, name)?)?;
    Ok(())
}

/// Appends copies of the names. The only error is out of memory.
fn push_names(alloc: Global, names: &mut Vec<String>, more: &[Name]) -> Result<(), AllocError>
    ensures { OnOk result (map string_bytes names.new.items ≡
        map string_bytes names.old.items ++ more.now) }
{
    for name in more {
        names.push(String::from_str(alloc, name.as_str())?)?;
    }
    Ok(())
}

/// Appends the name under which a makefile is looked for first where none is given. The only error
/// is out of memory.
fn push_looked_for(
    alloc: Global,
    names: &mut Vec<String>,
    makefile: &Option<Name>,
) -> Result<(), AllocError>
    ensures { OnOk result (map string_bytes names.new.items ≡
        map string_bytes names.old.items ++ looked_for makefile.now) }
{
    match makefile {
        Some(_) => Ok(()),
        None => push_name(alloc, names, "makefile"),
    }
}

/// Appends the name of the footprint file, if there is one. The only error is out of memory.
fn push_book(alloc: Global, names: &mut Vec<String>, book: &Option<Name>) -> Result<(), AllocError>
    ensures { OnOk result (map string_bytes names.new.items ≡
        map string_bytes names.old.items ++ book_names book.now) }
{
    match book {
        Some(book) => push_name(alloc, names, book.as_str()),
        None => Ok(()),
    }
}

/// The names of the files that the rounds know: the makefile that the request reads, or looks for;
/// the files of the first judgement; and the footprint file. The only error is out of memory.
pub fn names_known(
    alloc: Global,
    own: &str,
    request: &Request,
    files: &Names,
) -> Result<NameTable, AllocError>
    ensures { IfOk result (λ names. names ≡
        own.now ∷ (looked_for request.now.makefile ++
        (files.now ++ book_names request.now.book))) }
{
    let mut names = Vec::new(alloc);
    push_name(alloc, &mut names, own)?;
    push_looked_for(alloc, &mut names, &request.makefile)?;
    push_names(alloc, &mut names, files.as_slice())?;
    push_book(alloc, &mut names, &request.book)?;
    NameTable::new(alloc, names)
}

/// The makefile with this name and its known text. The only error is out of memory.
pub fn own_makefile(
    alloc: Global,
    name: Name,
    request: &Request,
    known: &KnownFiles,
) -> Result<OwnMakefile, AllocError>
    ensures { IfOk result (λ own. (told : Told) (others : List (List ℕ)) →
        name ≡ makefile_name told request.now → known.now.names ≡ name ∷ others →
        IsCutTo known.now.names told (known_by known.now) →
        IsBase told request.now own known.now) }
{
    let text = match known.text(name.as_str()) {
        Some(text) => Vec::from_slice(alloc, text)?,
        None => Vec::new(alloc),
    };
    Ok(OwnMakefile { name, text })
}
