//! The files that the first judgement found out about.

ghost use Rattle.std.specs.Prelude.{◌≡◌, ◌⊎◌, ℕ, List, map, IfErr, IfOk, OnOk};
ghost use Rattle.std.specs.HashMap.{get_by_text};
ghost use Rattle.std.specs.Option.{option_map};
ghost use Rattle.std.specs.Str.{bytes_eq};
ghost use Rattle.std.specs.String.{string_bytes};
ghost use Rattle.mk_read.specs.Files.{IfFits, Keeps, Told, text_at};
ghost use Rattle.mk_core.specs.Answer.{NotesFailure};
ghost use Rattle.mk_core_text.specs.declared.fault.Fault.TheVariants.{FileReadFailed, Memory};
ghost use Rattle.mk_core_repair.specs.Amending.{IsCutTo};
ghost use Rattle.mk_core_repair.specs.Known.{IsReadFault, known_by, or_if};

use indexmap::IndexMap;
use mk_core::{Fault, Files, FilesError, Name};
use mk_lines::NameTable;
use std::alloc::{AllocError, Global};

/// Files that were found out about: their names, and the texts of those that exist.
#[derive(Drop)]
pub struct KnownFiles {
    pub names: NameTable,
    files: IndexMap<String, Vec<u8>>,
}

/// The text of a file, or `None` where it doesn't exist. The errors are `FileReadFailed` (35) and
/// out of memory.
pub fn read_file<F: Files>(
    alloc: Global,
    files: &mut F,
    name: &str,
) -> Result<Option<Vec<u8>>, Fault>
    ensures keeps { Keeps (F.fits files.old) (F.fits files.new) }
    ensures text { IfOk result (λ text. IfFits (F.fits files.new)
        (λ told. option_map (λ bytes. bytes.items) text ≡ text_at told name.now)) }
    ensures fault { IfErr result (λ fault. (fault ≡ Memory) ⊎
        (fault ≡ FileReadFailed name.now)) }
    ensures noted { NotesFailure (F.failed files.old) (F.failed files.new) result }
{
    let asked = Name::new(alloc, name)?;
    match files.read(alloc, name) {
        Ok(text) => Ok(text),
        Err(FilesError::ReadFailed) => Err(Fault::FileReadFailed(asked)),
        Err(FilesError::Memory) => Err(Fault::Memory),
    }
}

/// Adds the text of a file, unless there is one with its name. The only error is out of memory.
fn add_text(
    alloc: Global,
    files: &mut IndexMap<String, Vec<u8>>,
    name: &str,
    text: Vec<u8>,
) -> Result<(), AllocError>
    ensures { OnOk result ((other : List ℕ) →
        get_by_text files.new other ≡
        or_if (get_by_text files.old other) (bytes_eq other name.now) text) }
{
    let key = String::from_str(alloc, name)?;
    let _text = files.entry(key)?.or_insert(text);
    Ok(())
}

/// Reads these files, each that exists once, and keeps the texts of those that exist. The errors
/// are `FileReadFailed` (35) and out of memory.
fn read_texts<F: Files>(
    alloc: Global,
    files: &mut F,
    names: &[String],
) -> Result<IndexMap<String, Vec<u8>>, Fault>
    ensures keeps { Keeps (F.fits files.old) (F.fits files.new) }
    ensures cut { IfOk result (λ texts. IfFits (F.fits files.new)
        (λ told. IsCutTo (map string_bytes names.now) told
        (map (λ entry. (string_bytes entry.0, entry.1.items)) texts.entries))) }
    ensures fault { IfErr result (IsReadFault (map string_bytes names.now)) }
    ensures noted { NotesFailure (F.failed files.old) (F.failed files.new) result }
{
    let mut texts = IndexMap::new(alloc);
    for name in names {
        if texts.contains_key(name.as_str()) {
            continue;
        }
        if let Some(text) = read_file(alloc, files, name.as_str())? {
            add_text(alloc, &mut texts, name.as_str(), text)?;
        }
    }
    Ok(texts)
}

impl KnownFiles {
    /// Reads the files with these names. The errors are `FileReadFailed` (35) and out of memory.
    pub fn read<F: Files>(
        alloc: Global,
        files: &mut F,
        names: NameTable,
    ) -> Result<KnownFiles, Fault>
        ensures keeps { Keeps (F.fits files.old) (F.fits files.new) }
        ensures names { IfOk result (λ known. known.names ≡ names) }
        ensures cut { IfOk result (λ known. IfFits (F.fits files.new)
            (λ told. IsCutTo known.names told (known_by known))) }
        ensures fault { IfErr result (IsReadFault names) }
        ensures noted { NotesFailure (F.failed files.old) (F.failed files.new) result }
    {
        let texts = read_texts(alloc, files, names.as_slice())?;
        Ok(KnownFiles {
            names,
            files: texts,
        })
    }

    /// The text of a file, if it is known and exists. Allocates nothing.
    pub fn text(&self, name: &str) -> Option<&[u8]>
        ensures { option_map (λ text. text.now) result ≡ text_at (known_by self.now) name.now }
    {
        match self.files.get(name) {
            Some(text) => Some(text.as_slice()),
            None => None,
        }
    }
}
