//! The words of an old build.

ghost use Rattle.std.specs.Prelude.{◌≡◌, ◌⊎◌, ◌==◌, ℕ, List, true, false, map, Err, IfErr, IfOk, MatchOption};
ghost use Rattle.std.specs.List.{slice_split};
ghost use Rattle.std.specs.Str.{is_utf8};
ghost use Rattle.mk_lines.specs.Results.{Gives};
ghost use Rattle.mk_read.specs.Files.{IfFits, Keeps, text_at};
ghost use Rattle.mk_core.specs.Answer.{NotesFailure, NotesFault};
ghost use Rattle.mk_core.specs.Steps.{is_out_of_memory};
ghost use Rattle.mk_infer.specs.declared.fault.InferFault.TheVariants.{BadGoal};
ghost use Rattle.mk_core_text.specs.declared.fault.Fault.TheVariants.{Infer, Memory};
ghost use Rattle.mk_core_since.specs.Before.{IsUnlessFailed};
ghost use Rattle.mk_core_since.specs.Words.{given_by, given_in, words_from, words_name};

use mk_core::{Fault, Files, FilesError, Name, Names, Operands, Request, split_words};
use mk_infer::InferFault;
use mk_read::Place;
use std::alloc::{AllocError, Global};
use std::str;

/// The name of the old build's words in its folder.
const WORDS: &str = "words";

/// The lines of a text; if it ends in a newline, the last one is empty. The only error is out of
/// memory.
pub fn lines_of(alloc: Global, text: &[u8]) -> Result<Vec<&[u8]>, AllocError>
    ensures { IfOk result (λ lines. map (λ line. line.now) lines.items
        ≡ slice_split (λ b. b == 10) text.now) }
{
    text.split(|byte| *byte == b'\n').collect(alloc)
}

/// The bytes as text, if they are UTF-8.
pub fn utf8(bytes: &[u8]) -> Option<&str>
    ensures { MatchOption result (is_utf8 bytes.now ≡ false) (λ text. (text.now ≡ bytes.now) ×
        (is_utf8 bytes.now ≡ true)) }
{
    str::from_utf8(bytes).ok()
}

/// `BadGoal` (27) for this line of the words, or out of memory.
fn bad_line(alloc: Global, line: usize) -> Fault
    ensures fault { (result ≡ Memory) ⊎
        (result ≡ Infer (BadGoal (record { file = words_name; line = line }))) }
    ensures memory { is_out_of_memory result ≡ true → result ≡ Memory }
    ensures noted { (failed : List (List ℕ)) → NotesFault failed failed result }
{
    match Name::new(alloc, WORDS) {
        Ok(file) => Fault::Infer(InferFault::BadGoal(Place { file, line })),
        Err(_) => Fault::Memory,
    }
}

/// The lines that aren't empty. The error is `BadGoal` (27) for the first line that isn't UTF-8, or
/// out of memory.
fn words_from<'a>(alloc: Global, lines: &[&'a [u8]]) -> Result<Vec<&'a str>, Fault>
    ensures words { Gives Memory (λ words. map (λ word. word.now) words.items) result
        (words_from 1 (map (λ line. line.now) lines.now)) }
    ensures memory { IfErr result (λ fault. is_out_of_memory fault ≡ true → fault ≡ Memory) }
    ensures noted { (failed : List (List ℕ)) → NotesFailure failed failed result }
{
    let mut words = Vec::new(alloc);
    for (at, line) in lines.iter().enumerate() {
        let Some(word) = utf8(line) else {
            return Err(bad_line(alloc, at + 1));
        };
        if !word.is_empty() {
            words.push(word)?;
        }
    }
    Ok(words)
}

/// The operands and the goals in a text. The error is `BadGoal` (27) for the first line that isn't
/// UTF-8, or out of memory.
fn given_in(alloc: Global, text: &[u8]) -> Result<(Operands, Names), Fault>
    ensures given { (result ≡ Err Memory) ⊎ (result ≡ given_in text.now) }
    ensures memory { IfErr result (λ fault. is_out_of_memory fault ≡ true → fault ≡ Memory) }
    ensures noted { (failed : List (List ℕ)) → NotesFailure failed failed result }
{
    let lines = lines_of(alloc, text)?;
    match words_from(alloc, &lines) {
        Ok(words) => Ok(split_words(alloc, &words)?),
        Err(fault) => Err(fault),
    }
}

/// Copies of the operands and the goals of a request.
fn words_of(alloc: Global, request: &Request) -> Result<(Operands, Names), AllocError>
    ensures operands { IfOk result (λ r. r.0 ≡ request.now.operands) }
    ensures goals { IfOk result (λ r. r.1 ≡ request.now.goals) }
{
    let operands = copied_operands(alloc, request.operands.as_slice())?;
    let goals = copied_names(alloc, request.goals.as_slice())?;
    Ok((operands, goals))
}

/// Copies of the operands. The only error is out of memory.
fn copied_operands(alloc: Global, words: &[Vec<u8>]) -> Result<Operands, AllocError>
    ensures { IfOk result (λ operands. operands ≡ map (λ word. word.items) words.now) }
{
    let mut copies = Vec::new(alloc);
    for word in words {
        copies.push(word.to_vec(alloc)?)?;
    }
    Ok(Operands::new(copies))
}

/// Copies of the names. The only error is out of memory.
fn copied_names(alloc: Global, names: &[Name]) -> Result<Names, AllocError>
    ensures { IfOk result (λ copies. copies ≡ names.now) }
{
    let mut copies = Vec::new(alloc);
    for name in names {
        copies.push(name.clone()?)?;
    }
    Ok(Names::new(copies))
}

/// The operands and the goals of the old build: those in the file `words`, else those of the
/// request. The errors are `FileReadFailed` (35), `BadGoal` (27) for a line that isn't UTF-8, and
/// out of memory.
pub fn old_words<F: Files>(
    alloc: Global,
    files: &mut F,
    request: &Request,
) -> Result<(Operands, Names), Fault>
    ensures keeps { Keeps (F.fits files.old) (F.fits files.new) }
    ensures given { IfFits (F.fits files.new)
        (λ was. IsUnlessFailed (given_by (text_at was words_name) request.now) result) }
    ensures memory { IfErr result (λ fault. is_out_of_memory fault ≡ true → fault ≡ Memory) }
    ensures noted { NotesFailure (F.failed files.old) (F.failed files.new) result }
{
    let name = Name::new(alloc, WORDS)?;
    match files.read(alloc, name.as_str()) {
        Ok(Some(text)) => given_in(alloc, &text),
        Ok(None) => Ok(words_of(alloc, request)?),
        Err(FilesError::ReadFailed) => Err(Fault::FileReadFailed(name)),
        Err(FilesError::Memory) => Err(Fault::Memory),
    }
}
