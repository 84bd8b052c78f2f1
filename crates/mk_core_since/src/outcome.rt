//! What comes of `since`, and how it is printed.

ghost use Rattle.std.specs.Prelude.{◌≡◌, ◌++◌, ◌∷◌, [], IfOk};
ghost use Rattle.mk_core_since.specs.SinceText.{names_text, nothing_kept, old_message, refused_message, said, since_message, since_output, told_findings};

use mk_core::{Fault, Findings, Name, Names, fault_text};
use mk_core_text::{caused_words, findings_text};
use mk_find::Finding;
use mk_read::ReadFault;
use mk_read_files::Cause;
use std::alloc::{AllocError, Global};

/// What comes of `since`.
#[derive(Debug, Drop)]
pub enum Since {
    /// The files to remove, in ascending order of their bytes.
    Named(Names),
    /// The findings of the new build, and their sentences, where these are asked for.
    No(Findings, Vec<u8>),
    /// Findings of the old build, none of them a race or a stale read.
    Unsure(Findings),
    /// Why the old build is refused.
    Refused(Fault),
}

/// A line for each name.
fn names_text(alloc: Global, names: &[Name]) -> Result<Vec<u8>, AllocError>
    ensures { IfOk result (λ text. text.items ≡ names_text names.now) }
{
    let mut text = Vec::new(alloc);
    for name in names {
        text.extend_from_slice(name.as_str().as_bytes())?;
        text.push(b'\n')?;
    }
    Ok(text)
}

/// What standard output gets: a line for each file to remove.
pub fn since_output(alloc: Global, since: &Since) -> Result<Vec<u8>, AllocError>
    ensures { IfOk result (λ text. text.items ≡ since_output since.now) }
{
    match since {
        Since::Named(names) => names_text(alloc, names.as_slice()),
        Since::No(..) | Since::Unsure(_) | Since::Refused(_) => Ok(Vec::new(alloc)),
    }
}

/// The text, and a line that says whose build it is about.
fn of_old(alloc: Global, text: Vec<u8>, folder: &str) -> Result<Vec<u8>, AllocError>
    ensures { IfOk result (λ message. message.items ≡ old_message text.items folder.now) }
{
    let mut message = text;
    message.extend_from_slice(b"this is the old build, in ")?;
    message.extend_from_slice(folder.as_bytes())?;
    message.extend_from_slice(b": begin with a clean build\n")?;
    Ok(message)
}

/// The text, and a line that says that nothing was kept in this folder.
fn nothing_kept(alloc: Global, text: Vec<u8>, folder: &str) -> Result<Vec<u8>, AllocError>
    ensures { IfOk result (λ message. message.items ≡ nothing_kept text.items folder.now) }
{
    let mut message = text;
    message.extend_from_slice(b"there is no makefile of an old build in ")?;
    message.extend_from_slice(folder.as_bytes())?;
    message.extend_from_slice(
        b": mkcheck-record --keep DIR keeps one; begin with a clean build\n",
    )?;
    Ok(message)
}

/// The text of a fault: with numbers, or in words with the cause of a failed read.
fn said(alloc: Global, fault: &Fault, cause: Option<Cause>) -> Result<Vec<u8>, AllocError>
    ensures { IfOk result (λ text. text.items ≡ said cause fault.now) }
{
    match cause {
        Some(cause) => caused_words(alloc, fault, cause),
        None => fault_text(alloc, fault),
    }
}

/// The text of findings: their sentences in words, else a line for each.
fn told_findings(
    alloc: Global,
    found: &[Finding],
    sentences: &[u8],
    cause: Option<Cause>,
) -> Result<Vec<u8>, AllocError>
    ensures { IfOk result (λ text. text.items ≡ told_findings cause found.now sentences.now) }
{
    match cause {
        Some(_) => Vec::from_slice(alloc, sentences),
        None => findings_text(alloc, found),
    }
}

/// The text of a refusal of the old build, and a line that says so.
fn refused_message(
    alloc: Global,
    fault: &Fault,
    text: Vec<u8>,
    folder: &str,
) -> Result<Vec<u8>, AllocError>
    ensures { IfOk result (λ message. message.items ≡
        refused_message fault.now text.items folder.now) }
{
    match fault {
        Fault::Read(ReadFault::NoMakefile(_)) => nothing_kept(alloc, text, folder),
        _ => of_old(alloc, text, folder),
    }
}

/// What standard error gets: findings or a refusal, and whether they are of the old build, in this
/// folder. Where the cause of the last failed read is given, findings of the new build are in
/// sentences, and a refusal is in words; else findings have a line each, and a refusal has numbers. The only error is out of memory.
pub fn since_message(
    alloc: Global,
    since: &Since,
    folder: &str,
    cause: Option<Cause>,
) -> Result<Vec<u8>, AllocError>
    ensures { IfOk result (λ text. text.items ≡ since_message folder.now cause since.now) }
{
    match since {
        Since::Named(_) => Ok(Vec::new(alloc)),
        Since::No(found, text) => told_findings(alloc, found.as_slice(), text.as_slice(), cause),
        Since::Unsure(found) => {
            let text = findings_text(alloc, found.as_slice())?;
            of_old(alloc, text, folder)
        }
        Since::Refused(fault) => {
            let mut text = said(alloc, fault, cause)?;
            text.push(b'\n')?;
            refused_message(alloc, fault, text, folder)
        }
    }
}
