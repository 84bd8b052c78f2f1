//! Appends lines to a makefile and judges it again, until it is right or nothing more is known.

ghost use Rattle.std.specs.Prelude.{◌≡◌, ◌++◌, ◌∷◌, ℕ, List, true, length, nat_lt, Ok, Err, IfErr, IfOk, OnOk};
ghost use Rattle.std.specs.Option.{option_copied};
ghost use Rattle.mk_find.specs.declared.finding.Finding as finding;
ghost use Rattle.mk_read.specs.Files.{Told};
ghost use Rattle.mk_core.specs.Steps.{is_out_of_memory};
ghost use Rattle.mk_core_text.specs.declared.fault.Fault.TheVariants.{Memory};
ghost use Rattle.mk_core_repair.specs.declared.surveying.Survey as value;
ghost use Rattle.mk_core_repair.specs.Amending.{added_lines, ends_in_backslash, joint, max_makefile};
ghost use Rattle.mk_core_repair.specs.Known.{IsBase};
ghost use Rattle.mk_core_repair.specs.Outcome.{reason_of, stopped, too_long};
ghost use Rattle.mk_core_repair.specs.Rounds.{IsRound, Rounds, first_unknown, max_rounds, more_words};
ghost use Rattle.mk_core_repair.specs.Views.{HasMore, IsFound, end_outcome};

use crate::freeing::freeing;
use crate::known_files::KnownFiles;
use crate::outcome::{Repair, Stop, Why};
use crate::own_makefile::OwnMakefile;
use crate::round_files::RoundFiles;
use crate::surveying::{JudgeAgain, Survey};
use mk_core::{Fault, Findings, Name, Names, Request, Verdict, answer_judged};
use mk_lines::NameTable;
use mk_repair::{Words, lines_text};
use std::alloc::{AllocError, Global};

/// The most rounds: with the first judgement the makefile is judged at most 64 times.
const MAX_ROUNDS: u32 = 63;

/// The most bytes of an amended makefile.
const MAX_MAKEFILE: usize = 16_777_216;

/// Whether the text ends in a backslash.
fn ends_in_backslash(text: &[u8]) -> bool
    ensures { result ≡ ends_in_backslash text.now }
{
    match text.last() {
        Some(byte) => *byte == b'\\',
        None => false,
    }
}

/// Appends a newline if the makefile ends in a backslash, which makes the newline before it part of
/// the makefile's last line. The only error is out of memory.
fn push_joint(out: &mut Vec<u8>, makefile: &[u8]) -> Result<(), AllocError>
    ensures { OnOk result (out.new.items ≡ out.old.items ++ joint makefile.now) }
{
    if ends_in_backslash(makefile) {
        out.push(b'\n')?;
    }
    Ok(())
}

/// What is appended to the makefile to say the lines: a newline, another if the makefile ends in a
/// backslash, and then the lines. The only error is out of memory.
pub fn added_lines(alloc: Global, own: &OwnMakefile, lines: &str) -> Result<Vec<u8>, AllocError>
    ensures { IfOk result (λ text. text.items ≡ added_lines own.now.text.items lines.now) }
{
    let mut text = vec![in alloc; b'\n']?;
    push_joint(&mut text, &own.text)?;
    text.extend_from_slice(lines.as_bytes())?;
    Ok(text)
}

/// The text of the makefile with more appended. The only error is out of memory.
fn amended_text(alloc: Global, own: &OwnMakefile, added: &[u8]) -> Result<Vec<u8>, AllocError>
    ensures { IfOk result (λ text. text.items ≡ own.now.text.items ++ added.now) }
{
    let mut text = Vec::from_slice(alloc, &own.text)?;
    text.extend_from_slice(added)?;
    Ok(text)
}

/// What the rounds start from: a request, its makefile, and the known files. `IsBase` says that
/// they belong together.
#[derive(Clone, Copy, Drop)]
pub struct Base<'b> {
    /// The request.
    pub request: &'b Request,
    /// The makefile that lines are appended to.
    pub own: &'b OwnMakefile,
    /// The known files.
    pub known: &'b KnownFiles,
}

/// What `check` finds of the makefile with this text appended, among the known files.
fn judge_amended(alloc: Global, base: Base<'_>, added: &[u8]) -> Result<Survey, Fault>
    ensures round { (told : Told) →
        IsBase told base.entry.request.now base.entry.own.now base.entry.known.now →
        IsRound base.entry.known.now.names told base.entry.request.now added.now result }
    ensures memory { IfErr result (λ fault. is_out_of_memory fault ≡ true → fault ≡ Memory) }
{
    let own = base.own;
    let request = freeing(alloc, base.request)?;
    let text = amended_text(alloc, own, added)?;
    let mut files = RoundFiles::new(own.name.as_str(), &text, base.known);
    answer_judged(alloc, &mut files, &request, JudgeAgain)
}

/// The first of the files that isn't among these names. Allocates nothing.
fn first_unknown<'a>(names: &NameTable, files: &'a Names) -> Option<&'a Name>
    ensures { option_copied result ≡ first_unknown names.now files.entry.now }
{
    for file in files.as_slice() {
        if !names.contains(file.as_str()) {
            return Some(file);
        }
    }
    None
}

/// What a round found.
#[derive(Drop)]
pub enum Found {
    /// The amended makefile is right.
    Right,
    /// This file was read, which isn't known.
    Unknown(Name),
    /// These findings, and whether they gave further words.
    Lacks(Findings, bool),
}

/// Adds the new words. Returns whether there were new ones; `false` if a finding gives no word. The
/// only error is out of memory.
fn add_words(alloc: Global, words: &mut Words, new: Option<&Words>) -> Result<bool, AllocError>
    ensures { IfOk result (λ is_new.
        HasMore is_new words.new (more_words words.old (option_copied new.entry))) }
{
    match new {
        Some(new) => words.add_all(alloc, new),
        None => Ok(false),
    }
}

/// What a round found, by its verdict. Adds the new words. The only error is out of memory.
fn found_by(
    alloc: Global,
    known: &KnownFiles,
    words: &mut Words,
    survey: Survey,
) -> Result<Found, AllocError>
    ensures { IfOk result (λ found.
        IsFound known.now.names words.old words.new survey found) }
{
    let Survey {
        verdict,
        words: new,
        files,
    } = survey;
    if let Some(name) = first_unknown(&known.names, &files) {
        return Ok(Found::Unknown(name.clone()?));
    }
    match verdict {
        Verdict::Yes { .. } => Ok(Found::Right),
        Verdict::No(found) => {
            let is_new = add_words(alloc, words, new.as_ref())?;
            Ok(Found::Lacks(found, is_new))
        }
    }
}

/// One round: judges the makefile with this text appended, and adds the new words. The error is the
/// refusal of the amended makefile, or out of memory.
pub fn round(alloc: Global, base: Base<'_>, words: &mut Words, added: &[u8]) -> Result<Found, Fault>
    ensures ok { IfOk result (λ found. (survey : value.Survey) ×
        IsFound base.entry.known.now.names words.old words.new survey found ×
        ((told : Told) →
        IsBase told base.entry.request.now base.entry.own.now base.entry.known.now →
        IsRound base.entry.known.now.names told base.entry.request.now added.now (Ok survey))) }
    ensures err { IfErr result (λ fault. (told : Told) →
        IsBase told base.entry.request.now base.entry.own.now base.entry.known.now →
        IsRound base.entry.known.now.names told base.entry.request.now added.now (Err fault)) }
    ensures memory { IfErr result (λ fault. is_out_of_memory fault ≡ true → fault ≡ Memory) }
{
    let survey = judge_amended(alloc, base, added)?;
    Ok(found_by(alloc, base.known, words, survey)?)
}

/// Whether the makefile would be too long with this text appended.
pub fn is_too_long(own: &OwnMakefile, added: &[u8]) -> bool
    ensures { result ≡ nat_lt max_makefile (length (own.now.text.items ++ added.now)) }
{
    added.len() > MAX_MAKEFILE || own.text.len() > MAX_MAKEFILE - added.len()
}

/// The reason, where for this reason no further lines were tried.
fn stopped(why: Why, stop: Stop) -> Why
    ensures { reason_of result ≡ stopped stop (reason_of why) }
{
    match why {
        Why::Untried(why, part) => Why::Untried(why, part),
        Why::TooLong => Why::TooLong,
        Why::Cycle(names) => Why::Cycle(names),
        Why::Tried(lines, after, _) => Why::Tried(lines, after, stop),
    }
}

/// How the rounds end.
#[derive(Drop)]
pub enum End {
    /// The makefile with this text appended is right.
    Mended(Vec<u8>),
    /// No lines mend it, and why.
    Unmended(Why),
}

/// The rounds that begin with these words. The only error is out of memory.
pub fn rounds(alloc: Global, base: Base<'_>, words: Words) -> Result<End, Fault>
    ensures answer { IfOk result (λ end. (told : Told) →
        IsBase told base.entry.request.now base.entry.own.now base.entry.known.now →
        (first : List finding.Finding) → Rounds max_rounds base.entry.known.now.names told
        base.entry.request.now first words too_long (end_outcome first end)) }
    ensures memory { IfErr result (λ fault. fault ≡ Memory) }
{
    let mut words = words;
    let mut why = Why::TooLong;
    for _done in 0..MAX_ROUNDS {
        let lines = lines_text(alloc, &words)?;
        let added = added_lines(alloc, base.own, lines.as_str())?;
        if is_too_long(base.own, &added) {
            let reason = stopped(why, Stop::TooLong);
            return Ok(End::Unmended(reason));
        }
        match round(alloc, base, &mut words, &added) {
            Ok(Found::Right) => return Ok(End::Mended(added)),
            Ok(Found::Unknown(name)) => {
                let fault = Fault::FileReadFailed(name);
                return Ok(End::Unmended(Why::Tried(lines, Err(fault), Stop::NoMore)));
            }
            Ok(Found::Lacks(found, is_new)) => {
                why = Why::Tried(lines, Ok(found), Stop::NoMore);
                if !is_new {
                    return Ok(End::Unmended(why));
                }
            }
            Err(fault) => {
                if fault.is_out_of_memory() {
                    return Err(Fault::Memory);
                }
                return Ok(End::Unmended(Why::Tried(lines, Err(fault), Stop::NoMore)));
            }
        }
    }
    let last = stopped(why, Stop::Judged);
    Ok(End::Unmended(last))
}
