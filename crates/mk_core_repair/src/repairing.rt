//! The command `repair`.

ghost use Rattle.std.specs.Prelude.{◌≡◌, List, true, IfErr, IfOk, IsOk, OnErr, OnOk};
ghost use Rattle.std.specs.String.{string_bytes};
ghost use Rattle.mk_find.specs.declared.finding.Finding as finding;
ghost use Rattle.mk_read.specs.Files.{IfFits, Keeps};
ghost use Rattle.mk_core.specs.Answer.{Answers, NotesFailure};
ghost use Rattle.mk_core.specs.Judging.{AnswersJudged};
ghost use Rattle.mk_core.specs.Ready.{macros_for};
ghost use Rattle.mk_core.specs.Steps.{is_out_of_memory};
ghost use Rattle.mk_core_text.specs.declared.fault.Fault.TheVariants.{Memory};
ghost use Rattle.mk_core_repair.specs.Amending.{names_known};
ghost use Rattle.mk_core_repair.specs.Known.{IsBase, IsReadFault};
ghost use Rattle.mk_core_repair.specs.Outcome.{outcome_of, too_long};
ghost use Rattle.mk_core_repair.specs.RepairAnswer.{AfterFirst, AnswersRepair, CannotBeMended, IsCycle, Suffices, TakesPart};
ghost use Rattle.mk_core_repair.specs.Rounds.{Rounds, max_rounds};
ghost use Rattle.mk_core_repair.specs.Survey.{GivesFirst};
ghost use Rattle.mk_core_repair.specs.Trial.{Trial, with_part};
ghost use Rattle.mk_core_repair.specs.Views.{end_outcome};

use crate::freeing::freeing;
use crate::known_files::KnownFiles;
use crate::outcome::{Part, Repair, Why};
use crate::own_makefile::{OwnMakefile, names_known, own_makefile, own_name};
use crate::rounds::{Base, End, rounds};
use crate::surveying::{First, JudgeFirst, Survey};
use crate::trial::{trial, untried};
use mk_build_needs::laws::first_cycle_cannot_be_mended;
use mk_core::laws::yes_is_right;
use mk_core::{Fault, Files, Findings, Names, Request, Verdict, answer_judged};
use mk_read_laws::file_laws::only_named_files_count;
use mk_repair::{Obstacle, Words};
use std::alloc::Global;

/// Judges the makefile as it is. The errors are those of `check`, in their order.
fn judge_first<F: Files>(alloc: Global, files: &mut F, request: &Request) -> Result<First, Fault>
    ensures keeps { Keeps (F.fits files.old) (F.fits files.new) }
    ensures answer { IfFits (F.fits files.new)
        (λ told. Answers told request.now (AnswersJudged GivesFirst) result) }
    ensures memory { IfErr result (λ fault. is_out_of_memory fault ≡ true → fault ≡ Memory) }
    ensures noted { NotesFailure (F.failed files.old) (F.failed files.new) result }
    ensures untouched { OnErr (macros_for request.now) (files.new ≡ files.old) }
    ensures accepted { OnOk result (IsOk (macros_for request.now)) }
{
    let request = freeing(alloc, request)?;
    answer_judged(alloc, files, &request, JudgeFirst)
}

/// Reads again what the first judgement read: the makefile, and all files that the rounds know. The
/// errors are `FileReadFailed` (35) and out of memory.
fn read_again<F: Files>(
    alloc: Global,
    files: &mut F,
    request: &Request,
    names: &Names,
) -> Result<(OwnMakefile, KnownFiles), Fault>
    ensures keeps { Keeps (F.fits files.old) (F.fits files.new) }
    ensures base { IfOk result (λ read. IfFits (F.fits files.new)
        (λ told. IsBase told request.now read.0 read.1)) }
    ensures names { IfOk result (λ read. IfFits (F.fits files.new)
        (λ told. read.1.names ≡ names_known told request.now names.now)) }
    ensures fault { IfErr result (λ fault. IfFits (F.fits files.new)
        (λ told. IsReadFault (names_known told request.now names.now) fault)) }
    ensures memory { IfErr result (λ fault. is_out_of_memory fault ≡ true → fault ≡ Memory) }
    ensures noted { NotesFailure (F.failed files.old) (F.failed files.new) result }
{
    let own = own_name(alloc, files, request)?;
    let names = names_known(alloc, own.as_str(), request, names)?;
    let known = KnownFiles::read(alloc, files, names)?;
    let own = own_makefile(alloc, own, request, &known)?;
    Ok((own, known))
}

/// Reads again what the first judgement read, and tries the lines of these words. The errors are
/// `FileReadFailed` (35) and out of memory.
fn mend<F: Files>(
    alloc: Global,
    files: &mut F,
    request: &Request,
    names: &Names,
    words: Words,
) -> Result<End, Fault>
    ensures keeps { Keeps (F.fits files.old) (F.fits files.new) }
    ensures answer { IfOk result (λ end. IfFits (F.fits files.new)
        (λ told. (first : List finding.Finding) →
        Rounds max_rounds (names_known told request.now names.now) told request.now first words
        too_long (end_outcome first end))) }
    ensures fault { IfErr result (λ fault. IfFits (F.fits files.new)
        (λ told. IsReadFault (names_known told request.now names.now) fault)) }
    ensures memory { IfErr result (λ fault. is_out_of_memory fault ≡ true → fault ≡ Memory) }
    ensures noted { NotesFailure (F.failed files.old) (F.failed files.new) result }
{
    let (own, known) = read_again(alloc, files, request, names)?;
    let base = Base {
        request,
        own: &own,
        known: &known,
    };
    rounds(alloc, base, words)
}

/// Tries the lines of an obstacle, if there are any, and reads again what the first judgement read
/// for that. The errors are `FileReadFailed` (35) and out of memory.
fn mend_part<F: Files>(
    alloc: Global,
    files: &mut F,
    request: &Request,
    names: &Names,
    obstacle: Obstacle,
) -> Result<End, Fault>
    ensures keeps { Keeps (F.fits files.old) (F.fits files.new) }
    ensures answer { IfOk result (λ end. IfFits (F.fits files.new)
        (λ told. (first : List finding.Finding) →
        Trial (names_known told request.now names.now) told request.now
        (with_part first (string_bytes obstacle.why)) (string_bytes obstacle.lines)
        (end_outcome first end))) }
    ensures fault { IfErr result (λ fault. IfFits (F.fits files.new)
        (λ told. IsReadFault (names_known told request.now names.now) fault)) }
    ensures memory { IfErr result (λ fault. is_out_of_memory fault ≡ true → fault ≡ Memory) }
    ensures noted { NotesFailure (F.failed files.old) (F.failed files.new) result }
{
    let Obstacle { why, lines } = obstacle;
    if lines.is_empty() {
        return Ok(untried(why, Part::NoLines));
    }
    let (own, known) = read_again(alloc, files, request, names)?;
    let base = Base {
        request,
        own: &own,
        known: &known,
    };
    trial(alloc, base, why, lines)
}

/// What comes of mending where trials end so, after these first findings.
fn repair_by(found: Findings, end: End) -> Repair
    ensures { outcome_of result ≡ end_outcome found end }
{
    match end {
        End::Mended(text) => Repair::Mended(text),
        End::Unmended(why) => Repair::Unmended(found, why),
    }
}

/// What comes of mending, after the first judgement. The errors are `FileReadFailed` (35) and out
/// of memory.
fn after_first<F: Files>(
    alloc: Global,
    files: &mut F,
    request: &Request,
    first: First,
) -> Result<Repair, Fault>
    ensures keeps { Keeps (F.fits files.old) (F.fits files.new) }
    ensures answer { IfOk result (λ repair. IfFits (F.fits files.new)
        (λ told. AfterFirst (names_known told request.now first.survey.files) told request.now
        first.survey.verdict first.survey.words first.cycle first.obstacle (outcome_of repair))) }
    ensures fault { IfErr result (λ fault. IfFits (F.fits files.new)
        (λ told. IsReadFault (names_known told request.now first.survey.files) fault)) }
    ensures memory { IfErr result (λ fault. is_out_of_memory fault ≡ true → fault ≡ Memory) }
    ensures noted { NotesFailure (F.failed files.old) (F.failed files.new) result }
{
    let First {
        survey,
        cycle,
        obstacle,
    } = first;
    let Survey {
        verdict,
        words,
        files: names,
    } = survey;
    let found = match verdict {
        Verdict::Yes { .. } => return Ok(Repair::Right),
        Verdict::No(found) => found,
    };
    let Some(words) = words else {
        let end = mend_part(alloc, files, request, &names, obstacle)?;
        return Ok(repair_by(found, end));
    };
    if let Some(cycle) = cycle {
        return Ok(Repair::Unmended(found, Why::Cycle(cycle)));
    }
    let end = mend(alloc, files, request, &names, words)?;
    Ok(repair_by(found, end))
}

/// The lines that mend the makefile, for `mkcheck repair`.
///
/// The makefile is judged. Where that is a no, its findings give words: what the makefile lacks.
/// The lines that say the words are appended, and the makefile is judged again, as long as there
/// are new words, at most 64 times in all. Where lines are the answer, `check` says yes to the
/// makefile with these lines appended, and so the build is right, in the words that `check` has for
/// right. Where a cycle is the answer, no makefile that has all targets, recipes and prerequisites
/// of this one gets a yes over these footprints.
///
/// Where a finding gives no word, the lines of the others are tried once. Where they don't mend the
/// makefile, they are a part of the answer, unless `check` refuses the makefile with them.
///
/// The rounds read no files: what the first judgement read is read once more, and all rounds run
/// over that. A round that would read another file counts as refused.
///
/// The error is the first fault in the order that `check` lists; then `FileReadFailed` (35), where
/// a file can't be read again. Out of memory can come in place of any result. A bad name of the
/// makefile and a bad operand are refused before any file is read. Inputs are always freed,
/// whatever `leaves_memory` is.
pub fn repair<F: Files>(alloc: Global, files: &mut F, request: &Request) -> Result<Repair, Fault>
    ensures keeps { Keeps (F.fits files.old) (F.fits files.new) }
    ensures answer { IfFits (F.fits files.new)
        (λ told. AnswersRepair told request.now result) }
    ensures suffices { IfFits (F.fits files.new) (λ told. Suffices told request.now result) }
    ensures part { IfFits (F.fits files.new) (λ told. TakesPart told request.now result) }
    ensures cycle { IfFits (F.fits files.new)
        (λ told. IsCycle result → CannotBeMended told request.now) }
    ensures memory { IfErr result (λ fault. is_out_of_memory fault ≡ true → fault ≡ Memory) }
    ensures noted { NotesFailure (F.failed files.old) (F.failed files.new) result }
    ensures untouched { OnErr (macros_for request.now) (files.new ≡ files.old) }
{
    yes_is_right();
    first_cycle_cannot_be_mended();
    only_named_files_count();
    let first = judge_first(alloc, files, request)?;
    after_first(alloc, files, request, first)
}
