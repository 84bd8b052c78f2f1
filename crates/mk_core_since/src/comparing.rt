//! The command `since`.

ghost use Rattle.std.specs.Prelude.{◌≡◌, ◌⊎◌, true, Err, Ok, IfErr, OnErr};
ghost use Rattle.mk_read.specs.Files.{IfFits, Keeps};
ghost use Rattle.mk_core.specs.Answer.{NotesFailure};
ghost use Rattle.mk_core.specs.Ready.{macros_for};
ghost use Rattle.mk_core.specs.Steps.{is_out_of_memory};
ghost use Rattle.mk_core_text.specs.declared.fault.Fault.TheVariants.{Memory};
ghost use Rattle.mk_core_since.specs.InFolder.{fault_in};
ghost use Rattle.mk_core_since.specs.Next.{IfNamed, IsNextFor};
ghost use Rattle.mk_core_since.specs.SinceAnswer.{AfterOld, AnswersSince};
ghost use Rattle.mk_core_since.specs.declared.outcome.Since.TheVariants.{Refused};

use crate::change::Change;
use crate::in_folder::fault_in;
use crate::laws::since_is_next;
use crate::naming::NameFiles;
use crate::old_build::{OldBuild, old_build};
use crate::outcome::Since;
use mk_core::{Fault, Files, answer_judged};
use std::alloc::Global;

/// The refusal of the old build by this fault, with its files' names as seen from outside of the
/// folder. The only error is out of memory, which is no refusal.
fn refused(alloc: Global, folder: &str, fault: Fault) -> Result<Since, Fault>
    ensures { (result ≡ Err Memory) ⊎ (result ≡ Ok (Refused (fault_in folder.now fault))) }
{
    match fault {
        Fault::Memory => Err(Fault::Memory),
        fault => Ok(Since::Refused(fault_in(alloc, folder, fault)?)),
    }
}

/// What comes of `since` once the old build is known: the files to remove or the findings of the
/// new build; or the findings of the old one. The errors are those of `check` for the new build.
fn after_old<F: Files>(
    alloc: Global,
    files: &mut F,
    change: &Change<'_>,
    known: OldBuild,
    words: bool,
) -> Result<Since, Fault>
    ensures keeps { Keeps (F.fits files.old) (F.fits files.new) }
    ensures answer { IfFits (F.fits files.new)
        (λ told. AfterOld words told change.now.folder.now change.now.request.now
        (Ok known) result) }
    ensures memory { IfErr result (λ fault. is_out_of_memory fault ≡ true → fault ≡ Memory) }
    ensures noted { NotesFailure (F.failed files.old) (F.failed files.new) result }
    ensures untouched { OnErr (macros_for change.now.request.now) (files.new ≡ files.old) }
{
    match known {
        OldBuild::Kept(past) => {
            let name = NameFiles { past: &past, words };
            answer_judged(alloc, files, change.request, name)
        }
        OldBuild::Unsure(found) => Ok(Since::Unsure(found)),
    }
}

/// The files to remove before the new build, for `mkcheck since`; or the findings of the new build,
/// with their sentences where `words` asks for them; or the refusal or the findings of the old one.
/// `old` reads the files of the folder by their names in it, `files` those of the new build.
///
/// Files are named, or none, only if `check` says yes of the new build, and finds nothing of the old
/// one but races and stale reads. After the removal of the named ones makes of the new build are
/// right, as `IsNextFor` says.
///
/// The errors are those of `check` for the new build, in their order. The old build is read and
/// judged first. Out of memory can come in place of any result.
pub fn since<G: Files, F: Files>(
    alloc: Global,
    old: &mut G,
    files: &mut F,
    change: &Change<'_>,
    words: bool,
) -> Result<Since, Fault>
    ensures keeps_old { Keeps (G.fits old.old) (G.fits old.new) }
    ensures keeps { Keeps (F.fits files.old) (F.fits files.new) }
    ensures answer { IfFits (G.fits old.new) (λ was. IfFits (F.fits files.new)
        (λ told. AnswersSince words was told change.now.folder.now
        change.now.request.now result)) }
    ensures next { IfFits (G.fits old.new) (λ was. IfFits (F.fits files.new)
        (λ told. IfNamed result (IsNextFor was told change.now.request.now))) }
    ensures memory { IfErr result (λ fault. is_out_of_memory fault ≡ true → fault ≡ Memory) }
    ensures noted { NotesFailure (F.failed files.old) (F.failed files.new) result }
    ensures untouched { OnErr (macros_for change.now.request.now) (files.new ≡ files.old) }
{
    since_is_next();
    match old_build(alloc, old, change.request) {
        Ok(known) => after_old(alloc, files, change, known, words),
        Err(fault) => refused(alloc, change.folder, fault),
    }
}
