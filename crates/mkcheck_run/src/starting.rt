//! Runs the program from the words of the command line, or from the error in their place.

ghost use Rattle.std.specs.Prelude.{◌≡◌, ◌≢◌, [], map, Err, IfErr, IfOk, OnErr, OnOk};
ghost use Rattle.std.specs.IoError.{error_kind};
ghost use Rattle.mk_core.specs.Files.{IfFits, Keeps};
ghost use Rattle.mk_command.specs.Invocation.{AreRefusedUnread, invocation_of, faults_of};
ghost use Rattle.mkcheck_host.specs.Outcome.{written};
ghost use Rattle.mkcheck_run.specs.Run.{IsAnswered, Promises};

use crate::running::run;
use mk_core::Files;
use mk_core_since::Folder;
use mkcheck_host::{Outcome, Stop};
use std::alloc::Global;
use std::convert::AsStr;
use std::io;
use std::io::ErrorKind;

/// The outcome for the words after the program's name. Fails with `Stop::Words` where a word isn't
/// UTF-8, and with `Stop::Memory` where memory ran out. Only `since` reads by `below`.
pub fn run_arguments<F: Files, B: Folder>(
    alloc: Global,
    files: &mut F,
    below: &mut B,
    words: io::Result<Vec<String>>,
) -> Result<Outcome, Stop>
    ensures memory { IfErr words (λ error. error_kind error ≡ ErrorKind.OutOfMemory
        → result ≡ Err Stop.Memory) }
    ensures words { IfErr words (λ error. error_kind error ≢ ErrorKind.OutOfMemory
        → result ≡ Err Stop.Words) }

    ensures keeps { Keeps (F.fits files.old) (F.fits files.new) }

    // Words without a fault give a command, which is carried out; and status 0 of a verdict says
    // that the build is right, of `repair` that it is with the printed text appended.
    ensures taken { IfOk words (λ given. IfOk result (λ outcome.
        faults_of (map ⟦<String as AsStr>⟧.text given.items) ≡ [] →
        IsAnswered (B.fits below.new) (F.fits files.new) (F.failed files.old) (F.failed files.new)
        (invocation_of (map ⟦<String as AsStr>⟧.text given.items)) (written outcome))) }
    ensures right { IfOk words (λ given. IfOk result (λ outcome.
        faults_of (map ⟦<String as AsStr>⟧.text given.items) ≡ [] → outcome.status ≡ 0 →
        IfFits (F.fits files.new)
        (λ told. Promises told (invocation_of (map ⟦<String as AsStr>⟧.text given.items))
        outcome.out.items))) }

    // Words with a fault, a bad name of the makefile and a bad macro operand are refused before any
    // file is read. Without words nothing is read.
    ensures untouched { IfOk words (λ given.
        AreRefusedUnread (map ⟦<String as AsStr>⟧.text given.items) → files.new ≡ files.old) }
    ensures unread { OnErr words (files.new ≡ files.old) }

    // Where there are words, only out of memory can stand in place of an outcome.
    ensures want { OnOk words (IfErr result (λ stop. stop ≡ Stop.Memory)) }
{
    match words {
        Ok(words) => match run(alloc, files, below, words.as_slice()) {
            Ok(outcome) => Ok(outcome),
            Err(_) => Err(Stop::Memory),
        },
        Err(error) => Err(Stop::of(&error)),
    }
}
