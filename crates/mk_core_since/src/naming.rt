//! Names files, once the old build is known.

ghost use Rattle.std.specs.Prelude.{IfOk};
ghost use Rattle.mk_core_since.specs.SinceAnswer.{GivesSince, IsSince};
ghost use Rattle.mk_core_since.specs.NotRead.{since_not_read};

use crate::outcome::Since;
use crate::telling::sentences_if;
use mk_core::{Fault, Files, Judge, Verdict, verdict_of};
use mk_since::{Past, named_files};
use mk_subject::Subject;
use std::alloc::{AllocError, Global};

/// The files that are named if the new build has no findings, else the findings.
fn named(
    alloc: Global,
    past: &Past,
    subject: &Subject<'_>,
    words: bool,
) -> Result<Since, AllocError>
    ensures { IfOk result (λ since. IsSince words past.now subject.now since) }
{
    match verdict_of(alloc, subject)? {
        Verdict::Yes { .. } => Ok(Since::Named(named_files(alloc, past, subject)?)),
        Verdict::No(found) => {
            let text = sentences_if(alloc, subject, found.as_slice(), words)?;
            Ok(Since::No(found, text))
        }
    }
}

/// Names files, from this old build.
#[derive(Drop)]
pub struct NameFiles<'a> {
    /// The old build.
    pub past: &'a Past,
    /// Whether findings of the new build are told in sentences.
    pub words: bool,
}

impl Judge for NameFiles<'_> {
    type Answer = Since;

    ghost judges = { λ c _ y answer. GivesSince c.words c.past.now y answer };

    fn is_brief(&self) -> bool {
        false
    }

    fn judge<F: Files>(
        &self,
        alloc: Global,
        _files: &mut F,
        subject: &Subject<'_>,
    ) -> Result<Since, Fault> {
        let found = named(alloc, self.past, subject, self.words)?;
        Ok(found)
    }

    ghost not_read = { λ c _ y fault. since_not_read c.words c.past.now y fault };
}
