//! Findings in sentences, where these are asked for.

ghost use Rattle.std.specs.Prelude.{IfOk};
ghost use Rattle.mk_core_since.specs.Telling.{TellsIf};

use mk_core_sentences::in_sentences;
use mk_find::Finding;
use mk_subject::Subject;
use std::alloc::{AllocError, Global};

/// The sentences of these findings of the build in words, else nothing.
pub(crate) fn sentences_if(
    alloc: Global,
    subject: &Subject<'_>,
    found: &[Finding],
    words: bool,
) -> Result<Vec<u8>, AllocError>
    ensures { IfOk result (λ text. TellsIf words subject.now found.now text.items) }
{
    if words {
        in_sentences(alloc, subject, found)
    } else {
        Ok(Vec::new(alloc))
    }
}
