//! Texts inside a reference, expanded: names, and the texts of substitutions.

ghost use Rattle.std.specs.Prelude.{ℕ, List};
ghost use Rattle.mk_macros.specs.Appending.{piece_view};
ghost use Rattle.mk_macros.specs.Expansion.{Scope, expanded};
ghost use Rattle.mk_macros.specs.Forms.{IsPlain};
ghost use Rattle.mk_macros.specs.Steps.{Gives};

use crate::appending::Used;
use crate::fault::MacroFault;
use crate::room::MAX_LENGTH;
use std::borrow::CowSlice;

/// An expanded text inside a reference.
#[derive(Drop)]
pub struct ExpandedPart<'a> {
    /// The expanded text. It borrows from the text that was expanded where that holds no `$`.
    pub text: CowSlice<'a, u8>,
    /// What the expansion has counted.
    pub used: Used,
}

/// The expansion of a text without `$`, which is the text itself whatever names mean. Fails with
/// `ValueTooLong` (15) where it is longer than 1,048,576 bytes.
pub fn lent(references: usize, text: &[u8]) -> Result<ExpandedPart<'_>, MacroFault>
    requires { IsPlain text.now }
    ensures { (levels : ℕ) → (scope : Scope) → (going : List (List ℕ)) →
        Gives piece_view result (expanded levels scope going references text.now) }
{
    if text.len() > MAX_LENGTH {
        return Err(MacroFault::ValueTooLong);
    }
    Ok(ExpandedPart {
        text: CowSlice::Borrowed(text),
        used: Used {
            references,
            varying: false,
        },
    })
}
