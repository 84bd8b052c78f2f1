//! The expansion of a text with the macros of a table.

ghost use Rattle.std.specs.Prelude.{◌≡◌, true, not, List, Option, IfOk};
ghost use Rattle.std.specs.List.{list_any};
ghost use Rattle.mk_lines.specs.Bytes.{is_byte};
ghost use Rattle.mk_lines.specs.Borrowed.{is_borrowed};
ghost use Rattle.mk_macros.specs.Expansion.{expansion, text_and_variation};
ghost use Rattle.mk_macros.specs.Views.{expansion_view};
ghost use Rattle.mk_macros.specs.Forms.{IsPlain};
ghost use Rattle.mk_macros.specs.Locals.{Recipe, recipe_of};
ghost use Rattle.mk_macros.specs.Steps.{Gives};
ghost use Rattle.mk_macros.specs.Table.{Macro};

use crate::appending::{Level, Scope, append_text};
use crate::fault::MacroFault;
use crate::forms::cut_at_dollar;
use crate::going::Going;
use crate::locals::Locals;
use crate::room::MAX_LENGTH;
use crate::table::MacroTable;
use std::alloc::Global;
use std::borrow::CowSlice;

/// The expansion of a text.
#[derive(Debug, Drop)]
pub struct Expansion<'a> {
    /// The expanded text. It borrows from the text that was expanded where that holds no `$`.
    pub text: CowSlice<'a, u8>,
    /// Whether `$?` or one of its forms was evaluated, so that the text differs from run to run.
    pub varying: bool,
}

/// How many levels references may nest: a reference at level 256 is refused.
const LEVELS: usize = 256;

impl MacroTable {
    /// The expansion of a text (the standard's `make`, "Macros"). On an error nothing is returned;
    /// the error is the first fault from left to right, or `Memory`, out of memory.
    pub fn expand<'a>(
        &self,
        alloc: Global,
        text: &'a [u8],
        locals: &Locals,
    ) -> Result<Expansion<'a>, MacroFault>
        ensures exact { Gives expansion_view result
            (text_and_variation (expansion self.now (recipe_of locals.now)
            text.now)) }
        ensures lends { IfOk result (λ found. is_borrowed found.text ≡
            not (list_any (is_byte 36) text.now)) }
    {
        let (_run, behind) = cut_at_dollar(text);
        if behind.is_none() {
            return lent(text);
        }
        let scope = Scope {
            alloc,
            table: self,
            locals,
        };
        let going = Going::Nothing;
        let level = Level {
            scope: &scope,
            deep: LEVELS,
            going: &going,
        };
        let mut bytes = Vec::new(alloc);
        let used = append_text(&level, 0, text, &mut bytes)?;
        Ok(Expansion {
            text: CowSlice::Owned(bytes),
            varying: used.varying,
        })
    }
}

/// The expansion of a text without `$`, which is the text itself.
fn lent(text: &[u8]) -> Result<Expansion<'_>, MacroFault>
    requires { IsPlain text.now }
    ensures exact { (table : List Macro) → (recipe : Option Recipe) →
        Gives expansion_view result (text_and_variation (expansion table recipe text.now)) }
    ensures lends { IfOk result (λ found. is_borrowed found.text ≡ true) }
{
    if text.len() > MAX_LENGTH {
        return Err(MacroFault::ValueTooLong);
    }
    Ok(Expansion {
        text: CowSlice::Borrowed(text),
        varying: false,
    })
}
