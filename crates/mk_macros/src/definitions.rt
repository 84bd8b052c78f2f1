//! Definitions of macros, in a makefile and by operands.

ghost use Rattle.std.specs.Prelude.{◌≡◌, false, None, IfOk, OnErr};
ghost use Rattle.mk_macros.specs.declared.op.Op.TheVariants.{Now, Double};
ghost use Rattle.mk_macros.specs.Definitions.{doubled, stored, with_more, if_unset, set, is_fixed, defined, operator_of, with_operand, value_text, more_stored};
ghost use Rattle.mk_macros.specs.Expansion.{expansion};
ghost use Rattle.mk_macros.specs.Steps.{Gives};
ghost use Rattle.mk_macros.specs.Table.{macro_named};
ghost use Rattle.mk_macros.specs.Views.{macro_of};

use crate::blanks::without_blanks;
use crate::bytes::{ends_with, first_place};
use crate::fault::MacroFault;
use crate::locals::Locals;
use crate::macro_name::is_macro_name;
use crate::op::Op;
use crate::room::MAX_LENGTH;
use crate::table::{Macro, MacroTable};
use mk_lines::trimmed;
use std::alloc::{AllocError, Global};

/// A text with each `$` doubled.
fn doubled(alloc: Global, text: &[u8]) -> Result<Vec<u8>, AllocError>
    ensures { IfOk result (λ made. made.items ≡ doubled text.now) }
{
    let mut made = Vec::new(alloc);
    for byte in text {
        if *byte == b'$' {
            made.push(b'$')?;
        }
        made.push(*byte)?;
    }
    Ok(made)
}

/// The operator of an operand and the text before it, from what precedes the first `=`: `:::=`
/// where that ends with `:::`, `::=` where it ends with `::`, else `=`.
fn operator_of(before: &[u8]) -> (Op, &[u8])
    ensures op { result.0 ≡ (operator_of before.now).0 }
    ensures name { result.1.now ≡ (operator_of before.now).1 }
{
    if ends_with(b":::", before) {
        return (Op::Double, &before[..before.len() - 3]);
    }
    if ends_with(b"::", before) {
        return (Op::Now, &before[..before.len() - 2]);
    }
    (Op::Delay, before)
}

impl MacroTable {
    /// The expansion of a text outside commands.
    fn value_of(&self, text: &[u8]) -> Result<Vec<u8>, MacroFault>
        ensures { Gives (λ value.
            value.items) result (value_text (expansion self.now None text.now)) }
    {
        let found = self.expand(self.alloc, text, &Locals::Empty)?;
        Ok(found.text.into_owned(self.alloc)?)
    }

    /// Stores a macro, in place of one of the same name. Fails with `ValueTooLong` (15) where its
    /// text is longer than 1,048,576 bytes; the table is unchanged after any error.
    fn store(&mut self, name: &[u8], entry: Macro) -> Result<(), MacroFault>
        ensures exact { Gives (λ _. self.new) result (stored self.old (macro_of name.now entry)) }
        ensures unchanged { OnErr result (self.new ≡ self.old) }
    {
        if entry.text.len() > MAX_LENGTH {
            return Err(MacroFault::ValueTooLong);
        }
        self.put(name, entry)?;
        Ok(())
    }

    /// Stores a copy of the text as a delayed macro: one that is expanded at each use.
    fn delay(&mut self, name: &[u8], text: &[u8], fixed: bool) -> Result<(), MacroFault>
        ensures exact { Gives (λ _.
            self.new) result (stored self.old (record {
              name = name.now;
              text = text.now;
              immediate = false;
              fixed = fixed;
            })) }
        ensures unchanged { OnErr result (self.new ≡ self.old) }
    {
        if text.len() > MAX_LENGTH {
            return Err(MacroFault::ValueTooLong);
        }
        let text = Vec::from_slice(self.alloc, text)?;
        self.store(
            name,
            Macro {
                text,
                immediate: false,
                fixed,
            },
        )
    }
}

impl MacroTable {
    /// Whether the name is that of a macro that an operand has fixed.
    fn is_fixed(&self, name: &[u8]) -> bool
        ensures { result ≡ is_fixed (macro_named self.now name.now) }
    {
        match self.get(name) {
            Some(entry) => entry.fixed,
            None => false,
        }
    }

    /// Appends a space and `more` to the text of a macro. Does nothing where the macro is
    /// undefined; fails with `ValueTooLong` (15) where the text would be longer than 1,048,576
    /// bytes.
    fn store_more(&mut self, name: &[u8], more: &[u8]) -> Result<(), MacroFault>
        ensures exact { Gives (λ _.
            self.new) result (more_stored self.old more.now (macro_named self.old name.now)) }
        ensures unchanged { OnErr result (self.new ≡ self.old) }
    {
        let Some(entry) = self.get(name) else {
            return Ok(());
        };
        if entry.text.len() + (1 + more.len()) > MAX_LENGTH {
            return Err(MacroFault::ValueTooLong);
        }
        self.append(name, more)?;
        Ok(())
    }

    /// Defines a macro with `+=`.
    fn set_more(&mut self, name: &[u8], text: &[u8]) -> Result<(), MacroFault>
        ensures exact { Gives (λ _.
            self.new) result (with_more self.old name.now text.now
            (macro_named self.old name.now)) }
        ensures unchanged { OnErr result (self.new ≡ self.old) }
    {
        let Some(entry) = self.get(name) else {
            return self.delay(name, text, false);
        };
        if !entry.immediate {
            return self.store_more(name, text);
        }
        let value = self.value_of(text)?;
        self.store_more(name, &value)
    }

    /// Defines a macro with `?=`.
    fn set_if_unset(&mut self, name: &[u8], text: &[u8]) -> Result<(), MacroFault>
        ensures exact { Gives (λ _.
            self.new) result (if_unset self.old name.now text.now (macro_named self.old name.now)) }
        ensures unchanged { OnErr result (self.new ≡ self.old) }
    {
        if self.get(name).is_some() {
            return Ok(());
        }
        self.delay(name, text, false)
    }

    /// Defines a macro with `::=`.
    fn set_now(&mut self, name: &[u8], text: &[u8], fixed: bool) -> Result<(), MacroFault>
        ensures exact { Gives (λ _. self.new) result (set self.old name.now fixed Now text.now) }
        ensures unchanged { OnErr result (self.new ≡ self.old) }
    {
        let text = self.value_of(text)?;
        self.store(
            name,
            Macro {
                text,
                immediate: true,
                fixed,
            },
        )
    }

    /// Defines a macro with `:::=`.
    fn set_doubled(&mut self, name: &[u8], text: &[u8], fixed: bool) -> Result<(), MacroFault>
        ensures exact { Gives (λ _. self.new) result (set self.old name.now fixed Double text.now) }
        ensures unchanged { OnErr result (self.new ≡ self.old) }
    {
        let value = self.value_of(text)?;
        let text = doubled(self.alloc, &value)?;
        self.store(
            name,
            Macro {
                text,
                immediate: false,
                fixed,
            },
        )
    }

    /// Defines a macro whose name is valid and which the definition may change.
    fn set(&mut self, name: &[u8], by_operand: bool, op: Op, text: &[u8]) -> Result<(), MacroFault>
        ensures exact { Gives (λ _.
            self.new) result (set self.old name.now by_operand op text.now) }
        ensures unchanged { OnErr result (self.new ≡ self.old) }
    {
        match op {
            Op::Delay => self.delay(name, text, by_operand),
            Op::Now => self.set_now(name, text, by_operand),
            Op::Double => self.set_doubled(name, text, by_operand),
            Op::IfUnset => self.set_if_unset(name, text),
            Op::Append => self.set_more(name, text),
        }
    }

    /// Applies a definition in a makefile to the table (the standard's `make`, "Macros"). Does
    /// nothing where an operand has fixed the name, whatever the text.
    ///
    /// Fails with `BadMacroName` (11) where the name isn't one or more of `A-Z a-z 0-9 . _ -`; else
    /// with the first fault of expanding the text, where the operator expands it at once; else with
    /// `ValueTooLong` (15) where the stored text would be longer than 1,048,576 bytes. It can also
    /// fail with `Memory`, out of memory. The table is unchanged after any error.
    #[tactic(auto, unfolding(crate::specs::Definitions::defined))]
    pub fn define(&mut self, name: &[u8], op: Op, text: &[u8]) -> Result<(), MacroFault>
        ensures exact { Gives (λ _. self.new) result (defined self.old name.now op text.now) }
        ensures unchanged { OnErr result (self.new ≡ self.old) }
    {
        if !is_macro_name(name) {
            return Err(MacroFault::BadMacroName);
        }
        if self.is_fixed(name) {
            return Ok(());
        }
        self.set(name, false, op, text)
    }

    /// Applies a macro operand to the table, and fixes the macro: later definitions in the makefile
    /// don't change it. An operand is a name, one of `=`, `::=` and `:::=`, and a text, whose
    /// leading blanks are dropped (the standard's `make`, "Operands" and "Macros").
    ///
    /// Fails with `BadMacroName` (11) where the operand has no `=`, or where the text before the
    /// operator, without the blanks at its ends, is no macro name; then as `define` does. The table
    /// is unchanged after any error.
    #[tactic(auto, unfolding(crate::specs::Definitions::with_operand))]
    pub fn fix(&mut self, operand: &[u8]) -> Result<(), MacroFault>
        ensures exact { Gives (λ _. self.new) result (with_operand self.old operand.now) }
        ensures unchanged { OnErr result (self.new ≡ self.old) }
    {
        let at = first_place(b'=', operand);
        if at == operand.len() {
            return Err(MacroFault::BadMacroName);
        }
        let (op, before) = operator_of(&operand[..at]);
        let name = without_blanks(before);
        if !is_macro_name(name) {
            return Err(MacroFault::BadMacroName);
        }
        self.set(name, true, op, trimmed(&operand[at + 1..]))
    }
}
