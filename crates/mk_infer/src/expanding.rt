//! Expands commands.

ghost use Rattle.std.specs.Prelude.{◌≡◌, ◌⊎◌, map};
ghost use Rattle.mk_macros.specs.Expansion.{expansion, text_and_variation};
ghost use Rattle.mk_macros.specs.Locals.{recipe_of};
ghost use Rattle.mk_infer.specs.Commands.{expanded};
ghost use Rattle.mk_infer.specs.Steps.{Gives, at_place};
ghost use Rattle.mk_infer.specs.declared.fault.InferFault.TheVariants.{Macro, Memory};

use crate::InferFault;
use mk_lines::Name;
use mk_macros::{Locals, MacroFault, MacroTable};
use mk_read::{Command, Place};
use std::alloc::Global;
use std::marker::Model;

/// The expanded commands of a recipe. A contract sees lists.
#[derive(Debug, Drop)]
pub struct Commands {
    /// The expanded commands, in order.
    pub lines: Vec<Vec<u8>>,
    /// Whether one of them uses `$?` or a form of it; then the commands vary from make to make.
    pub varying: bool,
}

impl Model for Commands {
    ghost use Rattle.std.specs.Prelude.{map};
    ghost use Rattle.mk_infer.specs.Commands as value;

    ghost Value = { value.Commands };

    ghost view = { λ c.
        record {
          lines = map (λ line. line.items) c.lines.items;
          varying = c.varying;
        } };
}

/// Returns `Macro` with the place and the fault, or `Memory` when out of memory.
fn fault_at(alloc: Global, place: &Place, fault: MacroFault) -> InferFault
    ensures { (result ≡ Memory) ⊎ (result ≡ Macro place.now fault) }
{
    match Name::new(alloc, place.file.as_str()) {
        Ok(file) => {
            let line = place.line;
            InferFault::Macro(Place { file, line }, fault)
        }
        Err(_) => InferFault::Memory,
    }
}

/// Expands one command. The flag says whether it varies.
fn expanded_command(
    alloc: Global,
    macros: &MacroTable,
    locals: &Locals,
    command: &Command,
) -> Result<(Vec<u8>, bool), InferFault>
    ensures { Gives (λ line.
        (line.0.items, line.1)) result (at_place command.now.place
        (text_and_variation (expansion macros.now (recipe_of locals.now) command.now.text))) }
{
    match macros.expand(alloc, &command.text, locals) {
        Ok(found) => Ok((found.text.into_owned(alloc)?, found.varying)),
        Err(MacroFault::Memory) => Err(InferFault::Memory),
        Err(fault) => Err(fault_at(alloc, &command.place, fault)),
    }
}

/// Expands commands in their order. It fails with `Macro` (11 to 17) at the first command that
/// can't be expanded.
pub fn expanded(
    alloc: Global,
    macros: &MacroTable,
    locals: &Locals,
    commands: &[Command],
) -> Result<Commands, InferFault>
    ensures { Gives (λ found.
        found) result (expanded macros.now (recipe_of locals.now) commands.now) }
{
    let mut lines = Vec::with_capacity(alloc, commands.len())?;
    let mut varying = false;
    for command in commands {
        let (line, varies) = expanded_command(alloc, macros, locals, command)?;
        lines.push(line)?;
        varying = varying || varies;
    }
    Ok(Commands { lines, varying })
}
