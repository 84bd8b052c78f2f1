//! The commands of a name.

ghost use Rattle.std.specs.Prelude.{◌≡◌, IfOk};
ghost use Rattle.std.specs.Option.{option_map};
ghost use Rattle.mk_infer.specs.Commands.{commands};
ghost use Rattle.mk_infer.specs.Inference.{choice};
ghost use Rattle.mk_infer.specs.Steps.{Gives};
ghost use Rattle.mk_infer.specs.Choosing.{resolved_rule};

use crate::InferFault;
use crate::choices::Choices;
use crate::expanding::{Commands, expanded};
use crate::inference::{ResolvedRule, parted, resolve_rule};
use crate::needs::needs_with;
use mk_macros::Locals;
use std::alloc::Global;

/// Expands the commands of what makes a name.
fn expanded_by<'m>(
    alloc: Global,
    choices: &'m Choices<'m>,
    rule: &ResolvedRule<'m>,
    name: &str,
) -> Result<Commands, InferFault>
    requires { rule.now ≡ resolved_rule choices.now.makefile choices.now.exists name.now }
    ensures { Gives (λ found. found) result
        (commands choices.now.makefile choices.now.exists name.now) }
{
    let Some(commands) = rule.commands else {
        let lines = Vec::new(alloc);
        return Ok(Commands {
            lines,
            varying: false,
        });
    };
    let table = choices.table();
    let needs = needs_with(alloc, &rule.rules, rule.choice)?;
    let (stem, _ending) = parted(table, name);
    let locals = Locals::Recipe {
        target: name,
        stem,
        first: needs.first().copied(),
        all: &needs,
    };
    expanded(alloc, table.macros(), &locals, commands)
}

/// Returns the commands of a name, expanded with the macros as they are after all reading. A name
/// without commands gets an empty list. It fails with `Macro` (11 to 17) at the place of the first
/// command that can't be expanded.
///
/// `$<` is the inferred prerequisite, or the first prerequisite in a target rule, and `$*` is the
/// name without its known suffix (IEEE Std 1003.1-2024, XCU make, "Internal Macros").
pub fn commands<'m>(
    alloc: Global,
    choices: &'m Choices<'m>,
    name: &str,
) -> Result<Commands, InferFault>
    ensures { Gives (λ found. found) result
        (commands choices.now.makefile choices.now.exists name.now) }
{
    let maker = resolve_rule(alloc, choices, name)?;
    expanded_by(alloc, choices, &maker, name)
}

/// The inferred prerequisite and the expanded commands of a name.
#[derive(Drop)]
pub struct ChoiceAndCommands<'m> {
    /// The inferred prerequisite, as `choice` returns it.
    pub choice: Option<&'m str>,
    /// The expanded commands, as `commands` returns them.
    pub commands: Commands,
}

/// Returns what `choice` and `commands` return for a name, with a single lookup. It fails as
/// `commands` does.
pub fn choice_and_commands<'m>(
    alloc: Global,
    choices: &'m Choices<'m>,
    name: &str,
) -> Result<ChoiceAndCommands<'m>, InferFault>
    ensures choice { IfOk result (λ made. option_map (λ name. name.now) made.choice ≡
        choice choices.now.makefile choices.now.exists name.now) }
    ensures commands { Gives (λ made. made.commands) result
        (commands choices.now.makefile choices.now.exists name.now) }
{
    let maker = resolve_rule(alloc, choices, name)?;
    let commands = expanded_by(alloc, choices, &maker, name)?;
    Ok(ChoiceAndCommands {
        choice: maker.choice,
        commands,
    })
}
