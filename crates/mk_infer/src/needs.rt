//! The prerequisites of a name.

ghost use Rattle.std.specs.Prelude.{◌≡◌, ◌++◌, map, option_to_list, IfOk};
ghost use Rattle.std.specs.Option.{option_map};
ghost use Rattle.mk_infer.specs.Table.{prerequisites_in};

use crate::NameRules;
use std::alloc::{AllocError, Global};

/// Returns the inferred prerequisite, if there is one, and then the prerequisites of the rule
/// lines. The only error is out of memory.
pub fn needs_with<'m>(
    alloc: Global,
    rules: &NameRules<'m>,
    choice: Option<&'m str>,
) -> Result<Vec<&'m str>, AllocError>
    ensures { IfOk result (λ names. map (λ word. word.now) names.items ≡
        option_to_list (option_map (λ name. name.now) choice.entry) ++
        prerequisites_in rules.now) }
{
    let mut names = Vec::new(alloc);
    if let Some(inferred) = choice {
        names.push(inferred)?;
    }
    rules.push_prerequisites(&mut names)?;
    Ok(names)
}
