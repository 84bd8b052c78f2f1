//! Names in sentences.

ghost use Rattle.std.specs.Prelude.{◌≡◌, map, IfOk};
ghost use Rattle.std.specs.String.{string_bytes};
ghost use Rattle.mk_repair.specs.Rows.{names_view};
ghost use Rattle.mk_sentences.specs.Phrases.{by, shown};

use std::alloc::{AllocError, Global};

/// The names as a sentence has them: one, two, or two and how many more there are. The only error
/// is out of memory.
pub fn shown(alloc: Global, names: &[&str]) -> Result<String, AllocError>
    ensures { IfOk result (λ text. string_bytes text ≡ shown (names_view names.now)) }
{
    match names {
        [] => Ok(String::new(alloc)),
        [name] => String::from_str(alloc, name),
        [first, second] => format!(in alloc; "{first} and {second}"),
        [first, second, others @ ..] => {
            format!(in alloc; "{first}, {second} and {} more", others.len())
        }
    }
}

/// The singular form if there is one name, else the plural.
#[tactic(auto, unfolding(crate::specs::Phrases::by))]
pub fn by<'a>(names: &[&str], one: &'a str, many: &'a str) -> &'a str
    ensures { result.now ≡ by (names_view names.now) one.now many.now }
{
    if names.len() < 2 { one } else { many }
}
