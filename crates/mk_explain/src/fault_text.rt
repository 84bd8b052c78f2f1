//! The text of each fault.

ghost use Rattle.std.specs.Prelude.{◌≡◌};
ghost use Rattle.std.specs.Option.{option_map, option_or};
ghost use Rattle.mk_explain.specs.Texts.{fault_text};

use crate::certificates::certificates_text;
use crate::files::files_text;
use crate::footprints::footprints_text;
use crate::graph::graph_text;
use crate::kinds::kinds_text;
use crate::lines::lines_text;
use crate::macros::macros_text;
use crate::names::names_text;
use crate::plans::plans_text;

/// The first of two texts, if there is one, else the second.
fn either(first: Option<&'static str>, second: Option<&'static str>) -> Option<&'static str>
    ensures { option_map (λ text. text.now) result ≡
        option_or (option_map (λ text. text.now) first.entry)
        (option_map (λ text. text.now) second.entry) }
{
    match first {
        Some(text) => Some(text),
        None => second,
    }
}

/// The text of the fault with this number, if there is one.
#[tactic(auto, unfolding(crate::specs::Texts::fault_text))]
pub fn fault_text(number: u32) -> Option<&'static str>
    ensures { option_map (λ text. text.now) result ≡ fault_text number }
{
    let text = either(plans_text(number), certificates_text(number));
    let text = either(footprints_text(number), text);
    let text = either(graph_text(number), text);
    let text = either(files_text(number), text);
    let text = either(names_text(number), text);
    let text = either(kinds_text(number), text);
    let text = either(macros_text(number), text);
    either(lines_text(number), text)
}
