//! Explains a finding or a fault.

ghost use Rattle.std.specs.Prelude.{◌≡◌, [], IfOk};
ghost use Rattle.std.specs.Option.{option_map, unwrap_or};
ghost use Rattle.std.specs.String.{string_bytes};
ghost use Rattle.mk_explain.specs.Explain.{explained, explained_as_spelled, fault_explanation, finding_explanation, overview_text};
ghost use Rattle.mk_explain.specs.Texts.{term_text};

use crate::fault_text::fault_text;
use crate::faults::{all_fault_lines, fault_name, fault_sentence, number_named};
use crate::findings::{all_finding_lines, finding_sentence, finding_text};
use crate::spelling::spelled;
use crate::terms::term_text;
use std::alloc::{AllocError, Global};

/// The text, or an empty one where there is none.
fn or_empty(text: Option<&'static str>) -> &'static str
    ensures { result.now ≡ unwrap_or (option_map (λ given. given.now) text.entry) [] }
{
    match text {
        Some(given) => given,
        None => "",
    }
}

/// The explanation of the finding with this first word, which has this sentence.
fn finding_explanation(alloc: Global, word: &str, sentence: &str) -> Result<String, AllocError>
    ensures { IfOk result (λ text. string_bytes text ≡
        finding_explanation word.now sentence.now) }
{
    let text = or_empty(finding_text(word));
    format!(in alloc; "{word}: {sentence}\n\n{text}")
}

/// The explanation of the fault with this number.
fn fault_explanation(alloc: Global, number: u32) -> Result<String, AllocError>
    ensures { IfOk result (λ text. string_bytes text ≡ fault_explanation number) }
{
    let name = or_empty(fault_name(number));
    let sentence = or_empty(fault_sentence(number));
    let text = or_empty(fault_text(number));
    format!(in alloc; "{name} ({number}): {sentence}\n\n{text}")
}

/// The explanation of another word, if there is one.
fn explain_term(alloc: Global, what: &str) -> Result<Option<String>, AllocError>
    ensures { IfOk result (λ told. option_map string_bytes told ≡ term_text what.now) }
{
    match term_text(what) {
        Some(text) => Ok(Some(String::from_str(alloc, text)?)),
        None => Ok(None),
    }
}

/// The explanation of what is spelled so.
fn explain_as_spelled(alloc: Global, what: &str) -> Result<Option<String>, AllocError>
    ensures { IfOk result (λ told. option_map string_bytes told ≡ explained_as_spelled what.now) }
{
    if let Some(sentence) = finding_sentence(what) {
        return Ok(Some(finding_explanation(alloc, what, sentence)?));
    }
    match number_named(alloc, what)? {
        Some(number) => Ok(Some(fault_explanation(alloc, number)?)),
        None => explain_term(alloc, what),
    }
}

/// Explains a finding or a fault: when it comes, with an example, and what to do. `what` is the
/// first word of a finding, or a fault's number or name, whatever the case of their letters; or
/// `yes`, `way`, `cycle`, `tried` or `since`. Anything else gives `None`. The text ends with a
/// newline. The only error is out of memory.
pub fn explain(alloc: Global, what: &str) -> Result<Option<String>, AllocError>
    ensures { IfOk result (λ told. option_map string_bytes told ≡ explained what.now) }
{
    explain_as_spelled(alloc, spelled(what))
}

/// A line for each finding and each fault: the finding's first word, or the fault's number and
/// name, and a sentence. The only error is out of memory.
pub fn overview(alloc: Global) -> Result<String, AllocError>
    ensures { IfOk result (λ text. string_bytes text ≡ overview_text) }
{
    let mut text = all_finding_lines(alloc)?;
    let faults = all_fault_lines(alloc)?;
    text.push_str(faults.as_str())?;
    Ok(text)
}
