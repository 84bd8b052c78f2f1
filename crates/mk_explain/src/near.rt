//! Words that begin like one that isn't explained.

ghost use Rattle.std.specs.Prelude.{◌≡◌, ◌++◌, map, IfOk, OnOk};
ghost use Rattle.std.specs.String.{string_bytes};
ghost use Rattle.mk_explain.specs.Near.{begin_alike, near_text, same_letter, with_near, with_nears};

use crate::faults::FAULTS;
use crate::findings::FINDINGS;
use std::alloc::{AllocError, Global};

/// Whether two bytes are the same, whatever the case of letters.
fn same_letter(one: u8, other: u8) -> bool
    ensures { result ≡ same_letter one other }
{
    one.to_ascii_lowercase() == other.to_ascii_lowercase()
}

/// Whether two words have the same first three bytes, whatever the case of letters.
fn begin_alike(one: &[u8], other: &[u8]) -> bool
    ensures { result ≡ begin_alike one.now other.now }
{
    match (one, other) {
        ([a, b, c, ..], [d, e, f, ..]) => {
            same_letter(*a, *d) && same_letter(*b, *e) && same_letter(*c, *f)
        }
        _ => false,
    }
}

/// Appends the word if it begins like the other one, after a comma unless it is the first one.
fn push_near(text: &mut String, word: &str, what: &str) -> Result<(), AllocError>
    ensures { OnOk result (string_bytes text.new ≡
        with_near what.now (string_bytes text.old) word.now) }
{
    if !begin_alike(what.as_bytes(), word.as_bytes()) {
        return Ok(());
    }
    if !text.is_empty() {
        text.push_str(", ")?;
    }
    text.push_str(word)
}

/// Appends the first words of those findings that begin like the word.
fn push_near_findings(
    text: &mut String,
    findings: &[(&'static str, &'static str)],
    what: &str,
) -> Result<(), AllocError>
    ensures { OnOk result (string_bytes text.new ≡
        with_nears what.now (string_bytes text.old) (map (λ row. row.0.now) findings.now)) }
{
    for (word, _) in findings {
        push_near(text, word, what)?;
    }
    Ok(())
}

/// Appends the names of those faults that begin like the word.
fn push_near_faults(
    text: &mut String,
    faults: &[(u32, &'static str, &'static str)],
    what: &str,
) -> Result<(), AllocError>
    ensures { OnOk result (string_bytes text.new ≡
        with_nears what.now (string_bytes text.old) (map (λ row. row.1.now) faults.now)) }
{
    for (_, name, _) in faults {
        push_near(text, name, what)?;
    }
    Ok(())
}

/// The first words of findings and the names of faults that begin with the same three letters as
/// this word, with commas between them. The only error is out of memory.
#[tactic(auto, unfolding(crate::specs::Near::near_text))]
pub fn near_words(alloc: Global, what: &str) -> Result<String, AllocError>
    ensures { IfOk result (λ text. string_bytes text ≡ near_text what.now) }
{
    let mut text = String::new(alloc);
    push_near_findings(&mut text, &FINDINGS, what)?;
    push_near_faults(&mut text, &FAULTS, what)?;
    Ok(text)
}
