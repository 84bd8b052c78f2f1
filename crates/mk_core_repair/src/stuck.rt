//! What stops a repair, and the lines for the findings that don't.

ghost use Rattle.std.specs.Prelude.{◌≡◌, [], fold, map, option_to_list, IfOk, OnOk};
ghost use Rattle.std.specs.String.{string_bytes};
ghost use Rattle.mk_repair.specs.Word.{with_word};
ghost use Rattle.mk_claims.specs.Offers.{offer_view, open_word, open_words};
ghost use Rattle.mk_core_repair.specs.Survey.{AreLinesFor, AreOtherLines, IsStuck};

use mk_claims::{Offer, all_claims, has_static, offers_alone, open_word};
use mk_find::{Finding, hidden_findings};
use mk_repair::{Obstacle, Words, lines_text, obstacle_of};
use mk_subject::Subject;
use std::alloc::{AllocError, Global};

/// Adds what the line of an offer says, if it has one, unless it is there already. The only error is
/// out of memory.
fn insert_word(alloc: Global, words: &mut Words, offer: &Offer<'_>) -> Result<(), AllocError>
    ensures { OnOk result (words.new ≡
        fold with_word words.old (option_to_list (open_word (offer_view offer.now)))) }
{
    if let Some(word) = open_word(offer) {
        words.insert(alloc, word)?;
    }
    Ok(())
}

/// What the lines of offers say, each once. The only error is out of memory.
fn words_in(alloc: Global, offers: &[Offer<'_>]) -> Result<Words, AllocError>
    ensures { IfOk result (λ words. words ≡
        fold with_word [] (open_words (map offer_view offers.now))) }
{
    let mut words = Words::new(alloc);
    for offer in offers {
        insert_word(alloc, &mut words, offer)?;
    }
    Ok(words)
}

/// The lines for these findings and for those that they hide, but for what mending the findings
/// touches, and for lines on cycles. The only error is out of memory.
fn other_lines(
    alloc: Global,
    subject: &Subject<'_>,
    found: &[Finding],
    hidden: &[Finding],
) -> Result<String, AllocError>
    ensures { IfOk result (λ lines.
        AreLinesFor subject.now found.now hidden.now (string_bytes lines)) }
{
    let claims = all_claims(alloc, subject, found, hidden)?;
    let offers = offers_alone(alloc, subject, &claims)?;
    let words = words_in(alloc, &offers)?;
    lines_text(alloc, &words)
}

/// The lines for these findings, and for races and stale reads that they hide, but for lines on
/// cycles. The only error is out of memory.
fn all_lines(alloc: Global, subject: &Subject<'_>, found: &[Finding]) -> Result<String, AllocError>
    ensures { IfOk result (λ lines. AreOtherLines subject.now found.now (string_bytes lines)) }
{
    if !has_static(found) {
        return other_lines(alloc, subject, found, &[]);
    }
    let hidden = hidden_findings(alloc, subject)?;
    other_lines(alloc, subject, found, hidden.as_slice())
}

/// Why the first of the findings without a word has none; and the lines for others, and for races
/// and stale reads that the findings hide, without those that would close a cycle with the makefile
/// or with one another. The only error is out of memory.
pub fn stuck(
    alloc: Global,
    subject: &Subject<'_>,
    found: &[Finding],
) -> Result<Obstacle, AllocError>
    ensures { IfOk result (λ o. IsStuck subject.now found.now o) }
{
    let lines = all_lines(alloc, subject, found)?;
    let Obstacle { why, .. } = obstacle_of(alloc, subject, found)?;
    Ok(Obstacle { why, lines })
}
