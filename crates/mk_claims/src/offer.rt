//! The lines that claims ask for, without those that would close a cycle.

ghost use Rattle.std.specs.Prelude.{◌≡◌, ◌<◌, ◌++◌, ◌∷◌, ℕ, [], length, map, option_map, option_to_list, IfOk, OnOk};
ghost use Rattle.std.specs.String.{string_bytes};
ghost use Rattle.mk_graph.specs.Progress.{row};
ghost use Rattle.mk_build_needs.specs.NeedsGraph.{IsFirstCycle};
ghost use Rattle.mk_repair.specs.Words.{word_view};
ghost use Rattle.mk_claims.specs.Claims.{claim_view};
ghost use Rattle.mk_claims.specs.Offers.{Settles, claim_offered, cycle_text, graph_with, has_step, is_on, needed_in, offer_of, offer_view, open_word, open_words, stand_after, step_of, step_view, steps_of, without_step, names_in, word_of_claim};

use crate::claim::Claim;
use crate::topic::{Kind, Topic};
use mk_build_needs::first_cycle;
use mk_graph::Graph;
use mk_graph::laws::{closes_only_cycles, walk_has_an_end};
use mk_lines::{BorrowedNames, Name, Names};
use mk_repair::Word;
use std::alloc::{AllocError, Global};

/// A claim, and the names along the cycle that its line would close, each after a space; empty
/// where it would close none.
#[derive(Drop)]
pub struct Offer<'a> {
    pub claim: Claim<'a>,
    pub cycle: String,
}

/// The numbers of a line's target and prerequisite.
#[derive(Clone, Copy, Debug)]
struct Step {
    target: usize,
    prerequisite: usize,
}

/// What the line that mends a claim says; `None` where no line does.
pub fn word_of_claim<'a>(claim: &Claim<'a>) -> Option<Word<'a>>
    ensures { option_map word_view result ≡ word_of_claim (claim_view claim.now) }
{
    if !claim.topic.has_line {
        return None;
    }
    match claim.topic.kind {
        Kind::NoTarget => Some(Word::Phony { target: claim.who }),
        Kind::OutputRace | Kind::OutputStale | Kind::OutputRaceAndStale | Kind::UnreachedRead =>
            Some(Word::Needs {
                target: claim.who,
                prerequisite: claim.topic.first,
            }),
        _ => Some(Word::Needs {
            target: claim.who,
            prerequisite: claim.what,
        }),
    }
}

/// What the line of an offer says; `None` where it has none, or where that would close a cycle.
pub fn open_word<'a>(offer: &Offer<'a>) -> Option<Word<'a>>
    ensures { option_map word_view result ≡ open_word (offer_view offer.now) }
{
    if offer.cycle.is_empty() {
        word_of_claim(&offer.claim)
    } else {
        None
    }
}

/// Adds the numbers of a line's target and prerequisite, where both are nodes. The only error is
/// out of memory.
fn push_step(
    steps: &mut Vec<Step>,
    graph: &Graph,
    names: &BorrowedNames<'_>,
    word: Word<'_>,
) -> Result<(), AllocError>
    requires { names.now ≡ names_in graph.now }
    ensures { OnOk result (map step_view steps.new.items ≡ map step_view steps.old.items ++
        step_of graph.now (length graph.now.nodes) (word_view word.entry)) }
{
    let Word::Needs {
        target,
        prerequisite,
    } = word
    else {
        return Ok(());
    };
    let count = graph.nodes().len();
    let prerequisite = names.number_of(prerequisite);
    if count <= prerequisite {
        return Ok(());
    }
    let target = names.number_of(target);
    if target < count {
        steps.push(Step {
            target,
            prerequisite,
        })?;
    }
    Ok(())
}

/// Adds the numbers of the target and the prerequisite of an offer's line. The only error is out of
/// memory.
fn push_offered(
    steps: &mut Vec<Step>,
    graph: &Graph,
    names: &BorrowedNames<'_>,
    offer: &Offer<'_>,
) -> Result<(), AllocError>
    requires { names.now ≡ names_in graph.now }
    ensures { OnOk result (map step_view steps.new.items ≡ map step_view steps.old.items ++
        steps_of graph.now (option_to_list (open_word (offer_view offer.now)))) }
{
    match open_word(offer) {
        Some(word) => push_step(steps, graph, names, word),
        None => Ok(()),
    }
}

/// The numbers of the targets and prerequisites of the lines of offers.
fn steps_of(
    alloc: Global,
    graph: &Graph,
    names: &BorrowedNames<'_>,
    offers: &[Offer<'_>],
) -> Result<Vec<Step>, AllocError>
    requires { names.now ≡ names_in graph.now }
    ensures { IfOk result (λ steps. map step_view steps.items ≡
        steps_of graph.now (open_words (map offer_view offers.now))) }
{
    let mut steps = Vec::new(alloc);
    for offer in offers {
        push_offered(&mut steps, graph, names, offer)?;
    }
    Ok(steps)
}

/// The number `many` of empty rows.
fn empty_rows(alloc: Global, many: usize) -> Result<Vec<Vec<usize>>, AllocError>
    ensures many { IfOk result (λ rows. length rows.items ≡ many) }
    ensures empty { IfOk result (λ rows. (n : ℕ) → row rows.items n ≡ []) }
{
    let mut rows = Vec::with_capacity(alloc, many)?;
    for _ in 0..many {
        rows.push(Vec::new(alloc))?;
    }
    Ok(rows)
}

/// Adds the prerequisite of a step to the row of its target, if there is such a row.
fn push_needed(rows: &mut Vec<Vec<usize>>, step: Step) -> Result<(), AllocError>
    ensures many { OnOk result (length rows.new.items ≡ length rows.old.items) }
    ensures added { OnOk result ((n : ℕ) → n < length rows.old.items →
        row rows.new.items n ≡ row rows.old.items n ++ needed_in n (step_view step ∷ [])) }
{
    if step.target < rows.len() {
        rows[step.target].push(step.prerequisite)?;
    }
    Ok(())
}

/// For each of so many nodes the prerequisites that the steps give it.
fn rows_of_steps(alloc: Global, steps: &[Step], count: usize) -> Result<Vec<Vec<usize>>, AllocError>
    ensures count { IfOk result (λ rows. length rows.items ≡ count) }
    ensures rows { IfOk result (λ rows. (n : ℕ) → n < count →
        row rows.items n ≡ needed_in n (map step_view steps.now)) }
{
    let mut rows = empty_rows(alloc, count)?;
    for step in steps {
        push_needed(&mut rows, *step)?;
    }
    Ok(rows)
}

/// The names along the first cycle in the graph with the lines of the offers, if there is one. The
/// only error is out of memory.
fn cycle_with(
    alloc: Global,
    graph: &Graph,
    names: &BorrowedNames<'_>,
    offers: &[Offer<'_>],
) -> Result<Option<Names>, AllocError>
    requires { names.now ≡ names_in graph.now }
    ensures { IfOk result (λ cycle.
        IsFirstCycle (graph_with graph.now (open_words (map offer_view offers.now))) cycle) }
{
    let nodes = graph.nodes();
    let steps = steps_of(alloc, graph, names, offers)?;
    if steps.is_empty() {
        closes_only_cycles();
        walk_has_an_end();
        return Ok(None);
    }
    let rows = rows_of_steps(alloc, &steps, nodes.len())?;
    first_cycle(alloc, graph, &rows)
}

/// The names of a cycle, each after a space.
fn cycle_text(alloc: Global, names: &[Name]) -> Result<String, AllocError>
    ensures { IfOk result (λ text. string_bytes text ≡ cycle_text names.now) }
{
    let mut text = String::new(alloc);
    for name in names {
        text.push_str(" ")?;
        text.push_str(name.as_str())?;
    }
    Ok(text)
}

/// Whether one of the names is the target, and the next one the prerequisite.
fn stand_beside(names: &[Name], target: &str, prerequisite: &str) -> bool
    ensures { result ≡ stand_after [] names.now target.now prerequisite.now }
{
    let mut previous = "";
    for name in names {
        if previous == target && name.as_str() == prerequisite {
            return true;
        }
        previous = name.as_str();
    }
    false
}

/// Whether the word says that a name of the cycle needs the next one.
fn has_step(names: &[Name], word: Word<'_>) -> bool
    ensures { result ≡ has_step names.now (word_view word.entry) }
{
    match word {
        Word::Needs {
            target,
            prerequisite,
        } => stand_beside(names, target, prerequisite),
        Word::Phony { .. } => false,
    }
}

/// Whether the line of the offer stands on this cycle.
fn is_on(names: &[Name], offer: &Offer<'_>) -> bool
    ensures { result ≡ is_on names.now (open_word (offer_view offer.now)) }
{
    match open_word(offer) {
        Some(word) => has_step(names, word),
        None => false,
    }
}

/// The offer, without its line where that stands on the cycle.
fn without_step<'a>(
    alloc: Global,
    names: &[Name],
    offer: &Offer<'a>,
) -> Result<Offer<'a>, AllocError>
    ensures { IfOk result (λ left.
        offer_view left ≡ without_step names.now (offer_view offer.now)) }
{
    let cycle = if is_on(names, offer) {
        cycle_text(alloc, names)?
    } else {
        offer.cycle.clone()?
    };
    Ok(Offer {
        claim: offer.claim,
        cycle,
    })
}

/// The offers, without the lines that stand on this cycle.
fn without_steps<'a>(
    alloc: Global,
    names: &[Name],
    offers: &[Offer<'a>],
) -> Result<Vec<Offer<'a>>, AllocError>
    ensures { IfOk result (λ left. map offer_view left.items ≡
        map (without_step names.now) (map offer_view offers.now)) }
{
    let mut left = Vec::with_capacity(alloc, offers.len())?;
    for offer in offers {
        left.push(without_step(alloc, names, offer)?)?;
    }
    Ok(left)
}

/// The claims with their lines.
fn first_offers<'a>(alloc: Global, claims: &[Claim<'a>]) -> Result<Vec<Offer<'a>>, AllocError>
    ensures { IfOk result (λ offers. map offer_view offers.items ≡
        map offer_of (map claim_view claims.now)) }
{
    let mut offers = Vec::with_capacity(alloc, claims.len())?;
    for claim in claims {
        offers.push(Offer {
            claim: *claim,
            cycle: String::new(alloc),
        })?;
    }
    Ok(offers)
}

/// The claims with their lines, without those that would close a cycle with the graph and the other
/// lines: as long as there is a cycle, the lines on the first one are taken back. The only error is
/// out of memory.
pub fn settled<'a>(
    alloc: Global,
    graph: &Graph,
    names: &BorrowedNames<'_>,
    claims: &[Claim<'a>],
) -> Result<Vec<Offer<'a>>, AllocError>
    requires { names.now ≡ names_in graph.now }
    ensures { IfOk result (λ offers. Settles graph.now
        (map offer_of (map claim_view claims.now)) (map offer_view offers.items)) }
{
    closes_only_cycles();
    let _nodes = graph.nodes();
    let mut offers = first_offers(alloc, claims)?;
    while let Some(path) = cycle_with(alloc, graph, names, &offers)? {
        offers = without_steps(alloc, path.as_slice(), &offers)?;
    }
    Ok(offers)
}

/// The claim of an offer: without a line where that would close a cycle.
fn claim_offered<'a>(offer: &'a Offer<'_>) -> Claim<'a>
    ensures { claim_view result ≡ claim_offered (offer_view offer.entry.now) }
{
    let claim = offer.claim;
    if offer.cycle.is_empty() {
        return claim;
    }
    let topic = Topic {
        kind: claim.topic.kind,
        has_line: false,
        first: claim.topic.first,
        second: claim.topic.second,
        cycle: offer.cycle.as_str(),
    };
    Claim {
        topic,
        who: claim.who,
        what: claim.what,
    }
}

/// The claims of offers, in the same order. The only error is out of memory.
pub fn claims_offered<'a>(
    alloc: Global,
    offers: &'a [Offer<'_>],
) -> Result<Vec<Claim<'a>>, AllocError>
    ensures { IfOk result (λ claims. map claim_view claims.items ≡
        map claim_offered (map offer_view offers.entry.now)) }
{
    let mut claims = Vec::with_capacity(alloc, offers.len())?;
    for offer in offers {
        claims.push(claim_offered(offer))?;
    }
    Ok(claims)
}
