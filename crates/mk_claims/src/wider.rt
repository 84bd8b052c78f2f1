//! The lines that claims ask for, without those that would close a cycle: with the graph of the
//! goals, and of the names in lines that the goals don't reach.

ghost use Rattle.std.specs.Prelude.{◌≡◌, ◌++◌, false, filter, fold, map, option_map, None, Some, Ok, IfOk, MatchOption, OnOk};
ghost use Rattle.std.specs.String.{string_bytes};
ghost use Rattle.mk_infer.specs.Goals.{goal_names};
ghost use Rattle.mk_infer.specs.Steps.{is_out_of_memory};
ghost use Rattle.mk_infer.specs.Targets.{is_target};
ghost use Rattle.mk_lines.specs.Names.{with_name};
ghost use Rattle.mk_repair.specs.Rows.{names_view};
ghost use Rattle.mk_repair.specs.Words.{word_view};
ghost use Rattle.mk_claims.specs.Claims.{claim_view};
ghost use Rattle.mk_claims.specs.Offers.{names_in, offer_view, word_of_claim};
ghost use Rattle.mk_claims.specs.Wider.{AreOffers, AreOn, AreOver, Leads, LeadsNowhere, goals_with, is_made, line_targets, target_by, target_in, there_with, unreached_by, unreached_in, unreached_names};
ghost use Rattle.mk_subject.specs.Subject.{name_of};

use crate::claim::Claim;
use crate::offer::{Offer, settled, word_of_claim};
use mk_graph::Graph;
use mk_infer::{Choices, Exists, InferFault, RuleTable, choice};
use mk_infer_select::{goal_names, select};
use mk_lines::{BorrowedNames, Name, NameTable};
use mk_repair::Word;
use mk_subject::Subject;
use std::alloc::{AllocError, Global};

/// The prerequisite of a line that says this word, where the goals don't reach it.
fn unreached_of<'a>(subject: &Subject<'_>, word: Word<'a>) -> Option<&'a str>
    ensures { option_map (λ name. name.now) result ≡
        unreached_in subject.now (Some (word_view word.entry)) }
{
    let Word::Needs { prerequisite, .. } = word else {
        return None;
    };
    if subject.names().contains(prerequisite) {
        return None;
    }
    Some(prerequisite)
}

/// The prerequisite in the line that mends a claim, where the goals don't reach it.
fn unreached_in<'a>(subject: &Subject<'_>, claim: &Claim<'a>) -> Option<&'a str>
    ensures { option_map (λ name. name.now) result ≡
        unreached_in subject.now (word_of_claim (claim_view claim.now)) }
{
    match word_of_claim(claim) {
        Some(word) => unreached_of(subject, word),
        None => None,
    }
}

/// Adds the prerequisite in the line that mends a claim, where the goals don't reach it.
fn insert_unreached<'a>(
    names: &mut BorrowedNames<'a>,
    subject: &Subject<'_>,
    claim: &Claim<'a>,
) -> Result<(), AllocError>
    ensures { OnOk result (names.new ≡
        fold with_name names.old (unreached_by subject.now (claim_view claim.now))) }
{
    if let Some(name) = unreached_in(subject, claim) {
        names.insert(name)?;
    }
    Ok(())
}

/// The prerequisites in the lines that mend claims which the goals don't reach, each once.
fn unreached_names<'a>(
    alloc: Global,
    subject: &Subject<'_>,
    claims: &[Claim<'a>],
) -> Result<BorrowedNames<'a>, AllocError>
    ensures { IfOk result (λ names. names ≡
        unreached_names subject.now (map claim_view claims.now)) }
{
    let mut names = BorrowedNames::new(alloc);
    for claim in claims {
        insert_unreached(&mut names, subject, claim)?;
    }
    Ok(names)
}

/// Whether a target rule or an inference rule makes the name. The only error is out of memory.
fn is_made(alloc: Global, choices: &Choices<'_>, name: &str) -> Result<bool, AllocError>
    ensures { IfOk result (λ made. made ≡
        is_made choices.now.makefile choices.now.exists name.now) }
{
    if choices.table().target(name).is_some() {
        return Ok(true);
    }
    Ok(choice(alloc, choices, name)?.is_some())
}

/// Those of the names which rules make. The only error is out of memory.
fn made_among<'a>(
    alloc: Global,
    choices: &Choices<'_>,
    names: &[&'a str],
) -> Result<Vec<&'a str>, AllocError>
    ensures { IfOk result (λ made. names_view made.items ≡
        filter (is_made choices.now.makefile choices.now.exists) (names_view names.now)) }
{
    let mut made = Vec::new(alloc);
    for name in names {
        if is_made(alloc, choices, name)? {
            made.push(*name)?;
        }
    }
    Ok(made)
}

/// Those of the names which are targets. The only error is out of memory.
fn targets_among<'a>(
    alloc: Global,
    table: &RuleTable<'_>,
    names: &[&'a str],
) -> Result<Vec<&'a str>, AllocError>
    ensures { IfOk result (λ targets. names_view targets.items ≡
        filter (is_target table.now) (names_view names.now)) }
{
    let mut targets = Vec::new(alloc);
    for name in names {
        if table.target(name).is_some() {
            targets.push(*name)?;
        }
    }
    Ok(targets)
}

/// The names of the goals.
fn goals_of(alloc: Global, subject: &Subject<'_>) -> Result<Vec<Name>, AllocError>
    ensures { IfOk result (λ goals. goals.items ≡
        map (name_of subject.now) subject.now.graph.goals) }
{
    let graph = subject.graph();
    let mut goals = Vec::with_capacity(alloc, graph.goals().len())?;
    for goal in graph.goals() {
        goals.push(Name::new(alloc, subject.name(*goal))?)?;
    }
    Ok(goals)
}

/// The names of the goals, and then these names.
fn goals_with(alloc: Global, subject: &Subject<'_>, names: &[&str]) -> Result<Vec<Name>, AllocError>
    ensures { IfOk result (λ goals. goals.items ≡ goals_with subject.now (names_view names.now)) }
{
    let mut goals = goals_of(alloc, subject)?;
    for name in names {
        goals.push(Name::new(alloc, name)?)?;
    }
    Ok(goals)
}

/// The graph of these goals, or their first fault.
fn graph_of<'m>(
    alloc: Global,
    choices: &'m Choices<'m>,
    goals: &[Name],
) -> Result<Graph, InferFault>
    ensures { Leads choices.now.makefile choices.now.exists
        (goal_names choices.now.makefile goals.now) result }
{
    let goals = goal_names(alloc, choices.table(), goals)?;
    select(alloc, choices, &goals)
}

/// The names of the nodes, each at its number. The only error is out of memory.
fn node_names<'a>(alloc: Global, graph: &'a Graph) -> Result<BorrowedNames<'a>, AllocError>
    ensures { IfOk result (λ names. names ≡ names_in graph.now) }
{
    let nodes = graph.nodes();
    let mut names = BorrowedNames::with_capacity(alloc, nodes.len())?;
    for node in nodes {
        names.insert(node.name.as_str())?;
    }
    Ok(names)
}

/// No lines, where the fault isn't out of memory, which is the only error.
fn none_for<'a>(fault: &InferFault) -> Result<Option<Vec<Offer<'a>>>, AllocError>
    ensures { IfOk result (λ found. (found ≡ None) × (is_out_of_memory fault.now ≡ false)) }
{
    if fault.is_out_of_memory() {
        return Err(AllocError);
    }
    Ok(None)
}

/// The claims with their lines, without those that would close a cycle with this graph. The only
/// error is out of memory.
fn settled_on<'a>(
    alloc: Global,
    graph: &Graph,
    claims: &[Claim<'a>],
) -> Result<Vec<Offer<'a>>, AllocError>
    ensures { IfOk result (λ offers. AreOn graph.now
        (map claim_view claims.now) (map offer_view offers.items)) }
{
    let names = node_names(alloc, graph)?;
    settled(alloc, graph, &names, claims)
}

/// The claims with their lines, without those that would close a cycle with the other lines and the
/// graph of the goals. The only error is out of memory.
pub fn offers_alone<'a>(
    alloc: Global,
    subject: &Subject<'_>,
    claims: &[Claim<'a>],
) -> Result<Vec<Offer<'a>>, AllocError>
    ensures { IfOk result (λ offers. AreOn subject.now.graph
        (map claim_view claims.now) (map offer_view offers.items)) }
{
    settled(alloc, subject.graph(), subject.names(), claims)
}

/// The claims with their lines, without those that would close a cycle with the graph of the goals
/// and these names; `None` where they lead to a fault. The only error is out of memory.
fn settled_with<'a>(
    alloc: Global,
    subject: &Subject<'_>,
    choices: &Choices<'_>,
    names: &[&str],
    claims: &[Claim<'a>],
) -> Result<Option<Vec<Offer<'a>>>, AllocError>
    requires makefile { choices.now.makefile ≡ subject.now.makefile }
    requires exists { choices.now.exists ≡ there_with subject.now (map claim_view claims.now) }
    ensures { IfOk result (λ found. MatchOption found
        (LeadsNowhere subject.now (map claim_view claims.now) (names_view names.now))
        (λ offers. AreOver subject.now (names_view names.now)
        (map claim_view claims.now) (map offer_view offers.items))) }
{
    let goals = goals_with(alloc, subject, names)?;
    match graph_of(alloc, choices, goals.as_slice()) {
        Ok(graph) => {
            let offers = settled_on(alloc, &graph, claims)?;
            Ok(Some(offers))
        }
        Err(fault) => none_for(&fault),
    }
}

/// The target in the line that mends a claim.
fn target_in<'a>(claim: &Claim<'a>) -> Option<&'a str>
    ensures { option_map (λ name. name.now) result ≡
        target_in (word_of_claim (claim_view claim.now)) }
{
    match word_of_claim(claim) {
        Some(Word::Needs { target, .. }) => Some(target),
        Some(Word::Phony { .. }) => None,
        None => None,
    }
}

/// Adds the target in the line that mends a claim. The only error is out of memory.
fn push_target(
    alloc: Global,
    targets: &mut Vec<String>,
    claim: &Claim<'_>,
) -> Result<(), AllocError>
    ensures { OnOk result (map string_bytes targets.new.items ≡
        map string_bytes targets.old.items ++ target_by (claim_view claim.now)) }
{
    if let Some(target) = target_in(claim) {
        targets.push(String::from_str(alloc, target)?)?;
    }
    Ok(())
}

/// The targets in the lines of claims. The only error is out of memory.
fn line_targets(alloc: Global, claims: &[Claim<'_>]) -> Result<NameTable, AllocError>
    ensures { IfOk result (λ targets. targets ≡ line_targets (map claim_view claims.now)) }
{
    let mut targets = Vec::new(alloc);
    for claim in claims {
        push_target(alloc, &mut targets, claim)?;
    }
    NameTable::new(alloc, targets)
}

/// The claims with their lines, without those that would close a cycle with the other lines, the
/// graph, and what the rules say of these names, which are all that the goals don't reach. The only
/// error is out of memory.
fn offers_over<'a>(
    alloc: Global,
    subject: &Subject<'_>,
    choices: &Choices<'_>,
    unreached: &[&str],
    claims: &[Claim<'a>],
) -> Result<Vec<Offer<'a>>, AllocError>
    requires makefile { choices.now.makefile ≡ subject.now.makefile }
    requires exists { choices.now.exists ≡ there_with subject.now (map claim_view claims.now) }
    requires names { names_view unreached.now ≡
        unreached_names subject.now (map claim_view claims.now) }
    ensures { IfOk result (λ offers. AreOffers subject.now
        (map claim_view claims.now) (map offer_view offers.items)) }
{
    let made = made_among(alloc, choices, unreached)?;
    if made.is_empty() {
        return offers_alone(alloc, subject, claims);
    }
    if let Some(offers) = settled_with(alloc, subject, choices, &made, claims)? {
        return Ok(offers);
    }
    let targets = targets_among(alloc, choices.table(), unreached)?;
    if let Some(offers) = settled_with(alloc, subject, choices, &targets, claims)? {
        return Ok(offers);
    }
    offers_alone(alloc, subject, claims)
}

/// The claims with their lines, without those that would close a cycle with the other lines, the
/// graph, and what the rules say of prerequisites that the goals don't reach, once the lines are
/// added. The only error is out of memory.
pub fn offers_of<'a>(
    alloc: Global,
    subject: &Subject<'_>,
    claims: &[Claim<'a>],
) -> Result<Vec<Offer<'a>>, AllocError>
    ensures { IfOk result (λ offers. AreOffers subject.now
        (map claim_view claims.now) (map offer_view offers.items)) }
{
    let unreached = unreached_names(alloc, subject, claims)?;
    if unreached.as_slice().is_empty() {
        return offers_alone(alloc, subject, claims);
    }
    let targets = line_targets(alloc, claims)?;
    let there = subject.there();
    let exists = Exists {
        any_leaf: there.any_leaf,
        sources: there.sources,
        fixed: there.fixed,
        texts: there.texts,
        more: &targets,
    };
    let choices = Choices::new(alloc, subject.table(), &exists)?;
    offers_over(alloc, subject, &choices, unreached.as_slice(), claims)
}
