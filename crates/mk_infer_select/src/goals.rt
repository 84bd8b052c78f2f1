//! The goals of a request.

ghost use Rattle.std.specs.Prelude.{◌≡◌, map, find, IfOk, not};
ghost use Rattle.std.specs.List.{list_any};
ghost use Rattle.std.specs.Option.{option_copied, option_map};
ghost use Rattle.std.specs.String.{string_bytes};
ghost use Rattle.mk_read.specs.Names.{once};
ghost use Rattle.mk_read.specs.Needs.{is_wait};
ghost use Rattle.mk_read.specs.Special.{is_inference_name};
ghost use Rattle.mk_infer.specs.Goals.{AreGoals, first_target, given_or_first, gives_prerequisites, goal_names, goal_of, goals_from, is_no_goal, is_plain_target, own_targets};
ghost use Rattle.mk_infer.specs.Steps.{Gives};

use mk_infer::{InferFault, RuleTable};
use mk_lines::{BorrowedNames, Name};
use mk_read::{Place, ReadFault, Rule};
use mk_read_parse::{is_special, name_of};
use std::alloc::{AllocError, Global};
use std::marker::Model;

/// A list of distinct goals, which only `goal_names` makes. A contract sees a list of names.
#[derive(Debug, Drop)]
pub struct Goals {
    names: Vec<Name>,
}

impl Model for Goals {
    ghost use Rattle.std.specs.Prelude.{List, ℕ};
    ghost use Rattle.mk_infer.specs.Goals.{AreGoals};

    ghost Value = { List (List ℕ) };

    ghost view = { λ g. g.names.items };

    ghost invariant = { λ g. AreGoals g.names.items };
}

impl Goals {
    /// Returns the goals, in order. They are distinct, and some words give them as the goals of
    /// some makefile.
    pub fn as_slice(&self) -> &[Name]
        ensures exact { result.now ≡ self.now }
        ensures goals { AreGoals self.now }
    {
        self.names.as_slice()
    }

    /// Returns the goals as text. The only error is out of memory.
    pub(crate) fn texts(&self, alloc: Global) -> Result<Vec<&str>, AllocError>
        ensures { IfOk result (λ texts. map (λ text. text.now) texts.items ≡ self.now) }
    {
        let mut texts = Vec::new(alloc);
        for name in self.as_slice() {
            texts.push(name.as_str())?;
        }
        Ok(texts)
    }
}

/// Whether a word is `.WAIT` or `-`, which may be names elsewhere.
fn is_no_goal(word: &str) -> bool
    ensures { result ≡ is_no_goal word.now }
{
    word == ".WAIT" || word == "-"
}

/// Returns the name of a goal. It fails with `BadGoal` (27) for `.WAIT` and `-`, with
/// `GoalIsMember` (28) for a word with a bracket, and with `BadGoal` for another word that is no
/// name.
#[tactic(auto, unfolding(mk_infer::specs::Goals::goal_of))]
fn goal_of<'a>(alloc: Global, number: usize, word: &'a str) -> Result<&'a str, InferFault>
    ensures { Gives (λ name. name.now) result (goal_of number word.now) }
{
    let file = Name::new(alloc, "goal")?;
    if is_no_goal(word) {
        return Err(InferFault::BadGoal(Place { file, line: number }));
    }
    match name_of(alloc, &file, number, word.as_bytes()) {
        Ok(name) => Ok(name),
        Err(ReadFault::ArchiveMember(place, _)) => Err(InferFault::GoalIsMember(place)),
        Err(ReadFault::BadName(place, _)) => Err(InferFault::BadGoal(place)),
        Err(_) => Err(InferFault::Memory),
    }
}

/// Returns the names of all goals, or the first fault.
fn goals_from<'a>(alloc: Global, goals: &'a [Name]) -> Result<Vec<&'a str>, InferFault>
    ensures { Gives (λ found. map (λ name. name.now) found.items) result (goals_from 1 goals.now) }
{
    let mut names = Vec::new(alloc);
    for (i, goal) in goals.iter().enumerate() {
        names.push(goal_of(alloc, i + 1, goal.as_str())?)?;
    }
    Ok(names)
}

/// Returns each name once, at its first place.
fn once<'a>(alloc: Global, names: &[&'a str]) -> Result<BorrowedNames<'a>, AllocError>
    ensures { IfOk result (λ set. set ≡ once (map (λ name. name.now) names.now)) }
{
    let mut set = BorrowedNames::new(alloc);
    for name in names {
        set.insert(name)?;
    }
    Ok(set)
}

/// Whether a target is neither special nor an inference name.
fn is_plain_target(table: &RuleTable<'_>, name: &str) -> bool
    ensures { result ≡ is_plain_target table.now.suffixes name.now }
{
    !is_special(name) && !table.is_inference_name(name)
}

/// Returns the first target that is neither special nor an inference name.
fn first_plain<'m>(table: &'m RuleTable<'_>, targets: &'m [String]) -> Option<&'m str>
    ensures { option_map (λ target. target.now) result ≡
        find (is_plain_target table.now.suffixes) (map string_bytes targets.now) }
{
    for target in targets {
        if is_plain_target(table, target) {
            return Some(target);
        }
    }
    None
}

/// Returns the first such target of the makefile, without the rule lines of the default text.
fn first_target<'m>(table: &'m RuleTable<'_>, rules: &'m [Rule]) -> Option<&'m str>
    ensures { option_map (λ target. target.now) result ≡
        find (is_plain_target table.now.suffixes) (own_targets rules.now) }
{
    for rule in rules {
        if rule.default {
            continue;
        }
        if let Some(target) = first_plain(table, &rule.targets) {
            return Some(target);
        }
    }
    None
}

/// Whether one of the targets is an inference name.
fn has_inference_name(table: &RuleTable<'_>, targets: &[String]) -> bool
    ensures { result ≡
        list_any (is_inference_name table.now.suffixes) (map string_bytes targets.now) }
{
    for target in targets {
        if table.is_inference_name(target) {
            return true;
        }
    }
    false
}

/// Whether a word is a prerequisite, that is, not `.WAIT`.
fn has_prerequisites(words: &[String]) -> bool
    ensures { result ≡ list_any (λ word. not (is_wait word)) (map string_bytes words.now) }
{
    for word in words {
        if word.as_str() != ".WAIT" {
            return true;
        }
    }
    false
}

/// Returns the first rule line that gives prerequisites to an inference name.
fn first_with_prerequisites<'m>(table: &'m RuleTable<'_>) -> Option<&'m Rule>
    ensures { option_copied result ≡ find (gives_prerequisites table.now.suffixes) table.now.rules }
{
    for rule in table.rules() {
        if has_inference_name(table, &rule.targets) && has_prerequisites(&rule.words) {
            return Some(rule);
        }
    }
    None
}

/// Copies names into texts of their own.
fn owned(alloc: Global, names: &[&str]) -> Result<Vec<Name>, AllocError>
    ensures { IfOk result (λ copies. copies.items ≡ map (λ name. name.now) names.now) }
{
    let mut copies = Vec::new(alloc);
    for name in names {
        copies.push(Name::new(alloc, name)?)?;
    }
    Ok(copies)
}

/// Returns the given goals, each once, or the default goal if none was given.
fn given_or_first(
    alloc: Global,
    table: &RuleTable<'_>,
    names: &[&str],
) -> Result<Vec<Name>, InferFault>
    ensures { Gives (λ goals.
        goals.items) result (given_or_first (map (λ name. name.now) names.now) table.now) }
{
    if !names.is_empty() {
        let set = once(alloc, names)?;
        return Ok(owned(alloc, set.as_slice())?);
    }
    let Some(target) = first_target(table, table.rules()) else {
        return Err(InferFault::NoGoal);
    };
    Ok(owned(alloc, &[target])?)
}

/// Returns the given goals, each once. If there are none, it returns the first target of the
/// makefile that is neither special nor an inference name (IEEE Std 1003.1-2024, XCU make,
/// "Operands" and "Target Rules").
///
/// It fails first with `InferencePrerequisites` (45) at the first rule line that gives
/// prerequisites to an inference name. Then the goals are checked in order: one with a bracket is
/// `GoalIsMember` (28), and another one that is no name, `.WAIT` or `-` is `BadGoal` (27). Last
/// comes `NoGoal` (44) if no goal is given and there is no default goal. `Memory` may come at any
/// time.
#[tactic(auto, unfolding(mk_infer::specs::Goals::goal_names))]
pub fn goal_names(alloc: Global, table: &RuleTable<'_>, goals: &[Name]) -> Result<Goals, InferFault>
    ensures { Gives (λ goals. goals) result (goal_names table.now goals.now) }
{
    if let Some(rule) = first_with_prerequisites(table) {
        let place = &rule.place;
        let file = Name::new(alloc, place.file.as_str())?;
        let line = place.line;
        return Err(InferFault::InferencePrerequisites(Place { file, line }));
    }
    let words = goals_from(alloc, goals)?;
    let names = given_or_first(alloc, table, &words)?;
    Ok(Goals { names })
}
