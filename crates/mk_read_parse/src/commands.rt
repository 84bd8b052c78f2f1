//! Reads command lines, and adds rule lines that have commands.

ghost use Rattle.std.specs.Prelude.{◌≡◌, ◌||◌, true, find, map, None, Some, ℕ, List, IfOk, IfErr, MatchOption};
ghost use Rattle.std.specs.Option.{option_map};
ghost use Rattle.std.specs.String.{string_bytes};
ghost use Rattle.mk_lines.specs.Bytes.{trimmed};
ghost use Rattle.mk_read.specs.Following.{IsOfText};
ghost use Rattle.mk_read.specs.Names.{has_name};
ghost use Rattle.mk_read.specs.Rules.{has_some, is_comment, taken, unless_taken, with_command, commanded, command_line, new_rule};
ghost use Rattle.mk_read.specs.State.{rules_of, Last};
ghost use Rattle.mk_read.specs.Steps.{Gives};
ghost use Rattle.mk_read_parse.specs.Views.{KnowsCommands, owner_view, place_at};

use crate::line_location::LineLocation;
use crate::state::{Owner, RuleLines, with_last};
use mk_lines::{Name, trimmed};
use mk_read::{Command, NameSet, ReadFault, Rule};
use std::alloc::{AllocError, Global};

/// Whether the first byte that isn't blank is `#`.
fn is_comment(text: &[u8]) -> bool
    ensures { result ≡ is_comment text.now }
{
    trimmed(text).first() == Some(&b'#')
}

/// The first of the names that the set has.
fn first_in<'a>(set: &NameSet, names: &'a [String]) -> Option<&'a str>
    ensures { MatchOption result (find (has_name set.now) (map string_bytes names.now) ≡
        None) (λ name. find (has_name set.now) (map string_bytes names.now) ≡ Some name.now) }
{
    for name in names {
        if set.contains(name) {
            return Some(name);
        }
    }
    None
}

/// The set with these names added.
fn with_names(alloc: Global, set: NameSet, names: &[String]) -> Result<NameSet, AllocError>
    ensures { IfOk result (λ all. (name : List ℕ) →
        has_name all name ≡ (has_name set name || has_name (map string_bytes names.now) name)) }
{
    let mut all = set;
    for name in names {
        all.insert(String::from_str(alloc, name)?)?;
    }
    Ok(all)
}

/// The rule lines with one more that has commands. Fails with `TwoRecipes` (31) where one of the
/// makefile's own earlier rule lines has commands for one of its targets.
fn with_commanded(
    alloc: Global,
    earlier: Vec<Rule>,
    rule: Rule,
    known: NameSet,
) -> Result<RuleLines, ReadFault>
    requires commands { has_some rule.commands ≡ true }
    requires known { KnowsCommands known earlier.items }
    ensures exact { Gives (λ lines.
        lines) result (unless_taken (taken earlier.items rule) rule earlier.items) }
    ensures own { IfErr result IsOfText }
{
    if rule.default {
        return Ok(RuleLines {
            earlier,
            owner: Owner::Last(rule),
            commanded: known,
        });
    }
    if let Some(target) = first_in(&known, &rule.targets) {
        let target = Name::new(alloc, target)?;
        return Err(ReadFault::TwoRecipes(rule.place, target));
    }
    let known = with_names(alloc, known, &rule.targets)?;
    Ok(RuleLines {
        earlier,
        owner: Owner::Last(rule),
        commanded: known,
    })
}

/// The commands with one more at the end.
fn with_one_more(
    alloc: Global,
    commands: Option<Vec<Command>>,
    command: Command,
) -> Result<Vec<Command>, AllocError>
    ensures { IfOk result (λ all. all.items ≡
        with_command (option_map (λ commands. commands.items) commands) command) }
{
    let mut all = match commands {
        Some(commands) => commands,
        None => Vec::with_capacity(alloc, 1)?,
    };
    all.push(command)?;
    Ok(all)
}

/// The rule line with one more command.
fn with_command(alloc: Global, rule: Rule, command: Command) -> Result<Rule, AllocError>
    ensures { IfOk result (λ more. more ≡ commanded rule command) }
{
    let commands = with_one_more(alloc, rule.commands, command)?;
    Ok(Rule {
        commands: Some(commands),
        ..rule
    })
}

impl RuleLines {
    /// The rule lines after a command line, whose leading blanks are dropped. Fails with
    /// `StrayCommand` (26) where it belongs to nothing and is no comment; with `SpecialShape` (30)
    /// where it belongs to a special target; with `TwoRecipes` (31) where it is the first command
    /// of a rule line and an earlier one has commands for a target of that.
    #[tactic(auto, unfolding(mk_read::specs::Rules::command_line))]
    pub(crate) fn with_command(
        self,
        location: &LineLocation<'_>,
        text: &[u8],
    ) -> Result<RuleLines, ReadFault>
        ensures exact { Gives (λ lines.
            lines) result (command_line (place_at location.now) text.now self.earlier self.owner) }
        ensures own { IfErr result IsOfText }
    {
        let RuleLines {
            earlier,
            owner,
            commanded,
        } = self;
        match owner {
            Owner::Nobody => {
                if !is_comment(text) {
                    return Err(ReadFault::StrayCommand(location.place()?));
                }
                Ok(RuleLines {
                    earlier,
                    owner: Owner::Nobody,
                    commanded,
                })
            }
            Owner::SpecialTarget => Err(ReadFault::SpecialShape(location.place()?)),
            Owner::PassedOver => Ok(RuleLines {
                earlier,
                owner: Owner::PassedOver,
                commanded,
            }),
            Owner::Last(rule) => behind_rule(location, earlier, rule, commanded, text),
        }
    }

    /// The rule lines with one more. Fails with `TwoRecipes` (31) where that has commands and an
    /// earlier one has commands for one of its targets.
    #[tactic(auto, unfolding(mk_read::specs::Rules::new_rule))]
    pub(crate) fn with_rule(self, alloc: Global, rule: Rule) -> Result<RuleLines, ReadFault>
        ensures exact { Gives (λ lines. lines) result (new_rule rule self) }
        ensures own { IfErr result IsOfText }
    {
        if rule.commands.is_none() {
            return Ok(self.owned(Owner::Last(rule))?);
        }
        let RuleLines {
            earlier,
            owner,
            commanded,
        } = self;
        with_commanded(alloc, with_last(earlier, owner)?, rule, commanded)
    }
}

/// The rule line with the command of one more command line.
fn with_text(location: &LineLocation<'_>, rule: Rule, text: &[u8]) -> Result<Rule, AllocError>
    ensures { IfOk result (λ more. more ≡
        commanded rule (record { text = trimmed text.now; place = place_at location.now })) }
{
    let text = Vec::from_slice(location.alloc, trimmed(text))?;
    let place = location.place()?;
    with_command(location.alloc, rule, Command { text, place })
}

/// The rule lines after a command line that belongs to the last one.
#[tactic(auto, unfolding(mk_read::specs::Rules::command_line))]
fn behind_rule(
    location: &LineLocation<'_>,
    earlier: Vec<Rule>,
    rule: Rule,
    known: NameSet,
    text: &[u8],
) -> Result<RuleLines, ReadFault>
    requires { KnowsCommands known (rules_of (record {
      earlier = earlier.items;
      owner = Last rule;
    })) }
    ensures exact { Gives (λ lines.
        lines) result (command_line (place_at location.now) text.now earlier.items (Last rule)) }
    ensures own { IfErr result IsOfText }
{
    let goes_on = rule.commands.is_some();
    let rule = with_text(location, rule, text)?;
    if goes_on {
        return Ok(RuleLines {
            earlier,
            owner: Owner::Last(rule),
            commanded: known,
        });
    }
    with_commanded(location.alloc, earlier, rule, known)
}
