//! Chooses the inference rule of a name.

ghost use Rattle.std.specs.Prelude.{◌≡◌, ◌++◌, ◌∷◌, [], List, ℕ, true, false, None, Some, find, map, MatchOption, IfOk, if◌then◌else◌};
ghost use Rattle.std.specs.Option.{option_map};
ghost use Rattle.std.specs.String.{string_bytes};
ghost use Rattle.mk_infer.specs.Inference.{choice, chosen_suffix, ending, may_infer, stem};
ghost use Rattle.mk_infer.specs.Choosing.{HasThere, IsLeast, chosen_by, fits_by, resolved_rule};
ghost use Rattle.mk_infer.specs.Targets.{own_commands};
ghost use Rattle.mk_infer.specs.There.{is_there};

use crate::choices::Choices;
use crate::{Backs, Exists, NameRules, RuleTable, backs_of};
use mk_read::Command;
use std::alloc::{AllocError, Global};
use std::marker::Model;

/// What the chosen inference rule gives a name. A contract sees lists.
#[derive(Drop)]
pub struct Chosen<'m> {
    /// The inferred prerequisite.
    pub name: &'m str,
    /// The commands of the rule.
    pub commands: &'m [Command],
}

impl<'m> Model for Chosen<'m> {
    ghost use Rattle.std.specs.Prelude.{Some};
    ghost use Rattle.mk_infer.specs.Choosing as value;

    ghost Value = { value.Chosen };

    ghost view = { λ c. record { name = c.name.now; commands = Some c.commands.now } };
}

/// Splits a name into its stem and its known suffix, which is empty if it has none.
pub fn parted<'a>(table: &RuleTable<'_>, name: &'a str) -> (&'a str, &'a str)
    ensures stem { result.0.now ≡ stem table.now name.now }
    ensures ending { result.1.now ≡ ending table.now name.now }
{
    match table.cut_before_suffix(name) {
        Some(parts) => parts,
        None => (name, ""),
    }
}

/// Concatenates two texts.
fn joined(alloc: Global, front: &str, back: &str) -> Result<String, AllocError>
    ensures { IfOk result (λ text. string_bytes text ≡ front.now ++ back.now) }
{
    let mut text = String::with_capacity(alloc, front.len().saturating_add(back.len()))?;
    text.push_str(front)?;
    text.push_str(back)?;
    Ok(text)
}

/// Returns the name if it counts as present.
fn found_there<'m>(table: &'m RuleTable<'_>, exists: &'m Exists<'_>, name: &str) -> Option<&'m str>
    ensures { MatchOption result (is_there table.now exists.now name.now ≡
        false) (λ found. (found.now ≡ name.now) × (is_there table.now exists.now name.now ≡ true)) }
{
    if let Some(found) = exists.listed(name) {
        return Some(found);
    }
    table.target(name)
}

/// What the choice of a rule looks up, and the allocator of what it returns.
#[derive(Clone, Copy)]
struct Lookup<'m> {
    alloc: Global,
    /// The makefile.
    table: &'m RuleTable<'m>,
    /// The files that exist before a make.
    exists: &'m Exists<'m>,
    /// The present names, by what stands before their last dot.
    backs: &'m Backs<'m>,
}

/// Returns what the inference rule with this source suffix gives, or `None` if the rule has no
/// commands or its prerequisite isn't present.
fn chosen_by<'m>(
    lookup: &Lookup<'m>,
    stem: &str,
    ending: &str,
    suffix: &str,
) -> Result<Option<Chosen<'m>>, AllocError>
    ensures { IfOk result (λ chosen. chosen ≡
        (if fits_by lookup.now.table.now lookup.now.exists.now stem.now ending.now suffix.now
        then Some (chosen_by lookup.now.table.now stem.now ending.now suffix.now) else None)) }
{
    let rule = joined(lookup.alloc, suffix, ending)?;
    let Some(commands) = lookup.table.rule_commands(&rule) else {
        return Ok(None);
    };
    let wanted = joined(lookup.alloc, stem, suffix)?;
    let Some(name) = found_there(lookup.table, lookup.exists, &wanted) else {
        return Ok(None);
    };
    Ok(Some(Chosen { name, commands }))
}

/// Returns what the first of these source suffixes gives whose rule fits.
fn first_fitting<'m>(
    lookup: &Lookup<'m>,
    stem: &str,
    ending: &str,
    suffixes: &[&str],
) -> Result<Option<Chosen<'m>>, AllocError>
    ensures { IfOk result (λ chosen. chosen ≡
        option_map (chosen_by lookup.now.table.now stem.now ending.now)
        (find (fits_by lookup.now.table.now lookup.now.exists.now stem.now ending.now)
        (map (λ suffix. suffix.now) suffixes.now))) }
{
    for suffix in suffixes {
        if let Some(chosen) = chosen_by(lookup, stem, ending, suffix)? {
            return Ok(Some(chosen));
        }
    }
    Ok(None)
}

/// What an inference rule gives a name, and the place of its source suffix in the list of suffixes.
/// A contract sees both.
#[derive(Drop)]
struct Placed<'m> {
    place: usize,
    chosen: Chosen<'m>,
}

impl<'m> Model for Placed<'m> {
    ghost use Rattle.mk_infer.specs.Choosing as value;

    ghost Value = { value.Placed };

    ghost view = { λ p. record { place = p.place; chosen = p.chosen } };
}

/// Returns what the rule with this suffix gives, if it gives something and the suffix comes before
/// that of `least`; else returns `least`.
fn least_with<'m>(
    lookup: &Lookup<'m>,
    stem: &str,
    ending: &str,
    least: Option<Placed<'m>>,
    suffix: &str,
) -> Result<Option<Placed<'m>>, AllocError>
    ensures { IfOk result (λ next. (tried : List (List ℕ)) →
        IsLeast (fits_by lookup.now.table.now lookup.now.exists.now stem.now ending.now)
        (chosen_by lookup.now.table.now stem.now ending.now)
        lookup.now.table.now.suffixes tried least.entry →
        IsLeast (fits_by lookup.now.table.now lookup.now.exists.now stem.now ending.now)
        (chosen_by lookup.now.table.now stem.now ending.now)
        lookup.now.table.now.suffixes (tried ++ suffix.now ∷ []) next) }
{
    let Some(place) = lookup.table.suffix_place(suffix) else {
        return Ok(least);
    };
    if let Some(found) = &least {
        if found.place <= place {
            return Ok(least);
        }
    }
    match chosen_by(lookup, stem, ending, suffix)? {
        Some(chosen) => Ok(Some(Placed { place, chosen })),
        None => Ok(least),
    }
}

/// Returns what the rules with these source suffixes give: that one whose suffix comes first in the
/// list of suffixes.
fn least_fitting<'m>(
    lookup: &Lookup<'m>,
    stem: &str,
    ending: &str,
    suffixes: &[&'m str],
) -> Result<Option<Placed<'m>>, AllocError>
    ensures { IfOk result (λ least.
        IsLeast (fits_by lookup.now.table.now lookup.now.exists.now stem.now ending.now)
        (chosen_by lookup.now.table.now stem.now ending.now)
        lookup.now.table.now.suffixes (map (λ suffix. suffix.now) suffixes.now) least) }
{
    let mut least = None;
    for suffix in suffixes {
        least = least_with(lookup, stem, ending, least, suffix)?;
    }
    Ok(least)
}

/// Whether a name may get an inference rule: it has no commands of its own, isn't phony, and isn't
/// under a fixed prefix.
fn may_infer(
    table: &RuleTable<'_>,
    exists: &Exists<'_>,
    own: Option<&[Command]>,
    name: &str,
) -> bool
    requires { option_map (λ commands. commands.now) own ≡ own_commands table.now name.now }
    ensures { result ≡ may_infer table.now exists.now name.now }
{
    !(own.is_some() || table.is_phony(name) || exists.fixed.begins_with_any(name))
}

/// Returns what the inference rule gives a name with this stem and ending. It tries either the
/// suffixes of the present names with this stem or the source suffixes of the ending, whichever are
/// fewer.
fn fitting<'m>(
    lookup: &Lookup<'m>,
    stem: &str,
    ending: &str,
    sources: &[&'m str],
) -> Result<Option<Chosen<'m>>, AllocError>
    requires there { HasThere lookup.now.table.now lookup.now.exists.now lookup.now.backs.now }
    requires sources { find (fits_by lookup.now.table.now lookup.now.exists.now stem.now ending.now)
        (map (λ source. source.now) sources.now) ≡ find (fits_by lookup.now.table.now
        lookup.now.exists.now stem.now ending.now) lookup.now.table.now.suffixes }
    ensures { IfOk result (λ chosen. chosen ≡ option_map (chosen_by lookup.now.table.now stem.now
        ending.now) (find (fits_by lookup.now.table.now lookup.now.exists.now stem.now ending.now)
        lookup.now.table.now.suffixes)) }
{
    if stem.is_empty() {
        return first_fitting(lookup, stem, ending, sources);
    }
    let Some(found) = backs_of(lookup.backs, stem) else {
        return Ok(None);
    };
    if sources.len() <= found.len() {
        return first_fitting(lookup, stem, ending, sources);
    }
    match least_fitting(lookup, stem, ending, found)? {
        Some(placed) => Ok(Some(placed.chosen)),
        None => Ok(None),
    }
}

/// Returns what the inference rule gives a name, or `None` if it gets none.
fn inferred<'m>(
    lookup: &Lookup<'m>,
    own: Option<&[Command]>,
    name: &str,
) -> Result<Option<Chosen<'m>>, AllocError>
    requires there { HasThere lookup.now.table.now lookup.now.exists.now lookup.now.backs.now }
    requires own { option_map (λ commands. commands.now) own ≡ own_commands lookup.now.table.now
        name.now }
    ensures { IfOk result (λ chosen. chosen ≡ option_map (chosen_by lookup.now.table.now (stem
        lookup.now.table.now name.now) (ending lookup.now.table.now name.now)) (chosen_suffix
        lookup.now.table.now lookup.now.exists.now name.now)) }
{
    if !may_infer(lookup.table, lookup.exists, own, name) {
        return Ok(None);
    }
    let (stem, ending) = parted(lookup.table, name);
    let Some(sources) = lookup.table.sources_for(ending) else {
        return Ok(None);
    };
    fitting(lookup, stem, ending, sources)
}

/// What makes a name. A contract sees lists.
#[derive(Drop)]
pub struct ResolvedRule<'m> {
    /// The inferred prerequisite.
    pub choice: Option<&'m str>,
    /// The commands of the chosen inference rule, else those of the rule lines of the name.
    pub commands: Option<&'m [Command]>,
    /// The rule lines of the name.
    pub rules: NameRules<'m>,
}

impl<'m> Model for ResolvedRule<'m> {
    ghost use Rattle.std.specs.Option.{option_map};
    ghost use Rattle.mk_infer.specs.Choosing as value;

    ghost Value = { value.ResolvedRule };

    ghost view = { λ m.
        record {
          choice = option_map (λ name. name.now) m.choice;
          commands = option_map (λ commands. commands.now) m.commands;
          rules = m.rules;
        } };
}

/// Returns the chosen inference rule of a name, or its own commands.
fn making<'m>(lookup: &Lookup<'m>, name: &str) -> Result<ResolvedRule<'m>, AllocError>
    requires { HasThere lookup.now.table.now lookup.now.exists.now lookup.now.backs.now }
    ensures { IfOk result (λ making. making ≡ resolved_rule lookup.now.table.now
        lookup.now.exists.now name.now) }
{
    let rules = lookup.table.rules_of(name);
    let own = rules.commands();
    match inferred(lookup, own, name)? {
        Some(chosen) => Ok(ResolvedRule {
            choice: Some(chosen.name),
            commands: Some(chosen.commands),
            rules,
        }),
        None => Ok(ResolvedRule {
            choice: None,
            commands: own,
            rules,
        }),
    }
}

/// Returns what makes a name: its inferred prerequisite, its commands and its rule lines. The only
/// error is out of memory.
pub fn resolve_rule<'m>(
    alloc: Global,
    choices: &'m Choices<'m>,
    name: &str,
) -> Result<ResolvedRule<'m>, AllocError>
    ensures { IfOk result (λ maker. maker ≡
        resolved_rule choices.now.makefile choices.now.exists name.now) }
{
    let lookup = Lookup {
        alloc,
        table: choices.table(),
        exists: choices.exists(),
        backs: choices.backs(),
    };
    making(&lookup, name)
}

/// Returns the inferred prerequisite of a name, or `None` if it has none.
///
/// It is the name without its known suffix, followed by a source suffix: the first one in the list
/// of suffixes that has a rule with commands and gives a name that is present. A name with commands
/// of its own, a phony name and a name under a fixed prefix have no inferred prerequisite (the
/// standard's `make`, "Inference Rules"). The only error is out of memory.
pub fn choice<'m>(
    alloc: Global,
    choices: &'m Choices<'m>,
    name: &str,
) -> Result<Option<&'m str>, AllocError>
    ensures { IfOk result (λ found. option_map (λ name. name.now) found ≡
        choice choices.now.makefile choices.now.exists name.now) }
{
    Ok(resolve_rule(alloc, choices, name)?.choice)
}
