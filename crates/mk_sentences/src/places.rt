//! At which line of the makefile a name is shown.

ghost use Rattle.std.specs.Prelude.{◌≡◌, ◌++◌, ℕ, List, None, Some, map, IfOk, OnOk, if◌then◌else◌};
ghost use Rattle.std.specs.Option.{option_copied, option_or};
ghost use Rattle.std.specs.Str.{bytes_eq};
ghost use Rattle.std.specs.String.{string_bytes};
ghost use Rattle.mk_read.specs.Names.{has_name};
ghost use Rattle.mk_sentences.specs.Places.{HasFirst, counts, head, name_text, place_text, rule_at, rule_shown};

use indexmap::IndexMap;
use mk_read::{Makefile, Place, Rule};
use std::alloc::{AllocError, Global};
use std::marker::Model;

/// For each target of some rule lines the first of them.
type FirstRules<'m> = IndexMap<&'m str, &'m Rule>;

/// Adds a rule line to a target that has none yet.
fn add_target<'m>(
    table: &mut FirstRules<'m>,
    target: &'m str,
    rule: &'m Rule,
) -> Result<(), AllocError>
    ensures { OnOk result ((name : List ℕ) → rule_at table.new name ≡
        option_or (rule_at table.old name)
        (if bytes_eq name target.entry.now then Some rule.entry.now else None)) }
{
    if table.contains_key(target) {
        return Ok(());
    }
    table.insert(target, rule)?;
    Ok(())
}

/// Adds a rule line to those of its targets that have none yet.
fn add_targets<'m>(
    table: &mut FirstRules<'m>,
    targets: &'m [String],
    rule: &'m Rule,
) -> Result<(), AllocError>
    ensures { OnOk result ((name : List ℕ) → rule_at table.new name ≡
        option_or (rule_at table.old name)
        (if has_name (map string_bytes targets.entry.now) name
        then Some rule.entry.now else None)) }
{
    for target in targets {
        add_target(table, target.as_str(), rule)?;
    }
    Ok(())
}

/// Whether a rule line is the makefile's own and, if only those count, has commands.
fn counts(commanded: bool, rule: &Rule) -> bool
    ensures { result ≡ counts commanded rule.now }
{
    !rule.default && (!commanded || rule.commands.is_some())
}

/// For each target of the rule lines that count the first of these. The only error is out of
/// memory.
fn first_rules<'m>(
    alloc: Global,
    rules: &'m [Rule],
    commanded: bool,
) -> Result<FirstRules<'m>, AllocError>
    ensures { IfOk result (λ table. HasFirst commanded rules.entry.now table) }
{
    let mut table = IndexMap::new(alloc);
    for rule in rules {
        if !counts(commanded, rule) {
            continue;
        }
        add_targets(&mut table, &rule.targets, rule)?;
    }
    Ok(table)
}

/// A makefile with tables of its rule lines. A contract sees the makefile.
#[derive(Drop)]
pub struct Places<'m> {
    makefile: &'m Makefile,
    commanded: FirstRules<'m>,
    named: FirstRules<'m>,
}

impl<'m> Model for Places<'m> {
    ghost use Rattle.mk_read.specs.Reading as value;
    ghost use Rattle.mk_sentences.specs.Places.{AreTablesOf};

    ghost Value = { value.Makefile };

    ghost view = { λ p. p.makefile.now };

    ghost invariant = { λ p. AreTablesOf p.makefile.now p.commanded p.named };
}

impl<'m> Places<'m> {
    /// Builds the tables, in time linear in the makefile. The only error is out of memory.
    pub fn new(alloc: Global, makefile: &'m Makefile) -> Result<Places<'m>, AllocError>
        ensures { IfOk result (λ places. places ≡ makefile.now) }
    {
        let commanded = first_rules(alloc, makefile.rules(), true)?;
        let named = first_rules(alloc, makefile.rules(), false)?;
        Ok(Places {
            makefile,
            commanded,
            named,
        })
    }

    /// The rule line at which a name is shown: the first one that gives it commands; without one,
    /// the first one that has it as a target. Rule lines of the default text don't count.
    pub fn rule(&self, name: &str) -> Option<&Rule>
        ensures { option_copied result ≡ rule_shown self.now name.now }
    {
        if let Some(rule) = self.commanded.get(name) {
            return Some(*rule);
        }
        match self.named.get(name) {
            Some(rule) => Some(*rule),
            None => None,
        }
    }

    /// The makefile.
    fn makefile(&self) -> &Makefile
        ensures { result.now ≡ self.now }
    {
        self.makefile
    }
}

/// Appends `FILE:LINE: `.
fn push_place(out: &mut String, place: &Place) -> Result<(), AllocError>
    ensures { OnOk result (string_bytes out.new ≡ string_bytes out.old ++ place_text place.now) }
{
    let file = place.file.as_str();
    let line = place.line;
    write!(out, "{file}:{line}: ")
}

/// Appends the name of the first text that was read, and `: `.
fn push_name(out: &mut String, makefile: &Makefile) -> Result<(), AllocError>
    ensures { OnOk result (string_bytes out.new ≡
        string_bytes out.old ++ name_text makefile.now) }
{
    if let Some(name) = makefile.texts().first() {
        out.push_str(name.as_str())?;
    }
    out.push_str(": ")
}

/// Appends `FILE:LINE: ` of the rule line at which a name is shown; without one, the makefile's own
/// name and `: `. The only error is out of memory.
pub fn push_head(out: &mut String, places: &Places<'_>, name: &str) -> Result<(), AllocError>
    ensures { OnOk result (string_bytes out.new ≡
        string_bytes out.old ++ head places.now name.now) }
{
    match places.rule(name) {
        Some(rule) => push_place(out, &rule.place),
        None => push_name(out, places.makefile()),
    }
}
