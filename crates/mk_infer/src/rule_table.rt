//! A makefile with its names indexed.

ghost use Rattle.std.specs.Prelude.{◌≡◌, ◌∷◌, ◌++◌, [], List, ℕ, length, map, filter, is_some, find, not, ◌||◌, slice_get, true, false, None, Some, MatchOption, OnOk, IfOk, if◌then◌else◌};
ghost use Rattle.std.specs.Option.{option_copied, option_map, option_map_or};
ghost use Rattle.std.specs.List.{list_all};
ghost use Rattle.std.specs.Str.{bytes_eq};
ghost use Rattle.std.specs.String.{string_bytes};
ghost use Rattle.indexmap.specs.IndexMap.{get_by};
ghost use Rattle.mk_lines.specs.Names.{HoldsNames, place_from};
ghost use Rattle.mk_read.specs.Names.{has_name};
ghost use Rattle.mk_read.specs.Needs.{commands_in, commands_of, is_wait};
ghost use Rattle.mk_read.specs.Special.{is_inference_name, is_suffix};
ghost use Rattle.mk_infer.specs.Inference.{but_last, ending, ends_in};
ghost use Rattle.mk_infer.specs.Targets.{is_target, rules_for};
ghost use Rattle.mk_infer.specs.Table.{AreSources, HasLines, HasSources, HoldsTargets, counts_for, has_target, lines_at, lines_of, places_at, targets_in, words_in};

use crate::name_rules::NameRules;
use crate::source_suffixes::{Sources, is_dotted, sources_among};
use crate::suffix_set::{SuffixSet, suffixes_among};
use indexmap::IndexMap;
use mk_lines::{BorrowedNames, NameTable, borrowed_set_of};
use mk_macros::MacroTable;
use mk_read::{Command, Makefile, Rule};
use std::alloc::{AllocError, Global};
use std::marker::Model;

/// For each target of rule lines the places of its rule lines, in order. It has no other names.
type Lines<'m> = IndexMap<&'m str, Vec<usize>>;

/// Adds the place of a rule line to a target.
fn add_place<'m>(
    alloc: Global,
    lines: &mut Lines<'m>,
    target: &'m str,
    place: usize,
) -> Result<(), AllocError>
    ensures places { OnOk result ((name : List ℕ) →
        option_map_or (λ places. places.items) (get_by (λ k. bytes_eq name k.now) lines.new) []
        ≡ (if bytes_eq name target.entry.now
        then option_map_or (λ places. places.items)
        (get_by (λ k. bytes_eq name k.now) lines.old) [] ++ place ∷ []
        else option_map_or (λ places. places.items)
        (get_by (λ k. bytes_eq name k.now) lines.old) [])) }
    ensures targets { OnOk result ((name : List ℕ) →
        is_some (get_by (λ k. bytes_eq name k.now) lines.new) ≡
        (is_some (get_by (λ k. bytes_eq name k.now) lines.old) || bytes_eq name target.entry.now)) }
{
    let places = lines.entry(target)?.or_insert(Vec::new(alloc));
    places.push(place)?;
    Ok(())
}

/// Adds the place of a rule line to each of its targets, once even if a target is repeated.
fn add_targets<'m>(
    alloc: Global,
    lines: &mut Lines<'m>,
    targets: &'m [String],
    place: usize,
) -> Result<(), AllocError>
    ensures places { OnOk result ((name : List ℕ) →
        places_at lines.new name ≡ (if has_name (map string_bytes targets.now) name
        then places_at lines.old name ++ place ∷ [] else places_at lines.old name)) }
    ensures targets { OnOk result ((name : List ℕ) →
        has_target lines.new name ≡
        (has_target lines.old name || has_name (map string_bytes targets.now) name)) }
{
    if let [target] = targets {
        return add_place(alloc, lines, target, place);
    }
    let mut seen = BorrowedNames::new(alloc);
    for target in targets {
        if !seen.insert(target)? {
            continue;
        }
        add_place(alloc, lines, target, place)?;
    }
    Ok(())
}

/// Indexes all rule lines by their targets.
fn lines_among<'m>(alloc: Global, rules: &'m [Rule]) -> Result<Lines<'m>, AllocError>
    ensures places { IfOk result (λ lines. HasLines rules.now lines) }
    ensures targets { IfOk result (λ lines. HoldsTargets (targets_in rules.now) lines) }
{
    let mut lines = IndexMap::with_capacity(alloc, rules.len())?;
    for (place, rule) in rules.iter().enumerate() {
        add_targets(alloc, &mut lines, &rule.targets, place)?;
    }
    Ok(lines)
}

/// Copies names into a table.
fn listed(alloc: Global, names: &[String]) -> Result<NameTable, AllocError>
    ensures { IfOk result (λ table. table ≡ map string_bytes names.now) }
{
    let mut copies = Vec::with_capacity(alloc, names.len())?;
    for name in names {
        copies.push(name.clone()?)?;
    }
    NameTable::new(alloc, copies)
}

/// Returns the rule line at a place.
fn rule_at(rules: &[Rule], place: usize) -> Option<&Rule>
    ensures { MatchOption result (slice_get rules.now place ≡ None)
        (λ rule. slice_get rules.now place ≡
        Some rule.now) }
{
    rules.get(place)
}

/// Appends words to others.
fn push_words<'m>(words: &mut Vec<&'m str>, more: &'m [String]) -> Result<(), AllocError>
    ensures { OnOk result (map (λ word. word.now) words.new.items ≡
        map (λ word. word.now) words.old.items ++ map string_bytes more.now) }
{
    words.reserve(more.len())?;
    for word in more {
        words.push(word.as_str())?;
    }
    Ok(())
}

/// Returns all words of the rule lines at these places.
pub(crate) fn words_at<'m>(
    alloc: Global,
    rules: &'m [Rule],
    places: &[usize],
) -> Result<Vec<&'m str>, AllocError>
    ensures { IfOk result (λ words. map (λ word. word.now) words.items ≡
        words_in (lines_at rules.now places.now)) }
{
    let mut words = Vec::new(alloc);
    for place in places {
        let Some(rule) = rule_at(rules, *place) else {
            continue;
        };
        push_words(&mut words, &rule.words)?;
    }
    Ok(words)
}

/// Whether a rule line has commands. If `own` is true, a rule line of the default text doesn't
/// count.
fn counts_for(own: bool, rule: &Rule) -> bool
    ensures { result ≡ counts_for own rule.now }
{
    !(own && rule.default) && rule.commands.is_some()
}

/// Returns the first rule line at these places that has commands, by `counts_for`.
fn commanded_at<'m>(rules: &'m [Rule], places: &[usize], own: bool) -> Option<&'m Rule>
    ensures { option_copied result ≡ find (counts_for own) (lines_at rules.now places.now) }
{
    for place in places {
        let Some(rule) = rule_at(rules, *place) else {
            continue;
        };
        if counts_for(own, rule) {
            return Some(rule);
        }
    }
    None
}

/// Appends the words that aren't `.WAIT`.
fn push_needs<'m>(names: &mut Vec<&'m str>, words: &'m [String]) -> Result<(), AllocError>
    ensures { OnOk result (map (λ name. name.now) names.new.items ≡
        map (λ name. name.now) names.old.items ++
        filter (λ word. not (is_wait word)) (map string_bytes words.now)) }
{
    names.reserve(words.len())?;
    for word in words {
        if word.as_str() != ".WAIT" {
            names.push(word.as_str())?;
        }
    }
    Ok(())
}

/// Appends the words, without `.WAIT`, of the rule lines at these places.
pub(crate) fn push_needs_at<'m>(
    names: &mut Vec<&'m str>,
    rules: &'m [Rule],
    places: &[usize],
) -> Result<(), AllocError>
    ensures { OnOk result (map (λ name. name.now) names.new.items ≡
        map (λ name. name.now) names.old.items ++
        filter (λ word. not (is_wait word)) (words_in (lines_at rules.now places.now))) }
{
    for place in places {
        let Some(rule) = rule_at(rules, *place) else {
            continue;
        };
        push_needs(names, &rule.words)?;
    }
    Ok(())
}

/// Returns the commands of `rule`, or of `other` if there is no `rule`.
fn commands_in<'m>(rule: Option<&'m Rule>, other: Option<&'m Rule>) -> Option<&'m [Command]>
    ensures { option_map (λ commands. commands.now) result ≡
        commands_in (option_copied rule.entry) (option_copied other.entry) }
{
    match &rule.or(other)?.commands {
        Some(commands) => Some(commands.as_slice()),
        None => None,
    }
}

/// Returns the commands of the rule lines at these places: of a line of the makefile if one has
/// commands, else of a line of the default text.
pub(crate) fn commands_at<'m>(rules: &'m [Rule], places: &[usize]) -> Option<&'m [Command]>
    ensures { option_map (λ commands. commands.now) result ≡
        commands_in (find (counts_for true) (lines_at rules.now places.now))
        (find (counts_for false) (lines_at rules.now places.now)) }
{
    let own = commanded_at(rules, places, true);
    let any = commanded_at(rules, places, false);
    commands_in(own, any)
}

/// A makefile with its names indexed. A contract sees the makefile.
#[derive(Drop)]
pub struct RuleTable<'m> {
    makefile: &'m Makefile,
    suffixes: SuffixSet<'m>,
    order: NameTable,
    phony: BorrowedNames<'m>,
    lines: Lines<'m>,
    sources: Sources<'m>,
}

impl<'m> Model for RuleTable<'m> {
    ghost use Rattle.mk_read.specs.Reading as value;
    ghost use Rattle.mk_infer.specs.Table.{IsTableOf};

    ghost Value = { value.Makefile };

    ghost view = { λ t. t.makefile.now };

    ghost invariant = { λ t.
        IsTableOf t.makefile.now t.suffixes t.order t.phony t.lines t.sources };
}

/// The suffixes as a set, the suffixes in order, and the phony names.
type Words<'m> = (SuffixSet<'m>, NameTable, BorrowedNames<'m>);

/// Indexes the suffixes and the phony names of a makefile.
fn words_among<'m>(alloc: Global, makefile: &'m Makefile) -> Result<Words<'m>, AllocError>
    ensures suffixes { IfOk result (λ r. list_all is_suffix makefile.now.suffixes ≡ true) }
    ensures set { IfOk result (λ r. HoldsNames r.0 makefile.now.suffixes) }
    ensures order { IfOk result (λ r. r.1 ≡ makefile.now.suffixes) }
    ensures phony { IfOk result (λ r. HoldsNames r.2 makefile.now.phony) }
{
    let words = makefile.suffixes();
    let set = suffixes_among(alloc, words)?;
    let order = listed(alloc, words)?;
    let phony = borrowed_set_of(alloc, makefile.phony())?;
    Ok((set, order, phony))
}

/// Indexes the rule lines of a makefile, and the source suffixes of its inference rules.
fn rules_among<'m>(
    alloc: Global,
    makefile: &'m Makefile,
) -> Result<(Lines<'m>, Sources<'m>), AllocError>
    ensures targets { IfOk result (λ r. HoldsTargets (targets_in makefile.now.rules) r.0) }
    ensures lines { IfOk result (λ r. HasLines makefile.now.rules r.0) }
    ensures sources { IfOk result (λ r. HasSources makefile.now r.1) }
{
    let lines = lines_among(alloc, makefile.rules())?;
    let sources = sources_among(alloc, makefile)?;
    Ok((lines, sources))
}

/// Makes the table of a makefile from the indexes of `rules_among`.
fn of_rules<'m>(
    alloc: Global,
    makefile: &'m Makefile,
    rules: (Lines<'m>, Sources<'m>),
) -> Result<RuleTable<'m>, AllocError>
    requires targets { HoldsTargets (targets_in makefile.now.rules) rules.0 }
    requires lines { HasLines makefile.now.rules rules.0 }
    requires sources { HasSources makefile.now rules.1 }
    ensures { IfOk result (λ table. table ≡ makefile.now) }
{
    let (suffixes, order, phony) = words_among(alloc, makefile)?;
    let (lines, sources) = rules;
    Ok(RuleTable {
        makefile,
        suffixes,
        order,
        phony,
        lines,
        sources,
    })
}

impl<'m> RuleTable<'m> {
    /// Indexes a makefile. The only error is out of memory.
    pub fn new(alloc: Global, makefile: &'m Makefile) -> Result<RuleTable<'m>, AllocError>
        ensures { IfOk result (λ table. table ≡ makefile.now) }
    {
        let rules = rules_among(alloc, makefile)?;
        of_rules(alloc, makefile, rules)
    }

    /// Returns the makefile.
    pub fn makefile(&self) -> &'m Makefile
        ensures { result.now ≡ self.now }
    {
        self.makefile
    }

    /// Returns the rule lines, in order.
    pub fn rules<'t>(&'t self) -> &'t [Rule]
    where
        'm: 't,
        ensures exact { result.now ≡ self.now.rules }
        ensures suffixes { list_all is_suffix self.now.suffixes ≡ true }
    {
        self.makefile.rules()
    }

    /// Returns the source suffixes of the rules with commands for names with this ending, in the
    /// order of the list of suffixes, or `None` if there are none.
    pub fn sources_for(&self, end: &str) -> Option<&[&'m str]>
        ensures { (name : List ℕ) → end.now ≡ ending self.now name →
            AreSources self.now name (option_map_or (λ sources.
            map (λ source. source.now) sources.now) result []) }
    {
        match self.sources.get(end) {
            Some(sources) => Some(sources.as_slice()),
            None => None,
        }
    }

    /// Returns the first place of a suffix in the list of suffixes.
    pub fn suffix_place(&self, suffix: &str) -> Option<usize>
        ensures { result ≡ place_from 0 self.now.suffixes suffix.now }
    {
        self.order.place(suffix)
    }

    /// Returns the macros as they are after all reading.
    pub fn macros<'t>(&'t self) -> &'t MacroTable
    where
        'm: 't,
        ensures { result.now ≡ self.now.macros }
    {
        self.makefile.macros()
    }

    /// Whether each prerequisite is a group of its own.
    pub fn not_parallel(&self) -> bool
        ensures { result ≡ self.now.not_parallel }
    {
        self.makefile.not_parallel()
    }

    /// Whether a name is an inference name. Only names that begin with a dot are looked up.
    pub fn is_inference_name(&self, name: &str) -> bool
        ensures { result ≡ is_inference_name self.now.suffixes name.now }
    {
        let bytes = name.as_bytes();
        is_dotted(bytes) && self.suffixes.is_joined(bytes)
    }

    /// Cuts a name before its known suffix, or returns `None` if it has none or nothing stands
    /// before it. A known suffix has a single dot, so it can only begin at the last dot of the
    /// name.
    pub fn cut_before_suffix<'a>(&self, name: &'a str) -> Option<(&'a str, &'a str)>
        ensures { MatchOption result (find (ends_in name.now) self.now.suffixes ≡
            None) (λ parts. (parts.0.now ≡ but_last (length parts.1.now) name.now) ×
            (find (ends_in name.now) self.now.suffixes ≡ Some parts.1.now)) }
    {
        let known = &self.suffixes;
        let Some(at) = name.rfind('.') else {
            return None;
        };
        let suffix = &name[at..];
        if at == 0 || !known.contains(suffix.as_bytes()) {
            return None;
        }
        Some((&name[..at], suffix))
    }

    /// Whether a name is phony. Nothing is looked up if there are no phony names.
    pub fn is_phony(&self, name: &str) -> bool
        ensures { result ≡ has_name self.now.phony name.now }
    {
        !self.phony.as_slice().is_empty() && self.phony.contains(name)
    }

    /// Returns the name if it is the target of a target rule.
    pub fn target<'t>(&'t self, name: &str) -> Option<&'t str>
    where
        'm: 't,
        ensures { MatchOption result (is_target self.now name.now ≡
            false) (λ found. (found.now ≡ name.now) × (is_target self.now name.now ≡ true)) }
    {
        if self.is_inference_name(name) {
            return None;
        }
        match self.lines.get_key_value(name) {
            Some((target, _places)) => Some(*target),
            None => None,
        }
    }

    /// Returns the places of the rule lines with this target, which may be an inference name.
    fn places_of(&self, name: &str) -> &[usize]
        ensures { lines_at self.now.rules result.now ≡ lines_of self.now.rules name.now }
    {
        let Some(places) = self.lines.get(name) else {
            return &[];
        };
        places.as_slice()
    }

    /// Returns the places of the rule lines of a name. An inference name has none.
    fn lines_for(&self, name: &str) -> &[usize]
        ensures { lines_at self.now.rules result.now ≡
            lines_of (rules_for self.now name.now) name.now }
    {
        if self.is_inference_name(name) {
            return &[];
        }
        self.places_of(name)
    }

    /// Returns the rule lines of a name. An inference name has none, since it is no target.
    pub fn rules_of<'t>(&'t self, name: &str) -> NameRules<'t>
    where
        'm: 't,
        ensures { result ≡ lines_of (rules_for self.now name.now) name.now }
    {
        NameRules::new(self.rules(), self.lines_for(name))
    }

    /// Returns the commands of the rule lines with this target, which may be an inference name.
    pub fn rule_commands<'t>(&'t self, name: &str) -> Option<&'t [Command]>
    where
        'm: 't,
        ensures { option_map (λ commands. commands.now) result ≡
            commands_of self.now.rules name.now }
    {
        commands_at(self.rules(), self.places_of(name))
    }
}
