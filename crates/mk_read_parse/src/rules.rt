//! Reads assignments and rule lines.

ghost use Rattle.std.specs.Prelude.{◌≡◌, ◌==◌, ◌++◌, not, false, true, None, Ok, Err, codes, map, length, IfErr, IfOk, OnOk, if◌then◌else◌};
ghost use Rattle.std.specs.List.{list_all, list_any};
ghost use Rattle.std.specs.Option.{option_map};
ghost use Rattle.std.specs.String.{string_bytes};
ghost use Rattle.mk_macros.specs.Definitions.{defined, without_blanks};
ghost use Rattle.std.specs.Cow.{cow_slice_items};
ghost use Rattle.mk_read.specs.declared.fault.ReadFault.TheVariants.{SpecialShape};
ghost use Rattle.mk_read.specs.Following.{IsOfText};
ghost use Rattle.mk_read_parse.specs.KindViews.{rule_view, assignment_view};
ghost use Rattle.mk_read.specs.Names.{has_name, is_empty, names_in};
ghost use Rattle.mk_read.specs.Rules.{assignment, special_words, special_rule, commands_behind, by_names, rule};
ghost use Rattle.mk_read.specs.Special.{is_suffix, listed, special_among, is_unknown_special};
ghost use Rattle.mk_read.specs.Steps.{Gives, at_place};
ghost use Rattle.mk_read_parse.specs.Views.{IsMacroFault, assigned, expanded_text, place_at, ruled};

use crate::kinds::{AssignmentLine, RuleLine};
use crate::line_location::LineLocation;
use crate::names::{is_special, names_of};
use crate::special::{is_suffix, special_of};
use crate::state::{Owner, RuleLines, State};
use mk_macros::{Locals, MacroFault, MacroTable, without_blanks};
use mk_read::{Command, ReadFault, Rule, Special, SuffixList};
use std::alloc::{AllocError, Global};
use std::borrow::CowSlice;
use std::mem;

/// The fault of a macro at this place, or `Memory`.
fn macro_fault(location: &LineLocation<'_>, fault: MacroFault) -> ReadFault
    ensures exact { IsMacroFault (place_at location.now) fault result }
    ensures own { IsOfText result }
{
    match location.place() {
        Ok(place) => ReadFault::Macro(place, fault),
        Err(_) => ReadFault::Memory,
    }
}

/// The expansion of a part of a line.
fn expanded_text<'a>(
    location: &LineLocation<'_>,
    macros: &MacroTable,
    text: &'a [u8],
) -> Result<CowSlice<'a, u8>, ReadFault>
    ensures exact { Gives cow_slice_items result (expanded_text (place_at location.now) macros.now
        text.now) }
    ensures own { IfErr result IsOfText }
{
    match macros.expand(location.alloc, text, &Locals::Empty) {
        Ok(found) => Ok(found.text),
        Err(MacroFault::Memory) => Err(ReadFault::Memory),
        Err(fault) => Err(macro_fault(location, fault)),
    }
}

/// The names in a part of a line, which is expanded and then split into words.
pub(crate) fn names_in(
    location: &LineLocation<'_>,
    macros: &MacroTable,
    text: &[u8],
) -> Result<Vec<String>, ReadFault>
    ensures exact { Gives (λ found.
        map string_bytes found.items) result (names_in (place_at location.now) macros.now text.now) }
    ensures own { IfErr result IsOfText }
{
    let found = expanded_text(location, macros, text)?;
    names_of(location.alloc, location.file, location.line, &found)
}

/// Defines a macro with this name, as the line says.
fn define(
    location: &LineLocation<'_>,
    macros: &mut MacroTable,
    name: &[u8],
    line: &AssignmentLine<'_>,
) -> Result<(), ReadFault>
    ensures exact { Gives (λ done. macros.new) result (at_place (place_at location.now)
        (defined macros.old name.now line.now.op line.now.value.now)) }
    ensures own { IfErr result IsOfText }
{
    match macros.define(name, line.op, line.value) {
        Ok(()) => Ok(()),
        Err(MacroFault::Memory) => Err(ReadFault::Memory),
        Err(fault) => Err(macro_fault(location, fault)),
    }
}

impl State {
    /// Applies an assignment whose name has been expanded.
    #[tactic(auto, unfolding(crate::specs::Views::assigned))]
    fn assign_to(
        &mut self,
        location: &LineLocation<'_>,
        name: &[u8],
        line: &AssignmentLine<'_>,
    ) -> Result<(), ReadFault>
        ensures exact { Gives (λ done.
            self.new) result (assigned (place_at location.now) self.old (assignment_view line.now)
            name.now) }
        ensures own { IfErr result IsOfText }
    {
        self.own(Owner::Nobody)?;
        define(location, &mut self.macros, without_blanks(name), line)
    }

    /// Applies an assignment, whose name is expanded first.
    pub(crate) fn assign(
        &mut self,
        location: &LineLocation<'_>,
        line: &AssignmentLine<'_>,
    ) -> Result<(), ReadFault>
        ensures exact { Gives (λ done.
            self.new) result (assignment (place_at location.now) self.old (assignment_view line.now)) }
        ensures own { IfErr result IsOfText }
    {
        let name = expanded_text(location, &self.macros, line.name)?;
        self.assign_to(location, &name, line)
    }
}

fn are_suffixes(words: &[String]) -> bool
    ensures { result ≡ list_all is_suffix (map string_bytes words.now) }
{
    words.iter().all(|word| is_suffix(word))
}

/// The suffixes after a `.SUFFIXES` line: with the words added, each once; none where the line has
/// no words.
fn list_suffixes(
    alloc: Global,
    suffixes: SuffixList,
    words: &[String],
) -> Result<SuffixList, AllocError>
    requires { list_all is_suffix (map string_bytes words.now) ≡ true }
    ensures { IfOk result (λ all. all ≡ listed suffixes (map string_bytes words.now)) }
{
    if words.is_empty() {
        return Ok(SuffixList::new(alloc));
    }
    suffixes.with_all(alloc, words)
}

/// Applies a `.SUFFIXES` line. Fails with `SpecialShape` (30) where a word is no suffix.
fn add_suffixes(
    location: &LineLocation<'_>,
    suffixes: &mut SuffixList,
    words: &[String],
) -> Result<(), ReadFault>
    ensures exact { Gives (λ done.
        suffixes.new) result (if list_all is_suffix (map string_bytes words.now)
        then Ok (listed suffixes.old (map string_bytes words.now))
        else Err (SpecialShape (place_at location.now))) }
    ensures own { IfErr result IsOfText }
{
    if !are_suffixes(words) {
        return Err(ReadFault::SpecialShape(location.place()?));
    }
    let before = mem::replace(suffixes, SuffixList::new(location.alloc));
    *suffixes = list_suffixes(location.alloc, before, words)?;
    Ok(())
}

/// Appends words to a list of names.
fn append(names: &mut Vec<String>, words: Vec<String>) -> Result<(), AllocError>
    ensures { OnOk result (map string_bytes names.new.items ≡
        map string_bytes names.old.items ++ map string_bytes words.items) }
{
    let mut words = words;
    names.append(&mut words)?;
    Ok(())
}

/// Fails with `SpecialShape` (30) where there are words.
fn unless_words(location: &LineLocation<'_>, words: &[String]) -> Result<(), ReadFault>
    ensures exact { Gives (λ done.
        done) result (if is_empty (map string_bytes words.now) then Ok tt
        else Err (SpecialShape (place_at location.now))) }
    ensures own { IfErr result IsOfText }
{
    if !words.is_empty() {
        return Err(ReadFault::SpecialShape(location.place()?));
    }
    Ok(())
}

/// Applies a special target to its words. Fails with `SpecialShape` (30) where it can't have them.
fn note_words(
    location: &LineLocation<'_>,
    state: &mut State,
    words: Vec<String>,
    special: Special,
) -> Result<(), ReadFault>
    ensures exact { Gives (λ done.
        state.new) result (special_words (place_at location.now) state.old
        (map string_bytes words.items) special) }
    ensures own { IfErr result IsOfText }
{
    match special {
        Special::Suffixes => add_suffixes(location, &mut state.suffixes, &words),
        Special::Phony => Ok(append(&mut state.phony, words)?),
        Special::NotParallel => {
            unless_words(location, &words)?;
            state.not_parallel = true;
            Ok(())
        }
        Special::Wordless => unless_words(location, &words),
        Special::Unread => Ok(()),
    }
}

fn has_wait(words: &[String]) -> bool
    ensures { result ≡ has_name (map string_bytes words.now) (codes ".WAIT") }
{
    words.iter().any(|word| ".WAIT" == word.as_str())
}

/// Whether there is just one target.
fn is_alone(targets: &[String]) -> bool
    ensures { result ≡ (length (map string_bytes targets.now) == 1) }
{
    targets.len() == 1
}

/// The names of a rule line.
#[derive(Drop)]
struct RuleNames {
    targets: Vec<String>,
    /// The prerequisites, `.WAIT` included.
    words: Vec<String>,
}

/// Reads a rule line of a special target. Fails with `SpecialShape` (30) where it has other
/// targets, commands or `.WAIT`, or words that the target can't have.
#[tactic(auto, unfolding(mk_read::specs::Rules::special_rule))]
fn add_special(
    location: &LineLocation<'_>,
    state: &mut State,
    names: RuleNames,
    commands: bool,
    special: Special,
) -> Result<(), ReadFault>
    ensures exact { Gives (λ done.
        state.new) result (special_rule (place_at location.now) state.old
        (map string_bytes names.targets.items) (map string_bytes names.words.items) commands
        special) }
    ensures own { IfErr result IsOfText }
{
    if !is_alone(&names.targets) || commands || has_wait(&names.words) {
        return Err(ReadFault::SpecialShape(location.place()?));
    }
    state.own(Owner::SpecialTarget)?;
    note_words(location, state, names.words, special)
}

/// The command after a `;`, or no command where the text is empty.
fn commands_behind(location: &LineLocation<'_>, text: &[u8]) -> Result<Vec<Command>, AllocError>
    ensures { IfOk result (λ commands. commands.items ≡
        commands_behind (place_at location.now) text.now) }
{
    let mut commands = Vec::new(location.alloc);
    if !text.is_empty() {
        commands.push(Command {
            text: Vec::from_slice(location.alloc, text)?,
            place: location.place()?,
        })?;
    }
    Ok(commands)
}

/// What the first special target among these does.
#[tactic(auto, unfolding(mk_read::specs::Special::special_among))]
fn special_among(targets: &[String]) -> Option<Special>
    ensures { result ≡ special_among (map string_bytes targets.now) }
{
    for target in targets {
        if let Some(special) = special_of(target) {
            return Some(special);
        }
    }
    None
}

/// Whether a target has the form of a special one and isn't known.
fn has_unknown(targets: &[String]) -> bool
    ensures { result ≡ list_any is_unknown_special (map string_bytes targets.now) }
{
    targets.iter().any(|target| is_special(target) && special_of(target).is_none())
}

/// Adds a rule line at the end.
fn push_rule(alloc: Global, state: &mut State, rule: Rule) -> Result<(), ReadFault>
    ensures exact { Gives (λ done. state.new) result (ruled rule state.old) }
    ensures own { IfErr result IsOfText }
{
    let lines = mem::replace(&mut state.lines, RuleLines::new(alloc));
    state.lines = lines.with_rule(alloc, rule)?;
    Ok(())
}

/// The commands of a rule line: those after its `;`, or `None` where it has no `;`.
fn commands_of(
    location: &LineLocation<'_>,
    command: Option<&[u8]>,
) -> Result<Option<Vec<Command>>, AllocError>
    ensures { IfOk result (λ commands. option_map (λ commands. commands.items) commands ≡
        option_map (commands_behind (place_at location.now))
        (option_map (λ text. text.now) command.entry)) }
{
    match command {
        Some(text) => Ok(Some(commands_behind(location, text)?)),
        None => Ok(None),
    }
}

/// Reads a rule line whose names are known. Fails with `UnknownSpecial` (29) where a target has the
/// form of a special one and isn't known; then with `SpecialShape` (30) or `TwoRecipes` (31).
#[tactic(auto, unfolding(mk_read::specs::Rules::by_names))]
fn add_by_names(
    location: &LineLocation<'_>,
    default: bool,
    state: &mut State,
    names: RuleNames,
    command: Option<&[u8]>,
) -> Result<(), ReadFault>
    ensures exact { Gives (λ done.
        state.new) result (by_names default (place_at location.now) state.old
        (map string_bytes names.targets.items) (option_map (λ text. text.now) command.entry)
        (map string_bytes names.words.items)) }
    ensures own { IfErr result IsOfText }
{
    if has_unknown(&names.targets) {
        return Err(ReadFault::UnknownSpecial(location.place()?));
    }
    if let Some(special) = special_among(&names.targets) {
        return add_special(location, state, names, command.is_some(), special);
    }
    let commands = commands_of(location, command)?;
    let rule = Rule {
        targets: names.targets,
        words: names.words,
        commands,
        place: location.place()?,
        default,
    };
    push_rule(location.alloc, state, rule)
}

impl State {
    /// Reads a rule line: its targets are expanded and split into names, then its prerequisites.
    /// Where the targets expand to nothing, the rest of the line and its commands are skipped.
    #[tactic(auto, unfolding(mk_read::specs::Rules::rule))]
    pub(crate) fn add_rule(
        &mut self,
        location: &LineLocation<'_>,
        default: bool,
        line: &RuleLine<'_>,
    ) -> Result<(), ReadFault>
        ensures exact { Gives (λ done.
            self.new) result (rule default (place_at location.now) self.old (rule_view line.now)) }
        ensures own { IfErr result IsOfText }
    {
        let targets = names_in(location, &self.macros, line.targets)?;
        if targets.is_empty() {
            return Ok(self.own(Owner::PassedOver)?);
        }
        let words = names_in(location, &self.macros, line.words)?;
        let names = RuleNames { targets, words };
        add_by_names(location, default, self, names, line.command)
    }
}
