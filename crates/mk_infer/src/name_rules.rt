//! The rule lines of a name.

ghost use Rattle.std.specs.Prelude.{◌≡◌, ◌++◌, List, ℕ, map, IfOk, OnOk};
ghost use Rattle.std.specs.Option.{option_map};
ghost use Rattle.mk_read.specs.Needs.{commands_of};
ghost use Rattle.mk_read.specs.State.{RuleRead};
ghost use Rattle.mk_infer.specs.Table.{lines_at, lines_of, prerequisites_in, words_in};

use crate::rule_table::{commands_at, push_needs_at, words_at};
use mk_read::{Command, Rule};
use std::alloc::{AllocError, Global};
use std::marker::Model;

/// The rule lines of a name, which were looked up once. A contract sees a list.
#[derive(Drop)]
pub struct NameRules<'t> {
    rules: &'t [Rule],
    places: &'t [usize],
}

impl<'t> Model for NameRules<'t> {
    ghost use Rattle.std.specs.Prelude.{List};
    ghost use Rattle.mk_read.specs.State as value;
    ghost use Rattle.mk_infer.specs.Table.{lines_at};

    ghost Value = { List value.RuleRead };

    ghost view = { λ n. lines_at n.rules.now n.places.now };
}

impl<'t> NameRules<'t> {
    /// Makes the rule lines at these places.
    pub(crate) fn new(rules: &'t [Rule], places: &'t [usize]) -> NameRules<'t>
        ensures { result ≡ lines_at rules.now places.now }
    {
        NameRules { rules, places }
    }

    /// Returns the words of the rule lines, including `.WAIT`. The only error is out of memory.
    pub fn words(&self, alloc: Global) -> Result<Vec<&'t str>, AllocError>
        ensures { IfOk result (λ words. map (λ word. word.now) words.items ≡ words_in self.now) }
    {
        words_at(alloc, self.rules, self.places)
    }

    /// Appends the prerequisites of the rule lines: their words without `.WAIT`. The only error is
    /// out of memory.
    pub fn push_prerequisites(&self, names: &mut Vec<&'t str>) -> Result<(), AllocError>
        ensures { OnOk result (map (λ name. name.now) names.new.items ≡
            map (λ name. name.now) names.old.items ++
            prerequisites_in self.now) }
    {
        push_needs_at(names, self.rules, self.places)
    }

    /// Returns the commands of these rule lines: of a line of the makefile if one has commands,
    /// else of a line of the default text.
    pub fn commands(&self) -> Option<&'t [Command]>
        ensures { (rules : List RuleRead) (name : List ℕ) → self.now ≡ lines_of rules name →
            option_map (λ commands. commands.now) result ≡ commands_of rules name }
    {
        commands_at(self.rules, self.places)
    }
}
