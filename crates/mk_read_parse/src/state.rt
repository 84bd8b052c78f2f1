//! What has been read so far.

ghost use Rattle.std.specs.Prelude.{◌≡◌, [], ◌∷◌, ◌++◌, length, map, nat_le, IfOk, OnOk};
ghost use Rattle.std.specs.String.{string_bytes};
ghost use Rattle.mk_read.specs.Reading.{max_texts};
ghost use Rattle.mk_read.specs.State.{nothing_read, last_rule, owned, Nobody};
ghost use Rattle.mk_read_parse.specs.Views.{IsBare, owner_view};

use mk_lines::Name;
use mk_macros::MacroTable;
use mk_read::{NameSet, Rule, SuffixList};
use std::alloc::{AllocError, Global};
use std::marker::Model;
use std::mem;

/// The most texts that are read, the default text not counted.
const MAX_TEXTS: usize = 1024;

/// What a command line belongs to.
#[derive(Drop)]
pub(crate) enum Owner {
    /// Nothing: command lines are comments or faults.
    Nobody,
    /// The last rule line.
    Last(Rule),
    /// A special target, which can't have commands.
    SpecialTarget,
    /// A rule line that was skipped, since its targets expanded to nothing.
    PassedOver,
}

/// The rule lines so far, seen by contracts as those before the one that command lines belong to,
/// and what command lines belong to.
#[derive(Drop)]
pub(crate) struct RuleLines {
    pub(crate) earlier: Vec<Rule>,
    pub(crate) owner: Owner,
    /// The targets to which the makefile's own rule lines give commands.
    pub(crate) commanded: NameSet,
}

impl Model for RuleLines {
    ghost use Rattle.mk_read.specs.State as value;
    ghost use Rattle.mk_read.specs.State.{rules_of};
    ghost use Rattle.mk_read_parse.specs.Views.{KnowsCommands, owner_view};

    ghost Value = { value.Read };

    ghost view = { λ r. record { earlier = r.earlier.items; owner = owner_view r.owner } };

    ghost invariant = { λ r.
        KnowsCommands r.commanded (rules_of (record {
          earlier = r.earlier.items;
          owner = owner_view r.owner;
        })) };
}

/// What has been read so far, seen by contracts as lists.
#[derive(Drop)]
pub(crate) struct State {
    pub(crate) macros: MacroTable,
    pub(crate) suffixes: SuffixList,
    pub(crate) phony: Vec<String>,
    pub(crate) not_parallel: bool,
    pub(crate) lines: RuleLines,
    pub(crate) texts: Vec<String>,
    pub(crate) missing: Vec<String>,
}

impl Model for State {
    ghost use Rattle.std.specs.Prelude.{map};
    ghost use Rattle.std.specs.String.{string_bytes};
    ghost use Rattle.mk_read.specs.State as value;

    ghost Value = { value.State };

    ghost view = { λ s.
        record {
          table = s.macros;
          suffixes = s.suffixes;
          phony = map string_bytes s.phony.items;
          not_parallel = s.not_parallel;
          read = s.lines;
          texts = map string_bytes s.texts.items;
          missing = map string_bytes s.missing.items;
        } };
}

/// All rule lines: the earlier ones, and the one that command lines belong to.
pub(crate) fn with_last(earlier: Vec<Rule>, owner: Owner) -> Result<Vec<Rule>, AllocError>
    ensures { IfOk result (λ all. all.items ≡ earlier.items ++ last_rule (owner_view owner)) }
{
    let mut all = earlier;
    if let Owner::Last(rule) = owner {
        all.push(rule)?;
    }
    Ok(all)
}

impl RuleLines {
    /// No rule lines.
    pub(crate) fn new(alloc: Global) -> RuleLines
        ensures { result ≡ record { earlier = []; owner = Nobody } }
    {
        RuleLines {
            earlier: Vec::new(alloc),
            owner: Owner::Nobody,
            commanded: NameSet::new(alloc),
        }
    }

    /// The same rule lines, where command lines belong to this owner from now on. The owner has no
    /// commands yet.
    pub(crate) fn owned(self, owner: Owner) -> Result<RuleLines, AllocError>
        requires { IsBare (owner_view owner) }
        ensures { IfOk result (λ lines. lines ≡ owned (owner_view owner) self) }
    {
        let RuleLines {
            earlier,
            owner: last,
            commanded,
        } = self;
        Ok(RuleLines {
            earlier: with_last(earlier, last)?,
            owner,
            commanded,
        })
    }
}

impl State {
    /// The state before anything is read.
    pub(crate) fn new(alloc: Global) -> State
        ensures { result ≡ nothing_read }
    {
        State {
            macros: MacroTable::new(alloc),
            suffixes: SuffixList::new(alloc),
            phony: Vec::new(alloc),
            not_parallel: false,
            lines: RuleLines::new(alloc),
            texts: Vec::new(alloc),
            missing: Vec::new(alloc),
        }
    }

    /// Makes command lines belong to this owner from now on. The owner has no commands yet.
    pub(crate) fn own(&mut self, owner: Owner) -> Result<(), AllocError>
        requires { IsBare (owner_view owner) }
        ensures { OnOk result (self.new ≡
            record self.old { read = owned (owner_view owner) self.old.read }) }
    {
        let alloc = *self.texts.allocator();
        let lines = mem::replace(&mut self.lines, RuleLines::new(alloc));
        self.lines = lines.owned(owner)?;
        Ok(())
    }

    /// Whether the greatest number of texts has been read.
    pub(crate) fn is_full(&self) -> bool
        ensures { result ≡ nat_le max_texts (length self.now.texts) }
    {
        self.texts.len() >= MAX_TEXTS
    }

    /// Records that the text of this file is read.
    pub(crate) fn note_text(&mut self, alloc: Global, file: &str) -> Result<(), AllocError>
        ensures { OnOk result (self.new ≡
            record self.old { texts = self.old.texts ++ file.now ∷ [] }) }
    {
        self.texts.push(String::from_str(alloc, file)?)?;
        Ok(())
    }

    /// Records that this file doesn't exist and was skipped.
    pub(crate) fn note_missing(&mut self, file: Name) -> Result<(), AllocError>
        ensures { OnOk result (self.new ≡
            record self.old { missing = self.old.missing ++ file ∷ [] }) }
    {
        self.missing.push(file.into_string())?;
        Ok(())
    }
}
