//! The contents of a makefile that has been read.

ghost use Rattle.std.specs.Prelude.{◌≡◌, true, map};
ghost use Rattle.std.specs.List.{list_all};
ghost use Rattle.std.specs.String.{string_bytes};
ghost use Rattle.mk_read.specs.Special.{is_suffix};

use crate::fault::Place;
use crate::suffix_list::SuffixList;
use mk_macros::MacroTable;
use std::marker::Model;

/// A command before its expansion, seen by contracts as its bytes and its place.
#[derive(Debug, Drop)]
pub struct Command {
    /// The text, without its leading blanks.
    pub text: Vec<u8>,
    /// Where the command stands.
    pub place: Place,
}

impl Model for Command {
    ghost use Rattle.mk_read.specs.State as value;

    ghost Value = { value.Command };

    ghost view = { λ c. record { text = c.text.items; place = c.place } };
}

/// A rule line that is no special target's, seen by contracts as lists.
#[derive(Debug, Drop)]
pub struct Rule {
    /// Its targets.
    pub targets: Vec<String>,
    /// Its prerequisites, `.WAIT` included.
    pub words: Vec<String>,
    /// Its commands, or `None` where it has neither a `;` nor a command line. A `;` without a text
    /// after it counts, but adds no command.
    pub commands: Option<Vec<Command>>,
    /// Where the rule line stands.
    pub place: Place,
    /// Whether the rule line is from the default text.
    pub default: bool,
}

impl Model for Rule {
    ghost use Rattle.std.specs.Prelude.{map};
    ghost use Rattle.std.specs.Option.{option_map};
    ghost use Rattle.std.specs.String.{string_bytes};
    ghost use Rattle.mk_read.specs.State as value;

    ghost Value = { value.RuleRead };

    ghost view = { λ r.
        record {
          targets = map string_bytes r.targets.items;
          words = map string_bytes r.words.items;
          commands = option_map (λ commands. commands.items) r.commands;
          place = r.place;
          default = r.default;
        } };
}

/// The contents of a makefile that has been read, seen by contracts as lists.
#[derive(Drop)]
pub struct Makefile {
    rules: Vec<Rule>,
    suffixes: SuffixList,
    phony: Vec<String>,
    not_parallel: bool,
    macros: MacroTable,
    texts: Vec<String>,
    passed_over: Vec<String>,
}

impl Model for Makefile {
    ghost use Rattle.std.specs.Prelude.{map};
    ghost use Rattle.std.specs.String.{string_bytes};
    ghost use Rattle.mk_read.specs.Reading as value;

    ghost Value = { value.Makefile };

    ghost view = { λ m.
        record {
          rules = m.rules.items;
          suffixes = m.suffixes;
          phony = map string_bytes m.phony.items;
          not_parallel = m.not_parallel;
          macros = m.macros;
          texts = map string_bytes m.texts.items;
          passed_over = map string_bytes m.passed_over.items;
        } };
}

/// What the special targets of a makefile say.
#[derive(Drop)]
pub struct SpecialTargets {
    /// The known suffixes, in order.
    pub suffixes: SuffixList,
    /// The prerequisites of `.PHONY`, in order, repetitions kept.
    pub phony: Vec<String>,
    /// Whether `.NOTPARALLEL` is a target.
    pub not_parallel: bool,
}

impl Makefile {
    /// The makefile with these contents.
    pub fn new(
        rules: Vec<Rule>,
        special: SpecialTargets,
        macros: MacroTable,
        texts: Vec<String>,
        passed_over: Vec<String>,
    ) -> Makefile
        ensures { result ≡
            record {
              rules = rules.items;
              suffixes = special.suffixes;
              phony = map string_bytes special.phony.items;
              not_parallel = special.not_parallel;
              macros = macros;
              texts = map string_bytes texts.items;
              passed_over = map string_bytes passed_over.items;
            } }
    {
        let SpecialTargets {
            suffixes,
            phony,
            not_parallel,
        } = special;
        Makefile {
            rules,
            suffixes,
            phony,
            not_parallel,
            macros,
            texts,
            passed_over,
        }
    }

    /// The rule lines, in order, without those of special targets. A rule line of the default text
    /// is among them only where one of its targets is an inference name.
    pub fn rules(&self) -> &[Rule]
        ensures { result.now ≡ self.now.rules }
    {
        self.rules.as_slice()
    }

    /// The known suffixes, in order.
    pub fn suffixes(&self) -> &[String]
        ensures exact { map string_bytes result.now ≡ self.now.suffixes }
        ensures suffixes { list_all is_suffix self.now.suffixes ≡ true }
    {
        self.suffixes.as_slice()
    }

    /// The prerequisites of `.PHONY`, in order, repetitions kept.
    pub fn phony(&self) -> &[String]
        ensures { map string_bytes result.now ≡ self.now.phony }
    {
        self.phony.as_slice()
    }

    /// Whether `.NOTPARALLEL` is a target.
    pub fn not_parallel(&self) -> bool
        ensures { result ≡ self.now.not_parallel }
    {
        self.not_parallel
    }

    /// The macros as they are when all has been read.
    pub fn macros(&self) -> &MacroTable
        ensures { result.now ≡ self.now.macros }
    {
        &self.macros
    }

    /// The names of the texts that were read, in order, each as often as it was read. The default
    /// text isn't among them.
    pub fn texts(&self) -> &[String]
        ensures { map string_bytes result.now ≡ self.now.texts }
    {
        self.texts.as_slice()
    }

    /// The names of missing files that were skipped: those of `-include` lines, and `makefile`
    /// where `Makefile` was read.
    pub fn passed_over(&self) -> &[String]
        ensures { map string_bytes result.now ≡ self.now.passed_over }
    {
        self.passed_over.as_slice()
    }
}
