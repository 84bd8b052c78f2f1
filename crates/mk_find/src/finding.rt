//! Findings: the reasons for a no.

ghost use Rattle.std.specs.Prelude.{◌≡◌, MatchOption};
ghost use Rattle.mk_find.specs.Text.{first_name};

use mk_lines::Name;
use mk_subject::SharedName;
use std::fmt;

/// A finding: one reason for a no, with the names that are printed for it. A name that occurs in
/// many findings is shared among them.
#[derive(Debug, Drop)]
pub enum Finding {
    /// `no record` (1): the recipe has no record.
    NoRecord {
        recipe: Name,
    },
    /// `no commands` (2): its record has other commands.
    OtherCommands {
        recipe: Name,
    },
    /// `no varying` (3): its commands vary from make to make, since they use `$?`.
    VaryingCommands {
        recipe: Name,
    },
    /// `no target` (4): it isn't phony, and by its record it doesn't write its target.
    NoTarget {
        recipe: Name,
    },
    /// `no writers` (5): both recipes write the file; `first` comes first in the serial order.
    TwoWriters {
        first: SharedName,
        second: SharedName,
        file: SharedName,
    },
    /// `no given` (6): it writes a file that is given, phony, or passed over as missing when the
    /// makefile was read.
    GivenWritten {
        recipe: SharedName,
        file: SharedName,
    },
    /// `no own` (7): it reads a file that it writes.
    OwnRead {
        recipe: SharedName,
        file: SharedName,
    },
    /// `no unknown` (8): it reads a file that is neither given nor written by any recipe.
    UnknownRead {
        recipe: SharedName,
        file: SharedName,
    },
    /// `no loose` (9): the name has no recipe, and `writer`, which writes its file, isn't one of
    /// its direct prerequisites.
    Loose {
        name: SharedName,
        writer: SharedName,
    },
    /// `no race` (10): it reads a file that `writer` writes, and `writer` doesn't always run before
    /// it.
    Race {
        recipe: SharedName,
        writer: SharedName,
        file: SharedName,
    },
    /// `no stale` (11): it reads a file that can change, and nothing makes it run when the file
    /// does.
    Stale {
        recipe: SharedName,
        file: SharedName,
    },
    /// `no selection` (12): once recipes have written their files, `chosen` becomes the inferred
    /// prerequisite of the name.
    Selection {
        name: SharedName,
        chosen: SharedName,
    },
}

impl Finding {
    /// The first of its names, if that is a shared one that the next finding may reuse.
    pub(crate) fn about(&self) -> Option<&SharedName>
        ensures { MatchOption result (Unit {0}) (λ name. name.now ≡ first_name self.now) }
    {
        match self {
            Finding::TwoWriters { first, .. } => Some(first),
            Finding::GivenWritten { recipe, .. } => Some(recipe),
            Finding::OwnRead { recipe, .. } => Some(recipe),
            Finding::UnknownRead { recipe, .. } => Some(recipe),
            Finding::Race { recipe, .. } => Some(recipe),
            Finding::Stale { recipe, .. } => Some(recipe),
            _ => None,
        }
    }
}

impl fmt::Display for Finding {
    ghost use Rattle.std.specs.Prelude.{Some};
    ghost use Rattle.mk_find.specs.Text.{text};

    ghost output = { λ found. Some (text found) };

    /// A word for the kind of finding and the names, with spaces between.
    fn fmt<W: fmt::Write>(&self, f: &mut fmt::Formatter<W>) -> fmt::Result {
        match self {
            Finding::NoRecord { recipe } => write!(f, "record {recipe}"),
            Finding::OtherCommands { recipe } => write!(f, "commands {recipe}"),
            Finding::VaryingCommands { recipe } => write!(f, "varying {recipe}"),
            Finding::NoTarget { recipe } => write!(f, "target {recipe}"),
            Finding::TwoWriters {
                first,
                second,
                file,
            } => write!(f, "writers {first} {second} {file}"),
            Finding::GivenWritten { recipe, file } => write!(f, "given {recipe} {file}"),
            Finding::OwnRead { recipe, file } => write!(f, "own {recipe} {file}"),
            Finding::UnknownRead { recipe, file } => write!(f, "unknown {recipe} {file}"),
            Finding::Loose { name, writer } => write!(f, "loose {name} {writer}"),
            Finding::Race {
                recipe,
                writer,
                file,
            } => write!(f, "race {recipe} {writer} {file}"),
            Finding::Stale { recipe, file } => write!(f, "stale {recipe} {file}"),
            Finding::Selection { name, chosen } => write!(f, "selection {name} {chosen}"),
        }
    }
}
