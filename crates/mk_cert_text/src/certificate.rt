//! Certificates and their ways.

ghost use Rattle.std.specs.Prelude.{◌≡◌};
ghost use Rattle.mk_cert_text.specs.Words.{finish_word};

use crate::packed_names::PackedNames;
use crate::path::Path;
use crate::ways::Ways;
use std::fmt;
use std::marker::Model;

/// How a way ends at its last recipe.
#[derive(Clone, Copy, Debug, Drop, PartialEq, Eq)]
pub enum Finish {
    /// The last recipe writes the file, and isn't the first one.
    Written,
    /// The file is editable, and a direct prerequisite of the last recipe.
    Source,
    /// The last recipe runs in each make: it is phony, or has a phony direct prerequisite.
    Always,
}

impl Finish {
    /// Returns the word for the end, as certificates and printed ways have it.
    pub fn as_str(self) -> &'static str
        ensures { result.now ≡ finish_word self }
    {
        match self {
            Finish::Written => "written",
            Finish::Source => "source",
            Finish::Always => "always",
        }
    }
}

impl fmt::Display for Finish {
    ghost use Rattle.std.specs.Prelude.{Some};
    ghost use Rattle.mk_cert_text.specs.Words.{finish_word};

    ghost output = { λ f. Some (finish_word f) };

    fn fmt<W: fmt::Write>(&self, f: &mut fmt::Formatter<W>) -> fmt::Result {
        f.write_str(self.as_str())
    }
}

/// How a change of a file reaches a recipe that reads it. It borrows from a list of ways. A
/// contract sees lists of bytes.
#[derive(Debug, Drop)]
pub struct Way<'a> {
    /// The recipe that reads the file.
    pub recipe: &'a str,
    /// The file.
    pub file: &'a str,
    /// The recipes of the way, from `recipe` on; each carries the next one.
    pub path: Path<'a>,
    /// How the way ends at the last of these recipes.
    pub finish: Finish,
}

impl<'a> Model for Way<'a> {
    ghost use Rattle.mk_cert_text.specs.Certificate as value;

    ghost Value = { value.Way };

    ghost view = { λ w.
        record {
          recipe = w.recipe.now;
          file = w.file.now;
          path = w.path;
          finish = w.finish;
        } };
}

/// The goals that were checked, and a way for each read of a file that can change. A contract sees
/// lists.
#[derive(Debug, Drop)]
pub struct Certificate {
    /// The goals, each once.
    pub goals: PackedNames,
    /// The ways.
    pub ways: Ways,
}

impl Model for Certificate {
    ghost use Rattle.mk_cert_text.specs.Certificate as value;

    ghost Value = { value.Certificate };

    ghost view = { λ c.
        record {
          goals = c.goals;
          ways = c.ways;
        } };
}
