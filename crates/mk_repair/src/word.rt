//! Words: what a makefile lacks.

ghost use Rattle.std.specs.Prelude.{◌≡◌};
ghost use Rattle.mk_repair.specs.Words.{word_view, stored_view};

use std::rc::RcStr;

/// What a makefile lacks, with borrowed names.
#[derive(Debug, Clone, Copy)]
pub enum Word<'a> {
    /// The target needs the prerequisite.
    Needs {
        target: &'a str,
        prerequisite: &'a str,
    },
    /// The target is phony.
    Phony {
        target: &'a str,
    },
}

/// A word whose names are shared.
#[derive(Debug, Clone, PartialEq, Eq, Hash, Drop)]
pub enum StoredWord {
    Needs { target: RcStr, prerequisite: RcStr },
    Phony { target: RcStr },
}

impl StoredWord {
    /// The word with borrowed names.
    pub fn as_word(&self) -> Word<'_>
        ensures { word_view result ≡ stored_view self.now }
    {
        match self {
            StoredWord::Needs {
                target,
                prerequisite,
            } => Word::Needs {
                target: target.as_str(),
                prerequisite: prerequisite.as_str(),
            },
            StoredWord::Phony { target } => Word::Phony {
                target: target.as_str(),
            },
        }
    }
}
