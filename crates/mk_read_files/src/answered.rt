//! What a reader of files has answered, for proofs alone: it takes no memory, and its methods do
//! nothing at run time.

ghost use Rattle.std.specs.Borrow.{ftrue};
ghost use Rattle.mk_read_files.specs.Answers.{Answers};

use crate::files::FilesError;
use std::marker::Model;

/// What a reader has answered.
#[derive(Drop)]
pub struct Answered {
    pub ghost given: { Answers },
}

impl Model for Answered {
    ghost also_owns = { λ _. ftrue };
}

/// One answer of a reader: the name that was asked for, and what the read gave.
#[derive(Drop)]
pub struct Answer<'a> {
    /// The name of the file.
    pub name: &'a str,
    /// Its text, that it doesn't exist, or why it was not read.
    pub result: &'a Result<Option<Vec<u8>>, FilesError>,
}

impl Answered {
    ghost use Rattle.std.specs.Prelude.{◌≡◌};
    ghost use Rattle.mk_read_files.specs.Answers.{no_answers};
    ghost use Rattle.mk_read_files.specs.Noted.{noted};

    /// No answers.
    pub fn new() -> Answered
        ensures { result.given ≡ no_answers }
    {
        Answered {}
    }

    /// These answers, and one more.
    #[inline(always)]
    pub fn with(&self, _answer: &Answer<'_>) -> Answered
        ensures { result.given ≡ noted self.now.given _answer.now }
    {
        Answered {}
    }
}
