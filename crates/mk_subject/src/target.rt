//! A file with what is looked up for it.

ghost use Rattle.std.specs.Prelude.{◌≡◌, true, ◌↔◌};
ghost use Rattle.mk_build.specs.Ways.{CanChange};
ghost use Rattle.mk_subject.specs.Subject.{footprints};
ghost use Rattle.mk_subject.specs.Target.{target_of};

use crate::file_info::FileInfo;
use crate::subject::Subject;
use std::marker::Model;

/// A file with what is looked up for it. Its model is the name and the `FileInfo`.
#[derive(Drop)]
pub struct Target<'a> {
    /// Its name.
    pub file: &'a str,
    /// Its index in the table of files.
    pub place: usize,
    /// What is looked up for it.
    pub known: &'a FileInfo,
}

impl<'a> Model for Target<'a> {
    ghost use Rattle.mk_subject.specs.Target as value;

    ghost Value = { value.Target };

    ghost view = { λ t. record { file = t.file.now; known = t.known.now } };
}

impl<'a> Target<'a> {
    /// The numbers of the nodes that write the file, in the serial order.
    pub fn writers(&self) -> &'a [usize]
        ensures { result.now ≡ self.now.known.writers }
    {
        let known = self.known;
        known.writers.as_slice()
    }

    /// Whether the file can change: it is editable or not given.
    pub fn can_change(&self, subject: &Subject<'_>) -> bool
        requires { self.now ≡ target_of subject.now self.now.file }
        ensures { (result ≡ true) ↔ CanChange (footprints subject.now.setting) self.now.file }
    {
        let known = self.known;
        known.editable || !known.given
    }
}
