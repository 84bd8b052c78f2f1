//! A read, as the checks of reads take it.

ghost use Rattle.std.specs.Prelude.{◌≡◌};

use mk_subject::{NodeRow, Subject, Target};

/// A read of the subject: a recipe, and a file that its record lists as read. `IsRead` says that
/// the parts belong together.
#[derive(Drop)]
pub struct FileRead<'s, 'e> {
    /// What is judged.
    pub subject: &'s Subject<'s>,
    /// The node whose recipe reads the file.
    pub row: &'e NodeRow<'e>,
    /// The file.
    pub file: Target<'s>,
}

impl<'s, 'e> FileRead<'s, 'e> {
    /// The name of the file.
    pub fn name(&self) -> &'s str
        ensures { result.now ≡ self.now.file.file }
    {
        let file = &self.file;
        file.file
    }
}
