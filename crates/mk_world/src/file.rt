//! The files of a world.

use mk_lines::Name;

/// A file: its content, as a number, and the stamp of its last write.
#[derive(Clone, Copy, Debug, Drop)]
pub struct File {
    /// The content.
    pub content: u64,
    /// The stamp of its last write. A greater stamp is later.
    pub stamp: u64,
}

/// A file with its name.
#[derive(Debug, Drop)]
pub struct Listed {
    /// Its name.
    pub name: Name,
    /// The content.
    pub content: u64,
    /// The stamp of its last write.
    pub stamp: u64,
}
