//! Why a read failed, as far as it is known.

/// What is known of why a file was not read.
#[derive(Clone, Copy, Debug, PartialEq, Eq)]
pub enum Cause {
    /// It is a folder.
    Folder,
    /// There is no permission to read it.
    Permission,
    /// It has more bytes than a file may have.
    TooLarge,
    /// It can be read once only, and was.
    ReadBefore,
    /// Something else, or nothing is known.
    Other,
}
