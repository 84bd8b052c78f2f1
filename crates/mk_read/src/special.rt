//! Special targets.

/// The special targets, by what they do.
#[derive(Debug, Clone, Copy, PartialEq, Eq)]
pub enum Special {
    /// `.SUFFIXES`: its prerequisites are added to the list of suffixes; without any the list is
    /// cleared.
    Suffixes,
    /// `.PHONY`: its prerequisites are phony, that is, no files.
    Phony,
    /// `.NOTPARALLEL`: nothing is made in parallel. It has no prerequisites.
    NotParallel,
    /// `.POSIX` and `.WAIT` as targets: no effect, and no prerequisites.
    Wordless,
    /// `.IGNORE`, `.SILENT` and `.PRECIOUS`: no effect, and any prerequisites.
    Unread,
}
