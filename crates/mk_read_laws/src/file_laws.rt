//! The law of which files a makefile depends on.

ghost use Rattle.mk_read_laws.specs.NamedFiles.{OnlyNamedFilesCount};

/// A makefile depends only on the files that it names: a second reader gives the same makefile if
/// it agrees with the first on each text that was read and on each missing file that was skipped,
/// and none of these reads fails.
pub fn only_named_files_count()
    ensures { OnlyNamedFilesCount }
{}
