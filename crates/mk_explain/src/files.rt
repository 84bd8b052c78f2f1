//! The texts of faults of files.

ghost use Rattle.std.specs.Prelude.{◌≡◌};
ghost use Rattle.std.specs.Option.{option_map};
ghost use Rattle.mk_explain.specs.Texts.{files_text};

/// `IncludeMissing` (32).
pub const INCLUDE_MISSING: &str = "\
`refused 32 FILE:LINE NAME`: the file NAME of an `include` line doesn't exist.
Names are relative to the folder in which mkcheck was started.

    include rules.mk

Give its right name, or write `-include` if the file may be missing.
";

/// `IncludeDepth` (33).
pub const INCLUDE_DEPTH: &str = "\
`refused 33 FILE:LINE`: an include line is at level 16, where those of the
makefile are at level 0. A file that includes itself ends in this.

    include self.mk

Write fewer levels.
";

/// `IncludeEmpty` (34).
pub const INCLUDE_EMPTY: &str = "\
`refused 34 FILE:LINE`: an include line has no names after its macros are
expanded.

    include $(NONE)

Remove the line, or give the macro a value.
";

/// `ReadFailed` (35).
pub const READ_FAILED: &str = "\
`refused 35 FILE:LINE NAME`: the file NAME of an include line can't be read:
it is a folder, its path goes through a file, there is no permission to read
it, or it is over 16,777,216 bytes. For the makefile, and for footprints,
certificate and plan (`FileReadFailed`), the words are NAME alone.

    include folder

Give a file that can be read.
";

/// `TooManyFiles` (36).
pub const TOO_MANY_FILES: &str = "\
`refused 36 FILE:LINE`: the 1,025th text would be read. The makefile counts,
and a file counts as often as it is included.

Put the makefile into fewer and longer files.
";

/// `NoMakefile` (37).
pub const NO_MAKEFILE: &str = "\
`refused 37`: there is neither `makefile` nor `Makefile`. With `-f`,
`refused 37 NAME`: the file NAME doesn't exist.

    $ mkcheck graph -f none.mk
    refused 37 none.mk

Give the right name, and start mkcheck in the right folder.
";

/// `NoFile` (38).
pub const NO_FILE: &str = "\
`refused 38 NAME`: the footprint file, the certificate or the plan doesn't
exist.

    $ mkcheck check -b none
    refused 38 none

Give the right name and folder. `mkcheck-record -o NAME` writes footprints,
and `mkcheck check -c` prints a certificate.
";

/// The text of the fault with this number, if it is one of these.
#[tactic(auto, unfolding(crate::specs::Texts::files_text))]
pub fn files_text(number: u32) -> Option<&'static str>
    ensures { option_map (λ text. text.now) result ≡ files_text number }
{
    match number {
        32 => Some(INCLUDE_MISSING),
        33 => Some(INCLUDE_DEPTH),
        34 => Some(INCLUDE_EMPTY),
        35 => Some(READ_FAILED),
        36 => Some(TOO_MANY_FILES),
        37 => Some(NO_MAKEFILE),
        38 => Some(NO_FILE),
        _ => None,
    }
}
