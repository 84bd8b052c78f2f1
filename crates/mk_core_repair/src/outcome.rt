//! What comes of mending a makefile.

use mk_core::{Fault, Findings, Names};

/// What comes of mending a makefile.
#[derive(Debug, Drop)]
pub enum Repair {
    /// The makefile is right as it is.
    Right,
    /// The makefile with this text appended is right: an empty line, and then the missing lines.
    Mended(Vec<u8>),
    /// Nothing known mends the makefile: its findings, and why.
    Unmended(Findings, Why),
}

/// Why nothing known mends a makefile.
#[derive(Debug, Drop)]
pub enum Why {
    /// A finding gives no word, for this reason. And what comes of the lines of the others.
    Untried(String, Part),
    /// No lines were tried: with them the makefile would be too long.
    TooLong,
    /// Each of these names needs the next one, and the last one is the first. No added line helps.
    Cycle(Names),
    /// These lines were tried last; with them the makefile has these findings, or is refused. And
    /// why no further lines were tried.
    Tried(String, Result<Findings, Fault>, Stop),
}

/// What comes of the lines for those findings that give some, where another one gives none.
#[derive(Debug, Drop)]
pub enum Part {
    /// No finding gives a line.
    NoLines,
    /// These lines, the text that has them at the makefile's end, and the findings that `check` has
    /// with it.
    Taken(String, Vec<u8>, Findings),
    /// With these lines `check` refuses the makefile.
    Refused(String, Fault),
    /// With the lines the makefile would be too long.
    TooLong,
}

/// Why no further lines were tried.
#[derive(Clone, Copy, Debug, Drop)]
pub enum Stop {
    /// None are known.
    NoMore,
    /// The makefile has been judged 64 times.
    Judged,
    /// With further lines the makefile would be too long.
    TooLong,
}
