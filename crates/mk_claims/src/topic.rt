//! What groups of findings are about.

ghost use Rattle.std.specs.Prelude.{◌≡◌};
ghost use Rattle.mk_claims.specs.Topics.{kind_word};

/// The kinds of groups: those of findings. Races, stale reads, and both together have two kinds
/// each, since the prerequisite that is missing may be the file or the recipe that writes it.
#[derive(Clone, Copy, PartialEq, Eq, Hash)]
pub enum Kind {
    /// Recipes without a record.
    NoRecord,
    /// Recipes that were recorded with other commands.
    OtherCommands,
    /// Recipes whose commands use `$?`.
    VaryingCommands,
    /// Recipes that don't write their targets.
    NoTarget,
    /// Files that the same two recipes write.
    TwoWriters,
    /// Recipes that write files from which a make starts.
    GivenWritten,
    /// Recipes that read files which they write themselves.
    OwnRead,
    /// Recipes that read files of unknown origin.
    UnknownRead,
    /// The same; the files have recipes without records.
    UnrecordedRead,
    /// Recipes that read files which a recipe makes that the goals don't reach.
    UnreachedRead,
    /// Names without a recipe that don't wait for the recipe that writes their file.
    Loose,
    /// The same; the recipe that writes a file has it as a prerequisite.
    OwnPrerequisite,
    /// Recipes that may begin before a file is written that they read.
    Race,
    /// The same; what is missing is the recipe that writes the file.
    OutputRace,
    /// Recipes that don't run again when a file changes that they read.
    Stale,
    /// The same; what is missing is the recipe that writes the file.
    OutputStale,
    /// Recipes that may begin before a file is written that they read, and that don't run again
    /// when it changes.
    RaceAndStale,
    /// The same; what is missing is the recipe that writes the file.
    OutputRaceAndStale,
    /// A name that an inference rule makes from another file once recipes have run.
    Selection,
}

/// What the findings of a group have in common.
#[derive(Clone, Copy, PartialEq, Eq, Hash)]
pub struct Topic<'a> {
    pub kind: Kind,
    /// Whether a line of the makefile mends them.
    pub has_line: bool,
    /// The recipe that writes the files, the first of two writers or of two targets that may make
    /// the files, or the name that is made from another file; else empty.
    pub first: &'a str,
    /// The second of two writers or of two such targets, or the other file; else empty.
    pub second: &'a str,
    /// The names along the cycle that a line would close, each after a space; empty where none
    /// would.
    pub cycle: &'a str,
}

/// The word that is printed for findings of a kind.
pub fn kind_word(kind: Kind) -> &'static str
    ensures { result.now ≡ kind_word kind }
{
    match kind {
        Kind::NoRecord => "record",
        Kind::OtherCommands => "commands",
        Kind::VaryingCommands => "varying",
        Kind::NoTarget => "target",
        Kind::TwoWriters => "writers",
        Kind::GivenWritten => "given",
        Kind::OwnRead => "own",
        Kind::UnknownRead => "unknown",
        Kind::UnrecordedRead => "unknown",
        Kind::UnreachedRead => "unknown",
        Kind::Loose => "loose",
        Kind::OwnPrerequisite => "loose",
        Kind::Race => "race",
        Kind::OutputRace => "race",
        Kind::Stale => "stale",
        Kind::OutputStale => "stale",
        Kind::RaceAndStale => "race, stale",
        Kind::OutputRaceAndStale => "race, stale",
        Kind::Selection => "selection",
    }
}
