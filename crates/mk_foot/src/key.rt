//! Keys of footprint files.

ghost use Rattle.std.specs.Prelude.{◌≡◌};
ghost use Rattle.mk_foot.specs.Keys.{spelling};

use std::fmt;

/// A key of a footprint file, or a word that a fault shows in place of one.
#[derive(Clone, Copy, Debug, Drop, PartialEq, Eq)]
pub enum Key {
    /// The whole value, which must be an object.
    Top,
    /// The number of the format, 1 or 2.
    Format,
    /// Prefixes of the names of files that never change.
    Fixed,
    /// Files that exist before a build.
    Sources,
    /// The records.
    Records,
    /// The target of a record.
    Target,
    /// The commands of a record.
    Commands,
    /// The files that a recipe reads.
    Reads,
    /// The files that a recipe writes.
    Writes,
    /// The names of the shared lists that a recipe reads too.
    Shared,
    /// The lists of files that records share.
    Lists,
    /// The groups of records, each for some goals.
    Groups,
    /// The goals of a group.
    Goals,
    /// A key that is none of these, or that doesn't belong where it stands.
    Unknown,
}

impl Key {
    /// Returns the key as a footprint file and a fault spell it.
    pub fn as_str(self) -> &'static str
        ensures { result.now ≡ spelling self }
    {
        match self {
            Key::Top => "top",
            Key::Format => "format",
            Key::Fixed => "fixed",
            Key::Sources => "sources",
            Key::Records => "records",
            Key::Target => "target",
            Key::Commands => "commands",
            Key::Reads => "reads",
            Key::Writes => "writes",
            Key::Shared => "shared",
            Key::Lists => "lists",
            Key::Groups => "groups",
            Key::Goals => "goals",
            Key::Unknown => "unknown",
        }
    }
}

impl fmt::Display for Key {
    ghost use Rattle.std.specs.Prelude.{Some};
    ghost use Rattle.mk_foot.specs.Keys.{spelling};

    ghost output = { λ k. Some (spelling k) };

    fn fmt<W: fmt::Write>(&self, f: &mut fmt::Formatter<W>) -> fmt::Result {
        f.write_str(self.as_str())
    }
}
