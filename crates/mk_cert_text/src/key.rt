//! Keys of certificates.

ghost use Rattle.std.specs.Prelude.{◌≡◌};
ghost use Rattle.mk_cert_text.specs.Keys.{spelling};

use std::fmt;

/// A key of a certificate, or a word that a fault shows in place of one.
#[derive(Clone, Copy, Debug, Drop, PartialEq, Eq)]
pub enum Key {
    /// The whole value, which must be an object.
    Top,
    /// The number of the format, 1.
    Format,
    /// The goals that were checked.
    Goals,
    /// The ways, or one of them, which must be an object.
    Ways,
    /// How a way ends.
    End,
    /// The file of a way.
    File,
    /// The recipes of a way.
    Path,
    /// The recipe that reads the file of a way.
    Recipe,
    /// A key that is none of these, or that doesn't belong where it stands.
    Unknown,
}

impl Key {
    /// Returns the key as a certificate and a fault spell it.
    pub fn as_str(self) -> &'static str
        ensures { result.now ≡ spelling self }
    {
        match self {
            Key::Top => "top",
            Key::Format => "format",
            Key::Goals => "goals",
            Key::Ways => "ways",
            Key::End => "end",
            Key::File => "file",
            Key::Path => "path",
            Key::Recipe => "recipe",
            Key::Unknown => "unknown",
        }
    }
}

impl fmt::Display for Key {
    ghost use Rattle.std.specs.Prelude.{Some};
    ghost use Rattle.mk_cert_text.specs.Keys.{spelling};

    ghost output = { λ k. Some (spelling k) };

    fn fmt<W: fmt::Write>(&self, f: &mut fmt::Formatter<W>) -> fmt::Result {
        f.write_str(self.as_str())
    }
}
