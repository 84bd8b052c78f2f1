//! The macros whose values are being expanded.

ghost use Rattle.std.specs.Prelude.{◌≡◌};
ghost use Rattle.mk_lines.specs.Names.{has_name};
ghost use Rattle.mk_macros.specs.Appending.{names_in};

/// The names of the macros whose values are being expanded, the innermost first.
#[derive(Clone, Copy)]
pub enum Going<'a> {
    /// No macro.
    Nothing,
    /// The innermost name, and the others.
    Under(&'a [u8], &'a Going<'a>),
}

impl<'a> Going<'a> {
    /// Whether the value of a macro with this name is being expanded.
    pub fn has(&self, name: &[u8]) -> bool
        ensures { result ≡ has_name (names_in self.now) name.now }
    {
        match self {
            Going::Nothing => false,
            Going::Under(other, others) => name == *other || others.has(name),
        }
    }
}
