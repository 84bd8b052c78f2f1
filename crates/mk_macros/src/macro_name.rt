//! Names of macros.

ghost use Rattle.std.specs.Prelude.{◌≡◌, IfOk};
ghost use Rattle.std.specs.List.{list_all};
ghost use Rattle.mk_macros.specs.Names.{is_name_byte, is_macro_name};

use std::alloc::{AllocError, Global};
use std::marker::Model;

/// The name of a macro, seen by contracts as its bytes.
#[derive(Debug, Drop)]
pub struct MacroName {
    bytes: Vec<u8>,
}

impl Model for MacroName {
    ghost use Rattle.std.specs.Prelude.{List, ℕ};

    ghost Value = { List ℕ };

    ghost view = { λ n. n.bytes.items };
}

impl MacroName {
    /// A name with a copy of the bytes. The only error is out of memory.
    pub fn new(alloc: Global, bytes: &[u8]) -> Result<MacroName, AllocError>
        ensures { IfOk result (λ name. name ≡ bytes.now) }
    {
        Ok(MacroName {
            bytes: Vec::from_slice(alloc, bytes)?,
        })
    }

    /// The bytes of the name.
    pub fn as_bytes(&self) -> &[u8]
        ensures { result.now ≡ self.now }
    {
        self.bytes.as_slice()
    }
}

/// Whether bytes are a macro name: one or more of `A-Z a-z 0-9 . _ -`.
pub fn is_macro_name(name: &[u8]) -> bool
    ensures { result ≡ is_macro_name name.now }
{
    !name.is_empty() && has_name_bytes(name)
}

/// Whether all bytes may be part of a macro name.
fn has_name_bytes(name: &[u8]) -> bool
    ensures { result ≡ list_all is_name_byte name.now }
{
    name.iter().all(|b| is_name_byte(*b))
}

/// Whether a byte may be part of a macro name.
pub fn is_name_byte(byte: u8) -> bool
    ensures { result ≡ is_name_byte byte }
{
    byte.is_ascii_uppercase()
        || byte.is_ascii_lowercase()
        || byte.is_ascii_digit()
        || byte == b'.'
        || byte == b'_'
        || byte == b'-'
}
