//! Words of a makefile.

ghost use Rattle.std.specs.Prelude.{◌≡◌, IfOk};
ghost use Rattle.std.specs.List.{list_any};
ghost use Rattle.mk_read.specs.Names.{is_reserved};

use std::alloc::{AllocError, Global};
use std::marker::Model;

/// A word of a makefile, seen by contracts as its bytes.
#[derive(Debug, Drop)]
pub struct Word {
    bytes: Vec<u8>,
}

impl Model for Word {
    ghost use Rattle.std.specs.Prelude.{List, ℕ};

    ghost Value = { List ℕ };

    ghost view = { λ w. w.bytes.items };
}

impl Word {
    /// A word with a copy of the bytes. The only error is out of memory.
    pub fn new(alloc: Global, bytes: &[u8]) -> Result<Word, AllocError>
        ensures { IfOk result (λ word. word ≡ bytes.now) }
    {
        Ok(Word {
            bytes: Vec::from_slice(alloc, bytes)?,
        })
    }

    /// The bytes of the word.
    pub fn as_bytes(&self) -> &[u8]
        ensures { result.now ≡ self.now }
    {
        self.bytes.as_slice()
    }
}

/// Whether a word has a byte that a plain path may have, but a name of a makefile may not.
pub fn has_reserved(word: &[u8]) -> bool
    ensures { result ≡ list_any is_reserved word.now }
{
    word.iter().any(|b| is_reserved(*b))
}

fn is_reserved(byte: u8) -> bool
    ensures { result ≡ is_reserved byte }
{
    matches!(
        byte,
        b'%' | b'*'
            | b'?'
            | b'['
            | b']'
            | b':'
            | b';'
            | b'='
            | b'#'
            | b'$'
            | b'\\'
            | b'"'
            | b'\''
            | b'`'
            | b'|'
            | b'&'
            | b'<'
            | b'>'
            | b'('
            | b')'
    )
}
