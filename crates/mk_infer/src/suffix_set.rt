//! The set of known suffixes.

ghost use Rattle.std.specs.Prelude.{◌≡◌, ◌∷◌, ◌++◌, [], map, length, position, ◌≤◌, IfOk, OnOk, if◌then◌else◌};
ghost use Rattle.std.specs.List.{position_or_len};
ghost use Rattle.std.specs.String.{string_bytes};
ghost use Rattle.mk_lines.specs.Bytes.{is_byte};
ghost use Rattle.mk_lines.specs.Names.{HoldsNames};
ghost use Rattle.mk_read.specs.Names.{has_name};
ghost use Rattle.mk_infer.specs.Table.{is_joined};

use indexmap::IndexSet;
use std::alloc::{AllocError, Global};
use std::marker::Model;

/// A set of suffixes. A contract sees a list of them.
#[derive(Drop)]
pub struct SuffixSet<'m> {
    suffixes: IndexSet<&'m [u8]>,
}

impl<'m> Model for SuffixSet<'m> {
    ghost use Rattle.std.specs.Prelude.{List, ℕ, map};

    ghost Value = { List (List ℕ) };

    ghost view = { λ s. map (λ suffix. suffix.now) s.suffixes.keys };
}

/// Returns the place of the first dot.
fn dot_at(bytes: &[u8]) -> Option<usize>
    ensures { result ≡ position (is_byte 46) bytes.now }
{
    bytes.iter().position(|b| *b == b'.')
}

/// Returns the place of the first dot, or the length if there is none.
fn first_dot(bytes: &[u8]) -> usize
    ensures place { result ≡ position_or_len (is_byte 46) bytes.now }
    ensures within { result ≤ length bytes.now }
{
    match dot_at(bytes) {
        Some(at) => at,
        None => bytes.len(),
    }
}

impl<'m> SuffixSet<'m> {
    /// Returns the empty set.
    fn new(alloc: Global) -> SuffixSet<'m>
        ensures { result ≡ [] }
    {
        SuffixSet {
            suffixes: IndexSet::new(alloc),
        }
    }

    /// Adds a suffix, unless it is in the set.
    fn insert(&mut self, suffix: &'m [u8]) -> Result<(), AllocError>
        ensures { OnOk result (self.new ≡
            (if has_name self.old suffix.entry.now then self.old else self.old ++
            suffix.entry.now ∷ [])) }
    {
        self.suffixes.insert(suffix)?;
        Ok(())
    }

    /// Whether the set has this suffix.
    pub fn contains(&self, bytes: &[u8]) -> bool
        ensures { result ≡ has_name self.now bytes.now }
    {
        self.suffixes.contains(bytes)
    }

    /// Whether a name is a suffix of the set, or two of them in a row. The second one begins at the
    /// second dot of the name.
    pub fn is_joined(&self, name: &[u8]) -> bool
        ensures { result ≡ is_joined self.now name.now }
    {
        if self.contains(name) {
            return true;
        }
        let [_, rest @ ..] = name else {
            return false;
        };
        let at = first_dot(rest) + 1;
        self.contains(&name[..at]) && self.contains(&name[at..])
    }
}

/// Makes the set of these suffixes.
pub fn suffixes_among<'m>(alloc: Global, words: &'m [String]) -> Result<SuffixSet<'m>, AllocError>
    ensures { IfOk result (λ set. HoldsNames set (map string_bytes words.now)) }
{
    let mut set = SuffixSet::new(alloc);
    for word in words {
        set.insert(word.as_bytes())?;
    }
    Ok(set)
}
