//! Lists of words without repetition.

ghost use Rattle.std.specs.Prelude.{◌≡◌, [], length, fold, map, not, nat_lt, IfOk, OnOk, OnErr};
ghost use Rattle.std.specs.Rc.{rc_str_bytes};
ghost use Rattle.mk_repair.specs.Word.{has_word, with_word};
ghost use Rattle.mk_repair.specs.Words.{word_view, stored_view};

use crate::word::{StoredWord, Word};
use indexmap::IndexSet;
use std::alloc::{AllocError, Global};
use std::marker::Model;
use std::rc::RcStr;

/// Words without repetition, in the order in which they came, seen by contracts as their list.
/// Words share the names that they have in common.
#[derive(Drop)]
pub struct Words {
    names: IndexSet<RcStr>,
    words: IndexSet<StoredWord>,
}

impl Model for Words {
    ghost use Rattle.std.specs.Prelude.{List, map};
    ghost use Rattle.mk_repair.specs.Word.{Word};

    ghost Value = { List Word };

    ghost use Rattle.mk_repair.specs.Words.{stored_view};

    ghost view = { λ w. map stored_view w.words.keys };
}

/// The name in the set with this text, which is added where it isn't there. The only error is out
/// of memory.
fn shared_name(alloc: Global, names: &mut IndexSet<RcStr>, text: &str) -> Result<RcStr, AllocError>
    ensures { IfOk result (λ name. rc_str_bytes name ≡ text.now) }
{
    if let Some(name) = names.get(text) {
        return name.clone();
    }
    let name = RcStr::from_str(alloc, text)?;
    names.insert(name.clone()?)?;
    Ok(name)
}

/// A copy of the word with names of the set. The only error is out of memory.
fn stored_word(
    alloc: Global,
    names: &mut IndexSet<RcStr>,
    word: Word<'_>,
) -> Result<StoredWord, AllocError>
    ensures { IfOk result (λ stored. stored_view stored ≡ word_view word.entry) }
{
    match word {
        Word::Needs {
            target,
            prerequisite,
        } => Ok(StoredWord::Needs {
            target: shared_name(alloc, names, target)?,
            prerequisite: shared_name(alloc, names, prerequisite)?,
        }),
        Word::Phony { target } => Ok(StoredWord::Phony {
            target: shared_name(alloc, names, target)?,
        }),
    }
}

impl Words {
    /// No words.
    pub fn new(alloc: Global) -> Words
        ensures { result ≡ [] }
    {
        Words {
            names: IndexSet::new(alloc),
            words: IndexSet::new(alloc),
        }
    }

    /// How many words there are.
    pub fn len(&self) -> usize
        ensures { result ≡ length self.now }
    {
        self.words.len()
    }

    /// Adds a word at the end, unless it is there already. Returns whether it was new. The only
    /// error is out of memory; the words are then unchanged.
    pub fn insert(&mut self, alloc: Global, word: Word<'_>) -> Result<bool, AllocError>
        ensures new { IfOk result (λ added. added ≡
            not (has_word self.old (word_view word.entry))) }
        ensures ok { OnOk result (self.new ≡ with_word self.old (word_view word.entry)) }
        ensures err { OnErr result (self.new ≡ self.old) }
    {
        let word = stored_word(alloc, &mut self.names, word)?;
        Ok(self.words.insert(word)?)
    }

    /// Adds each of the other words in turn. Returns whether one of them was new. The only error is
    /// out of memory; some words may then have been added.
    pub fn add_all(&mut self, alloc: Global, more: &Words) -> Result<bool, AllocError>
        ensures new { IfOk result (λ added. added ≡
            nat_lt (length self.old) (length self.new)) }
        ensures ok { OnOk result (self.new ≡ fold with_word self.old more.now) }
    {
        let before = self.len();
        for word in more.as_slice() {
            self.insert(alloc, word.as_word())?;
        }
        Ok(before < self.len())
    }

    /// The words, in order.
    pub(crate) fn as_slice(&self) -> &[StoredWord]
        ensures { map stored_view result.now ≡ self.now }
    {
        self.words.as_slice()
    }
}
