//! Requests.

ghost use Rattle.std.specs.Prelude.{◌≡◌, map, IfOk};
ghost use Rattle.mk_core.specs.Words.{is_operand, operands_of, goals_of};

use mk_lines::{Name, Names};
use std::alloc::{AllocError, Global};
use std::marker::Model;

/// Macro operands, as bytes. Its model is a list of byte lists.
#[derive(Debug, Drop)]
pub struct Operands {
    words: Vec<Vec<u8>>,
}

impl Model for Operands {
    ghost use Rattle.std.specs.Prelude.{List, ℕ, map};

    ghost Value = { List (List ℕ) };

    ghost view = { λ o. map (λ word. word.items) o.words.items };
}

impl Operands {
    /// These operands, in their order.
    pub fn new(words: Vec<Vec<u8>>) -> Operands
        ensures { result ≡ map (λ word. word.items) words.items }
    {
        Operands { words }
    }

    /// The operands as a slice.
    pub fn as_slice(&self) -> &[Vec<u8>]
        ensures { map (λ word. word.items) result.now ≡ self.now }
    {
        self.words.as_slice()
    }
}

/// A request: the command-line options and words that all commands share.
#[derive(Debug, Drop)]
pub struct Request {
    /// The makefile's name; `None` stands for `makefile`, or `Makefile` if there is no `makefile`.
    pub makefile: Option<Name>,
    /// Whether the default text (macros, suffixes and inference rules) is read before the operands.
    pub defaults: bool,
    /// The macro operands, in their order.
    pub operands: Operands,
    /// The goals, in their order; if there are none, the goal is the first target.
    pub goals: Names,
    /// The name of the footprint file. With `None` each name that nothing makes is given.
    pub book: Option<Name>,
    /// Whether a graph is printed with the commands of its nodes.
    pub commands: bool,
    /// Whether inputs may be leaked at exit instead of freed, if they or the answer are small. That
    /// saves time if the process ends after the answer. No answer depends on it.
    pub leaves_memory: bool,
}

/// Whether a word is a macro operand: it contains `=`.
fn is_operand(word: &str) -> bool
    ensures { result ≡ is_operand word.now }
{
    word.as_bytes().contains(&b'=')
}

/// Splits the words of a command line into macro operands, which contain `=`, and goals, each in
/// their order. The only error is out of memory.
pub fn split_words(alloc: Global, words: &[&str]) -> Result<(Operands, Names), AllocError>
    ensures operands { IfOk result (λ r. r.0 ≡ operands_of (map (λ word. word.now) words.now)) }
    ensures goals { IfOk result (λ r. r.1 ≡ goals_of (map (λ word. word.now) words.now)) }
{
    let mut operands = Vec::new(alloc);
    let mut goals = Vec::new(alloc);
    for word in words {
        if is_operand(word) {
            operands.push(word.as_bytes().to_vec(alloc)?)?;
        } else {
            goals.push(Name::new(alloc, word)?)?;
        }
    }
    Ok((Operands::new(operands), Names::new(goals)))
}
