//! Sets of node numbers, stored inline.

ghost use Rattle.std.specs.Prelude.{◌≡◌, ℕ, ◌<◌, List, true, ◌⊎◌, ◌↔◌, map};
ghost use Rattle.mk_graph.specs.Bits.{is_set};
ghost use Rattle.mk_graph.specs.Graph.{max_nodes};
ghost use Rattle.mk_graph.specs.Membership.{Has};
ghost use Rattle.mk_graph.specs.Schedules.{HasAll};
ghost use Rattle.mk_graph.specs.Without.{joined};

use std::marker::Model;

/// A set of numbers below 4,096, in 512 bytes. It allocates nothing. Contracts see the list of its
/// members.
#[derive(Drop)]
pub struct NodeSet {
    words: [u64; 64],
}

impl Model for NodeSet {
    ghost use Rattle.std.specs.Prelude.{List, ℕ};
    ghost use Rattle.mk_graph.specs.Bits.{members};

    ghost Value = { List ℕ };

    ghost view = { λ s. members s.words };
}

impl NodeSet {
    /// The empty set.
    pub fn new() -> NodeSet
        ensures { (n : ℕ) → ¬ (Has result n) }
    {
        NodeSet { words: [0; 64] }
    }

    /// The set of the numbers whose bits are set.
    pub(crate) fn of(words: [u64; 64]) -> NodeSet
        ensures { (n : ℕ) → Has result n ↔ (is_set words n ≡ true) }
    {
        NodeSet { words }
    }

    /// Whether the number is a member.
    pub fn has(&self, number: usize) -> bool
        ensures { (result ≡ true) ↔ Has self.now number }
    {
        match self.words.get(number / 64) {
            Some(word) => (*word >> (number % 64)) & 1 == 1,
            None => false,
        }
    }

    /// Adds a number, which must be below 4,096.
    pub fn insert(&mut self, number: usize)
        requires { number < max_nodes }
        ensures { (n : ℕ) → Has self.new n ↔ (n ≡ number) ⊎ Has self.old n }
    {
        self.words[number / 64] |= 1u64 << (number % 64);
    }

    /// Whether all these numbers are members.
    pub fn has_all(&self, numbers: &[usize]) -> bool
        ensures { (result ≡ true) ↔ HasAll self.now numbers.now }
    {
        for number in numbers {
            if !self.has(*number) {
                return false;
            }
        }
        true
    }

    /// Whether all numbers of all groups are members.
    pub(crate) fn has_groups(&self, groups: &[Vec<usize>]) -> bool
        ensures { (result ≡ true) ↔
            HasAll self.now (joined (map (λ group. group.items) groups.now)) }
    {
        for group in groups {
            if !self.has_all(group) {
                return false;
            }
        }
        true
    }

    /// Adds these numbers, which must be below 4,096.
    pub fn insert_all(&mut self, numbers: &[usize])
        requires { (n : ℕ) → Has numbers.now n → n < max_nodes }
        ensures { (n : ℕ) → Has self.new n ↔ Has numbers.now n ⊎ Has self.old n }
    {
        for number in numbers {
            self.insert(*number);
        }
    }
}
