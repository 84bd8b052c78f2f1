//! A list of numbers with a fast lookup.

ghost use Rattle.std.specs.Prelude.{◌≡◌, ◌<◌, ◌↔◌, ℕ, true, IfOk};
ghost use Rattle.mk_graph.specs.Graph.{max_nodes};
ghost use Rattle.mk_graph.specs.Membership.{Has, has};

use mk_graph::NodeSet;
use std::alloc::{AllocError, Global};
use std::marker::Model;

/// A list of at most this many numbers is searched linearly: that costs no more than to make a set.
pub const FEW_NUMBERS: usize = 16;

/// A list of numbers in which numbers are looked up: by linear search if it is short, else through
/// a set. Its model is the list.
#[derive(Drop)]
pub struct NumberList<'a> {
    list: &'a [usize],
    set: Option<Box<NodeSet>>,
}

impl<'a> Model for NumberList<'a> {
    ghost use Rattle.std.specs.Prelude.{List, ℕ};
    ghost use Rattle.mk_subject.specs.Lookup.{AreSetOf};

    ghost Value = { List ℕ };

    ghost view = { λ n. n.list.now };

    ghost invariant = { λ n. AreSetOf n.list.now n.set };
}

/// Whether `number` is among `numbers`.
pub fn has_number(numbers: &[usize], number: usize) -> bool
    ensures { result ≡ has numbers.now number }
{
    for other in numbers {
        if *other == number {
            return true;
        }
    }
    false
}

/// The set of these numbers.
fn set_of(numbers: &[usize]) -> NodeSet
    requires { (n : ℕ) → Has numbers.now n → n < max_nodes }
    ensures { (n : ℕ) → Has result n ↔ Has numbers.now n }
{
    let mut set = NodeSet::new();
    set.insert_all(numbers);
    set
}

impl<'a> NumberList<'a> {
    /// Wraps a list, and makes the set if it is long. The only error is out of memory.
    pub fn new(alloc: Global, list: &'a [usize]) -> Result<NumberList<'a>, AllocError>
        requires { (n : ℕ) → Has list.now n → n < max_nodes }
        ensures { IfOk result (λ numbers. numbers ≡ list.now) }
    {
        let set = if list.len() > FEW_NUMBERS {
            Some(Box::new(alloc, set_of(list))?)
        } else {
            None
        };
        Ok(NumberList { list, set })
    }

    /// The first number, if there are any.
    pub fn first(&self) -> Option<usize> {
        self.list.first().copied()
    }

    /// Whether the number is in the list.
    pub fn has(&self, number: usize) -> bool
        ensures { (result ≡ true) ↔ Has self.now number }
    {
        match &self.set {
            Some(set) => set.has(number),
            None => has_number(self.list, number),
        }
    }
}
