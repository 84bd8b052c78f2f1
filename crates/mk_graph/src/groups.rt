//! Groups of node numbers. Contracts see them as lists.

ghost use Rattle.std.specs.Prelude.{◌≡◌, map};

use std::marker::Model;

/// The groups of a node's prerequisites, each a list of node numbers.
#[derive(Debug, Drop)]
pub struct Groups {
    groups: Vec<Vec<usize>>,
}

impl Model for Groups {
    ghost use Rattle.std.specs.Prelude.{List, ℕ, map};

    ghost Value = { List (List ℕ) };

    ghost view = { λ g. map (λ group. group.items) g.groups.items };
}

impl Groups {
    /// The groups of this list, in its order.
    pub fn new(groups: Vec<Vec<usize>>) -> Groups
        ensures { result ≡ map (λ group. group.items) groups.items }
    {
        Groups { groups }
    }

    /// The list of the groups, without a copy.
    pub fn into_vec(self) -> Vec<Vec<usize>>
        ensures { map (λ group. group.items) result.items ≡ self }
    {
        let Groups { groups } = self;
        groups
    }

    /// The groups as a slice.
    pub fn as_slice(&self) -> &[Vec<usize>]
        ensures { map (λ group. group.items) result.now ≡ self.now }
    {
        self.groups.as_slice()
    }
}
