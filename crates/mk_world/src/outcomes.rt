//! The known outcomes of recipes.

ghost use Rattle.std.specs.Prelude.{◌≡◌, ◌∷◌, [], ◌<◌, length, IfOk, OnOk, OnErr, None, Option, option_map};
ghost use Rattle.mk_graph.specs.Graph.{max_nodes};
ghost use Rattle.mk_build.specs.World.{outcome};
ghost use Rattle.mk_world.specs.State.{finished};

use crate::making::Making;
use indexmap::IndexMap;
use std::alloc::{AllocError, Global};
use std::marker::Model;

/// A recipe, and what it read of each of its files.
#[derive(Drop, PartialEq, Eq, Hash)]
pub struct Sight {
    pub recipe: usize,
    pub seen: Vec<Option<u64>>,
}

/// The known outcomes of recipes, looked up by what they read. Contracts see a list of outcomes,
/// the last one first.
#[derive(Drop)]
pub struct Outcomes {
    table: IndexMap<Sight, Vec<u64>>,
}

impl Model for Outcomes {
    ghost use Rattle.std.specs.Prelude.{◌≡◌, List, ℕ, map, reverse};
    ghost use Rattle.mk_build.specs.World.{Outcome};
    ghost use Rattle.mk_world.specs.Known.{outcomes_of, AreFound};

    ghost Value = { List Outcome };

    ghost view = { λ o. outcomes_of o.table.entries };

    ghost invariant = { λ o. AreFound o.table.entries };
}

impl Outcomes {
    /// No outcomes.
    pub fn new(alloc: Global) -> Outcomes
        ensures { result ≡ [] }
    {
        Outcomes {
            table: IndexMap::new(alloc),
        }
    }

    /// What the recipe is known to write after reading this, or `None` if that isn't known.
    pub fn get(&self, sight: &Sight) -> Option<&[u64]>
        ensures { option_map (λ written. written.now) result ≡
            outcome self.now sight.now.recipe sight.now.seen.items }
    {
        match self.table.get(sight) {
            Some(written) => Some(written.as_slice()),
            None => None,
        }
    }

    /// Adds an outcome that wasn't known, and marks the node as done. The only error is out of
    /// memory, which changes nothing.
    pub fn note(
        &mut self,
        sight: Sight,
        written: Vec<u64>,
        making: &mut Making,
    ) -> Result<(), AllocError>
        requires new { outcome self.old sight.recipe sight.seen.items ≡ None }
        requires node { sight.recipe < length making.old.runs }
        requires small { sight.recipe < max_nodes }
        ensures noted { OnOk result (self.new ≡ record {
          recipe = sight.recipe;
          seen = sight.seen.items;
          written = written.items;
        } ∷ self.old) }
        ensures done { OnOk result (making.new ≡ finished making.old sight.recipe) }
        ensures err { OnErr result (self.new ≡ self.old) }
        ensures making_err { OnErr result (making.new ≡ making.old) }
    {
        self.table.reserve(1)?;
        making.finish(sight.recipe)?;
        self.table.insert(sight, written)?;
        Ok(())
    }
}
