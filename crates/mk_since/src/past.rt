//! What is kept of an old build.

ghost use Rattle.std.specs.Prelude.{◌≡◌, ◌++◌, filter, map, IfOk, OnOk};
ghost use Rattle.std.specs.Option.{option_copied};
ghost use Rattle.std.specs.String.{string_bytes};
ghost use Rattle.mk_lines.specs.Names.{has_name};
ghost use Rattle.mk_graph.specs.Graph.{node};
ghost use Rattle.mk_graph.specs.Serial.{serial_order};
ghost use Rattle.mk_subject.specs.Subject.{all_writes};
ghost use Rattle.mk_since.specs.Named.{IsPastOf};
ghost use Rattle.mk_since.specs.Parts.{recipe_for};
ghost use Rattle.mk_since.specs.Past.{recipe_of};

use crate::doubts::doubted;
use crate::past_recipe::{PastRecipe, past_recipe, push_copies};
use mk_find::Finding;
use mk_lines::NameTable;
use mk_subject::Subject;
use std::alloc::{AllocError, Global};
use std::marker::Model;

/// What is kept of a build: its recipes in the serial order, with an index of their targets, the
/// files that it has itself, and the targets of its doubted recipes. Its model is the recipes, these
/// files and these targets.
#[derive(Drop)]
pub struct Past {
    recipes: Vec<PastRecipe>,
    targets: NameTable,
    own: NameTable,
    doubted: NameTable,
}

impl Model for Past {
    ghost use Rattle.std.specs.Prelude.{◌≡◌, map};
    ghost use Rattle.mk_since.specs.Past as value;

    ghost Value = { value.Past };

    ghost view = { λ p. record { recipes = p.recipes.items; own = p.own; doubted = p.doubted } };

    ghost invariant = { λ p. p.targets ≡ map (λ r. r.target) p.recipes.items };
}

/// What is kept of each recipe, in the serial order.
fn recipes_of(alloc: Global, subject: &Subject<'_>) -> Result<Vec<PastRecipe>, AllocError>
    ensures { IfOk result (λ recipes. recipes.items ≡ map (recipe_of subject.now)
        (filter (λ n. (node subject.now.graph n).recipe) (serial_order subject.now.graph))) }
{
    let mut recipes = Vec::new(alloc);
    for entry in subject.entries() {
        if entry.recipe {
            recipes.push(past_recipe(alloc, entry)?)?;
        }
    }
    Ok(recipes)
}

/// The targets of these recipes, in the same order.
fn targets_of(alloc: Global, recipes: &[PastRecipe]) -> Result<NameTable, AllocError>
    ensures { IfOk result (λ targets. targets ≡ map (λ r. r.target) recipes.now) }
{
    let mut targets = Vec::with_capacity(alloc, recipes.len())?;
    for recipe in recipes {
        targets.push(recipe.target.clone()?)?;
    }
    NameTable::new(alloc, targets)
}

/// Appends copies of the files that recipes write.
fn push_written(names: &mut Vec<String>, subject: &Subject<'_>) -> Result<(), AllocError>
    ensures { OnOk result (map string_bytes names.new.items ≡
        map string_bytes names.old.items ++ all_writes subject.now) }
{
    for entry in subject.entries() {
        push_copies(names, entry.writes())?;
    }
    Ok(())
}

/// The sources, the makefile texts, and what recipes write.
fn own_of(alloc: Global, subject: &Subject<'_>) -> Result<NameTable, AllocError>
    ensures { IfOk result (λ names. names ≡ subject.now.setting.sources ++
        (subject.now.setting.texts ++ all_writes subject.now)) }
{
    let mut names = Vec::new(alloc);
    push_copies(&mut names, subject.setting().sources().as_slice())?;
    push_copies(&mut names, subject.setting().texts().as_slice())?;
    push_written(&mut names, subject)?;
    NameTable::new(alloc, names)
}

impl Past {
    /// The recipes, in the serial order.
    pub fn recipes(&self) -> &[PastRecipe]
        ensures { result.now ≡ self.now.recipes }
    {
        self.recipes.as_slice()
    }

    /// The recipe with this target, if there is one. Allocates nothing.
    pub fn recipe(&self, target: &str) -> Option<&PastRecipe>
        ensures { option_copied result ≡ recipe_for self.now target.now }
    {
        match self.targets.place(target) {
            Some(place) => Some(&self.recipes()[place]),
            None => None,
        }
    }

    /// Whether the build has the file itself: it is a source or a makefile text, or a recipe wrote
    /// it. Allocates nothing.
    pub fn owns(&self, file: &str) -> bool
        ensures { result ≡ has_name self.now.own file.now }
    {
        self.own.contains(file)
    }

    /// Whether the recipe with this target is doubted. Allocates nothing.
    pub fn doubts(&self, target: &str) -> bool
        ensures { result ≡ has_name self.now.doubted target.now }
    {
        self.doubted.contains(target)
    }
}

/// What is kept of the build of this subject, with the targets of its doubted recipes, if these are
/// its findings and all of them are races and stale reads. The only error is out of memory.
pub fn past_of(alloc: Global, subject: &Subject<'_>, found: &[Finding]) -> Result<Past, AllocError>
    ensures { IfOk result (λ past. IsPastOf subject.now found.now past) }
{
    let recipes = recipes_of(alloc, subject)?;
    let targets = targets_of(alloc, recipes.as_slice())?;
    Ok(Past {
        recipes,
        targets,
        own: own_of(alloc, subject)?,
        doubted: doubted(alloc, subject, found)?,
    })
}
