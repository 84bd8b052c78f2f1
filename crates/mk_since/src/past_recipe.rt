//! Recipes of an old build.

ghost use Rattle.std.specs.Prelude.{◌≡◌, ◌++◌, map, IfOk, OnOk};
ghost use Rattle.std.specs.String.{string_bytes};
ghost use Rattle.mk_since.specs.Parts.{recipe_in};

use mk_subject::NodeRow;
use std::alloc::{AllocError, Global};
use std::marker::Model;

/// What is kept of a recipe, seen by contracts in lists of bytes.
#[derive(Debug, Drop)]
pub struct PastRecipe {
    /// Its target.
    pub target: String,
    /// Its expanded commands.
    pub commands: Vec<Vec<u8>>,
    /// The files that it reads.
    pub reads: Vec<String>,
    /// The files that it writes.
    pub writes: Vec<String>,
}

impl Model for PastRecipe {
    ghost use Rattle.std.specs.Prelude.{◌≡◌, map};
    ghost use Rattle.std.specs.String.{string_bytes};
    ghost use Rattle.mk_since.specs.Past as value;

    ghost Value = { value.PastRecipe };

    ghost view = { λ r.
        record {
          target = string_bytes r.target;
          commands = map (λ line. line.items) r.commands.items;
          reads = map string_bytes r.reads.items;
          writes = map string_bytes r.writes.items;
        } };
}

impl PastRecipe {
    /// The files that it writes.
    pub fn writes(&self) -> &[String]
        ensures { map string_bytes result.now ≡ self.now.writes }
    {
        self.writes.as_slice()
    }
}

/// Appends copies of names. The only error is out of memory.
pub fn push_copies(copies: &mut Vec<String>, names: &[String]) -> Result<(), AllocError>
    ensures { OnOk result (map string_bytes copies.new.items ≡
        map string_bytes copies.old.items ++ map string_bytes names.now) }
{
    for name in names {
        copies.push(name.clone()?)?;
    }
    Ok(())
}

/// Copies of the names. The only error is out of memory.
fn copies_of(alloc: Global, names: &[String]) -> Result<Vec<String>, AllocError>
    ensures { IfOk result (λ copies. map string_bytes copies.items ≡ map string_bytes names.now) }
{
    let mut copies = Vec::with_capacity(alloc, names.len())?;
    push_copies(&mut copies, names)?;
    Ok(copies)
}

/// The bytes of each of the texts. The only error is out of memory.
fn bytes_of(alloc: Global, texts: &[String]) -> Result<Vec<Vec<u8>>, AllocError>
    ensures { IfOk result (λ lines. map (λ line. line.items) lines.items ≡
        map string_bytes texts.now) }
{
    let mut lines = Vec::with_capacity(alloc, texts.len())?;
    for text in texts {
        lines.push(Vec::from_slice(alloc, text.as_bytes())?)?;
    }
    Ok(lines)
}

/// Copies of the lines. The only error is out of memory.
fn copies_of_lines(alloc: Global, lines: &[Vec<u8>]) -> Result<Vec<Vec<u8>>, AllocError>
    ensures { IfOk result (λ copies. map (λ line. line.items) copies.items ≡
        map (λ line. line.items) lines.now) }
{
    let mut copies = Vec::with_capacity(alloc, lines.len())?;
    for line in lines {
        copies.push(line.to_vec(alloc)?)?;
    }
    Ok(copies)
}

/// The expanded commands of a node. The only error is out of memory.
fn lines_of(alloc: Global, row: &NodeRow<'_>) -> Result<Vec<Vec<u8>>, AllocError>
    ensures { IfOk result (λ lines. map (λ line. line.items) lines.items ≡
        row.now.commands.lines) }
{
    if row.others {
        return copies_of_lines(alloc, &row.own);
    }
    match row.recorded {
        Some(record) => bytes_of(alloc, &record.commands),
        None => copies_of_lines(alloc, &row.own),
    }
}

/// What is kept of a recipe. The only error is out of memory.
pub fn past_recipe(alloc: Global, row: &NodeRow<'_>) -> Result<PastRecipe, AllocError>
    ensures { IfOk result (λ r. r ≡ recipe_in row.now) }
{
    Ok(PastRecipe {
        target: String::from_str(alloc, row.name())?,
        commands: lines_of(alloc, row)?,
        reads: copies_of(alloc, row.reads())?,
        writes: copies_of(alloc, row.writes())?,
    })
}
