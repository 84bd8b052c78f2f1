//! The footprints of recipes.

ghost use Rattle.std.specs.Prelude.{◌≡◌, map, IfOk};
ghost use Rattle.mk_graph.specs.declared.node.Node as declared;
ghost use Rattle.mk_world.specs.Fits.{no_footprint};
ghost use Rattle.mk_world.specs.First.{reads_of, writes_of};

use crate::lent::LentNames;
use mk_foot::Setting;
use mk_graph::Node;
use std::alloc::{AllocError, Global};

/// The files that the recipe of a node reads and writes.
#[derive(Drop)]
pub struct Footprint<'a> {
    pub reads: LentNames<'a>,
    pub writes: LentNames<'a>,
}

/// A footprint without files.
fn empty<'a>(alloc: Global) -> Result<Footprint<'a>, AllocError>
    ensures { IfOk result (λ footprint. footprint ≡ no_footprint) }
{
    Ok(Footprint {
        reads: LentNames::new(alloc, &[])?,
        writes: LentNames::new(alloc, &[])?,
    })
}

/// The footprint of a node, empty if it has no recipe or no record.
fn footprint_of<'a>(
    alloc: Global,
    setting: &'a Setting,
    node: &Node,
) -> Result<Footprint<'a>, AllocError>
    ensures { IfOk result (λ footprint. footprint ≡ record {
      reads = reads_of setting.entry.now node.now;
      writes = writes_of setting.entry.now node.now;
    }) }
{
    if !node.recipe {
        return empty(alloc);
    }
    match setting.record_of(node.name.as_str()) {
        Some(record) => Ok(Footprint {
            reads: LentNames::new(alloc, &record.reads)?,
            writes: LentNames::new(alloc, &record.writes)?,
        }),
        None => empty(alloc),
    }
}

/// The footprints of these nodes. The only error is out of memory.
pub fn footprints_of<'a>(
    alloc: Global,
    setting: &'a Setting,
    nodes: &[Node],
) -> Result<Vec<Footprint<'a>>, AllocError>
    ensures { IfOk result (λ all. all.items ≡ map (λ (n : declared.Node). record {
      reads = reads_of setting.entry.now n;
      writes = writes_of setting.entry.now n;
    }) nodes.now) }
{
    let mut all = Vec::with_capacity(alloc, nodes.len())?;
    for node in nodes {
        all.push(footprint_of(alloc, setting, node)?)?;
    }
    Ok(all)
}
