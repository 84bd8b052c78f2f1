//! The places of files among the names of a world.

ghost use Rattle.std.specs.Prelude.{◌≡◌, [], map, slice_index_or, IfOk};
ghost use Rattle.std.specs.String.{string_bytes};
ghost use Rattle.mk_world.specs.Places.{ArePlaces, place_among};

use crate::disk::Disk;
use crate::scene::Scene;
use std::alloc::{AllocError, Global};
use std::marker::Model;

/// For each node, the places of the files that its recipe reads, so that a run needn't look them up
/// by name. Contracts see lists of places.
#[derive(Drop)]
pub struct Places {
    reads: Vec<Vec<usize>>,
}

impl Model for Places {
    ghost use Rattle.std.specs.Prelude.{List, ℕ, map};

    ghost Value = { List (List ℕ) };

    ghost view = { λ p. map (λ places. places.items) p.reads.items };
}

/// The places of these files. The only error is out of memory.
fn places_of(alloc: Global, disk: &Disk, files: &[String]) -> Result<Vec<usize>, AllocError>
    ensures { IfOk result (λ places. places.items ≡
        map (place_among disk.now.names) (map string_bytes files.now)) }
{
    let mut places = Vec::with_capacity(alloc, files.len())?;
    for file in files {
        places.push(disk.place(file.as_str()))?;
    }
    Ok(places)
}

impl Places {
    /// The places of the files that the recipes of a scene read, on a disk. The only error is out
    /// of memory.
    pub fn new(alloc: Global, scene: &Scene, disk: &Disk) -> Result<Places, AllocError>
        ensures { IfOk result (λ places. ArePlaces scene.now disk.now.names places) }
    {
        let many = scene.graph().nodes().len();
        let mut reads = Vec::with_capacity(alloc, many)?;
        for number in 0..many {
            let footprint = scene.footprint(number);
            reads.push(places_of(alloc, disk, footprint.reads.as_slice())?)?;
        }
        Ok(Places { reads })
    }

    /// The places of the files that the recipe of a node reads.
    pub fn of(&self, number: usize) -> &[usize]
        ensures { result.now ≡ slice_index_or self.now number [] }
    {
        match self.reads.get(number) {
            Some(places) => places.as_slice(),
            None => &[],
        }
    }
}
