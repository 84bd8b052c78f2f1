//! Finishing a running recipe.

ghost use Rattle.std.specs.Prelude.{◌≡◌, ◌<◌, ℕ, [], ◌∷◌, ◌++◌, length, map, true, unwrap_or, IfOk};
ghost use Rattle.mk_lines.specs.Names.{has_name};
ghost use Rattle.mk_graph.specs.Membership.{Has};
ghost use Rattle.mk_build.specs.Setting.{FileName, reads, writes};
ghost use Rattle.mk_build.specs.World.{content, outcome};
ghost use Rattle.mk_build.specs.SerialMake.{puts, rest_of_run};
ghost use Rattle.mk_world.specs.State.{Scene, busy, disk_of, setting};
ghost use Rattle.mk_world.specs.Fits.{Fits};
ghost use Rattle.mk_world.specs.Places.{ArePlaces};
ghost use Rattle.mk_world.specs.Running.{TakesInTurn, contents_of, new_stamps};
ghost use Rattle.std.specs.String.{string_bytes};

use crate::disk::Disk;
use crate::ending::end_seeing;
use crate::fault::StepFault;
use crate::making::Making;
use crate::outcomes::Sight;
use crate::places::Places;
use crate::recipes::{Written, put};
use crate::scene::Scene;
use std::alloc::{AllocError, Global};

/// What the recipe reads if it reads all its files now. The only error is out of memory.
pub fn sight_of(
    alloc: Global,
    places: &Places,
    disk: &Disk,
    number: usize,
) -> Result<Sight, AllocError>
    ensures recipe { IfOk result (λ sight. sight.recipe ≡ number) }
    ensures sees { IfOk result (λ sight. (scene : Scene) →
        ArePlaces scene disk.now.names places.now →
        sight.seen.items ≡ map (content (disk_of disk.now))
        (reads scene.graph (setting scene) number)) }
{
    Ok(Sight {
        recipe: number,
        seen: disk.contents_at(alloc, places.of(number))?,
    })
}

/// The stamps that these files take if they are written in order. The only error is out of memory.
fn stamps_for(alloc: Global, disk: &Disk, files: &[String]) -> Result<Vec<u64>, AllocError>
    ensures { IfOk result (λ stamps. stamps.items ≡
        new_stamps disk.now.clock (map string_bytes files.now)) }
{
    let mut stamps = Vec::with_capacity(alloc, files.len())?;
    let mut last = disk.clock();
    for _file in files {
        last = last.saturating_add(1);
        stamps.push(last)?;
    }
    Ok(stamps)
}

/// What `finish` writes for a recipe that has read this: the known outcome, or else the new stamps.
/// The only error is out of memory.
fn contents_seeing(
    alloc: Global,
    scene: &Scene,
    disk: &Disk,
    sight: &Sight,
) -> Result<Vec<u64>, AllocError>
    requires { sight.now.recipe < length scene.now.graph.nodes }
    ensures { IfOk result (λ contents. contents.items ≡
        unwrap_or (outcome disk.now.known sight.now.recipe sight.now.seen.items)
        (new_stamps disk.now.clock (writes scene.now.graph (setting scene.now)
        sight.now.recipe))) }
{
    match disk.known(sight) {
        Some(known) => Vec::from_slice(alloc, known),
        None => stamps_for(alloc, disk, scene.footprint(sight.recipe).writes.as_slice()),
    }
}

/// What `finish` writes for a recipe: the known outcome for what its reads contain now, or, if none
/// is known, the new stamps. The only error is out of memory.
pub fn contents_of(
    alloc: Global,
    scene: &Scene,
    places: &Places,
    disk: &Disk,
    number: usize,
) -> Result<Vec<u64>, AllocError>
    requires node { number < length scene.now.graph.nodes }
    requires places { ArePlaces scene.now disk.now.names places.now }
    ensures { IfOk result (λ contents. contents.items ≡
        contents_of scene.now.graph (setting scene.now) (disk_of disk.now) number) }
{
    let sight = sight_of(alloc, places, disk, number)?;
    contents_seeing(alloc, scene, disk, &sight)
}

/// The record of reading these contents. The only error is out of memory.
fn looks_of(alloc: Global, seen: &[Option<u64>]) -> Result<Vec<Option<Option<u64>>>, AllocError>
    ensures { IfOk result (λ looks. looks.items ≡ map (λ content. Some content) seen.now) }
{
    let mut looks = Vec::with_capacity(alloc, seen.len())?;
    for content in seen {
        looks.push(Some(*content))?;
    }
    Ok(looks)
}

/// Writes these contents into the files that a running recipe writes, in order. `NotRunning` (66)
/// if it isn't running; `ClockSpent` (59) if no stamp is left. An error keeps the writes before it.
fn put_all(
    scene: &Scene,
    disk: &mut Disk,
    making: &mut Making,
    number: usize,
    contents: &[u64],
) -> Result<(), StepFault>
    requires fits { Fits scene.now making.old }
    requires node { number < length scene.now.graph.nodes }
    requires named { (f : FileName) → Has (writes scene.now.graph (setting scene.now) number) f →
        has_name disk.old.names f ≡ true }
    ensures fits { Fits scene.now making.new }
    ensures names { disk.new.names ≡ disk.old.names }
    ensures takes { TakesInTurn scene.now.graph (setting scene.now)
        (busy scene.now making.old disk.old) (busy scene.now making.new disk.new)
        (puts number (writes scene.now.graph (setting scene.now) number) contents.now) result }
{
    let mut rest = contents;
    for file in scene.footprint(number).writes.as_slice() {
        let [content, after @ ..] = rest else {
            return Ok(());
        };
        rest = after;
        let written = Written {
            number,
            file: file.as_str(),
            content: *content,
        };
        put(scene, disk, making, &written)?;
    }
    Ok(())
}

/// A scene, with the places of its files, and the allocator of what is looked up there.
#[derive(Clone, Copy)]
pub struct PlacedScene<'a> {
    pub alloc: Global,
    pub scene: &'a Scene<'a>,
    pub places: &'a Places,
}

/// Finishes a recipe that reads this: it reads its files, writes these contents into those that it
/// writes, and ends. `NotRunning` (66) if it isn't running; otherwise the errors of `put_all` and
/// `end_seeing`. An error keeps the steps before it.
pub fn finish_seeing(
    placed: &PlacedScene<'_>,
    disk: &mut Disk,
    making: &mut Making,
    sight: Sight,
    contents: &[u64],
) -> Result<(), StepFault>
    requires fits { Fits placed.now.scene.now making.old }
    requires node { sight.recipe < length placed.now.scene.now.graph.nodes }
    requires sees { sight.seen.items ≡ map (content (disk_of disk.old))
        (reads placed.now.scene.now.graph (setting placed.now.scene.now) sight.recipe) }
    requires named { (f : FileName) →
        Has (writes placed.now.scene.now.graph (setting placed.now.scene.now) sight.recipe) f →
        has_name disk.old.names f ≡ true }
    ensures fits { Fits placed.now.scene.now making.new }
    ensures names { disk.new.names ≡ disk.old.names }
    ensures takes { TakesInTurn placed.now.scene.now.graph (setting placed.now.scene.now) (busy
        placed.now.scene.now making.old disk.old) (busy placed.now.scene.now making.new disk.new)
        (rest_of_run placed.now.scene.now.graph (setting placed.now.scene.now) sight.recipe
        contents.now) result }
{
    let number = sight.recipe;
    if !making.is_running(number) {
        return Err(StepFault::NotRunning);
    }
    let looks = looks_of(placed.alloc, &sight.seen)?;
    making.look_at_all(number, looks);
    put_all(placed.scene, disk, making, number, contents)?;
    end_seeing(placed.alloc, placed.scene, disk, making, sight)
}

/// Finishes a recipe: it reads its files, writes these contents into those that it writes, and
/// ends. Errors are as for `finish_seeing`.
pub fn finish_with(
    placed: &PlacedScene<'_>,
    disk: &mut Disk,
    making: &mut Making,
    number: usize,
    contents: &[u64],
) -> Result<(), StepFault>
    requires fits { Fits placed.now.scene.now making.old }
    requires node { number < length placed.now.scene.now.graph.nodes }
    requires places { ArePlaces placed.now.scene.now disk.old.names placed.now.places.now }
    requires named { (f : FileName) → Has (writes placed.now.scene.now.graph (setting
        placed.now.scene.now) number) f → has_name disk.old.names f ≡ true }
    ensures fits { Fits placed.now.scene.now making.new }
    ensures names { disk.new.names ≡ disk.old.names }
    ensures takes { TakesInTurn placed.now.scene.now.graph (setting placed.now.scene.now) (busy
        placed.now.scene.now making.old disk.old) (busy placed.now.scene.now making.new disk.new)
        (rest_of_run placed.now.scene.now.graph (setting placed.now.scene.now) number contents.now)
        result }
{
    let sight = sight_of(placed.alloc, placed.places, disk, number)?;
    finish_seeing(placed, disk, making, sight, contents)
}

/// Finishes a recipe: it reads its files, writes the known outcome or else the new stamps, and
/// ends. Errors are as for `finish_seeing`.
pub fn finish(
    placed: &PlacedScene<'_>,
    disk: &mut Disk,
    making: &mut Making,
    number: usize,
) -> Result<(), StepFault>
    requires fits { Fits placed.now.scene.now making.old }
    requires node { number < length placed.now.scene.now.graph.nodes }
    requires places { ArePlaces placed.now.scene.now disk.old.names placed.now.places.now }
    requires named { (f : FileName) → Has (writes placed.now.scene.now.graph (setting
        placed.now.scene.now) number) f → has_name disk.old.names f ≡ true }
    ensures fits { Fits placed.now.scene.now making.new }
    ensures names { disk.new.names ≡ disk.old.names }
    ensures takes { TakesInTurn placed.now.scene.now.graph (setting placed.now.scene.now) (busy
        placed.now.scene.now making.old disk.old) (busy placed.now.scene.now making.new disk.new)
        (rest_of_run placed.now.scene.now.graph (setting placed.now.scene.now) number (contents_of
        placed.now.scene.now.graph (setting placed.now.scene.now) (disk_of disk.old) number)) result }
{
    let sight = sight_of(placed.alloc, placed.places, disk, number)?;
    let contents = contents_seeing(placed.alloc, placed.scene, disk, &sight)?;
    finish_seeing(placed, disk, making, sight, &contents)
}
