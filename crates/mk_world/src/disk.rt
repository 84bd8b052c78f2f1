//! The files of a world, and the known outcomes.

ghost use Rattle.std.specs.Prelude.{◌≡◌, ◌<◌, ◌↔◌, List, length, true, map, option_map, IfOk, IfSome, OnOk, OnErr};
ghost use Rattle.mk_lines.specs.Names.{has_name};
ghost use Rattle.mk_world.specs.First.{first_disk};
ghost use Rattle.mk_world.specs.Listing.{listing};
ghost use Rattle.mk_graph.specs.Graph.{max_nodes};
ghost use Rattle.mk_build.specs.World.{content, written, without, last_stamp, outcome};
ghost use Rattle.mk_build.specs.Steps.{noted};
ghost use Rattle.mk_build.specs.Setting.{FileName};
ghost use Rattle.mk_world.specs.Places.{content_at, place_among};
ghost use Rattle.mk_world.specs.State.{disk_of, finished};

use crate::file::{File, Listed};
use crate::first::first_files;
use crate::making::Making;
use crate::outcomes::{Outcomes, Sight};
use crate::table::{clear, get, set};
use mk_foot::Setting;
use mk_lines::{BorrowedNames, Name};
use std::alloc::{AllocError, Global};
use std::marker::Model;

/// The files of a world with their stamps, the clock, and the known outcomes.
#[derive(Drop)]
pub struct Disk<'a> {
    names: BorrowedNames<'a>,
    files: Vec<Option<File>>,
    clock: u64,
    known: Outcomes,
}

impl<'a> Model for Disk<'a> {
    ghost use Rattle.std.specs.Prelude.{◌≡◌, length};
    ghost use Rattle.mk_world.specs.State as state;

    ghost Value = { state.DiskState };

    ghost view = { λ d.
        record {
          names = d.names;
          files = d.files.items;
          clock = d.clock;
          known = d.known;
        } };

    ghost invariant = { λ d. length d.files.items ≡ length d.names };
}

/// The content of the file at a place, if it exists.
fn content_at(files: &[Option<File>], place: usize) -> Option<u64>
    ensures { result ≡ content_at files.now place }
{
    match files.get(place) {
        Some(Some(file)) => Some(file.content),
        _ => None,
    }
}

impl<'a> Disk<'a> {
    /// The first disk of a world with these names: exactly the given files exist, each with its
    /// number among them as content and stamp. The only error is out of memory.
    pub fn first(
        alloc: Global,
        setting: &Setting,
        names: BorrowedNames<'a>,
    ) -> Result<Disk<'a>, AllocError>
        ensures { IfOk result (λ d. d ≡ first_disk setting.now names.entry) }
    {
        let (files, clock) = first_files(alloc, setting, &names)?;
        Ok(Disk {
            names,
            files,
            clock,
            known: Outcomes::new(alloc),
        })
    }

    /// Whether the name belongs to the world.
    pub fn has(&self, file: &str) -> bool
        ensures { result ≡ has_name self.now.names file.now }
    {
        self.names.contains(file)
    }

    /// Whether there is a further stamp.
    pub fn has_stamp(&self) -> bool
        ensures { (result ≡ true) ↔ (self.now.clock < last_stamp) }
    {
        self.clock < u64::MAX
    }

    /// The last stamp that was given out.
    pub fn clock(&self) -> u64
        ensures { result ≡ self.now.clock }
    {
        self.clock
    }

    /// What the recipe is known to write after reading this, or `None` if that isn't known.
    pub fn known(&self, sight: &Sight) -> Option<&[u64]>
        ensures { option_map (λ written. written.now) result ≡
            outcome self.now.known sight.now.recipe sight.now.seen.items }
    {
        self.known.get(sight)
    }

    /// The content of a file, if it exists.
    pub fn content(&self, file: &str) -> Option<u64>
        ensures { result ≡ content (disk_of self.now) file.now }
    {
        match get(&self.names, &self.files, file) {
            Some(found) => Some(found.content),
            None => None,
        }
    }

    /// The place of a name among those of the world, or their number if it isn't there.
    pub fn place(&self, file: &str) -> usize
        ensures { result ≡ place_among self.now.names file.now }
    {
        self.names.number_of(file)
    }

    /// The content of the file at each of these places, if it exists. The only error is out of
    /// memory.
    pub fn contents_at(
        &self,
        alloc: Global,
        places: &[usize],
    ) -> Result<Vec<Option<u64>>, AllocError>
        ensures { IfOk result (λ seen. (files : List FileName) →
            places.now ≡ map (place_among self.now.names) files →
            seen.items ≡ map (content (disk_of self.now)) files) }
    {
        let mut seen = Vec::with_capacity(alloc, places.len())?;
        for place in places {
            seen.push(content_at(&self.files, *place))?;
        }
        Ok(seen)
    }

    /// The stamp of the last write of a file, if it exists.
    pub fn stamp(&self, file: &str) -> Option<u64>
        ensures { result ≡ option_map (λ found. found.stamp) ((disk_of self.now).files file.now) }
    {
        match get(&self.names, &self.files, file) {
            Some(found) => Some(found.stamp),
            None => None,
        }
    }

    /// The files that exist, by the bytes of their names. The only error is out of memory.
    pub fn files(&self, alloc: Global) -> Result<Vec<Listed>, AllocError>
        ensures { IfOk result (λ files. files.items ≡ listing self.now) }
    {
        let mut files = Vec::new(alloc);
        for name in self.names.as_slice() {
            let Some(file) = get(&self.names, &self.files, name) else {
                continue;
            };
            let copy = Name::new(alloc, name)?;
            files.push(Listed {
                name: copy,
                content: file.content,
                stamp: file.stamp,
            })?;
        }
        Ok(files)
    }

    /// Writes a content into a file, which takes the next stamp. There must be a further stamp, and
    /// the name must belong to the world.
    pub fn write(&mut self, file: &str, content: u64)
        requires stamp { self.old.clock < last_stamp }
        requires name { has_name self.old.names file.now ≡ true }
        ensures disk { disk_of self.new ≡ written (disk_of self.old) file.now content }
        ensures names { self.new.names ≡ self.old.names }
    {
        self.clock += 1;
        let stamp = self.clock;
        let entry = File { content, stamp };
        set(&self.names, &mut self.files, file, entry);
    }

    /// Removes a file. The name must belong to the world.
    pub fn remove(&mut self, file: &str)
        requires { has_name self.old.names file.now ≡ true }
        ensures disk { disk_of self.new ≡ without (disk_of self.old) file.now }
        ensures names { self.new.names ≡ self.old.names }
    {
        clear(&self.names, &mut self.files, file);
    }

    /// Whether the recipe wrote what it is known to write after reading this. True if that isn't
    /// known.
    pub fn agrees(&self, sight: &Sight, written: &[u64]) -> bool
        ensures { (result ≡ true) ↔ IfSome (outcome self.now.known sight.now.recipe
            sight.now.seen.items) (λ known. known ≡ written.now) }
    {
        match self.known.get(sight) {
            Some(known) => known == written,
            None => true,
        }
    }

    /// Ends the run of a recipe: records the outcome, unless it is known, and marks the node as
    /// done. The only error is out of memory, which changes nothing.
    pub fn end(
        &mut self,
        sight: Sight,
        written: Vec<u64>,
        making: &mut Making,
    ) -> Result<(), AllocError>
        requires node { sight.recipe < length making.old.runs }
        requires small { sight.recipe < max_nodes }
        ensures noted { OnOk result (disk_of self.new ≡ noted (disk_of self.old) (record {
          recipe = sight.recipe;
          seen = sight.seen.items;
          written = written.items;
        })) }
        ensures names { self.new.names ≡ self.old.names }
        ensures done { OnOk result (making.new ≡ finished making.old sight.recipe) }
        ensures err { OnErr result (self.new ≡ self.old) }
        ensures making_err { OnErr result (making.new ≡ making.old) }
    {
        if self.known.get(&sight).is_some() {
            making.finish(sight.recipe)?;
            return Ok(());
        }
        self.known.note(sight, written, making)
    }
}
