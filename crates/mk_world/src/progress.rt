//! What a running recipe has read and written.

ghost use Rattle.std.specs.Prelude.{◌≡◌, IfOk, length, replicate, None, Some};
ghost use Rattle.mk_lines.specs.Names.{has_name};
ghost use Rattle.mk_build.specs.World.{changed};
ghost use Rattle.mk_world.specs.Tables.{look};
ghost use Rattle.std.specs.Bool.{OnTrue, OnFalse};
ghost use Rattle.mk_world.specs.State.{no_run};

use crate::lent::{LentNames, set};
use std::alloc::{AllocError, Global};
use std::marker::Model;

/// What a running recipe has read, for each file that it reads, and written, for each file that it
/// writes.
#[derive(Drop)]
pub struct RunningRecipe {
    looks: Vec<Option<Option<u64>>>,
    puts: Vec<Option<u64>>,
}

impl Model for RunningRecipe {
    ghost use Rattle.mk_world.specs.State as state;

    ghost Value = { state.RunState };

    ghost view = { λ r. record { looks = r.looks.items; puts = r.puts.items } };
}

impl RunningRecipe {
    /// The run of a recipe that isn't running.
    pub fn none(alloc: Global) -> RunningRecipe
        ensures { result ≡ no_run }
    {
        RunningRecipe {
            looks: Vec::new(alloc),
            puts: Vec::new(alloc),
        }
    }

    /// A run that has read and written nothing yet, of a recipe with this many files to read and to
    /// write. The only error is out of memory.
    pub fn new(alloc: Global, reads: usize, writes: usize) -> Result<RunningRecipe, AllocError>
        ensures { IfOk result (λ run. run ≡
            record { looks = replicate reads None; puts = replicate writes None }) }
    {
        Ok(RunningRecipe {
            looks: vec![in alloc; None; reads]?,
            puts: vec![in alloc; None; writes]?,
        })
    }
    /// What it has read.
    pub fn looks(&self) -> &[Option<Option<u64>>]
        ensures { result.now ≡ self.now.looks }
    {
        self.looks.as_slice()
    }

    /// What it has written.
    pub fn puts(&self) -> &[Option<u64>]
        ensures { result.now ≡ self.now.puts }
    {
        self.puts.as_slice()
    }

    /// Records that it read this content of a file, if the recipe is recorded to read the file.
    /// Returns whether it is; if not, nothing changes.
    pub fn look(&mut self, reads: &LentNames<'_>, file: &str, content: Option<u64>) -> bool
        requires { length self.old.looks ≡ length reads.now }
        ensures there { result ≡ has_name reads.now file.now }
        ensures len { length self.new.looks ≡ length self.old.looks }
        ensures noted { OnTrue result (look reads.now self.new.looks ≡
            changed (look reads.now self.old.looks) file.now (Some content)) }
        ensures puts { self.new.puts ≡ self.old.puts }
        ensures same { OnFalse result (self.new ≡ self.old) }
    {
        set(reads, &mut self.looks, file, content)
    }

    /// Records that it read all files, with these contents in order.
    pub fn look_at_all(&mut self, looks: Vec<Option<Option<u64>>>)
        ensures { self.new ≡ record { looks = looks.items; puts = self.old.puts } }
    {
        self.looks = looks;
    }

    /// Records that it wrote this content into a file, if the recipe is recorded to write the file.
    /// Returns whether it is; if not, nothing changes.
    pub fn put(&mut self, writes: &LentNames<'_>, file: &str, content: u64) -> bool
        requires { length self.old.puts ≡ length writes.now }
        ensures there { result ≡ has_name writes.now file.now }
        ensures len { length self.new.puts ≡ length self.old.puts }
        ensures noted { OnTrue result (look writes.now self.new.puts ≡
            changed (look writes.now self.old.puts) file.now (Some content)) }
        ensures looks { self.new.looks ≡ self.old.looks }
        ensures same { OnFalse result (self.new ≡ self.old) }
    {
        set(writes, &mut self.puts, file, content)
    }
    /// Forgets what it has read and written.
    pub fn clear(&mut self)
        ensures { self.new ≡ no_run }
    {
        self.looks.clear();
        self.puts.clear();
    }
}
