//! Names of files and nodes that findings share.

ghost use Rattle.std.specs.Prelude.{◌≡◌, IfOk};

use mk_subject::{SharedName, Target};
use std::alloc::{AllocError, Global};

/// The shared names made so far, at the indices of their files, so that all findings about a file
/// share one copy. Allocates nothing before the first one is made.
#[derive(Drop)]
pub struct FileNames {
    names: Vec<Option<SharedName>>,
}

impl FileNames {
    /// No names yet.
    pub fn new(alloc: Global) -> FileNames {
        FileNames {
            names: Vec::new(alloc),
        }
    }

    /// The shared name of a file, made on the first call for it. The only error is out of memory.
    pub fn name_of(&mut self, alloc: Global, file: &Target<'_>) -> Result<SharedName, AllocError>
        ensures { IfOk result (λ name. name ≡ file.now.file) }
    {
        if let Some(Some(name)) = self.names.get(file.place) {
            if name.as_str() == file.file {
                return name.clone();
            }
        }
        let name = SharedName::new(alloc, file.file)?;
        self.keep(file.place, name.clone()?)?;
        Ok(name)
    }

    /// Stores a name at an index.
    fn keep(&mut self, place: usize, name: SharedName) -> Result<(), AllocError> {
        if place >= self.names.len() {
            self.names.resize_with(place.saturating_add(1), || None)?;
        }
        if let Some(kept) = self.names.get_mut(place) {
            *kept = Some(name);
        }
        Ok(())
    }
}
