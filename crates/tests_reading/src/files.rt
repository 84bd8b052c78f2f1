//! Files in memory.

use mk_read_parse::MemFiles;
use std::alloc::{AllocError, Global};

/// Returns files with a single file of this name and text.
pub fn file_of(alloc: Global, name: &str, text: &[u8]) -> Result<MemFiles, AllocError> {
    let mut files = MemFiles::new(alloc);
    files.add(name, text)?;
    Ok(files)
}
