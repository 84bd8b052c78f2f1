//! Long texts, and lists of names.

use std::alloc::{AllocError, Global};

/// Returns `front`, followed by `count` times `unit`.
pub fn long(alloc: Global, front: &[u8], unit: &[u8], count: usize) -> Result<Vec<u8>, AllocError> {
    let mut text = Vec::from_slice(alloc, front)?;
    for _ in 0..count {
        text.extend_from_slice(unit)?;
    }
    Ok(text)
}

/// Returns the words of a text as names.
pub fn names(alloc: Global, words: &str) -> Result<Vec<String>, AllocError> {
    let mut names = Vec::new(alloc);
    for word in words.split_whitespace() {
        names.push(String::from_str(alloc, word)?)?;
    }
    Ok(names)
}

/// Appends names, each after a space.
pub fn add_names(shown: &mut String, names: &[String]) -> Result<(), AllocError> {
    for name in names {
        shown.push(' ')?;
        shown.push_str(name.as_str())?;
    }
    Ok(())
}
