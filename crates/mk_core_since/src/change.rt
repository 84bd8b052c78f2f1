//! What `since` is asked.

use mk_core::Request;

/// A change from an old build to a new one.
#[derive(Clone, Copy, Debug, Drop)]
pub struct Change<'a> {
    /// The new build. What the folder doesn't say of the old one's options and words holds for it
    /// too.
    pub request: &'a Request,
    /// The folder that holds what the old build was made from.
    pub folder: &'a str,
}
