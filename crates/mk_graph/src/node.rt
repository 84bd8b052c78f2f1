//! A node of the graph.

use crate::groups::Groups;
use mk_lines::Name;

/// A target of a makefile, or a file that it names.
#[derive(Debug, Drop)]
pub struct Node {
    /// Its name in the makefile.
    pub name: Name,
    /// The numbers of its prerequisites, in groups that are made one after another.
    pub groups: Groups,
    /// Whether it has commands to run.
    pub recipe: bool,
    /// Whether it is phony: it isn't a file and is never up to date.
    pub phony: bool,
}
