//! What searches for paths look up.

use mk_graph::Groups;
use mk_subject::{EndTables, Subject};

/// A subject with the tables for paths over its recipes. `ArePathTables` says that the tables are
/// the subject's.
#[derive(Drop)]
pub struct PathTables<'s> {
    /// What is judged.
    pub subject: &'s Subject<'s>,
    /// The tables for the ends of paths.
    pub ends: EndTables<'s>,
    /// The recipes that each node carries.
    pub rows: Groups,
}
