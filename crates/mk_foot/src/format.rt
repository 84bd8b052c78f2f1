//! The formats of footprint files.

/// A format of footprint files.
#[derive(Clone, Copy, Debug, Drop, PartialEq, Eq)]
pub enum Format {
    /// Format 1: one list of records.
    One,
    /// Format 2: a group of records for each list of goals, and file lists that records share.
    Two,
}
