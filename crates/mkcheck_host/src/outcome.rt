//! The outcome of a run.

/// The outcome of a run: what it writes, and its exit status.
#[derive(Debug, Drop)]
pub struct Outcome {
    /// The text for standard output.
    pub out: Vec<u8>,
    /// The text for standard error.
    pub err: Vec<u8>,
    /// The exit status: 0 for yes or done, 1 for no, 2 for a refusal or a fault of the command
    /// line.
    pub status: u8,
}
