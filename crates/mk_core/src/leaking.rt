//! Whether values are dropped or leaked at the end of a run.

use std::mem::forget;

/// What decides whether the inputs are leaked instead of freed.
#[derive(Debug, Clone, Copy, Drop)]
pub struct LeakPolicy {
    /// The request allows it.
    pub is_asked: bool,
    /// The footprints have at most `FEW_READS` reads.
    pub reads_few: bool,
}

impl LeakPolicy {
    /// Whether the inputs are leaked after an answer, which is brief or not. Large inputs are freed
    /// after a long answer, so that they take no memory while it is printed.
    pub fn behind(self, is_brief: bool) -> bool {
        self.is_asked && (is_brief || self.reads_few)
    }
}

/// Drops a value, or leaks it until the process ends, which takes no time. Callers see no
/// difference.
pub fn drop_or_leak<T: Drop>(value: T, leaves_memory: bool) {
    if leaves_memory {
        forget(value);
    }
}
