//! Faults of a footprint file.

ghost use Rattle.std.specs.Prelude.{◌≡◌};
ghost use Rattle.mk_foot.specs.declared.fault.FootFault.TheVariants.{Memory};

use crate::key::Key;
use mk_lines::Name;
use std::alloc::{AllocError, AllocFailed};
use thiserror::Error;

/// Why a footprint file is refused: the first check that fails.
#[derive(Debug, Drop, Error)]
pub enum FootFault {
    /// The bytes have no JSON value that `serde_json` reads; bytes that aren't UTF-8 have none
    /// (51).
    #[error("no JSON value")]
    NotJson,
    /// The value under the key is missing or of another kind (52). The key is `top` if the whole
    /// value is no object, `records` or `groups` if one of their elements is no object, and
    /// `unknown` if an object has a key that doesn't belong there.
    #[error("missing value or another kind: {0}")]
    Shape(Key),
    /// The format is a whole number other than 1 and 2 (53).
    #[error("unknown format")]
    OtherFormat,
    /// This target has an earlier record in the same group (54).
    #[error("two records of one target: {0}")]
    TwoRecords(Name),
    /// A name under the key is no plain path, or an entry of `fixed` is neither `/` nor a plain
    /// path followed by `/` (55).
    #[error("no plain path: {0}")]
    BadName(Key),
    /// This source is under a fixed prefix (56).
    #[error("a fixed source: {0}")]
    SourceIsFixed(Name),
    /// No group has these goals (57).
    #[error("no group for these goals")]
    NoGroup,
    /// A record names a shared list that doesn't exist (58).
    #[error("missing shared list")]
    NoList,
    /// Out of memory. Any call may return it.
    #[error("out of memory")]
    Memory,
}

impl From<AllocError> for FootFault {
    ghost from_gives = { λ _ e. e ≡ Memory };

    fn from(_error: AllocError) -> FootFault {
        FootFault::Memory
    }
}

impl<T: Drop> From<AllocFailed<T>> for FootFault {
    ghost from_gives = { λ _ e. e ≡ Memory };

    fn from(_error: AllocFailed<T>) -> FootFault {
        FootFault::Memory
    }
}
