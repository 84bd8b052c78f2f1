//! Why a certificate is refused.

ghost use Rattle.std.specs.Prelude.{◌≡◌};
ghost use Rattle.mk_cert.specs.declared.fault.CertFault.TheVariants.{Memory};

use mk_find::Finding;
use mk_lines::Name;
use std::alloc::{AllocError, AllocFailed};
use thiserror::Error;

/// Why a certificate is refused: the first test that fails, in the order `OtherGoals`, `Static`,
/// `BadWay`, `NoWay`.
#[derive(Debug, Drop, Error)]
pub enum CertFault {
    /// Its goals aren't those of the graph, in the same order (73).
    #[error("other goals")]
    OtherGoals,
    /// This read needs a way and has no entry (74).
    #[error("a read without an entry: {recipe} {file}")]
    NoWay { recipe: Name, file: Name },
    /// A bad entry (75): its path is empty, doesn't begin with its recipe, names something that
    /// isn't a recipe, has a step that isn't carried, or has an end that doesn't hold; its read
    /// isn't recorded or needs no way; or an earlier entry is for the same read.
    #[error("a bad entry: {recipe} {file}")]
    BadWay { recipe: Name, file: Name },
    /// There is a finding other than a stale read; this is the first one (76).
    #[error("a finding: {0}")]
    Static(Finding),
    /// Out of memory, which can come in place of any result.
    #[error("out of memory")]
    Memory,
}

impl From<AllocError> for CertFault {
    ghost from_gives = { λ _ e. e ≡ Memory };

    fn from(_error: AllocError) -> CertFault {
        CertFault::Memory
    }
}

impl<T: Drop> From<AllocFailed<T>> for CertFault {
    ghost from_gives = { λ _ e. e ≡ Memory };

    fn from(_error: AllocFailed<T>) -> CertFault {
        CertFault::Memory
    }
}
