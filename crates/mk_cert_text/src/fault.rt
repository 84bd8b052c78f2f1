//! Faults of a certificate's text.

ghost use Rattle.std.specs.Prelude.{◌≡◌};
ghost use Rattle.mk_cert_text.specs.declared.fault.CertTextFault.TheVariants.{Memory};

use crate::key::Key;
use std::alloc::{AllocError, AllocFailed};
use thiserror::Error;

/// Why bytes are no certificate: the first check that fails.
#[derive(Debug, Drop, Error)]
pub enum CertTextFault {
    /// The bytes have no JSON value that `serde_json` reads; bytes that aren't UTF-8 have none
    /// (71).
    #[error("no JSON value")]
    NotJson,
    /// The value under the key is missing, of another kind, or no plain path (72). The key is `top`
    /// if the whole value is no object, `ways` if a way is no object, and `unknown` if an object
    /// has a key that doesn't belong there.
    #[error("missing value or another kind: {0}")]
    Shape(Key),
    /// Out of memory. Any call may return it.
    #[error("out of memory")]
    Memory,
}

impl From<AllocError> for CertTextFault {
    ghost from_gives = { λ _ e. e ≡ Memory };

    fn from(_error: AllocError) -> CertTextFault {
        CertTextFault::Memory
    }
}

impl<T: Drop> From<AllocFailed<T>> for CertTextFault {
    ghost from_gives = { λ _ e. e ≡ Memory };

    fn from(_error: AllocFailed<T>) -> CertTextFault {
        CertTextFault::Memory
    }
}
