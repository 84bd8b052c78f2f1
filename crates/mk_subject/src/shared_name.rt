//! Names that several findings share.

ghost use Rattle.std.specs.Prelude.{◌≡◌, IfOk};

use std::alloc::{AllocError, Global};
use std::fmt;
use std::marker::Model;
use std::rc::RcStr;

/// A reference-counted name that several findings can share. Its model is the bytes.
#[derive(Debug, Drop)]
pub struct SharedName {
    text: RcStr,
}

impl Model for SharedName {
    ghost use Rattle.std.specs.Prelude.{List, ℕ};
    ghost use Rattle.std.specs.Rc.{rc_str_bytes};

    ghost Value = { List ℕ };

    ghost view = { λ n. rc_str_bytes n.text };
}

impl SharedName {
    /// Copies the text. The only error is out of memory.
    pub fn new(alloc: Global, text: &str) -> Result<SharedName, AllocError>
        ensures { IfOk result (λ name. name ≡ text.now) }
    {
        Ok(SharedName {
            text: RcStr::from_str(alloc, text)?,
        })
    }

    /// The name as text.
    pub fn as_str(&self) -> &str
        ensures { result.now ≡ self.now }
    {
        self.text.as_str()
    }
}

impl fmt::Display for SharedName {
    ghost use Rattle.std.specs.Prelude.{Some};

    ghost output = { λ n. Some n };

    fn fmt<W: fmt::Write>(&self, f: &mut fmt::Formatter<W>) -> fmt::Result {
        f.write_str(self.as_str())
    }
}

impl Clone for SharedName {
    ghost is_clone = { λ name copy. copy ≡ name };

    /// Shares the name without copying its text.
    fn clone(&self) -> Result<SharedName, AllocError> {
        Ok(SharedName {
            text: self.text.clone()?,
        })
    }
}
