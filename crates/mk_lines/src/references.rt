//! Finds bytes outside references, `$(..)` and `${..}`.

ghost use Rattle.std.specs.Prelude.{◌≡◌, ◌<◌, ◌==◌, length, IfOk, IfSome};
ghost use Rattle.mk_lines.specs.References.{closed, next_place, first_outside, is_one_of};
ghost use Rattle.mk_lines.specs.Views.{reference_state_view};

use crate::bytes::has_byte;
use bstr::ByteSlice;
use std::alloc::{AllocError, Global};

/// The state of the search between two bytes.
#[derive(Drop)]
struct ReferenceState {
    /// The closing bytes of the open references, the innermost last.
    ends: Vec<u8>,
    /// Whether a `$` directly precedes that isn't the second of a `$$`.
    dollar: bool,
}

impl ReferenceState {
    fn is_outside(&self) -> bool
        ensures { result ≡ (length (reference_state_view self.now).ends == 0) }
    {
        self.ends.is_empty()
    }

    /// Moves the state past a byte. The only error is out of memory.
    fn pass(&mut self, byte: u8) -> Result<(), AllocError>
        ensures { IfOk result
            (λ _. reference_state_view self.new ≡ next_place (reference_state_view self.old) byte) }
    {
        let after_dollar = self.dollar;
        self.dollar = false;
        match byte {
            b'$' => self.dollar = !after_dollar,
            b'(' if after_dollar => self.ends.push(b')')?,
            b'{' if after_dollar => self.ends.push(b'}')?,
            _ => self.close(byte),
        }
        Ok(())
    }

    /// Closes the innermost reference, if the byte is its closing byte.
    fn close(&mut self, byte: u8)
        ensures ends { (reference_state_view self.new).ends ≡
            closed (reference_state_view self.old).ends byte }
        ensures dollar { self.new.dollar ≡ self.old.dollar }
    {
        if self.ends.last() == Some(&byte) {
            self.ends.pop();
        }
    }
}

/// The position, in bytes from 0, of the first wanted byte outside references.
///
/// A reference is `$(` up to the first `)` outside an inner reference, or `${` up to the first `}`
/// outside one. A reference that isn't closed goes to the end of the text. `$$` is two bytes
/// outside references, and any other `$` is one byte (the standard's `make`, "Macros"). The only
/// error is out of memory.
pub fn first_outside(alloc: Global, wanted: &[u8], text: &[u8]) -> Result<Option<usize>, AllocError>
    ensures exact { IfOk result (λ at. at ≡ first_outside (is_one_of wanted.now) text.now) }
    ensures within { IfOk result (λ at. IfSome at (λ k. k < length text.now)) }
{
    // Most texts have no reference.
    if !has_byte(text, b'$') {
        return Ok(text.find_byteset(wanted));
    }
    let mut place = ReferenceState {
        ends: Vec::new(alloc),
        dollar: false,
    };
    for (at, byte) in text.iter().enumerate() {
        if place.is_outside() && wanted.contains(byte) {
            return Ok(Some(at));
        }
        place.pass(*byte)?;
    }
    Ok(None)
}
