//! A byte array with a fast search for the first 1.

ghost use Rattle.std.specs.Prelude.{◌≡◌, ℕ, ◌<◌, ◌≤◌, ◌*◌, ◌/◌, length, replicate, slice_index, slice_set, IfOk, MatchOption};

use memchr::memchr;
use std::alloc::{AllocError, Global};
use std::marker::Model;

/// The number of bytes in a block; the last block may have fewer.
const BLOCK: usize = 64;

/// A byte array, and for each block of it a byte that is 1 if the block contains a 1. Contracts see
/// the bytes alone.
///
/// Each operation takes at most two searches: one in a block, and one in the list of blocks.
#[derive(Drop)]
pub(crate) struct Bytes {
    bytes: Vec<u8>,
    blocks: Vec<u8>,
}

impl Model for Bytes {
    ghost use Rattle.std.specs.Prelude.{List, ℕ};
    ghost use Rattle.mk_graph_ready.specs.Blocks.{AreBlocks};

    ghost Value = { List ℕ };

    ghost view = { λ b. b.bytes.items };

    ghost invariant = { λ b. AreBlocks b.bytes.items b.blocks.items };
}

/// The position of the first 1.
fn first_one(bytes: &[u8]) -> Option<usize>
    ensures { MatchOption result
        ((i : ℕ) → i < length bytes.now → ¬ (slice_index bytes.now i ≡ 1))
        (λ place. (place < length bytes.now) × (slice_index bytes.now place ≡ 1) ×
        ((i : ℕ) → i < place → ¬ (slice_index bytes.now i ≡ 1))) }
{
    memchr(1, bytes)
}

/// 1 if this block contains a 1, else 0.
fn noted(bytes: &[u8], block: usize) -> u8
    requires { block * 64 ≤ length bytes.now }
    ensures { (i : ℕ) → i / 64 ≡ block → slice_index bytes.now i ≡ 1 → result ≡ 1 }
{
    let rest = &bytes[block * BLOCK..];
    let end = rest.len().min(BLOCK);
    match first_one(&rest[..end]) {
        Some(_) => 1,
        None => 0,
    }
}

impl Bytes {
    /// An array of `many` zeros. The only error is out of memory.
    pub fn zeros(alloc: Global, many: usize) -> Result<Bytes, AllocError>
        ensures { IfOk result (λ bytes. bytes ≡ replicate many 0) }
    {
        Ok(Bytes {
            bytes: vec![in alloc; 0; many]?,
            blocks: vec![in alloc; 0; many / BLOCK + 1]?,
        })
    }

    /// The byte at a place, or 0 if the place is beyond the end.
    pub fn at(&self, place: usize) -> u8
        ensures { result ≡ slice_index self.now place }
    {
        match self.bytes.get(place) {
            Some(byte) => *byte,
            None => 0,
        }
    }

    /// The position of the first 1.
    pub fn first_one(&self) -> Option<usize>
        ensures { MatchOption result
            ((i : ℕ) → i < length self.now → ¬ (slice_index self.now i ≡ 1))
            (λ place. (place < length self.now) × (slice_index self.now place ≡ 1) ×
            ((i : ℕ) → i < place → ¬ (slice_index self.now i ≡ 1))) }
    {
        let block = first_one(&self.blocks)?;
        let start = block * BLOCK;
        let place = first_one(&self.bytes[start..])?;
        Some(start + place)
    }

    /// Writes a 1.
    pub fn write_one(&mut self, place: usize)
        requires { place < length self.old }
        ensures { self.new ≡ slice_set self.old place 1 }
    {
        self.bytes[place] = 1;
        self.blocks[place / BLOCK] = 1;
    }

    /// Writes a byte other than 1.
    pub fn write(&mut self, place: usize, byte: u8)
        requires within { place < length self.old }
        requires other { ¬ (byte ≡ 1) }
        ensures { self.new ≡ slice_set self.old place byte }
    {
        self.bytes[place] = byte;
        let block = place / BLOCK;
        self.blocks[block] = noted(&self.bytes, block);
    }
}
