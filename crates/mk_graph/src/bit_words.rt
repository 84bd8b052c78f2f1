//! Union and intersection of bit sets in words, eight words at a time.

ghost use Rattle.std.specs.Prelude.{◌≡◌, length, bit_and, bit_or};
ghost use Rattle.std.specs.Simd.Lanes.{zip2};
ghost use Rattle.mk_graph.specs.BitWords.{AreCombined};

use std::simd::u64x8;

/// Adds the bits of `others` to `words`, word by word. Both have the same length. It can't fail and
/// allocates nothing.
pub fn unite(words: &mut [u64], others: &[u64])
    requires { length words.old ≡ length others.now }
    ensures { words.new ≡ zip2 bit_or words.old others.now }
{
    let mut place = unite_vectors(words, others);
    while place < words.len() {
        words[place] |= others[place];
        place += 1;
    }
}

/// Clears the bits of `words` that aren't set in `others`, word by word. Both have the same length.
/// It can't fail and allocates nothing.
pub fn meet(words: &mut [u64], others: &[u64])
    requires { length words.old ≡ length others.now }
    ensures { words.new ≡ zip2 bit_and words.old others.now }
{
    let mut place = meet_vectors(words, others);
    while place < words.len() {
        words[place] &= others[place];
        place += 1;
    }
}

/// Unites as many words as fill whole vectors, and returns how many.
fn unite_vectors(words: &mut [u64], others: &[u64]) -> usize
    requires { length words.old ≡ length others.now }
    ensures { AreCombined bit_or words.old others.now result words.new }
{
    let mut place = 0;
    while words.len() - place >= 8 {
        let united = u64x8::from_slice(&words[place..]) | u64x8::from_slice(&others[place..]);
        united.copy_to_slice(&mut words[place..]);
        place += 8;
    }
    place
}

/// Intersects as many words as fill whole vectors, and returns how many.
fn meet_vectors(words: &mut [u64], others: &[u64]) -> usize
    requires { length words.old ≡ length others.now }
    ensures { AreCombined bit_and words.old others.now result words.new }
{
    let mut place = 0;
    while words.len() - place >= 8 {
        let met = u64x8::from_slice(&words[place..]) & u64x8::from_slice(&others[place..]);
        met.copy_to_slice(&mut words[place..]);
        place += 8;
    }
    place
}
