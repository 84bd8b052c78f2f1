//! A bit matrix in one list of words, with a row for each node.

ghost use Rattle.std.specs.Prelude.{◌≡◌, ℕ, ◌+◌, ◌*◌, ◌/◌, ◌<◌, ◌≤◌, ◌↔◌, length, false};
ghost use Rattle.mk_graph.specs.Membership.{Has};
ghost use Rattle.mk_graph.specs.Bits.{is_set};
ghost use Rattle.mk_graph.specs.BitRows.{row, Lacks, RowsLack, LackMore, HaveRows};

use crate::bit_words::{meet, unite};

/// The words of a row.
pub(crate) fn row(words: &[u64], stride: usize, number: usize) -> &[u64]
    requires { number * stride + stride ≤ length words.now }
    ensures value { result.now ≡ row stride words.now number }
    ensures len { length result.now ≡ stride }
{
    let start = number * stride;
    &words[start..start + stride]
}

/// Whether `member` is in a row.
pub(crate) fn has(words: &[u64], stride: usize, number: usize, member: usize) -> bool
    requires { number * stride + stride ≤ length words.now }
    ensures { result ≡ is_set (row stride words.now number) member }
{
    match row(words, stride, number).get(member / 64) {
        Some(word) => (*word >> (member % 64)) & 1 == 1,
        None => false,
    }
}

/// Whether `member` is in the row of one of these numbers.
pub(crate) fn some_has(words: &[u64], stride: usize, numbers: &[usize], member: usize) -> bool
    requires { HaveRows stride words.now numbers.now }
    ensures { (result ≡ false) ↔ RowsLack stride words.now numbers.now member }
{
    for number in numbers {
        if has(words, stride, *number, member) {
            return true;
        }
    }
    false
}

/// Intersects a row with the gate.
pub(crate) fn meet_row(words: &mut [u64], stride: usize, number: usize, gate: &[u64])
    requires room { number * stride + stride ≤ length words.old }
    requires size { length gate.now ≡ stride }
    ensures { LackMore stride words.old words.new (λ n o. (n ≡ number) × Lacks gate.now o) }
{
    let start = number * stride;
    meet(&mut words[start..start + stride], gate);
}

/// Intersects the rows of these numbers with the gate.
pub(crate) fn meet_rows(words: &mut [u64], stride: usize, numbers: &[usize], gate: &[u64])
    requires rows { HaveRows stride words.old numbers.now }
    requires size { length gate.now ≡ stride }
    ensures { LackMore stride words.old words.new (λ n o. Has numbers.now n × Lacks gate.now o) }
{
    for number in numbers {
        meet_row(words, stride, *number, gate);
    }
}

/// Adds the rows of these numbers to the gate.
pub(crate) fn unite_rows(gate: &mut [u64], words: &[u64], stride: usize, numbers: &[usize])
    requires rows { HaveRows stride words.now numbers.now }
    requires size { length gate.old ≡ stride }
    ensures { (o : ℕ) → Lacks gate.new o
        ↔ Lacks gate.old o × RowsLack stride words.now numbers.now o }
{
    for number in numbers {
        unite(gate, row(words, stride, *number));
    }
}

/// Adds a member.
pub(crate) fn insert(gate: &mut [u64], member: usize)
    requires { member / 64 < length gate.old }
    ensures { (o : ℕ) → Lacks gate.new o ↔ Lacks gate.old o × (¬ (o ≡ member)) }
{
    gate[member / 64] |= 1u64 << (member % 64);
}
