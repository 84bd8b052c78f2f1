//! Reads that can't have a finding.

ghost use Rattle.std.specs.Prelude.{◌≡◌, ℕ, List, [], map, slice_get, slice_index_or, Some, IfOk};
ghost use Rattle.mk_subject.specs.FileInfo as value;
ghost use Rattle.mk_subject.specs.FileInfo.{StandAt};
ghost use Rattle.mk_subject.specs.Settled.{is_settled, unsettled};

use crate::file_info::FileInfo;
use crate::number_rows::NumberRows;
use std::alloc::{AllocError, Global};

/// Whether the file is given, can't be edited, and no recipe writes it. A read of such a file is
/// never part of a finding.
fn is_settled(known: &FileInfo) -> bool
    ensures { result ≡ is_settled known.now }
{
    known.given && !known.editable && known.writers.as_slice().is_empty()
}

/// Whether the file at index `at` is settled; `true` where `at` is past the end.
fn is_settled_at(known: &[FileInfo], at: usize) -> bool
    ensures { (k : value.FileInfo) → slice_get known.now at ≡ Some k → result ≡ is_settled k }
{
    match known.get(at) {
        Some(known) => is_settled(known),
        None => true,
    }
}

/// Those of the indices in `places` whose files aren't settled, in their order.
fn unsettled_among(
    alloc: Global,
    known: &[FileInfo],
    places: &[usize],
) -> Result<Vec<usize>, AllocError>
    ensures { IfOk result (λ left.
        (by : List ℕ → value.FileInfo) (names files : List (List ℕ)) → known.now ≡ map by names →
        StandAt names places.now files → StandAt names left.items (unsettled by files)) }
{
    let mut unsettled = Vec::new(alloc);
    for at in places {
        if !is_settled_at(known, *at) {
            unsettled.push(*at)?;
        }
    }
    Ok(unsettled)
}

/// Keeps in each row the indices of files that aren't settled. Takes linear time. The only error is
/// out of memory.
pub fn unsettled_places(
    alloc: Global,
    known: &[FileInfo],
    places: &NumberRows,
) -> Result<NumberRows, AllocError>
    ensures { IfOk result (λ left.
        (by : List ℕ → value.FileInfo) (names : List (List ℕ)) (t : ℕ) (files : List (List ℕ)) →
        known.now ≡ map by names → StandAt names (slice_index_or places.now t []) files →
        StandAt names (slice_index_or left t []) (unsettled by files)) }
{
    let mut unsettled = NumberRows::with_capacity(alloc, places.len())?;
    for number in 0..places.len() {
        let row = unsettled_among(alloc, known, places.at(number))?;
        unsettled.push(&row)?;
    }
    Ok(unsettled)
}
