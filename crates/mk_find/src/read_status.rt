//! Whether a read needs a way and has one.

ghost use Rattle.std.specs.Prelude.{◌≡◌, ℕ, IfOk};
ghost use Rattle.mk_graph.specs.Membership.{Has};
ghost use Rattle.mk_graph_search.specs.Ways.{successors};
ghost use Rattle.mk_subject.specs.Carried.{carried};
ghost use Rattle.mk_subject.specs.WayTables.{AreEnds};
ghost use Rattle.mk_subject.specs.Subject.{reads_of, writes_of};
ghost use Rattle.mk_find.specs.FirstPaths.{AlwaysNoneBefore};
ghost use Rattle.mk_find.specs.ReadStatus.{IsReadStatus};
ghost use Rattle.mk_subject.specs.Target.{target_of};

use crate::first_path::{FirstPath, first_path};
use mk_graph_search::Search;
use mk_subject::laws::paths_are_ways;
use mk_subject::{EndTables, Subject, Target};
use std::alloc::AllocError;

/// Whether a read needs a way and has one.
#[derive(Debug, Drop)]
pub(crate) enum ReadStatus {
    /// The file can't change, so the read needs no way.
    Fixed,
    /// The file can change, and this is the first path to it.
    HasWay(FirstPath),
    /// The file can change, and no path leads to it.
    Stale,
}

/// Judges the read of `file` by the recipe at the start of `search`, which must not write it;
/// `passed` is as for `first_path`. The only error is out of memory.
pub(crate) fn read_status_of(
    subject: &Subject<'_>,
    ends: &EndTables<'_>,
    search: &mut Search<'_>,
    passed: &mut usize,
    file: &Target<'_>,
) -> Result<ReadStatus, AllocError>
    requires ends { AreEnds subject.now ends.now.needed.items
        ends.now.always.items }
    requires rows { (t : ℕ) → successors search.old.rows t ≡ carried subject.now t }
    requires passed { AlwaysNoneBefore subject.now search.old.start passed.old }
    requires file { file.now ≡ target_of subject.now file.now.file }
    requires read { Has (reads_of subject.now search.old.start) file.now.file }
    requires out { ¬ (Has (writes_of subject.now search.old.start) file.now.file) }
    ensures same { search.new ≡ search.old }
    ensures passed { AlwaysNoneBefore subject.now search.old.start passed.new }
    ensures standing { IfOk result (λ standing.
        IsReadStatus subject.now search.old.start file.now.file standing) }
{
    paths_are_ways();
    let _graph = subject.graph();
    if !file.can_change(subject) {
        return Ok(ReadStatus::Fixed);
    }
    match first_path(subject, ends, search, passed, file)? {
        Some(path) => Ok(ReadStatus::HasWay(path)),
        None => Ok(ReadStatus::Stale),
    }
}
