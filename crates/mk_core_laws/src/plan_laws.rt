//! Laws about plans that show a finding.

ghost use Rattle.mk_core_laws.specs.EvidenceLaws.{EvidenceRuns, EvidenceRunsAsWritten, FirstDiskIsThere, NamesOfWorldArePlain};

use mk_foot::laws::names_read_are_plain;
use mk_infer_laws::laws::selection_is_one;
use mk_infer_laws::name_laws::{goals_are_plain, nodes_have_plain_names};
use mk_read_laws::rule_laws::{rule_lines_are_well_named, texts_are_plain};
use mk_world_plan::laws::{
    legal_steps_are_readable, plain_paths_are_well_spelled, text_is_read, written_history_runs,
};

/// All names in the world of a request's graph are plain paths: those of nodes and sources, and
/// those of files that recipes read or write.
pub fn names_of_world_are_plain()
    ensures { NamesOfWorldArePlain }
{
    goals_are_plain();
    names_read_are_plain();
    nodes_have_plain_names();
    rule_lines_are_well_named();
    texts_are_plain();
}

/// A plan that `evidence_text` returns, of at most 65,536 lines, runs to its end: `simulate`
/// refuses no line of it, and its text ends in `plan ok`, except for out of memory and failed
/// reads.
pub fn evidence_runs()
    ensures { EvidenceRuns }
{
    legal_steps_are_readable();
    names_of_world_are_plain();
    plain_paths_are_well_spelled();
    selection_is_one();
    text_is_read();
    written_history_runs();
}

/// A plan that `evidence_text` returns, of at most 65,536 lines, is the text of steps that show the
/// finding with its number, and it can be read. From the first world it has a run to its end. Each
/// of its runs takes these steps, except for passes of nodes without recipe, which a run takes by
/// itself, and leaves the same files, clock and outcomes as they do.
pub fn evidence_runs_as_written()
    ensures { EvidenceRunsAsWritten }
{
    legal_steps_are_readable();
    names_of_world_are_plain();
    plain_paths_are_well_spelled();
    text_is_read();
    written_history_runs();
}

/// A graph and its footprints have a first disk. So steps that show a finding from each first disk
/// show it from at least one, and only races and stale reads are ever shown.
pub fn first_disk_is_there()
    ensures { FirstDiskIsThere }
{}
