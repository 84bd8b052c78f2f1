//! Selects the graph of the goals.

ghost use Rattle.mk_core.specs.Views.{Selected};

use crate::ready::Ready;
use mk_graph::Graph;
use mk_infer::{Choices, Exists, InferFault};
use mk_infer_select::select;
use std::alloc::Global;

/// The graph that is selected for the goals if the files `there` exist. The errors are `NoRule`
/// (41) and `TooManyNodes` (43), as the walk from the goals meets them, `Cycle` (42), and out of
/// memory.
pub(crate) fn selected(
    alloc: Global,
    ready: &Ready<'_>,
    exists: &Exists<'_>,
) -> Result<Graph, InferFault>
    ensures { Selected exists.now ready.now result }
{
    let choices = Choices::new(alloc, ready.table(), exists)?;
    select(alloc, &choices, ready.goals())
}
