//! Whether a node is out of date.

ghost use Rattle.std.specs.Prelude.{◌≡◌, ◌<◌, ◌↔◌, ◌⊎◌, length, true, Some};
ghost use Rattle.mk_graph.specs.Graph.{node};
ghost use Rattle.mk_build.specs.World.{HasStamp};
ghost use Rattle.mk_build.specs.Steps.{MustRun};
ghost use Rattle.mk_world.specs.State.{disk_of};
ghost use Rattle.mk_world.specs.Fits.{Forces};

use crate::disk::Disk;
use mk_graph::{Graph, Node};

/// Whether this direct prerequisite makes a node with this stamp out of date: it is phony, or its
/// file has a greater stamp.
fn forces(before: &Node, disk: &Disk, stamp: u64) -> bool
    ensures { (result ≡ true) ↔ Forces before.now (disk_of disk.now) stamp }
{
    if before.phony {
        return true;
    }
    match disk.stamp(before.name.as_str()) {
        Some(later) => stamp < later,
        None => false,
    }
}

/// Whether a node is out of date: it is always made, its file is absent, or its file is older than
/// that of a direct prerequisite (IEEE Std 1003.1-2024, XCU make, "Target Rules").
pub fn must_run(graph: &Graph, disk: &Disk, number: usize) -> bool
    requires { number < length graph.now.nodes }
    ensures { (result ≡ true) ↔ MustRun graph.now (disk_of disk.now) number }
{
    let nodes = graph.nodes();
    let node = &nodes[number];
    if node.phony {
        return true;
    }
    let Some(stamp) = disk.stamp(node.name.as_str()) else {
        return true;
    };
    for p in graph.prerequisites(number) {
        if forces(&nodes[*p], disk, stamp) {
            return true;
        }
    }
    false
}
