//! Passing nodes without a recipe.

ghost use Rattle.std.specs.Prelude.{◌≡◌, OnOk};
ghost use Rattle.mk_world.specs.State.{DiskState, busy, disk_of, making_of};
ghost use Rattle.mk_world.specs.Fits.{Fits};
ghost use Rattle.mk_world.specs.Kept.{IsKept};
ghost use Rattle.mk_world.specs.Running.{PassesAll, PassesSome};

use crate::making::Making;
use crate::scene::Scene;
use mk_graph::schedule_laws;
use mk_graph_ready::Readiness;
use std::alloc::AllocError;

/// Passes idle nodes, that is, ready nodes without a recipe, each time the first in the serial
/// order, until there is none. The only error is out of memory; the nodes passed before it stay
/// done.
pub fn pass_idle(
    scene: &Scene,
    making: &mut Making,
    readiness: &mut Readiness,
) -> Result<(), AllocError>
    requires fits { Fits scene.now making.old }
    requires kept { IsKept scene.now making.old readiness.old }
    ensures fits { Fits scene.now making.new }
    ensures kept { IsKept scene.now making.new readiness.new }
    ensures ok { (d : DiskState) → OnOk result (PassesAll scene.now.graph
        (making_of scene.now making.old) (disk_of d) (busy scene.now making.new d)) }
    ensures some { (d : DiskState) → PassesSome scene.now.graph
        (making_of scene.now making.old) (disk_of d) (busy scene.now making.new d) }
{
    schedule_laws::can_start_stays();
    while let Some(number) = readiness.next_idle() {
        making.finish(number)?;
        readiness.mark_done(number);
    }
    Ok(())
}
