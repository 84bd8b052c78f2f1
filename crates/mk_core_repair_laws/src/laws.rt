//! The law that `repair` has one answer.

ghost use Rattle.mk_core_repair_laws.specs.RepairLaws.{RepairIsOne};

use mk_core_laws::answer_laws::verdict_is_one;
use mk_find::finding_laws::list_is_one;
use mk_graph::laws::walk_has_one_end;
use mk_infer_laws::laws::selection_is_one;

/// A request for `repair`, over files with the same contents, has at most one answer, except for
/// out of memory and failed reads.
pub fn repair_is_one()
    ensures { RepairIsOne }
{
    selection_is_one();
    verdict_is_one();
    list_is_one();
    walk_has_one_end();
}
