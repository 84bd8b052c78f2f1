//! Laws about answers. Each function exists for its contract alone: a caller has the law as a fact.

ghost use Rattle.mk_core.specs.Laws.{YesIsRight, AcceptedIsRight};

use mk_cert::laws::{certificate_is_accepted, verified_is_right};
use mk_cert_laws::laws::{accepted_is_selected_anew, recipes_are_covered};
use mk_find::finding_laws::no_findings;
use mk_subject::laws::selected_goals;

/// If `check` answers yes, every legal history of the build is right, a single make from a start is
/// right, each recipe has a record with the commands that make would run, and the same graph is
/// selected in each make, for the goals and for each subset of them: whatever part of the files
/// that recipes write exists, and on whatever disk a history leaves.
pub fn yes_is_right()
    ensures { YesIsRight }
{
    accepted_is_selected_anew();
    certificate_is_accepted();
    no_findings();
    recipes_are_covered();
    selected_goals();
    verified_is_right();
}

/// The same if `verify_text` answers yes.
pub fn accepted_is_right()
    ensures { AcceptedIsRight }
{
    accepted_is_selected_anew();
    recipes_are_covered();
    selected_goals();
    verified_is_right();
}
