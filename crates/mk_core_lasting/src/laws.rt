//! Laws of what a yes promises across sources. Each function exists for its contract: a caller has
//! the law as a fact.

ghost use Rattle.mk_core_lasting.specs.Lasting.{VerifiedLasts, YesLasts, AcceptedLasts};

use mk_build::build_laws::names_have_one_number;
use mk_build_behaviours::behaviour_laws::{
    coherence_is_kept_by, present_footprints_suffice, present_makes_are_undisturbed,
    start_is_coherent_by,
};
use mk_cert::laws::certificate_is_accepted;
use mk_find::finding_laws::{no_findings, no_race_found_is_none, nothing_found_is_sound};
use mk_graph::laws::serial_reaches_each_once;

/// If a certificate is accepted, then whatever happened before, each make of any part of the goals
/// at sources for which the footprints are present builds them, if it ends.
pub fn verified_lasts()
    ensures { VerifiedLasts }
{
    coherence_is_kept_by();
    names_have_one_number();
    no_race_found_is_none();
    nothing_found_is_sound();
    present_footprints_suffice();
    present_makes_are_undisturbed();
    serial_reaches_each_once();
    start_is_coherent_by();
}

/// If `check` answers yes, then whatever happened before, each make of any part of the goals at
/// sources for which the footprints are present builds them, if it ends.
pub fn yes_lasts()
    ensures { YesLasts }
{
    certificate_is_accepted();
    no_findings();
    verified_lasts();
}

/// If `verify_text` accepts a certificate, the same holds.
pub fn accepted_lasts()
    ensures { AcceptedLasts }
{
    verified_lasts();
}
