//! Laws about certificates. Each function exists for its contract alone: a caller has the law as a
//! fact.

ghost use Rattle.mk_cert.specs.Laws.{AnswerIsOne, VerifiedIsRight, CertificateIsAccepted};

use mk_build::build_laws::{names_have_one_number, one_build_is_right};
use mk_find::finding_laws::{
    no_race_found_is_none, nothing_found_is_right, nothing_found_is_selected,
    nothing_found_is_sound,
};
use mk_graph::laws::serial_reaches_each_once;

/// At most one answer to a certificate meets `Verifies`.
pub fn answer_is_one()
    ensures { AnswerIsOne }
{}

/// If a certificate is accepted, every legal history is right, a single make from a start is right,
/// and the same graph is selected whatever part of the files that recipes write exists, for the
/// goals and for each subset of them.
pub fn verified_is_right()
    ensures { VerifiedIsRight }
{
    serial_reaches_each_once();
    names_have_one_number();
    nothing_found_is_right();
    nothing_found_is_sound();
    nothing_found_is_selected();
    no_race_found_is_none();
    one_build_is_right();
}

/// If there is no static finding and no race, the certificate is accepted.
pub fn certificate_is_accepted()
    ensures { CertificateIsAccepted }
{
    names_have_one_number();
    serial_reaches_each_once();
}
