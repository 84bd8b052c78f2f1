//! Laws about the certificates that `check` answers with.

ghost use Rattle.mk_core_laws.specs.CertificateLaws.{CheckedIsVerified};

use crate::answer_laws::verification_is_one;
use crate::plan_laws::names_of_world_are_plain;
use mk_cert::laws::certificate_is_accepted;
use mk_cert_laws::laws::line_is_read_back;
use mk_cert_text::laws::text_is_read_back;
use mk_find::finding_laws::no_findings;

/// If `check` answers yes, `verify_text` accepts its certificate, whose text may have a newline
/// behind it, and answers with the same counts, except for out of memory and failed reads. The
/// files may have changed, as long as the same request is prepared from them.
pub fn checked_is_verified()
    ensures { CheckedIsVerified }
{
    certificate_is_accepted();
    line_is_read_back();
    names_of_world_are_plain();
    no_findings();
    text_is_read_back();
    verification_is_one();
}
