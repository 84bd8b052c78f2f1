//! Laws that a request has one answer. Out of memory and failed reads, which can come in place of
//! any answer, are excepted.

ghost use Rattle.mk_core_laws.specs.AnswerLaws.{AnswerIsOne, VerdictIsOne, VerificationIsOne, SimulationIsOne, EvidenceRefusesAsCheck};

use mk_find::finding_laws::findings_are_one;
use mk_find::way_laws::certificate_is_one;
use mk_graph::laws::serial_reaches_each_once;
use mk_infer_laws::laws::selection_is_one;
use mk_world::laws::{first_world_is_one, run_is_one};

/// A request for a graph, over files with the same contents, has at most one answer, except for out
/// of memory and failed reads. So `graph_text` returns exactly what its definition says.
pub fn answer_is_one()
    ensures { AnswerIsOne }
{
    selection_is_one();
}

/// A request for a verdict, over files with the same contents, has at most one answer, except for
/// out of memory and failed reads.
pub fn verdict_is_one()
    ensures { VerdictIsOne }
{
    certificate_is_one();
    findings_are_one();
    selection_is_one();
    serial_reaches_each_once();
}

/// A request to verify a certificate, over files with the same contents, has at most one answer,
/// except for out of memory and failed reads.
pub fn verification_is_one()
    ensures { VerificationIsOne }
{
    mk_cert::laws::answer_is_one();
    selection_is_one();
    serial_reaches_each_once();
}

/// A request to run a plan, over files with the same contents, has at most one answer, except for
/// out of memory and failed reads.
pub fn simulation_is_one()
    ensures { SimulationIsOne }
{
    first_world_is_one();
    run_is_one();
    selection_is_one();
}

/// `evidence_text` refuses exactly the requests that `check` refuses, with the same fault, except
/// for out of memory and failed reads.
pub fn evidence_refuses_as_check()
    ensures { EvidenceRefusesAsCheck }
{
    selection_is_one();
    serial_reaches_each_once();
}
