//! Checks a certificate.

ghost use Rattle.std.specs.Prelude.{◌≡◌, ◌⊎◌, ◌↔◌, true, map, Err, OnOk};
ghost use Rattle.mk_build.specs.Right.{IsRight};
ghost use Rattle.mk_infer.specs.Laws.{StaysSelected};
ghost use Rattle.mk_subject.specs.Subject.{all_writes, footprints, name_of};
ghost use Rattle.mk_cert.specs.Laws.{IsRightOnce};
ghost use Rattle.mk_find.specs.FindingLaws.{PartsStay};
ghost use Rattle.mk_cert.specs.Verdict.{Verifies};
ghost use Rattle.mk_cert.specs.Checks.{AnswersFound, AnswersWays};
ghost use Rattle.mk_cert.specs.declared.fault.CertFault.TheVariants.{Memory};

use crate::fault::CertFault;
use crate::judging::{check_entries, empty_sets};
use crate::lacking::check_reads;
use crate::laws::verified_is_right;
use mk_cert_text::{Certificate, PackedNames, Ways};
use mk_find::{first_race, first_static};
use mk_subject::{Subject, carried_lists, way_tables_of};
use std::alloc::Global;

/// Whether `names` are the names of the goals, in their order.
fn has_goals(subject: &Subject<'_>, names: &PackedNames) -> bool
    ensures { (result ≡ true) ↔ (names.now ≡ map (name_of subject.now) subject.now.graph.goals) }
{
    let graph = subject.graph();
    let nodes = graph.nodes();
    let goals = graph.goals();
    if names.len() != goals.len() {
        return false;
    }
    for (place, goal) in goals.iter().enumerate() {
        if names.at(place) != nodes[*goal].name.as_str() {
            return false;
        }
    }
    true
}

/// Checks that there is no finding of `static_findings` and no race. Else the error is `Static`
/// (76) with the first one, static findings before races.
fn check_found(alloc: Global, subject: &Subject<'_>) -> Result<(), CertFault>
    ensures { (result ≡ Err Memory) ⊎ AnswersFound subject.now result }
{
    if let Some(finding) = first_static(alloc, subject)? {
        return Err(CertFault::Static(finding));
    }
    if let Some(finding) = first_race(alloc, subject)? {
        return Err(CertFault::Static(finding));
    }
    Ok(())
}

/// Checks that no entry is bad, then that each read that needs a way has an entry. The errors are
/// `BadWay` (75) with the first bad entry, and `NoWay` (74) with the first read without an entry.
fn check_ways(alloc: Global, subject: &Subject<'_>, ways: &Ways) -> Result<(), CertFault>
    ensures { (result ≡ Err Memory) ⊎ AnswersWays subject.now ways.now result }
{
    let carried = carried_lists(alloc, subject)?;
    let links = way_tables_of(alloc, subject, &carried)?;
    let mut seen = empty_sets(alloc, subject.graph().nodes().len())?;
    check_entries(alloc, subject, &links, ways, &mut seen)?;
    check_reads(alloc, subject, &seen)
}

/// Accepts the certificate if its goals are those of the graph, nothing is found in the footprints,
/// no entry is bad, and each read of a file that can change has an entry. Else the error is the
/// first of these that fails: `OtherGoals` (73), `Static` (76), `BadWay` (75), `NoWay` (74).
/// `Memory` can come in place of any result.
///
/// After `Ok`, every legal history is right: after each finished make of any of the goals, with any
/// number of jobs, any overlap of recipes, and any edits, makes and stops before it, the files of
/// all recipes that these goals reach hold what a clean build would give. Also, the same graph is
/// selected whatever part of the files that recipes write exists, for the goals and for each subset
/// of them.
pub fn verify(
    alloc: Global,
    subject: &Subject<'_>,
    certificate: &Certificate,
) -> Result<(), CertFault>
    ensures answer { (result ≡ Err Memory) ⊎ Verifies subject.now certificate.now result }
    ensures right { OnOk result (IsRight subject.now.graph (footprints subject.now.setting)) }
    ensures once { OnOk result (IsRightOnce subject.now.graph (footprints subject.now.setting)) }
    ensures selected { OnOk result (StaysSelected subject.now.makefile subject.now.there
        (all_writes subject.now) (map (name_of subject.now) subject.now.graph.goals)
        subject.now.graph) }
    ensures parts { OnOk result (PartsStay subject.now.makefile subject.now.there
        (all_writes subject.now) (map (name_of subject.now) subject.now.graph.goals)
        subject.now.graph) }
{
    verified_is_right();
    let _graph = subject.graph();
    if !has_goals(subject, &certificate.goals) {
        return Err(CertFault::OtherGoals);
    }
    check_found(alloc, subject)?;
    check_ways(alloc, subject, &certificate.ways)
}
