//! Checks that each read that needs a way has an entry.

ghost use Rattle.std.specs.Prelude.{◌≡◌, ◌⊎◌, ◌↔◌, List, true, Err, IfOk, MatchOption};
ghost use Rattle.mk_graph.specs.Membership.{Has};
ghost use Rattle.mk_cert_text.specs.Certificate.{Way};
ghost use Rattle.mk_subject.specs.Subject.{reads_of};
ghost use Rattle.mk_subject.specs.NodeRow.{IsRow};
ghost use Rattle.mk_cert.specs.WalkTables.{AreSeen};
ghost use Rattle.mk_subject.specs.Target.{target_of};
ghost use Rattle.mk_find.specs.Listing.{IsFirstIn};
ghost use Rattle.mk_subject.specs.Reads.{Read};
ghost use Rattle.mk_cert.specs.Verdict.{LacksWay};
ghost use Rattle.mk_cert.specs.Checks.{AnswersReads, reads_by};
ghost use Rattle.mk_cert.specs.declared.fault.CertFault.TheVariants.{Memory, NoWay};

use crate::fault::CertFault;
use crate::seen_names::SeenNames;
use crate::walking::stands_at;
use mk_graph::laws::serial_reaches_each_once;
use mk_lines::Name;
use mk_subject::{NodeRow, Subject, Target};
use std::alloc::{AllocError, Global};

/// Whether the file can change and isn't in the recipe's set of `seen`.
fn lacks(
    subject: &Subject<'_>,
    seen: &[SeenNames<'_>],
    row: &NodeRow<'_>,
    file: &Target<'_>,
) -> bool
    requires row { IsRow subject.now row.now }
    requires file { file.now ≡ target_of subject.now file.now.file }
    requires read { Has (reads_of subject.now row.now.number) file.now.file }
    ensures { (ways : List Way) → AreSeen subject.now ways seen.now → (result ≡ true) ↔
        LacksWay subject.now ways (record {
          recipe = row.now.number;
          file = file.now.file;
        }) }
{
    let _graph = subject.graph();
    file.can_change(subject) && !stands_at(seen, row.number, file.file)
}

/// The first file that the recipe reads and that can change but isn't in the recipe's set of
/// `seen`.
fn first_lacking<'s>(
    subject: &'s Subject<'_>,
    seen: &[SeenNames<'_>],
    row: &NodeRow<'_>,
) -> Option<&'s str>
    requires { IsRow subject.now row.now }
    ensures { (ways : List Way) → AreSeen subject.entry.now ways seen.now →
        MatchOption result
        ((r : Read) → Has (reads_by subject.entry.now row.now.number) r →
        ¬ (LacksWay subject.entry.now ways r))
        (λ file. IsFirstIn (LacksWay subject.entry.now ways)
        (reads_by subject.entry.now row.now.number)
        (record { recipe = row.now.number; file = file.now })) }
{
    for place in 0..subject.count_of_unsettled(row.number) {
        let file = subject.unsettled(row.number, place);
        if lacks(subject, seen, row, &file) {
            return Some(file.file);
        }
    }
    None
}

/// The fault for a read without an entry.
fn no_way(alloc: Global, row: &NodeRow<'_>, file: &str) -> Result<CertFault, AllocError>
    ensures { IfOk result (λ fault. fault ≡ NoWay row.now.node.name file.now) }
{
    let recipe = row.copy_of_name()?;
    let file = Name::new(alloc, file)?;
    Ok(CertFault::NoWay { recipe, file })
}

/// Checks that each read that needs a way is in `seen`. The errors are `NoWay` (74) with the first
/// that isn't, and out of memory.
pub fn check_reads(
    alloc: Global,
    subject: &Subject<'_>,
    seen: &[SeenNames<'_>],
) -> Result<(), CertFault>
    ensures { (ways : List Way) → AreSeen subject.now ways seen.now →
        (result ≡ Err Memory) ⊎ AnswersReads subject.now ways result }
{
    serial_reaches_each_once();
    let _graph = subject.graph();
    let entries = subject.entries();
    for entry in entries {
        if let Some(file) = first_lacking(subject, seen, entry) {
            return Err(no_way(alloc, entry, file)?);
        }
    }
    Ok(())
}
