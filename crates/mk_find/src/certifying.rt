//! Builds the certificate of a build without findings.

ghost use Rattle.std.specs.Prelude.{◌≡◌, ◌<◌, ◌∷◌, ◌++◌, [], ℕ, length, map, IfOk, OnOk};
ghost use Rattle.mk_cert_text.specs.Certificate.{Way as WayValue};
ghost use Rattle.mk_graph.specs.Membership.{Has};
ghost use Rattle.mk_find.specs.Candidates.{static_candidates, stale_candidates};
ghost use Rattle.mk_find.specs.FileRead.{IsRead};
ghost use Rattle.mk_find.specs.Listing.{Lists};
ghost use Rattle.mk_subject.specs.Subject.{name_of};
ghost use Rattle.mk_find.specs.Certifying.{HasShortestWays, IsCertificate, IsEntryFor};
ghost use Rattle.mk_find.specs.FirstPaths.{IsAlongFirstPath};

use crate::file_read::FileRead;
use crate::finding_laws::list_is_one;
use crate::finding_list::FindingList;
use crate::first_path::FirstPath;
use crate::stale_findings::judge_all;
use crate::way_laws::certificate_is_shortest;
use mk_cert_text::{Certificate, PackedNames, Ways};
use mk_subject::Subject;
use mk_subject::laws::carried_exactly;
use std::alloc::{AllocError, Global};
use std::marker::Model;

/// The total length of these nodes' names in bytes.
fn room_for(subject: &Subject<'_>, nodes: &[usize]) -> usize
    requires { (n : ℕ) → Has nodes.now n → n < length subject.now.graph.nodes }
{
    let mut bytes = 0usize;
    for node in nodes {
        bytes = bytes.saturating_add(subject.name(*node).len());
    }
    bytes
}

/// The names of these nodes, in their order. The only error is out of memory.
pub(crate) fn names_of(
    alloc: Global,
    subject: &Subject<'_>,
    nodes: &[usize],
) -> Result<PackedNames, AllocError>
    requires { (n : ℕ) → Has nodes.now n → n < length subject.now.graph.nodes }
    ensures { IfOk result (λ names. names ≡ map (name_of subject.now) nodes.now) }
{
    let room = room_for(subject, nodes);
    let mut names = PackedNames::with_capacity(alloc, nodes.len(), room)?;
    for node in nodes {
        names.push(subject.name(*node))?;
    }
    Ok(names)
}

/// A list of certificate entries under construction, with a buffer for the names of a path. Its
/// model is the list of ways.
#[derive(Drop)]
pub(crate) struct CertificateBuilder {
    ways: Ways,
    path: PackedNames,
}

impl Model for CertificateBuilder {
    ghost use Rattle.std.specs.Prelude.{List};
    ghost use Rattle.mk_cert_text.specs.Certificate as value;

    ghost Value = { List value.Way };

    ghost view = { λ e. e.ways };
}

/// Replaces the contents of `names` by the names of these nodes.
fn name_all(
    names: &mut PackedNames,
    subject: &Subject<'_>,
    nodes: &[usize],
) -> Result<(), AllocError>
    requires { (n : ℕ) → Has nodes.now n → n < length subject.now.graph.nodes }
    ensures { OnOk result (names.new ≡ map (name_of subject.now) nodes.now) }
{
    names.clear();
    for node in nodes {
        names.push(subject.name(*node))?;
    }
    Ok(())
}

impl CertificateBuilder {
    /// No entries, with capacity for `entries` of them. The only error is out of memory.
    pub fn with_capacity(alloc: Global, entries: usize) -> Result<CertificateBuilder, AllocError>
        ensures { IfOk result (λ entries. entries ≡ []) }
    {
        Ok(CertificateBuilder {
            ways: Ways::with_capacity(alloc, entries)?,
            path: PackedNames::new(alloc),
        })
    }

    /// The entries, without the buffer.
    pub fn into_ways(self) -> Ways
        ensures { result ≡ self }
    {
        self.ways
    }

    /// Appends the entry for this read, where `path` is the first path to its file. The only error
    /// is out of memory.
    pub fn push(&mut self, read: &FileRead<'_, '_>, path: &FirstPath) -> Result<(), AllocError>
        requires read { IsRead read.now }
        requires first { IsAlongFirstPath read.now.subject.now read.now.file.file
            read.now.row.now.number path.now.nodes.items path.now.finish }
        ensures { OnOk result ((way : WayValue) × IsEntryFor read.now.subject.now
            (record { recipe = read.now.row.now.number; file = read.now.file.file }) way ×
            (self.new ≡ self.old ++ way ∷ [])) }
    {
        carried_exactly();
        name_all(&mut self.path, read.subject, &path.nodes)?;
        self.ways
            .push(read.row.name(), read.name(), &self.path, path.finish)
    }
}

/// The certificate of a build without findings: for each read of a file that can change, its first
/// path, by the position of the recipe in the serial order and then of the file in its record. No
/// path for such a read is shorter. The only error is out of memory.
pub fn certify(alloc: Global, subject: &Subject<'_>) -> Result<Certificate, AllocError>
    requires nothing { Lists subject.now (static_candidates subject.now) [] }
    requires no_stale { Lists subject.now (stale_candidates subject.now) [] }
    ensures certificate { IfOk result (λ certificate. IsCertificate subject.now certificate) }
    ensures shortest { IfOk result (λ certificate. HasShortestWays subject.now certificate) }
{
    certificate_is_shortest();
    list_is_one();
    let graph = subject.graph();
    let goals = names_of(alloc, subject, graph.goals())?;
    let mut found = FindingList::new(alloc);
    let ways = judge_all(alloc, subject, &mut found)?;
    Ok(Certificate { goals, ways })
}
