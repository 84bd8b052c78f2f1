//! Claims that mending others doesn't touch.

ghost use Rattle.std.specs.Prelude.{◌≡◌, ◌||◌, ◌&&◌, map, IfOk};
ghost use Rattle.mk_lines.specs.Names.{HoldsNames, has_name};
ghost use Rattle.mk_claims.specs.Claims.{claim_view};
ghost use Rattle.mk_claims.specs.Untouched.{file_about, is_stale, phony_by, untouched};

use crate::claim::Claim;
use crate::topic::Kind;
use mk_lines::BorrowedNames;
use std::alloc::{AllocError, Global};

/// The file that mending the claim may change; empty if there is none.
fn file_about<'a>(claim: &Claim<'a>) -> &'a str
    ensures { result.now ≡ file_about (claim_view claim.now) }
{
    match claim.topic.kind {
        Kind::NoRecord | Kind::NoTarget | Kind::TwoWriters | Kind::Loose | Kind::OwnPrerequisite =>
            claim.who,
        Kind::GivenWritten
        | Kind::OwnRead
        | Kind::UnknownRead
        | Kind::UnrecordedRead
        | Kind::UnreachedRead => claim.what,
        _ => "",
    }
}

/// The files that mending the claims may change.
fn files_about<'a>(alloc: Global, claims: &[Claim<'a>]) -> Result<BorrowedNames<'a>, AllocError>
    ensures { IfOk result (λ set. HoldsNames set
        (map file_about (map claim_view claims.now))) }
{
    let mut set = BorrowedNames::new(alloc);
    for claim in claims {
        set.insert(file_about(claim))?;
    }
    Ok(set)
}

/// The target that the line for the claim makes phony; empty if there is none.
fn phony_by<'a>(claim: &Claim<'a>) -> &'a str
    ensures { result.now ≡ phony_by (claim_view claim.now) }
{
    match claim.topic.kind {
        Kind::NoTarget => { if claim.topic.has_line { claim.who } else { "" } }
        _ => "",
    }
}

/// The targets that the lines for the claims make phony.
fn phonies<'a>(alloc: Global, claims: &[Claim<'a>]) -> Result<BorrowedNames<'a>, AllocError>
    ensures { IfOk result (λ set. HoldsNames set
        (map phony_by (map claim_view claims.now))) }
{
    let mut set = BorrowedNames::new(alloc);
    for claim in claims {
        set.insert(phony_by(claim))?;
    }
    Ok(set)
}

/// Whether claims of this kind are about stale reads.
fn is_stale(kind: Kind) -> bool
    ensures { result ≡ is_stale kind }
{
    matches!(kind, Kind::Stale | Kind::OutputStale)
}

/// Whether mending the first claims touches the other one, given the files that it may change and
/// the targets that it makes phony.
fn is_touched(files: &BorrowedNames<'_>, targets: &BorrowedNames<'_>, claim: &Claim<'_>) -> bool
    ensures { result ≡ (has_name files.now claim.now.what.now ||
        (is_stale claim.now.topic.kind && has_name targets.now claim.now.who.now)) }
{
    files.contains(claim.what) || (is_stale(claim.topic.kind) && targets.contains(claim.who))
}

/// Those of the second claims that mending the first ones doesn't touch. Takes time linear in all
/// claims. The only error is out of memory.
pub fn untouched<'a>(
    alloc: Global,
    claims: &[Claim<'_>],
    hidden: &[Claim<'a>],
) -> Result<Vec<Claim<'a>>, AllocError>
    ensures { IfOk result (λ left. map claim_view left.items ≡
        untouched (map claim_view claims.now) (map claim_view hidden.now)) }
{
    let files = files_about(alloc, claims)?;
    let targets = phonies(alloc, claims)?;
    let mut left = Vec::new(alloc);
    for claim in hidden {
        if is_touched(&files, &targets, claim) {
            continue;
        }
        left.push(*claim)?;
    }
    Ok(left)
}
