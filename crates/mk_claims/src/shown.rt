//! Which claims are shown.

ghost use Rattle.std.specs.Prelude.{◌≡◌, ◌++◌, map, IfOk, OnOk};
ghost use Rattle.std.specs.List.{list_any};
ghost use Rattle.mk_claims.specs.Claims.{claim_of, claim_view};
ghost use Rattle.mk_claims.specs.Untouched.{untouched};
ghost use Rattle.mk_claims.specs.Shown.{all_claims, is_static};

use crate::claim::{Claim, claims_of};
use crate::left_claims::untouched;
use mk_find::Finding;
use mk_subject::Subject;
use std::alloc::{AllocError, Global};

/// Whether findings of this kind hide races and stale reads.
fn is_static(finding: &Finding) -> bool
    ensures { result ≡ is_static finding.now }
{
    !matches!(finding, Finding::Race { .. } | Finding::Stale { .. })
}

/// Whether one of the findings hides races and stale reads.
pub fn has_static(findings: &[Finding]) -> bool
    ensures { result ≡ list_any is_static findings.now }
{
    findings.iter().any(|finding| is_static(finding))
}

/// Adds claims at the end.
fn push_all_claims<'a>(claims: &mut Vec<Claim<'a>>, more: &[Claim<'a>]) -> Result<(), AllocError>
    ensures { OnOk result (map claim_view claims.new.items ≡
        map claim_view claims.old.items ++ map claim_view more.now) }
{
    for claim in more {
        claims.push(*claim)?;
    }
    Ok(())
}

/// Adds what the hidden findings claim, without what mending the others touches.
fn add_later<'a>(
    alloc: Global,
    claims: &mut Vec<Claim<'a>>,
    subject: &'a Subject<'_>,
    hidden: &'a [Finding],
) -> Result<(), AllocError>
    ensures { OnOk result (map claim_view claims.new.items ≡ map claim_view claims.old.items ++
        untouched (map claim_view claims.old.items)
        (map (claim_of subject.entry.now) hidden.entry.now)) }
{
    let hidden = claims_of(alloc, subject, hidden)?;
    let left = untouched(alloc, claims.as_slice(), &hidden)?;
    push_all_claims(claims, &left)
}

/// What the findings of a no claim, and then, where one of them hides others, what these claim,
/// without what mending the findings touches. The only error is out of memory.
pub fn all_claims<'a>(
    alloc: Global,
    subject: &'a Subject<'_>,
    findings: &'a [Finding],
    hidden: &'a [Finding],
) -> Result<Vec<Claim<'a>>, AllocError>
    ensures { IfOk result (λ claims. map claim_view claims.items ≡
        all_claims subject.entry.now findings.entry.now hidden.entry.now) }
{
    let mut claims = claims_of(alloc, subject, findings)?;
    if has_static(findings) {
        add_later(alloc, &mut claims, subject, hidden)?;
    }
    Ok(claims)
}
