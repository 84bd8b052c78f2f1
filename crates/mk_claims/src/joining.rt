//! Claims of a race and a stale read of the same recipe and file as one.

ghost use Rattle.std.specs.Prelude.{◌≡◌, [], map, IfOk, OnOk};
ghost use Rattle.std.specs.List.{list_any};
ghost use Rattle.mk_claims.specs.Claims.{claim_view};
ghost use Rattle.mk_claims.specs.Grouping.{rows};
ghost use Rattle.mk_claims.specs.Joining.{HoldsClaims, JoinsAlike, both_of, has_claim, is_joined, is_of_race, is_paired, is_second, joined, joined_claim, other_of, partner, with_claim, with_kind};
ghost use Rattle.mk_claims.specs.Tables.{rows_view};

use crate::claim::Claim;
use crate::grouping::{Rows, rows_of};
use crate::topic::{Kind, Topic};
use indexmap::IndexSet;
use std::alloc::{AllocError, Global};
use std::marker::Model;

/// A set of claims, seen by contracts as the list of them.
#[derive(Drop)]
pub struct ClaimSet<'a> {
    claims: IndexSet<Claim<'a>>,
}

impl<'a> Model for ClaimSet<'a> {
    ghost use Rattle.std.specs.Prelude.{List, map};
    ghost use Rattle.mk_claims.specs.Claims.{Claim as ClaimValue, claim_view};

    ghost Value = { List ClaimValue };

    ghost view = { λ s. map claim_view s.claims.keys };
}

impl<'a> ClaimSet<'a> {
    /// The empty set.
    fn new(alloc: Global) -> ClaimSet<'a>
        ensures { result ≡ [] }
    {
        ClaimSet {
            claims: IndexSet::new(alloc),
        }
    }

    /// Adds a claim at the end, unless the set has it. The only error is out of memory.
    fn insert(&mut self, claim: Claim<'a>) -> Result<(), AllocError>
        ensures { OnOk result (self.new ≡ with_claim self.old (claim_view claim.entry)) }
    {
        self.claims.insert(claim)?;
        Ok(())
    }

    /// Whether the set has the claim.
    fn has(&self, claim: Claim<'_>) -> bool
        ensures { result ≡ has_claim self.now (claim_view claim.entry) }
    {
        !self.claims.is_empty() && self.claims.contains(&claim)
    }
}

/// The kind of a stale read for that of a race, and the other way round; other kinds stay.
fn other_of(kind: Kind) -> Kind
    ensures { result ≡ other_of kind }
{
    match kind {
        Kind::Race => Kind::Stale,
        Kind::Stale => Kind::Race,
        Kind::OutputRace => Kind::OutputStale,
        Kind::OutputStale => Kind::OutputRace,
        _ => kind,
    }
}

/// The kind of a race together with a stale read; other kinds stay.
fn both_of(kind: Kind) -> Kind
    ensures { result ≡ both_of kind }
{
    match kind {
        Kind::Race | Kind::Stale => Kind::RaceAndStale,
        Kind::OutputRace | Kind::OutputStale => Kind::OutputRaceAndStale,
        _ => kind,
    }
}

/// The claim as one of another kind.
fn with_kind<'a>(claim: &Claim<'a>, kind: Kind) -> Claim<'a>
    ensures { claim_view result ≡ with_kind (claim_view claim.now) kind }
{
    let topic = Topic {
        kind,
        has_line: claim.topic.has_line,
        first: claim.topic.first,
        second: claim.topic.second,
        cycle: claim.topic.cycle,
    };
    Claim {
        topic,
        who: claim.who,
        what: claim.what,
    }
}

/// The claim of a stale read for that of a race, and the other way round.
fn partner<'a>(claim: &Claim<'a>) -> Claim<'a>
    ensures { claim_view result ≡ partner (claim_view claim.now) }
{
    with_kind(claim, other_of(claim.topic.kind))
}

/// The set of the claims.
fn set_of<'a>(alloc: Global, claims: &[Claim<'a>]) -> Result<ClaimSet<'a>, AllocError>
    ensures { IfOk result (λ set. HoldsClaims set (map claim_view claims.now)) }
{
    let mut set = ClaimSet::new(alloc);
    for claim in claims {
        set.insert(*claim)?;
    }
    Ok(set)
}

/// Whether the claim is about a race.
fn is_of_race(claim: &Claim<'_>) -> bool
    ensures { result ≡ is_of_race (claim_view claim.now) }
{
    matches!(claim.topic.kind, Kind::Race | Kind::OutputRace)
}

/// Whether one of the claims is about a race.
fn has_race(claims: &[Claim<'_>]) -> bool
    ensures { result ≡ list_any (λ c. is_of_race (claim_view c)) claims.now }
{
    claims.iter().any(|claim| is_of_race(claim))
}

/// A set that tells which of the claims are joined with others: without a race, the empty one. The
/// only error is out of memory.
pub fn claim_set<'a>(alloc: Global, claims: &[Claim<'a>]) -> Result<ClaimSet<'a>, AllocError>
    ensures { IfOk result (λ set. JoinsAlike set (map claim_view claims.now)) }
{
    if !has_race(claims) {
        return Ok(ClaimSet::new(alloc));
    }
    set_of(alloc, claims)
}

/// Whether claims of this kind are about a race or a stale read.
fn is_paired(kind: Kind) -> bool
    ensures { result ≡ is_paired kind }
{
    matches!(
        kind,
        Kind::Race | Kind::Stale | Kind::OutputRace | Kind::OutputStale
    )
}

/// Whether the claim is about a race or a stale read, and the other one is among the claims.
fn is_joined(set: &ClaimSet<'_>, claim: &Claim<'_>) -> bool
    ensures { result ≡ is_joined set.now (claim_view claim.now) }
{
    is_paired(claim.topic.kind) && set.has(partner(claim))
}

/// The claim as it is grouped: of a race and a stale read together where the other one is among the
/// claims.
pub fn joined_claim<'a>(set: &ClaimSet<'_>, claim: &Claim<'a>) -> Claim<'a>
    ensures { claim_view result ≡ joined_claim set.now (claim_view claim.now) }
{
    if is_joined(set, claim) {
        with_kind(claim, both_of(claim.topic.kind))
    } else {
        *claim
    }
}

/// Whether the claim is of a stale read whose race is among the claims.
fn is_second(set: &ClaimSet<'_>, claim: &Claim<'_>) -> bool
    ensures { result ≡ is_second set.now (claim_view claim.now) }
{
    matches!(claim.topic.kind, Kind::Stale | Kind::OutputStale) && is_joined(set, claim)
}

/// The claims as they are grouped: a race and a stale read of the same recipe and file are one, at
/// the place of the race.
fn joined_claims<'a>(
    alloc: Global,
    set: &ClaimSet<'_>,
    claims: &[Claim<'a>],
) -> Result<Vec<Claim<'a>>, AllocError>
    requires { JoinsAlike set.now (map claim_view claims.now) }
    ensures { IfOk result (λ left. map claim_view left.items ≡
        joined (map claim_view claims.now)) }
{
    let mut left = Vec::with_capacity(alloc, claims.len())?;
    for claim in claims {
        if is_second(set, claim) {
            continue;
        }
        left.push(joined_claim(set, claim))?;
    }
    Ok(left)
}

/// The rows of claims as they are grouped, given their set: a race and a stale read of the same
/// recipe and file are one, at the place of the race. Takes time linear in the claims. The only
/// error is out of memory.
pub fn joined_rows<'a>(
    alloc: Global,
    set: &ClaimSet<'_>,
    claims: &[Claim<'a>],
) -> Result<Rows<'a>, AllocError>
    requires { JoinsAlike set.now (map claim_view claims.now) }
    ensures { IfOk result (λ table. rows_view table.entries ≡
        rows (joined (map claim_view claims.now))) }
{
    let joined = joined_claims(alloc, set, claims)?;
    rows_of(alloc, &joined)
}
