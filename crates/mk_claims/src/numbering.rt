//! The numbers of the groups to which claims belong.

ghost use Rattle.std.specs.Prelude.{◌≡◌, List, map, IfOk};
ghost use Rattle.mk_repair.specs.Rows.{names_view};
ghost use Rattle.mk_claims.specs.Claims.{claim_view};
ghost use Rattle.mk_claims.specs.Grouping.{Group, group_of};
ghost use Rattle.mk_claims.specs.Joining.{JoinsAlike, joined_claim};
ghost use Rattle.mk_claims.specs.Tables.{groups_view, rows_view};
ghost use Rattle.mk_claims.specs.Topics.{topic_view};
ghost use Rattle.mk_claims.specs.Numbering.{group_number, number_with, row_number};

use crate::claim::Claim;
use crate::grouping::{GroupKey, Groups, RowKey, Rows};
use crate::joining::{ClaimSet, joined_claim};
use crate::topic::Topic;
use std::alloc::{AllocError, Global};

/// The number of the group with a topic and files, counted from 1 on; 0 where there is none.
fn number_with(groups: &Groups<'_>, topic: &Topic<'_>, files: &[&str]) -> usize
    ensures { result ≡ number_with (map group_of (groups_view groups.now.entries))
        (topic_view topic.now) (names_view files.now) }
{
    let group = GroupKey {
        topic: *topic,
        what: files,
    };
    let _many = groups.len();
    match groups.get_index_of(&group) {
        Some(place) => place + 1,
        None => 0,
    }
}

/// The numbers of the groups of the rows.
fn row_numbers(
    alloc: Global,
    rows: &Rows<'_>,
    groups: &Groups<'_>,
) -> Result<Vec<usize>, AllocError>
    ensures { IfOk result (λ numbers. numbers.items ≡ map
        (row_number (map group_of (groups_view groups.now.entries)))
        (rows_view rows.now.entries)) }
{
    let mut numbers = Vec::with_capacity(alloc, rows.len())?;
    for place in 0..rows.len() {
        let Some((key, files)) = rows.get_index(place) else {
            continue;
        };
        numbers.push(number_with(groups, &key.topic, files.as_slice()))?;
    }
    Ok(numbers)
}

/// The number of the group to which a claim belongs, given those of the rows. Allocates nothing.
fn group_number(rows: &Rows<'_>, numbers: &[usize], claim: &Claim<'_>) -> usize
    ensures { (groups : List Group) → numbers.now ≡
        map (row_number groups) (rows_view rows.now.entries) → result ≡
        group_number (rows_view rows.now.entries) groups (claim_view claim.now) }
{
    let row = RowKey {
        topic: claim.topic,
        who: claim.who,
    };
    let Some(place) = rows.get_index_of(&row) else {
        return 0;
    };
    match numbers.get(place) {
        Some(number) => *number,
        None => 0,
    }
}

/// The numbers of the groups to which the claims belong, given those of the rows.
fn numbers_by_rows(
    alloc: Global,
    claims: &[Claim<'_>],
    set: &ClaimSet<'_>,
    rows: &Rows<'_>,
    numbers: &[usize],
) -> Result<Vec<usize>, AllocError>
    ensures { (groups : List Group) → numbers.now ≡
        map (row_number groups) (rows_view rows.now.entries) → IfOk result (λ found.
        found.items ≡ map (λ c. group_number (rows_view rows.now.entries) groups
        (joined_claim set.now c)) (map claim_view claims.now)) }
{
    let mut found = Vec::with_capacity(alloc, claims.len())?;
    for claim in claims {
        found.push(group_number(rows, numbers, &joined_claim(set, claim)))?;
    }
    Ok(found)
}

/// The numbers of the groups to which the claims belong, counted from 1 on, given the set of the
/// claims, and the rows and groups of what they are together. Takes time linear in the claims. The
/// only error is out of memory.
pub fn group_numbers(
    alloc: Global,
    claims: &[Claim<'_>],
    set: &ClaimSet<'_>,
    rows: &Rows<'_>,
    groups: &Groups<'_>,
) -> Result<Vec<usize>, AllocError>
    requires { JoinsAlike set.now (map claim_view claims.now) }
    ensures { IfOk result (λ numbers. numbers.items ≡ map (λ c.
        group_number (rows_view rows.now.entries) (map group_of (groups_view groups.now.entries))
        (joined_claim (map claim_view claims.now) c)) (map claim_view claims.now)) }
{
    let numbers = row_numbers(alloc, rows, groups)?;
    numbers_by_rows(alloc, claims, set, rows, &numbers)
}
