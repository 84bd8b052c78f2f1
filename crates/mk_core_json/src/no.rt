//! Writes a no as JSON: its findings, and groups of them.

ghost use Rattle.std.specs.Prelude.{◌≡◌, ◌++◌, drop, false, length, map, take, IfOk, OnOk};
ghost use Rattle.std.specs.String.{string_bytes};
ghost use Rattle.serde_json.specs.View.{items_of, view};
ghost use Rattle.serde_json.specs.Written.{compact_text, items_text};
ghost use Rattle.mk_repair.specs.Gathering.{gathered};
ghost use Rattle.mk_claims.specs.Claims.{claim_view};
ghost use Rattle.mk_claims.specs.Grouping.{group_key_eq, group_of, group_pair, groups, rows};
ghost use Rattle.mk_claims.specs.Joining.{JoinsAlike, joined};
ghost use Rattle.mk_claims.specs.Tables.{groups_view, rows_view};
ghost use Rattle.mk_core_json.specs.InJsonAnswer.{ShowsClaims};
ghost use Rattle.mk_core_json.specs.NoValue.{counts_value, found_text, groups_values, no_value};

use crate::finding::push_findings;
use crate::group::push_groups;
use crate::writing::{line_of, push_value};
use mk_claims::{
    Claim, ClaimSet, Groups, Rows, all_claims, claim_set, claims_offered, group_numbers, groups_of,
    joined_rows, offers_of,
};
use mk_find::Finding;
use mk_read::Makefile;
use mk_sentences::{Counts, Places, counts_of};
use mk_subject::Subject;
use serde_json::{Value, json};
use std::alloc::{AllocError, Global};

/// Makes the JSON value of the counts.
fn counts_value(alloc: Global, counts: &Counts) -> Result<Value, AllocError>
    ensures { IfOk result (λ value. view value ≡ counts_value counts.now) }
{
    json!(in alloc; {
        "findings": counts.findings,
        "groups": counts.groups,
        "lines": counts.lines,
        "mended": counts.mended
    })
}

/// Appends the text of the counts.
fn push_counts(alloc: Global, text: &mut String, counts: &Counts) -> Result<(), AllocError>
    ensures { OnOk result (string_bytes text.new ≡
        string_bytes text.old ++ compact_text (counts_value counts.now)) }
{
    let value = counts_value(alloc, counts)?;
    push_value(alloc, text, &value)
}

/// Appends the texts of the groups, separated by commas, and the closing bracket.
fn push_placed(
    alloc: Global,
    text: &mut String,
    makefile: &Makefile,
    groups: &Groups<'_>,
) -> Result<(), AllocError>
    ensures { OnOk result (string_bytes text.new ≡ string_bytes text.old ++ items_text false
        (items_of (groups_values makefile.now
        (map group_of (groups_view groups.now.entries))))) }
{
    let places = Places::new(alloc, makefile)?;
    push_groups(alloc, text, &places, groups)
}

/// Claims, and what joins those of a race with those of a stale read.
#[derive(Drop)]
struct JoinedClaims<'c> {
    /// The claims.
    list: &'c [Claim<'c>],
    /// The set of them, which finds the other claim of a pair.
    set: ClaimSet<'c>,
    /// The rows of the joined claims.
    rows: Rows<'c>,
}

/// Appends the texts of the counts, of the findings, and of the groups of what these claim.
fn push_grouped(
    alloc: Global,
    text: &mut String,
    makefile: &Makefile,
    found: &[Finding],
    claims: &JoinedClaims<'_>,
) -> Result<(), AllocError>
    requires set { JoinsAlike claims.now.set (map claim_view claims.now.list.now) }
    requires rows { rows_view claims.now.rows.entries ≡
        rows (joined (map claim_view claims.now.list.now)) }
    ensures { OnOk result (string_bytes text.new ≡ string_bytes text.old ++
        found_text makefile.now found.now (map claim_view claims.now.list.now)) }
{
    let list = claims.list;
    let groups = groups_of(alloc, &claims.rows)?;
    let counts = counts_of(alloc, list, &groups)?;
    let numbers = group_numbers(alloc, list, &claims.set, &claims.rows, &groups)?;
    push_counts(alloc, text, &counts)?;
    text.push_str(",\"findings\":[")?;
    push_findings(alloc, text, found, numbers.as_slice())?;
    text.push_str(",\"format\":1,\"groups\":[")?;
    push_placed(alloc, text, makefile, &groups)
}

/// Appends the texts of the counts, of the findings, and of the groups of what these claim.
fn push_found(
    alloc: Global,
    text: &mut String,
    makefile: &Makefile,
    found: &[Finding],
    claims: &[Claim<'_>],
) -> Result<(), AllocError>
    ensures { OnOk result (string_bytes text.new ≡
        string_bytes text.old ++ found_text makefile.now found.now (map claim_view claims.now)) }
{
    let set = claim_set(alloc, claims)?;
    let rows = joined_rows(alloc, &set, claims)?;
    let joined = JoinedClaims {
        list: claims,
        set,
        rows,
    };
    push_grouped(alloc, text, makefile, found, &joined)
}

/// Appends the texts of the groups of rows, separated by commas, and the closing bracket.
fn push_rows(
    alloc: Global,
    text: &mut String,
    makefile: &Makefile,
    rows: &Rows<'_>,
) -> Result<(), AllocError>
    ensures { OnOk result (string_bytes text.new ≡ string_bytes text.old ++ items_text false
        (items_of (groups_values makefile.now (map group_of
        (gathered group_key_eq (map group_pair (rows_view rows.now.entries))))))) }
{
    let groups = groups_of(alloc, rows)?;
    push_placed(alloc, text, makefile, &groups)
}

/// Appends the texts of the groups of claims, separated by commas, and the closing bracket.
fn push_later(
    alloc: Global,
    text: &mut String,
    makefile: &Makefile,
    claims: &[Claim<'_>],
) -> Result<(), AllocError>
    ensures { OnOk result (string_bytes text.new ≡ string_bytes text.old ++ items_text false
        (items_of (groups_values makefile.now (groups (joined (map claim_view claims.now)))))) }
{
    let set = claim_set(alloc, claims)?;
    let rows = joined_rows(alloc, &set, claims)?;
    push_rows(alloc, text, makefile, &rows)
}

/// The text of the answer no, given what the findings and then what those claim that they hide.
fn no_value_text(
    alloc: Global,
    makefile: &Makefile,
    found: &[Finding],
    claims: &[Claim<'_>],
) -> Result<String, AllocError>
    ensures { IfOk result (λ text. string_bytes text ≡
        compact_text (no_value makefile.now found.now (map claim_view claims.now))) }
{
    let count = found.len().min(claims.len());
    let mut text = String::from_str(alloc, "{\"answer\":\"no\",\"counts\":")?;
    push_found(alloc, &mut text, makefile, found, &claims[..count])?;
    text.push_str(",\"later\":[")?;
    push_later(alloc, &mut text, makefile, &claims[count..])?;
    text.push_str("}")?;
    Ok(text)
}

/// What is printed for the answer no, with the findings that these hide. The only error is out of
/// memory.
pub fn no_text(
    alloc: Global,
    subject: &Subject<'_>,
    found: &[Finding],
    hidden: &[Finding],
) -> Result<Vec<u8>, AllocError>
    ensures { IfOk result (λ text. ShowsClaims subject.now found.now hidden.now text.items) }
{
    let claims = all_claims(alloc, subject, found, hidden)?;
    let offers = offers_of(alloc, subject, &claims)?;
    drop(claims);
    let claims = claims_offered(alloc, &offers)?;
    let text = no_value_text(alloc, subject.makefile(), found, &claims)?;
    line_of(text)
}
