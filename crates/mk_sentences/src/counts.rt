//! How many findings there are, and how many of them lines mend.

ghost use Rattle.std.specs.Prelude.{◌≡◌, ◌++◌, filter, length, map, IfOk, OnOk};
ghost use Rattle.std.specs.List.{flat_map};
ghost use Rattle.std.specs.String.{string_bytes};
ghost use Rattle.mk_claims.specs.Claims.{claim_view};
ghost use Rattle.mk_sentences.specs.Counts.{by_number, counts_of, counts_text, has_line, mending, no_mending, offered_text, some_mending, whom};
ghost use Rattle.mk_claims.specs.Grouping.{group_of};
ghost use Rattle.mk_claims.specs.Tables.{groups_view};
ghost use Rattle.mk_lines.specs.Bytes.{is_byte};

use crate::adding::push_lines;
use mk_claims::{Claim, Groups};
use std::alloc::{AllocError, Global};

/// How many findings there are, and how many of them lines mend.
#[derive(Clone, Copy, Debug)]
pub struct Counts {
    /// How many findings there are.
    pub findings: usize,
    /// How many groups they form.
    pub groups: usize,
    /// How many lines to add there are.
    pub lines: usize,
    /// How many of the findings these mend.
    pub mended: usize,
}

/// Appends the lines to add of the groups.
fn push_offered(alloc: Global, out: &mut String, groups: &Groups<'_>) -> Result<(), AllocError>
    ensures { OnOk result (string_bytes out.new ≡ string_bytes out.old ++
        offered_text (map group_of (groups_view groups.now.entries))) }
{
    for place in 0..groups.len() {
        let Some((key, who)) = groups.get_index(place) else {
            continue;
        };
        if !key.topic.has_line {
            continue;
        }
        push_lines(alloc, out, &key.topic, who, key.what)?;
    }
    Ok(())
}

/// How many lines to add the groups have.
fn count_of_lines(alloc: Global, groups: &Groups<'_>) -> Result<usize, AllocError>
    ensures { IfOk result (λ count. count ≡ length (filter (is_byte 10)
        (offered_text (map group_of (groups_view groups.now.entries))))) }
{
    let mut text = String::new(alloc);
    push_offered(alloc, &mut text, groups)?;
    Ok(
        text.as_bytes()
            .iter()
            .filter(|byte| **byte == b'\n')
            .count(),
    )
}

/// How many of the claims a line mends.
fn count_of_mended(claims: &[Claim<'_>]) -> usize
    ensures { result ≡ length (filter has_line (map claim_view claims.now)) }
{
    claims.iter().filter(|claim| claim.topic.has_line).count()
}

/// The counts of claims and of their groups. The only error is out of memory.
pub fn counts_of(
    alloc: Global,
    claims: &[Claim<'_>],
    groups: &Groups<'_>,
) -> Result<Counts, AllocError>
    ensures { IfOk result (λ counts. counts ≡ counts_of (map claim_view claims.now)
        (map group_of (groups_view groups.now.entries))) }
{
    Ok(Counts {
        findings: claims.len(),
        groups: groups.len(),
        lines: count_of_lines(alloc, groups)?,
        mended: count_of_mended(claims),
    })
}

/// One of two forms of a word, by a number.
fn by_number(count: usize, one: &'static str, many: &'static str) -> &'static str
    ensures { result.now ≡ by_number count one.now many.now }
{
    if count == 1 { one } else { many }
}

/// Which of the findings lines mend.
#[tactic(auto, unfolding(crate::specs::Counts::whom))]
fn whom(alloc: Global, counts: &Counts) -> Result<String, AllocError>
    ensures { IfOk result (λ text. string_bytes text ≡ whom counts.now) }
{
    if counts.mended != counts.findings {
        return format!(in alloc; "{} of them", counts.mended);
    }
    String::from_str(alloc, by_number(counts.findings, "it", "all of them"))
}

/// That no line mends the findings.
#[tactic(auto, unfolding(crate::specs::Counts::no_mending))]
fn no_mending(alloc: Global, counts: &Counts) -> Result<String, AllocError>
    ensures { IfOk result (λ text. string_bytes text ≡ no_mending counts.now) }
{
    let whom = by_number(counts.findings, "it", "them");
    format!(in alloc; "no line mends {whom}")
}

/// How many lines there are, and which of the findings they mend.
#[tactic(auto, unfolding(crate::specs::Counts::some_mending))]
fn some_mending(alloc: Global, counts: &Counts) -> Result<String, AllocError>
    ensures { IfOk result (λ text. string_bytes text ≡ some_mending counts.now) }
{
    let lines = counts.lines;
    let mend = by_number(lines, " line mends ", " lines mend ");
    let whom = whom(alloc, counts)?;
    format!(in alloc; "{lines}{mend}{whom}")
}

/// What lines mend.
#[tactic(auto, unfolding(crate::specs::Counts::mending))]
fn mending(alloc: Global, counts: &Counts) -> Result<String, AllocError>
    ensures { IfOk result (λ text. string_bytes text ≡ mending counts.now) }
{
    if counts.lines == 0 {
        return no_mending(alloc, counts);
    }
    some_mending(alloc, counts)
}

/// Appends the line with the counts. The only error is out of memory.
pub fn push_counts(alloc: Global, out: &mut String, counts: &Counts) -> Result<(), AllocError>
    ensures { OnOk result (string_bytes out.new ≡ string_bytes out.old ++ counts_text counts.now) }
{
    let findings = counts.findings;
    let groups = counts.groups;
    let of = by_number(findings, " finding in ", " findings in ");
    let end = by_number(groups, " group; ", " groups; ");
    let mending = mending(alloc, counts)?;
    write!(out, "{findings}{of}{groups}{end}{mending}\n")
}
