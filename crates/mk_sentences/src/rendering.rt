//! The text of findings in sentences.

ghost use Rattle.std.specs.Prelude.{◌≡◌, ◌++◌, map, IfOk, OnOk};
ghost use Rattle.std.specs.List.{flat_map};
ghost use Rattle.std.specs.String.{string_bytes};
ghost use Rattle.mk_repair.specs.Gathering.{gathered};
ghost use Rattle.mk_repair.specs.Rows.{names_view};
ghost use Rattle.mk_claims.specs.Topics.{topic_view};
ghost use Rattle.mk_claims.specs.Claims.{claim_view};
ghost use Rattle.mk_claims.specs.Grouping.{group_key_eq, group_of, group_pair};
ghost use Rattle.mk_claims.specs.Tables.{groups_view, rows_view};
ghost use Rattle.mk_sentences.specs.Places.{first_name};
ghost use Rattle.mk_sentences.specs.Text.{HasSentences, all_text, claims_text, group_text, groups_text, hidden_text, repair_text, shown_name, then_text, to_do, word_text};

use crate::adding::push_added_lines;
use crate::advice::push_advice;
use crate::counts::{counts_of, push_counts};
use crate::listing::{push_left_out, who_are};
use crate::places::{Places, push_head};
use crate::sentence::push_sentence;
use mk_claims::{
    Claim, GroupKey, Groups, Kind, Rows, Topic, all_claims, claim_set, claims_offered, groups_of,
    has_static, joined_rows, kind_word, offers_of,
};
use mk_find::Finding;
use mk_read::Makefile;
use mk_subject::Subject;
use std::alloc::{AllocError, Global};

/// The first of some names; empty if there is none.
fn first_name<'a>(names: &[&'a str]) -> &'a str
    ensures { result.now ≡ first_name (names_view names.now) }
{
    match names {
        [name, ..] => *name,
        [] => "",
    }
}

/// The name at whose line a group is shown: the first of two writers, else the first name of the
/// group.
pub fn shown_name<'a>(topic: &Topic<'a>, who: &[&'a str]) -> &'a str
    ensures { result.now ≡ shown_name (topic_view topic.now) (names_view who.now) }
{
    match topic.kind {
        Kind::TwoWriters => topic.first,
        _ => first_name(who),
    }
}

/// Appends what to do about a group that no line mends, and the names that its sentence leaves out.
fn push_to_do(
    alloc: Global,
    out: &mut String,
    topic: &Topic<'_>,
    who: &[&str],
    what: &[&str],
) -> Result<(), AllocError>
    ensures { OnOk result (string_bytes out.new ≡ string_bytes out.old ++ to_do
        (topic_view topic.now) (names_view who.now) (names_view what.now)) }
{
    out.push_str("  do: ")?;
    push_advice(alloc, out, topic, who, what)?;
    out.push_str("\n")?;
    push_left_out(alloc, out, who_are(topic.kind), who)?;
    push_left_out(alloc, out, "files", what)
}

/// Appends the lines to add where they mend the group, else what to do.
fn push_repair(
    alloc: Global,
    out: &mut String,
    topic: &Topic<'_>,
    who: &[&str],
    what: &[&str],
) -> Result<(), AllocError>
    ensures { OnOk result (string_bytes out.new ≡ string_bytes out.old ++ repair_text
        (topic_view topic.now) (names_view who.now) (names_view what.now)) }
{
    if topic.has_line {
        push_added_lines(alloc, out, topic, who, what)
    } else {
        push_to_do(alloc, out, topic, who, what)
    }
}

/// Appends the word of a kind in brackets, and a newline.
fn push_word(out: &mut String, kind: Kind) -> Result<(), AllocError>
    ensures { OnOk result (string_bytes out.new ≡ string_bytes out.old ++ word_text kind) }
{
    let word = kind_word(kind);
    write!(out, " [{word}]\n")
}

/// Appends the text of the group with this key, which these names belong to.
fn push_group(
    alloc: Global,
    out: &mut String,
    places: &Places<'_>,
    key: &GroupKey<'_>,
    who: &[&str],
) -> Result<(), AllocError>
    ensures { OnOk result (string_bytes out.new ≡ string_bytes out.old ++ group_text places.now
        (record {
          topic = topic_view key.now.topic;
          what = names_view key.now.what.now;
          who = names_view who.now;
        })) }
{
    let topic = &key.topic;
    push_head(out, places, shown_name(topic, who))?;
    push_sentence(alloc, out, topic, who, key.what)?;
    push_word(out, topic.kind)?;
    push_repair(alloc, out, topic, who, key.what)
}

/// Appends the text of each group.
fn push_groups(
    alloc: Global,
    out: &mut String,
    places: &Places<'_>,
    groups: &Groups<'_>,
) -> Result<(), AllocError>
    ensures { OnOk result (string_bytes out.new ≡ string_bytes out.old ++
        flat_map (group_text places.now) (map group_of (groups_view groups.now.entries))) }
{
    for place in 0..groups.len() {
        let Some((key, who)) = groups.get_index(place) else {
            continue;
        };
        push_group(alloc, out, places, key, who)?;
    }
    Ok(())
}

/// Appends the text of the groups of rows, which are those of the claims, and their counts.
fn push_rows(
    alloc: Global,
    out: &mut String,
    makefile: &Makefile,
    claims: &[Claim<'_>],
    rows: &Rows<'_>,
) -> Result<(), AllocError>
    ensures { OnOk result (string_bytes out.new ≡ string_bytes out.old ++
        groups_text makefile.now (map claim_view claims.now) (map group_of
        (gathered group_key_eq (map group_pair (rows_view rows.now.entries))))) }
{
    let groups = groups_of(alloc, rows)?;
    let places = Places::new(alloc, makefile)?;
    push_groups(alloc, out, &places, &groups)?;
    let counts = counts_of(alloc, claims, &groups)?;
    push_counts(alloc, out, &counts)
}

/// Appends the text of the groups of claims, and their counts.
fn push_claims(
    alloc: Global,
    out: &mut String,
    makefile: &Makefile,
    claims: &[Claim<'_>],
) -> Result<(), AllocError>
    ensures { OnOk result (string_bytes out.new ≡
        string_bytes out.old ++ claims_text makefile.now (map claim_view claims.now)) }
{
    let set = claim_set(alloc, claims)?;
    let rows = joined_rows(alloc, &set, claims)?;
    push_rows(alloc, out, makefile, claims, &rows)
}

/// Appends what the hidden findings claim.
fn push_hidden(
    alloc: Global,
    out: &mut String,
    makefile: &Makefile,
    later: &[Claim<'_>],
) -> Result<(), AllocError>
    ensures { OnOk result (string_bytes out.new ≡
        string_bytes out.old ++ hidden_text makefile.now (map claim_view later.now)) }
{
    if later.is_empty() {
        return out.push_str("once these are mended, check again: races and stale reads may show\n");
    }
    out.push_str("once these are mended, as far as can be seen now:\n")?;
    push_claims(alloc, out, makefile, later)
}

/// Appends what follows the findings: where one of them hides others, what these claim.
fn push_then(
    alloc: Global,
    out: &mut String,
    makefile: &Makefile,
    findings: &[Finding],
    later: &[Claim<'_>],
) -> Result<(), AllocError>
    ensures { OnOk result (string_bytes out.new ≡ string_bytes out.old ++
        then_text makefile.now findings.now (map claim_view later.now)) }
{
    if !has_static(findings) {
        return Ok(());
    }
    push_hidden(alloc, out, makefile, later)
}

/// Appends the text of a no, given what its findings and then what those claim that they hide.
fn push_all(
    alloc: Global,
    out: &mut String,
    makefile: &Makefile,
    findings: &[Finding],
    claims: &[Claim<'_>],
) -> Result<(), AllocError>
    ensures { OnOk result (string_bytes out.new ≡ string_bytes out.old ++
        all_text makefile.now findings.now (map claim_view claims.now)) }
{
    let count = findings.len().min(claims.len());
    push_claims(alloc, out, makefile, &claims[..count])?;
    push_then(alloc, out, makefile, findings, &claims[count..])
}

/// The findings of a no in sentences. Findings that say the same of several names or files are a
/// group: a line `FILE:LINE: SENTENCE [WORD]`, and below it the lines to add to the makefile, each
/// after `  add: `, or what else to do, after `  do: `, and then all targets or files of which the
/// sentence leaves some out, after `  targets: ` or `  files: `. The groups come in the order of
/// their first findings. A group stands at the rule line that gives commands to its first target,
/// else at the first one that has it as a target. A race and a stale read of the same recipe and
/// file are in one group. The last line has the counts.
///
/// Where findings hide races and stale reads, a line says so, and the groups of `hidden` follow,
/// without those that mending the others touches: about files that it may change, and stale reads
/// of targets that it makes phony. A line that would close a cycle with the graph and the other
/// lines isn't there to be added; what to do says which names form it. Takes time linear in the
/// makefile, the graph and the findings, for each such cycle. The only error is out of memory.
pub fn sentences(
    alloc: Global,
    subject: &Subject<'_>,
    findings: &[Finding],
    hidden: &[Finding],
) -> Result<Vec<u8>, AllocError>
    ensures { IfOk result (λ text. HasSentences subject.now findings.now hidden.now text.items) }
{
    let claims = all_claims(alloc, subject, findings, hidden)?;
    let offers = offers_of(alloc, subject, &claims)?;
    drop(claims);
    let claims = claims_offered(alloc, &offers)?;
    let mut out = String::new(alloc);
    push_all(alloc, &mut out, subject.makefile(), findings, &claims)?;
    Ok(out.into_bytes())
}
