//! Writes groups of findings as JSON.

ghost use Rattle.std.specs.Prelude.{◌≡◌, ◌++◌, [], false, map, IfOk, OnOk};
ghost use Rattle.std.specs.List.{flat_map};
ghost use Rattle.std.specs.Option.{option_map};
ghost use Rattle.std.specs.String.{string_bytes};
ghost use Rattle.serde_json.specs.View.{items_of, view};
ghost use Rattle.serde_json.specs.Written.{compact_text, items_text};
ghost use Rattle.mk_cert_text.specs.Writing.{names_value};
ghost use Rattle.mk_repair.specs.Lines.{line_text};
ghost use Rattle.mk_repair.specs.Rows.{names_view};
ghost use Rattle.mk_sentences.specs.Adding.{lines_of};
ghost use Rattle.mk_sentences.specs.Advice.{advice};
ghost use Rattle.mk_claims.specs.Grouping.{group_of};
ghost use Rattle.mk_sentences.specs.Places.{rule_shown};
ghost use Rattle.mk_sentences.specs.Sentences.{sentence};
ghost use Rattle.mk_claims.specs.Tables.{groups_view};
ghost use Rattle.mk_claims.specs.Topics.{topic_view};
ghost use Rattle.mk_core_json.specs.AnswerValue.{place_value};
ghost use Rattle.mk_core_json.specs.GroupView.{group_view};
ghost use Rattle.mk_core_json.specs.GroupValue.{added_value, also_of, files_of, first_word, group_value, targets_of, to_do_value, writers_of};

use crate::names::names_value;
use crate::writing::{push_comma, push_value};
use mk_claims::{Groups, Kind, Topic, kind_word};
use mk_sentences::{Places, push_advice, push_lines, push_sentence, shown_name};
use serde_json::{Value, json};
use std::alloc::{AllocError, Global};

/// A group of findings, as the table of groups holds it.
#[derive(Clone, Copy, Drop)]
struct Group<'g> {
    /// What its findings have in common.
    topic: &'g Topic<'g>,
    /// The names that they are about.
    who: &'g [&'g str],
    /// The files that they are about.
    what: &'g [&'g str],
}

/// Makes the JSON value of the targets that a group is about.
fn targets_value(alloc: Global, group: Group<'_>) -> Result<Value, AllocError>
    ensures { IfOk result (λ value. view value ≡ names_value
        (targets_of (group_view group.entry).topic.kind (group_view group.entry).topic.first
        (group_view group.entry).topic.second (group_view group.entry).who)) }
{
    let topic = group.topic;
    match topic.kind {
        Kind::TwoWriters => names_value(alloc, &[topic.first, topic.second]),
        _ => names_value(alloc, group.who),
    }
}

/// Makes the JSON value of the files that a group is about.
fn files_value(alloc: Global, group: Group<'_>) -> Result<Value, AllocError>
    ensures { IfOk result (λ value. view value ≡ names_value
        (files_of (group_view group.entry).topic.kind (group_view group.entry).who
        (group_view group.entry).what)) }
{
    match group.topic.kind {
        Kind::TwoWriters | Kind::Loose | Kind::OwnPrerequisite => names_value(alloc, group.who),
        Kind::NoRecord | Kind::OtherCommands | Kind::VaryingCommands | Kind::NoTarget =>
            names_value(alloc, &[]),
        _ => names_value(alloc, group.what),
    }
}

/// Makes the JSON value of the recipes that write the files of a group, where its sentence names
/// them.
fn writers_value(alloc: Global, group: Group<'_>) -> Result<Value, AllocError>
    ensures { IfOk result (λ value. view value ≡ names_value
        (writers_of (group_view group.entry).topic.kind (group_view group.entry).topic.first
        (group_view group.entry).topic.second (group_view group.entry).what)) }
{
    let topic = group.topic;
    match topic.kind {
        Kind::TwoWriters => names_value(alloc, &[topic.first, topic.second]),
        Kind::Loose | Kind::OwnPrerequisite => names_value(alloc, group.what),
        Kind::OutputRace | Kind::OutputStale | Kind::OutputRaceAndStale | Kind::UnreachedRead =>
            names_value(alloc, &[topic.first]),
        _ => names_value(alloc, &[]),
    }
}

/// The word of a kind; of a race together with a stale read that of the race.
fn first_word(kind: Kind) -> &'static str
    ensures { result.now ≡ first_word kind }
{
    match kind {
        Kind::RaceAndStale | Kind::OutputRaceAndStale => "race",
        _ => kind_word(kind),
    }
}

/// Makes the JSON value of the other words of a kind.
fn also_value(alloc: Global, kind: Kind) -> Result<Value, AllocError>
    ensures { IfOk result (λ value. view value ≡ names_value (also_of kind)) }
{
    match kind {
        Kind::RaceAndStale | Kind::OutputRaceAndStale => names_value(alloc, &["stale"]),
        _ => names_value(alloc, &[]),
    }
}

/// Makes the JSON value of the lines that mend a group.
fn added_value(alloc: Global, group: Group<'_>) -> Result<Value, AllocError>
    ensures { IfOk result (λ value. view value ≡ added_value (group_view group.entry)) }
{
    if !group.topic.has_line {
        return Ok(Value::Null);
    }
    let mut text = String::new(alloc);
    push_lines(alloc, &mut text, group.topic, group.who, group.what)?;
    Ok(Value::String(text))
}

/// Makes the JSON value of what to do about a group that no line mends.
fn to_do_value(alloc: Global, group: Group<'_>) -> Result<Value, AllocError>
    ensures { IfOk result (λ value. view value ≡ to_do_value (group_view group.entry)) }
{
    if group.topic.has_line {
        return Ok(Value::Null);
    }
    let mut text = String::new(alloc);
    push_advice(alloc, &mut text, group.topic, group.who, group.what)?;
    Ok(Value::String(text))
}

/// Makes the JSON value of the rule line at which a name is shown.
fn shown_value(alloc: Global, places: &Places<'_>, name: &str) -> Result<Value, AllocError>
    ensures { IfOk result (λ value. view value ≡ place_value
        (option_map (λ rule. rule.place) (rule_shown places.now name.now))) }
{
    let Some(rule) = places.rule(name) else {
        return Ok(Value::Null);
    };
    let file = rule.place.file.as_str();
    let line = rule.place.line;
    json!(in alloc; {
        "file": file,
        "line": line
    })
}

/// The sentence of a group.
fn sentence_of(alloc: Global, group: Group<'_>) -> Result<String, AllocError>
    ensures { IfOk result (λ text. string_bytes text ≡
        sentence (group_view group.entry).topic (group_view group.entry).who
        (group_view group.entry).what) }
{
    let mut text = String::new(alloc);
    push_sentence(alloc, &mut text, group.topic, group.who, group.what)?;
    Ok(text)
}

/// Makes the JSON value of a group.
fn group_value(alloc: Global, places: &Places<'_>, group: Group<'_>) -> Result<Value, AllocError>
    ensures { IfOk result (λ value. view value ≡ group_value places.now (group_view group.entry)) }
{
    let added = added_value(alloc, group)?;
    let also = also_value(alloc, group.topic.kind)?;
    let to_do = to_do_value(alloc, group)?;
    let files = files_value(alloc, group)?;
    let place = shown_value(alloc, places, shown_name(group.topic, group.who))?;
    let sentence = sentence_of(alloc, group)?;
    let targets = targets_value(alloc, group)?;
    let writers = writers_value(alloc, group)?;
    json!(in alloc; {
        "add": added,
        "also": also,
        "do": to_do,
        "files": files,
        "kind": first_word(group.topic.kind),
        "place": place,
        "sentence": sentence.as_str(),
        "targets": targets,
        "writers": writers
    })
}

/// Appends the text of a group.
fn push_group(
    alloc: Global,
    out: &mut String,
    places: &Places<'_>,
    group: Group<'_>,
) -> Result<(), AllocError>
    ensures { OnOk result (string_bytes out.new ≡ string_bytes out.old ++ compact_text
        (group_value places.now (group_view group.entry))) }
{
    let value = group_value(alloc, places, group)?;
    push_value(alloc, out, &value)
}

/// Appends the text of each group, separated by commas, and the closing bracket. The only error is
/// out of memory.
pub fn push_groups(
    alloc: Global,
    out: &mut String,
    places: &Places<'_>,
    groups: &Groups<'_>,
) -> Result<(), AllocError>
    ensures { OnOk result (string_bytes out.new ≡ string_bytes out.old ++ items_text false
        (items_of (map (group_value places.now)
        (map group_of (groups_view groups.now.entries))))) }
{
    let mut later = false;
    for place in 0..groups.len() {
        let Some((key, who)) = groups.get_index(place) else {
            continue;
        };
        push_comma(out, later)?;
        let group = Group {
            topic: &key.topic,
            who,
            what: key.what,
        };
        push_group(alloc, out, places, group)?;
        later = true;
    }
    out.push_str("]")
}
