//! Writes findings as JSON.

ghost use Rattle.std.specs.Prelude.{◌≡◌, ◌++◌, codes, false, true, OnOk};
ghost use Rattle.std.specs.List.{list_all};
ghost use Rattle.std.specs.String.{string_bytes};
ghost use Rattle.serde_json.specs.Data.{string};
ghost use Rattle.serde_json.specs.View.{items_of};
ghost use Rattle.serde_json.specs.Written.{compact_text, items_text};
ghost use Rattle.mk_cert_text.specs.Writing.{names_value};
ghost use Rattle.mk_find.specs.Text.{text};
ghost use Rattle.mk_repair.specs.Rows.{names_view};
ghost use Rattle.mk_core_json.specs.FindingValue.{finding_value, finding_values, head_text, key_text, kind_of, line_text, names_of};
ghost use Rattle.mk_core_json.specs.PlainText.{is_plain};

use crate::names::{are_plain, push_between, push_names};
use crate::writing::{push_comma, push_number, push_text};
use mk_find::Finding;
use std::alloc::{AllocError, Global};

/// The word of a finding, as it is printed.
pub fn kind_of(finding: &Finding) -> &'static str
    ensures { result.now ≡ kind_of finding.now }
{
    match finding {
        Finding::NoRecord { .. } => "record",
        Finding::OtherCommands { .. } => "commands",
        Finding::VaryingCommands { .. } => "varying",
        Finding::NoTarget { .. } => "target",
        Finding::TwoWriters { .. } => "writers",
        Finding::GivenWritten { .. } => "given",
        Finding::OwnRead { .. } => "own",
        Finding::UnknownRead { .. } => "unknown",
        Finding::Loose { .. } => "loose",
        Finding::Race { .. } => "race",
        Finding::Stale { .. } => "stale",
        Finding::Selection { .. } => "selection",
    }
}

/// Appends the text of the names of a finding, in the order in which they are printed.
pub fn push_names_of(alloc: Global, out: &mut String, finding: &Finding) -> Result<(), AllocError>
    ensures { OnOk result (string_bytes out.new ≡
        string_bytes out.old ++ compact_text (names_value (names_of finding.now))) }
{
    match finding {
        Finding::NoRecord { recipe }
        | Finding::OtherCommands { recipe }
        | Finding::VaryingCommands { recipe }
        | Finding::NoTarget { recipe } => push_names(alloc, out, &[recipe.as_str()]),
        Finding::TwoWriters {
            first,
            second,
            file,
        } => push_names(
            alloc,
            out,
            &[first.as_str(), second.as_str(), file.as_str()],
        ),
        Finding::GivenWritten { recipe, file }
        | Finding::OwnRead { recipe, file }
        | Finding::UnknownRead { recipe, file }
        | Finding::Stale { recipe, file } => {
            push_names(alloc, out, &[recipe.as_str(), file.as_str()])
        }
        Finding::Loose { name, writer } => {
            push_names(alloc, out, &[name.as_str(), writer.as_str()])
        }
        Finding::Race {
            recipe,
            writer,
            file,
        } => push_names(
            alloc,
            out,
            &[recipe.as_str(), writer.as_str(), file.as_str()],
        ),
        Finding::Selection { name, chosen } => {
            push_names(alloc, out, &[name.as_str(), chosen.as_str()])
        }
    }
}

/// Appends the text of the line that `check` prints for a finding.
pub fn push_line(alloc: Global, out: &mut String, finding: &Finding) -> Result<(), AllocError>
    ensures { OnOk result (string_bytes out.new ≡
        string_bytes out.old ++ compact_text (string (codes "no " ++ text finding.now))) }
{
    let line = format!(in alloc; "no {finding}")?;
    push_text(alloc, out, line.as_str())
}

/// Appends the text of a finding up to its names.
fn push_head(alloc: Global, out: &mut String, group: usize, kind: &str) -> Result<(), AllocError>
    ensures { OnOk result (string_bytes out.new ≡ string_bytes out.old ++ head_text group kind.now) }
{
    write!(out, "{{\"group\":{group},\"kind\":")?;
    push_text(alloc, out, kind)?;
    out.push_str(",\"names\":")
}

/// The number of a finding, and that of its group.
#[derive(Clone, Copy, Drop)]
struct Numbers {
    own: usize,
    group: usize,
}

/// Appends the text of a finding whose names have to be escaped.
fn push_escaped(
    alloc: Global,
    out: &mut String,
    numbers: Numbers,
    finding: &Finding,
) -> Result<(), AllocError>
    ensures { OnOk result (string_bytes out.new ≡ string_bytes out.old ++
        compact_text (finding_value numbers.own numbers.group finding.now)) }
{
    let number = numbers.own;
    push_head(alloc, out, numbers.group, kind_of(finding))?;
    push_names_of(alloc, out, finding)?;
    write!(out, ",\"number\":{number},\"text\":")?;
    push_line(alloc, out, finding)?;
    out.push_str("}")
}

/// What stands in the text of a finding between the number of its group and its names.
fn key_of(finding: &Finding) -> &'static str
    ensures { result.now ≡ key_text (kind_of finding.now) }
{
    match finding {
        Finding::NoRecord { .. } => ",\"kind\":\"record\",\"names\":[\"",
        Finding::OtherCommands { .. } => ",\"kind\":\"commands\",\"names\":[\"",
        Finding::VaryingCommands { .. } => ",\"kind\":\"varying\",\"names\":[\"",
        Finding::NoTarget { .. } => ",\"kind\":\"target\",\"names\":[\"",
        Finding::TwoWriters { .. } => ",\"kind\":\"writers\",\"names\":[\"",
        Finding::GivenWritten { .. } => ",\"kind\":\"given\",\"names\":[\"",
        Finding::OwnRead { .. } => ",\"kind\":\"own\",\"names\":[\"",
        Finding::UnknownRead { .. } => ",\"kind\":\"unknown\",\"names\":[\"",
        Finding::Loose { .. } => ",\"kind\":\"loose\",\"names\":[\"",
        Finding::Race { .. } => ",\"kind\":\"race\",\"names\":[\"",
        Finding::Stale { .. } => ",\"kind\":\"stale\",\"names\":[\"",
        Finding::Selection { .. } => ",\"kind\":\"selection\",\"names\":[\"",
    }
}

/// What stands between the number of a finding and the names in its line.
fn line_of(finding: &Finding) -> &'static str
    ensures { result.now ≡ line_text (kind_of finding.now) }
{
    match finding {
        Finding::NoRecord { .. } => ",\"text\":\"no record ",
        Finding::OtherCommands { .. } => ",\"text\":\"no commands ",
        Finding::VaryingCommands { .. } => ",\"text\":\"no varying ",
        Finding::NoTarget { .. } => ",\"text\":\"no target ",
        Finding::TwoWriters { .. } => ",\"text\":\"no writers ",
        Finding::GivenWritten { .. } => ",\"text\":\"no given ",
        Finding::OwnRead { .. } => ",\"text\":\"no own ",
        Finding::UnknownRead { .. } => ",\"text\":\"no unknown ",
        Finding::Loose { .. } => ",\"text\":\"no loose ",
        Finding::Race { .. } => ",\"text\":\"no race ",
        Finding::Stale { .. } => ",\"text\":\"no stale ",
        Finding::Selection { .. } => ",\"text\":\"no selection ",
    }
}

/// Appends the text of a finding with these names, which stand in it as they are.
fn push_plain(
    out: &mut String,
    numbers: Numbers,
    finding: &Finding,
    names: &[&str],
) -> Result<(), AllocError>
    requires names { names_view names.now ≡ names_of finding.now }
    requires plain { list_all (list_all is_plain) (names_view names.now) ≡ true }
    ensures { OnOk result (string_bytes out.new ≡ string_bytes out.old ++
        compact_text (finding_value numbers.own numbers.group finding.now)) }
{
    out.push_str("{\"group\":")?;
    push_number(out, numbers.group)?;
    out.push_str(key_of(finding))?;
    push_between(out, "\",\"", names)?;
    out.push_str("\"],\"number\":")?;
    push_number(out, numbers.own)?;
    out.push_str(line_of(finding))?;
    push_between(out, " ", names)?;
    out.push_str("\"}")
}

/// Appends the text of a finding with these names.
fn push_named(
    alloc: Global,
    out: &mut String,
    numbers: Numbers,
    finding: &Finding,
    names: &[&str],
) -> Result<(), AllocError>
    requires { names_view names.now ≡ names_of finding.now }
    ensures { OnOk result (string_bytes out.new ≡ string_bytes out.old ++
        compact_text (finding_value numbers.own numbers.group finding.now)) }
{
    if !are_plain(names) {
        return push_escaped(alloc, out, numbers, finding);
    }
    push_plain(out, numbers, finding, names)
}

/// Appends the text of the finding with these numbers.
fn push_finding(
    alloc: Global,
    out: &mut String,
    numbers: Numbers,
    finding: &Finding,
) -> Result<(), AllocError>
    ensures { OnOk result (string_bytes out.new ≡ string_bytes out.old ++
        compact_text (finding_value numbers.own numbers.group finding.now)) }
{
    match finding {
        Finding::NoRecord { recipe }
        | Finding::OtherCommands { recipe }
        | Finding::VaryingCommands { recipe }
        | Finding::NoTarget { recipe } => push_named(
            alloc,
            out,
            numbers,
            finding,
            &[recipe.as_str()],
        ),
        Finding::TwoWriters {
            first,
            second,
            file,
        } => push_named(
            alloc,
            out,
            numbers,
            finding,
            &[first.as_str(), second.as_str(), file.as_str()],
        ),
        Finding::GivenWritten { recipe, file }
        | Finding::OwnRead { recipe, file }
        | Finding::UnknownRead { recipe, file }
        | Finding::Stale { recipe, file } => {
            push_named(
                alloc,
                out,
                numbers,
                finding,
                &[recipe.as_str(), file.as_str()],
            )
        }
        Finding::Loose { name, writer } => {
            push_named(
                alloc,
                out,
                numbers,
                finding,
                &[name.as_str(), writer.as_str()],
            )
        }
        Finding::Race {
            recipe,
            writer,
            file,
        } => push_named(
            alloc,
            out,
            numbers,
            finding,
            &[recipe.as_str(), writer.as_str(), file.as_str()],
        ),
        Finding::Selection { name, chosen } => {
            push_named(
                alloc,
                out,
                numbers,
                finding,
                &[name.as_str(), chosen.as_str()],
            )
        }
    }
}

/// Appends the texts of findings, given the numbers of their groups, separated by commas, and the
/// closing bracket. The only error is out of memory.
pub fn push_findings(
    alloc: Global,
    text: &mut String,
    found: &[Finding],
    groups: &[usize],
) -> Result<(), AllocError>
    ensures { OnOk result (string_bytes text.new ≡ string_bytes text.old ++
        items_text false (items_of (finding_values 1 found.now groups.now))) }
{
    let mut later = false;
    for place in 0..found.len().min(groups.len()) {
        push_comma(text, later)?;
        let numbers = Numbers {
            own: place + 1,
            group: groups[place],
        };
        push_finding(alloc, text, numbers, &found[place])?;
        later = true;
    }
    text.push_str("]")?;
    Ok(())
}
