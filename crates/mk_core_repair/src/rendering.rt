//! The printed text of what comes of mending a makefile.

ghost use Rattle.std.specs.Prelude.{◌≡◌, ◌∷◌, ◌++◌, ℕ, List, codes, true, Ok, IfOk, OnOk};
ghost use Rattle.std.specs.List.{flat_map, list_any};
ghost use Rattle.std.specs.String.{string_bytes};
ghost use Rattle.mk_core_text.specs.FaultText.{fault_text};
ghost use Rattle.mk_core_text.specs.VerdictText.{findings_text};
ghost use Rattle.mk_core_repair.specs.Outcome.{outcome_of, part_view, reason_of, untried};
ghost use Rattle.mk_core_repair.specs.RepairText.{checked_text, cycle_line, is_other_commands, lead, led, others_text, outcome_message, outcome_part, outcome_text, reason_part, reason_text, record_again, stop_text};

use crate::outcome::{Part, Repair, Stop, Why};
use mk_core::{Fault, Findings, Name, fault_text};
use mk_core_text::findings_text;
use mk_find::Finding;
use std::alloc::{AllocError, Global};

/// Appends each name after a space. The only error is out of memory.
fn push_names(out: &mut Vec<u8>, names: &[Name]) -> Result<(), AllocError>
    ensures { OnOk result (out.new.items ≡
        out.old.items ++ flat_map (λ name. 32 ∷ name) names.now) }
{
    for name in names {
        out.push(b' ')?;
        out.extend_from_slice(name.as_str().as_bytes())?;
    }
    Ok(())
}

/// Appends that the names form a cycle, on a line. The only error is out of memory.
fn push_cycle(out: &mut Vec<u8>, names: &[Name]) -> Result<(), AllocError>
    ensures { OnOk result (out.new.items ≡ out.old.items ++ cycle_line names.now) }
{
    out.extend_from_slice(b"no lines mend this, since each of these names needs the next one:")?;
    push_names(out, names)?;
    out.push(b'\n')?;
    Ok(())
}

/// Appends the word where a line begins. The only error is out of memory.
fn push_lead(out: &mut Vec<u8>, word: &str, begins: bool) -> Result<(), AllocError>
    ensures { OnOk result (out.new.items ≡ out.old.items ++ lead word.now begins) }
{
    if begins {
        out.extend_from_slice(word.as_bytes())?;
    }
    Ok(())
}

/// Appends the text, with the word at the beginning of each line. The only error is out of memory.
fn push_led(out: &mut Vec<u8>, word: &str, text: &str) -> Result<(), AllocError>
    ensures { OnOk result (out.new.items ≡ out.old.items ++ led word.now true text.now) }
{
    let mut begins = true;
    for byte in text.as_bytes() {
        push_lead(out, word, begins)?;
        out.push(*byte)?;
        begins = *byte == b'\n';
    }
    Ok(())
}

/// What `check` prints for these findings or this fault. The only error is out of memory.
fn checked_text(alloc: Global, after: &Result<Findings, Fault>) -> Result<Vec<u8>, AllocError>
    ensures { IfOk result (λ text. text.items ≡ checked_text after.now) }
{
    match after {
        Ok(found) => findings_text(alloc, found.as_slice()),
        Err(fault) => {
            let mut text = fault_text(alloc, fault)?;
            text.push(b'\n')?;
            Ok(text)
        }
    }
}

/// Whether the finding is of commands that aren't the recorded ones.
fn is_other_commands(finding: &Finding) -> bool
    ensures { result ≡ is_other_commands finding.now }
{
    matches!(finding, Finding::OtherCommands { .. })
}

/// Whether lines change commands, so that a record is of others.
fn changes_commands(after: &[Finding]) -> bool
    ensures { result ≡ list_any is_other_commands after.now }
{
    after.iter().any(|finding| is_other_commands(finding))
}

/// What to do where lines change commands, by the findings with them; empty where they don't.
fn recording_again(found: &[Finding]) -> &'static str
    ensures { result.now ≡ record_again (Ok found.now) }
{
    if changes_commands(found) {
        "these lines change commands: append them, and record again\n"
    } else {
        ""
    }
}

/// What to do where lines change commands; empty where they don't.
fn record_again(after: &Result<Findings, Fault>) -> &'static str
    ensures { result.now ≡ record_again after.now }
{
    match after {
        Ok(found) => recording_again(found.as_slice()),
        Err(_) => "",
    }
}

/// Why no further lines were tried, where a limit was met.
fn stop_text(stop: Stop) -> &'static str
    ensures { result.now ≡ stop_text stop }
{
    match stop {
        Stop::NoMore => "",
        Stop::Judged => {
            "the makefile was judged 64 times: append these lines, and run mkcheck repair again\n"
        }
        Stop::TooLong => "with further lines the makefile would have more than 16777216 bytes\n",
    }
}

/// Appends what to do where lines change commands, and the limit that was met. The only error is
/// out of memory.
fn push_advice(
    out: &mut Vec<u8>,
    after: &Result<Findings, Fault>,
    stop: Stop,
) -> Result<(), AllocError>
    ensures { OnOk result (out.new.items ≡ out.old.items ++
        (record_again after.now ++ stop_text stop)) }
{
    out.extend_from_slice(record_again(after).as_bytes())?;
    out.extend_from_slice(stop_text(stop).as_bytes())
}

/// Appends what `check` prints with the lines that were tried last, and why no further ones were
/// tried. The only error is out of memory.
fn push_after(
    alloc: Global,
    out: &mut Vec<u8>,
    after: &Result<Findings, Fault>,
    stop: Stop,
) -> Result<(), AllocError>
    ensures { OnOk result (out.new.items ≡ out.old.items ++
        (codes "with these lines mkcheck check says:\n" ++
        (checked_text after.now ++ (record_again after.now ++ stop_text stop)))) }
{
    let checked = checked_text(alloc, after)?;
    out.extend_from_slice(b"with these lines mkcheck check says:\n")?;
    out.extend_from_slice(&checked)?;
    push_advice(out, after, stop)
}

/// Appends what `check` prints of these findings, and what to do where lines change commands. The
/// only error is out of memory.
fn push_left(alloc: Global, out: &mut Vec<u8>, left: &[Finding]) -> Result<(), AllocError>
    ensures { OnOk result (out.new.items ≡ out.old.items ++
        (codes "with these lines mkcheck check says:\n" ++
        (findings_text left.now ++ record_again (Ok left.now)))) }
{
    let text = findings_text(alloc, left)?;
    out.extend_from_slice(b"with these lines mkcheck check says:\n")?;
    out.extend_from_slice(&text)?;
    out.extend_from_slice(recording_again(left).as_bytes())
}

/// Appends the lines for the other findings, and what `check` prints with them. The only error is
/// out of memory.
fn push_taken(
    alloc: Global,
    out: &mut Vec<u8>,
    lines: &str,
    left: &[Finding],
) -> Result<(), AllocError>
    ensures { OnOk result (out.new.items ≡ out.old.items ++
        (codes "lines for the other findings:\n" ++ (led (codes "  add: ") true lines.now ++
        (codes "with these lines mkcheck check says:\n" ++
        (findings_text left.now ++ record_again (Ok left.now)))))) }
{
    out.extend_from_slice(b"lines for the other findings:\n")?;
    push_led(out, "  add: ", lines)?;
    push_left(alloc, out, left)
}

/// Appends the refusal of the makefile with the lines for the other findings. The only error is out
/// of memory.
fn push_refusal(alloc: Global, out: &mut Vec<u8>, fault: &Fault) -> Result<(), AllocError>
    ensures { OnOk result (out.new.items ≡ out.old.items ++
        (codes "with these lines mkcheck check says:\n" ++ (fault_text fault.now ++ codes "\n"))) }
{
    let text = fault_text(alloc, fault)?;
    out.extend_from_slice(b"with these lines mkcheck check says:\n")?;
    out.extend_from_slice(&text)?;
    out.extend_from_slice(b"\n")
}

/// Appends the lines for the other findings that were tried, and the refusal of the makefile with
/// them. The only error is out of memory.
fn push_refused(
    alloc: Global,
    out: &mut Vec<u8>,
    lines: &str,
    fault: &Fault,
) -> Result<(), AllocError>
    ensures { OnOk result (out.new.items ≡ out.old.items ++
        (codes "no lines for the other findings:\n" ++ (led (codes "tried ") true lines.now ++
        (codes "with these lines mkcheck check says:\n" ++
        (fault_text fault.now ++ codes "\n"))))) }
{
    out.extend_from_slice(b"no lines for the other findings:\n")?;
    push_led(out, "tried ", lines)?;
    push_refusal(alloc, out, fault)
}

/// Appends what comes of the lines for the other findings. The only error is out of memory.
fn push_others(alloc: Global, out: &mut Vec<u8>, part: &Part) -> Result<(), AllocError>
    ensures { OnOk result (out.new.items ≡ out.old.items ++ others_text (part_view part.now)) }
{
    match part {
        Part::NoLines => Ok(()),
        Part::Taken(lines, _, left) => { push_taken(alloc, out, lines.as_str(), left.as_slice()) }
        Part::Refused(lines, fault) => push_refused(alloc, out, lines.as_str(), fault),
        Part::TooLong => out.extend_from_slice(
            b"with lines for the other findings the makefile would have more than 16777216 bytes\n",
        ),
    }
}

/// Appends the finding that no line mends, and what comes of the lines of the others. The only
/// error is out of memory.
fn push_untried(alloc: Global, out: &mut Vec<u8>, why: &str, part: &Part) -> Result<(), AllocError>
    ensures { OnOk result (out.new.items ≡ out.old.items ++
        (why.now ++ (codes "; mkcheck check -w says what to do\n" ++
        others_text (part_view part.now)))) }
{
    out.extend_from_slice(why.as_bytes())?;
    out.extend_from_slice(b"; mkcheck check -w says what to do\n")?;
    push_others(alloc, out, part)
}

/// Appends why nothing mends a makefile. The only error is out of memory.
fn push_reason(alloc: Global, out: &mut Vec<u8>, why: &Why) -> Result<(), AllocError>
    ensures { OnOk result (out.new.items ≡ out.old.items ++ reason_text (reason_of why.now)) }
{
    match why {
        Why::Untried(why, part) => push_untried(alloc, out, why.as_str(), part),
        Why::TooLong => out.extend_from_slice(
            b"with the lines that mend this the makefile would have more than 16777216 bytes\n",
        ),
        Why::Cycle(names) => push_cycle(out, names.as_slice()),
        Why::Tried(text, after, stop) => {
            push_led(out, "tried ", text.as_str())?;
            push_after(alloc, out, after, *stop)
        }
    }
}

/// What `mkcheck repair` prints on standard output: the text that mends the makefile; nothing where
/// it is right, or nothing mends it. The only error is out of memory.
pub fn repair_text(alloc: Global, repair: &Repair) -> Result<Vec<u8>, AllocError>
    ensures { IfOk result (λ text. text.items ≡ outcome_text (outcome_of repair.now)) }
{
    match repair {
        Repair::Mended(text) => Vec::from_slice(alloc, text),
        Repair::Right | Repair::Unmended(..) => Ok(Vec::new(alloc)),
    }
}

/// The text of the lines for the other findings, where that is what comes of them; else empty.
fn taken_text(part: &Part) -> &[u8]
    ensures { (why : List ℕ) → result.now ≡ reason_part (untried why (part_view part.now)) }
{
    match part {
        Part::Taken(_, text, _) => text.as_slice(),
        Part::NoLines | Part::Refused(..) | Part::TooLong => &[],
    }
}

/// The text of the lines for the other findings of a reason, if it has some; else empty.
fn reason_part(why: &Why) -> &[u8]
    ensures { result.now ≡ reason_part (reason_of why.now) }
{
    match why {
        Why::Untried(_, part) => taken_text(part),
        Why::TooLong | Why::Cycle(_) | Why::Tried(..) => &[],
    }
}

/// What `mkcheck repair --part` prints on standard output: the text that mends the makefile; where
/// nothing mends it, that of the lines for the other findings, if there are any. Allocates nothing.
pub fn repair_part(repair: &Repair) -> &[u8]
    ensures { result.now ≡ outcome_part (outcome_of repair.now) }
{
    match repair {
        Repair::Right => &[],
        Repair::Mended(text) => text.as_slice(),
        Repair::Unmended(_, why) => reason_part(why),
    }
}

/// What `mkcheck repair` prints on standard error: for a makefile that isn't mended its findings,
/// and then why nothing mends it. The only error is out of memory.
pub fn repair_message(alloc: Global, repair: &Repair) -> Result<Vec<u8>, AllocError>
    ensures { IfOk result (λ text. text.items ≡ outcome_message (outcome_of repair.now)) }
{
    match repair {
        Repair::Right | Repair::Mended(_) => Ok(Vec::new(alloc)),
        Repair::Unmended(found, why) => {
            let mut out = findings_text(alloc, found.as_slice())?;
            push_reason(alloc, &mut out, why)?;
            Ok(out)
        }
    }
}
