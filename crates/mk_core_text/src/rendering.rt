//! The printed text of a verdict.

ghost use Rattle.std.specs.Prelude.{◌≡◌, ◌++◌, IfOk, OnOk};
ghost use Rattle.std.specs.String.{string_bytes};
ghost use Rattle.mk_world_plan.specs.PlanText.{names_text};
ghost use Rattle.mk_core_text.specs.VerdictText.{finding_line, findings_text, verdict_text, way_line, ways_text, yes_line};

use crate::verdict::Verdict;
use mk_cert_text::{Path, Way, Ways};
use mk_find::Finding;
use std::alloc::{AllocError, Global};

/// The capacity that the text of ways reserves for each way.
const ROOM: usize = 48;

/// The first line of a yes: how many recipes were judged, and how many files they read. The only
/// error is out of memory.
pub fn yes_line(alloc: Global, recipes: usize, reads: u128) -> Result<Vec<u8>, AllocError>
    ensures { IfOk result (λ text. text.items ≡ yes_line recipes reads) }
{
    let text = format!(in alloc; "yes {recipes} recipes {reads} reads\n")?;
    Ok(text.into_bytes())
}

/// Appends each name after a space.
fn push_names(out: &mut Vec<u8>, names: &Path<'_>) -> Result<(), AllocError>
    ensures { OnOk result (out.new.items ≡ out.old.items ++ names_text names.now) }
{
    for place in 0..names.len() {
        out.push(b' ')?;
        out.extend_from_slice(names.at(place).as_bytes())?;
    }
    Ok(())
}

/// Appends the line of a way.
fn push_way(out: &mut Vec<u8>, way: &Way<'_>) -> Result<(), AllocError>
    ensures { OnOk result (out.new.items ≡ out.old.items ++ way_line way.now) }
{
    out.extend_from_slice(b"way ")?;
    out.extend_from_slice(way.recipe.as_bytes())?;
    out.push(b' ')?;
    out.extend_from_slice(way.file.as_bytes())?;
    out.push(b' ')?;
    out.extend_from_slice(way.finish.as_str().as_bytes())?;
    push_names(out, &way.path)?;
    out.push(b'\n')?;
    Ok(())
}

/// Appends a line for each way.
fn push_ways(out: &mut Vec<u8>, ways: &Ways) -> Result<(), AllocError>
    ensures { OnOk result (out.new.items ≡ out.old.items ++ ways_text ways.now) }
{
    out.reserve(ways.len().saturating_mul(ROOM))?;
    for place in 0..ways.len() {
        push_way(out, &ways.at(place))?;
    }
    Ok(())
}

/// Appends the line of a finding.
fn push_finding(out: &mut String, finding: &Finding) -> Result<(), AllocError>
    ensures { OnOk result (string_bytes out.new ≡
        string_bytes out.old ++ finding_line finding.now) }
{
    writeln!(out, "no {finding}")
}

/// What `mkcheck check` prints for a no: a line for each finding. The only error is out of memory.
pub fn findings_text(alloc: Global, found: &[Finding]) -> Result<Vec<u8>, AllocError>
    ensures { IfOk result (λ text. text.items ≡ findings_text found.now) }
{
    let mut out = String::new(alloc);
    for finding in found {
        push_finding(&mut out, finding)?;
    }
    Ok(out.into_bytes())
}

/// What `mkcheck check` prints: for a yes, the numbers of recipes and reads, and a line for each
/// way; for a no, a line for each finding. The only error is out of memory.
pub fn render(alloc: Global, verdict: &Verdict) -> Result<Vec<u8>, AllocError>
    ensures { IfOk result (λ text. text.items ≡ verdict_text verdict.now) }
{
    match verdict {
        Verdict::Yes {
            certificate,
            recipes,
            reads,
        } => {
            let mut out = yes_line(alloc, *recipes, *reads)?;
            push_ways(&mut out, &certificate.ways)?;
            Ok(out)
        }
        Verdict::No(found) => findings_text(alloc, found.as_slice()),
    }
}
