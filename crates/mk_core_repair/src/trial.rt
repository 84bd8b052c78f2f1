//! The lines for those findings that give some, where another one gives none.

ghost use Rattle.std.specs.Prelude.{◌≡◌, ℕ, List, IfErr, IfOk};
ghost use Rattle.std.specs.String.{string_bytes};
ghost use Rattle.mk_find.specs.declared.finding.Finding as finding;
ghost use Rattle.mk_read.specs.Files.{Told};
ghost use Rattle.mk_core_text.specs.declared.fault.Fault.TheVariants.{Memory};
ghost use Rattle.mk_core_repair.specs.Amending.{added_lines, makefile_text};
ghost use Rattle.mk_core_repair.specs.Known.{IsBase};
ghost use Rattle.mk_core_repair.specs.Outcome.{part_view};
ghost use Rattle.mk_core_repair.specs.declared.surveying.Survey as value;
ghost use Rattle.mk_core_repair.specs.Rounds.{first_unknown};
ghost use Rattle.mk_core_repair.specs.Trial.{Tries, known_part, with_part};
ghost use Rattle.mk_core_repair.specs.Views.{IsFound, end_outcome};
ghost use Rattle.mk_repair.specs.Word as word;

use crate::outcome::{Part, Why};
use crate::rounds::{Base, End, Found, added_lines, is_too_long, round};
use mk_core::Fault;
use mk_repair::Words;
use std::alloc::Global;

/// The end where a finding gives no word, for this reason, and this comes of the lines of the
/// others.
pub fn untried(why: String, part: Part) -> End
    ensures { (first : List finding.Finding) → end_outcome first result ≡
        with_part first (string_bytes why) (part_view part) }
{
    End::Unmended(Why::Untried(why, part))
}

/// The end after a trial that found this of the makefile with these lines, which this text says.
fn tried(why: String, lines: String, added: Vec<u8>, found: Found) -> End
    ensures { (names : List (List ℕ)) (old new : List word.Word) (survey : value.Survey) →
        IsFound names old new survey found → (first : List finding.Finding) →
        end_outcome first result ≡ known_part (with_part first (string_bytes why))
        (string_bytes lines) added.items survey.verdict (first_unknown names survey.files) }
{
    match found {
        Found::Right => End::Mended(added),
        Found::Unknown(name) => {
            let fault = Fault::FileReadFailed(name);
            untried(why, Part::Refused(lines, fault))
        }
        Found::Lacks(left, _) => untried(why, Part::Taken(lines, added, left)),
    }
}

/// Tries these lines, where a finding gives no word for this reason: the makefile is judged once
/// more, with the lines appended. They mend it, or are a part, or `check` refuses them. The only
/// error is out of memory.
pub fn trial(alloc: Global, base: Base<'_>, why: String, lines: String) -> Result<End, Fault>
    ensures answer { IfOk result (λ end. (told : Told) →
        IsBase told base.entry.request.now base.entry.own.now base.entry.known.now →
        (first : List finding.Finding) →
        Tries base.entry.known.now.names told base.entry.request.now
        (with_part first (string_bytes why)) (string_bytes lines)
        (added_lines (makefile_text told base.entry.request.now) (string_bytes lines))
        (end_outcome first end)) }
    ensures memory { IfErr result (λ fault. fault ≡ Memory) }
{
    let added = added_lines(alloc, base.own, lines.as_str())?;
    if is_too_long(base.own, &added) {
        return Ok(untried(why, Part::TooLong));
    }
    let mut words = Words::new(alloc);
    match round(alloc, base, &mut words, &added) {
        Ok(found) => Ok(tried(why, lines, added, found)),
        Err(fault) => {
            if fault.is_out_of_memory() {
                return Err(Fault::Memory);
            }
            Ok(untried(why, Part::Refused(lines, fault)))
        }
    }
}
