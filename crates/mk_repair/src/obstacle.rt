//! Why a finding stops a repair, and the lines for the findings that don't.

ghost use Rattle.std.specs.Prelude.{◌≡◌, IfOk};
ghost use Rattle.std.specs.Option.{option_copied};
ghost use Rattle.std.specs.String.{string_bytes};
ghost use Rattle.mk_repair.specs.Lookups.{AreLookups};
ghost use Rattle.mk_repair.specs.Obstacle.{IsObstacle, cause, first_wordless, reason, why_stuck, words_of_some};

use crate::finding_words::{word_for, word_of};
use crate::lines::lines_text;
use crate::lookups::{Lookups, lookups_of};
use crate::words::Words;
use mk_find::Finding;
use mk_subject::Subject;
use std::alloc::{AllocError, Global};

/// Why a finding stops a repair, and the lines for the findings that don't.
#[derive(Debug, Drop)]
pub struct Obstacle {
    /// Why the first finding that gives no word has none; empty where each finding gives one.
    pub why: String,
    /// The lines of the words of the findings that give one.
    pub lines: String,
}

/// Why no line mends a finding of this kind.
fn cause(finding: &Finding) -> &'static str
    ensures { result.now ≡ cause finding.now }
{
    match finding {
        Finding::NoRecord { .. } => "nothing says what its recipe reads",
        Finding::OtherCommands { .. } => "it was recorded with other commands",
        Finding::VaryingCommands { .. } => "its commands differ from make to make",
        Finding::NoTarget { .. } => "its recipe doesn't write it, and it can't be phony",
        Finding::TwoWriters { .. } => "two recipes write one file",
        Finding::GivenWritten { .. } => "a recipe writes what the build starts from",
        Finding::OwnRead { .. } => "a recipe reads what it writes",
        Finding::UnknownRead { .. } => "no target alone is known to make the file",
        Finding::Loose { .. } => "the recipe that writes it needs it",
        Finding::Race { .. } => "nothing is known to make the file",
        Finding::Stale { .. } => "nothing is known to make the file",
        Finding::Selection { .. } => "another inference rule applies later",
    }
}

/// Why a finding gives no word: a makefile can't hold the names of its word, or it has none. The
/// lookups are those of the subject.
fn reason(subject: &Subject<'_>, lookups: &Lookups<'_>, finding: &Finding) -> &'static str
    requires { AreLookups subject.now lookups.now }
    ensures { result.now ≡ reason subject.now finding.now }
{
    if word_for(subject, lookups, finding).is_some() {
        "a makefile can't hold its names"
    } else {
        cause(finding)
    }
}

/// The first of the findings that gives no word. The lookups are those of the subject. Allocates
/// nothing.
fn first_wordless<'a>(
    subject: &'a Subject<'_>,
    lookups: &Lookups<'a>,
    findings: &'a [Finding],
) -> Option<&'a Finding>
    requires { AreLookups subject.now lookups.now }
    ensures { option_copied result ≡ first_wordless subject.entry.now findings.entry.now }
{
    for finding in findings {
        if word_of(subject, lookups, finding).is_none() {
            return Some(finding);
        }
    }
    None
}

/// Why the first finding without a word has none; empty where each finding gives one. The lookups
/// are those of the subject. The only error is out of memory.
fn why_stuck<'a>(
    alloc: Global,
    subject: &'a Subject<'_>,
    lookups: &Lookups<'a>,
    findings: &'a [Finding],
) -> Result<String, AllocError>
    requires { AreLookups subject.now lookups.now }
    ensures { IfOk result (λ text. string_bytes text ≡
        why_stuck subject.now (first_wordless subject.now findings.now)) }
{
    match first_wordless(subject, lookups, findings) {
        Some(finding) => {
            let why = reason(subject, lookups, finding);
            format!(in alloc; "no line mends `no {finding}`: {why}")
        }
        None => Ok(String::new(alloc)),
    }
}

/// The words of those findings that give one, each once, in the order of the findings. The lookups
/// are those of the subject. The only error is out of memory.
fn words_of_some<'a>(
    alloc: Global,
    subject: &'a Subject<'_>,
    lookups: &Lookups<'a>,
    findings: &'a [Finding],
) -> Result<Words, AllocError>
    requires { AreLookups subject.now lookups.now }
    ensures { IfOk result (λ words. words ≡ words_of_some subject.now findings.now) }
{
    let mut words = Words::new(alloc);
    for finding in findings {
        if let Some(word) = word_of(subject, lookups, finding) {
            words.insert(alloc, word)?;
        }
    }
    Ok(words)
}

/// Why the first of the findings that gives no word has none, in a sentence, and the lines of the
/// words of the others, as `lines_text` has them. Takes the time of `words_of`. The only error is
/// out of memory.
pub fn obstacle_of(
    alloc: Global,
    subject: &Subject<'_>,
    findings: &[Finding],
) -> Result<Obstacle, AllocError>
    ensures { IfOk result (λ obstacle. IsObstacle subject.now findings.now obstacle) }
{
    let lookups = lookups_of(alloc, subject)?;
    let why = why_stuck(alloc, subject, &lookups, findings)?;
    let words = words_of_some(alloc, subject, &lookups, findings)?;
    let lines = lines_text(alloc, &words)?;
    Ok(Obstacle { why, lines })
}
