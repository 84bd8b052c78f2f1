//! What each finding says, as groups gather it.

ghost use Rattle.std.specs.Prelude.{◌≡◌, is_some, map, option_map, IfOk};
ghost use Rattle.mk_repair.specs.FindingWords.{word_of};
ghost use Rattle.mk_repair.specs.Lookups.{AreLookups, makers_view};
ghost use Rattle.mk_repair.specs.Words.{word_view};
ghost use Rattle.mk_graph.specs.Graph.{node};
ghost use Rattle.mk_claims.specs.Claims.{about, between, claim_of, claim_view, is_repaired, lacks_record, read_claim, unknown_claim, unmade_claim, unwritten_claim};

use crate::topic::{Kind, Topic};
use mk_find::Finding;
use mk_graph::Graph;
use mk_repair::{Lookups, Makers, Word, lookups_of, makers_of, needs_directly, word_of};
use mk_subject::Subject;
use std::alloc::{AllocError, Global};

/// What a finding says.
#[derive(Clone, Copy, PartialEq, Eq, Hash)]
pub struct Claim<'a> {
    /// What it has in common with the findings of its group.
    pub topic: Topic<'a>,
    /// The name that it is about.
    pub who: &'a str,
    /// The file that it is about; empty where the kind has none.
    pub what: &'a str,
}

/// A claim whose topic has no names.
fn about<'a>(kind: Kind, has_line: bool, who: &'a str, what: &'a str) -> Claim<'a>
    ensures { claim_view result ≡ about kind has_line who.entry.now what.entry.now }
{
    let topic = Topic {
        kind,
        has_line,
        first: "",
        second: "",
        cycle: "",
    };
    Claim { topic, who, what }
}

/// Whether a line of the makefile mends a finding. The lookups are those of the subject.
fn is_repaired(subject: &Subject<'_>, lookups: &Lookups<'_>, finding: &Finding) -> bool
    requires { AreLookups subject.now lookups.now }
    ensures { result ≡ is_repaired subject.now finding.now }
{
    match word_of(subject, lookups, finding) {
        Some(_) => true,
        None => false,
    }
}

/// The claim of a race or a stale read, by the word that the finding gives.
fn read_claim<'a>(
    direct: Kind,
    indirect: Kind,
    recipe: &'a str,
    file: &'a str,
    word: Option<Word<'a>>,
) -> Claim<'a>
    ensures { claim_view result ≡ read_claim direct indirect recipe.entry.now file.entry.now
        (option_map word_view word.entry) }
{
    match word {
        Some(Word::Needs { prerequisite, .. }) => {
            if prerequisite == file {
                return about(direct, true, recipe, file);
            }
            let topic = Topic {
                kind: indirect,
                has_line: true,
                first: prerequisite,
                second: "",
                cycle: "",
            };
            Claim {
                topic,
                who: recipe,
                what: file,
            }
        }
        Some(Word::Phony { .. }) | None => about(direct, false, recipe, file),
    }
}

/// A claim whose topic has two names.
fn between<'a>(
    kind: Kind,
    first: &'a str,
    second: &'a str,
    who: &'a str,
    what: &'a str,
) -> Claim<'a>
    ensures { claim_view result ≡
        between kind first.entry.now second.entry.now who.entry.now what.entry.now }
{
    let topic = Topic {
        kind,
        has_line: false,
        first,
        second,
        cycle: "",
    };
    Claim { topic, who, what }
}

/// The claim that a recipe reads an unknown file that no line lets it need, by what may make it.
fn unmade_claim<'a>(recipe: &'a str, file: &'a str, makers: Makers<'a>) -> Claim<'a>
    ensures { claim_view result ≡
        unmade_claim recipe.entry.now file.entry.now (makers_view makers.entry) }
{
    match makers {
        Makers::None | Makers::One(_) => about(Kind::UnknownRead, false, recipe, file),
        Makers::Two(first, second) => between(Kind::UnknownRead, first, second, recipe, file),
    }
}

/// Whether a node has a recipe.
fn has_recipe(graph: &Graph, number: usize) -> bool
    ensures { result ≡ (node graph.now number).recipe }
{
    match graph.nodes().get(number) {
        Some(node) => node.recipe,
        None => false,
    }
}

/// Whether the goals reach the name, and it has a recipe without a record. Allocates nothing.
fn lacks_record(subject: &Subject<'_>, name: &str) -> bool
    ensures { result ≡ lacks_record subject.now name.now }
{
    let number = subject.names().number_of(name);
    has_recipe(subject.graph(), number) && subject.setting().record_of(name).is_none()
}

/// The claim that a recipe reads an unknown file that no line lets it need: by whether the file has
/// a recipe without a record, and else by what may make it.
fn unwritten_claim<'a>(recipe: &'a str, file: &'a str, lacks: bool, makers: Makers<'a>) -> Claim<'a>
    ensures { claim_view result ≡
        unwritten_claim recipe.entry.now file.entry.now lacks (makers_view makers.entry) }
{
    if lacks {
        return about(Kind::UnrecordedRead, false, recipe, file);
    }
    unmade_claim(recipe, file, makers)
}

/// The claim that a recipe reads an unknown file, by the word that the finding gives, whether the
/// file has a recipe without a record, and what may make it.
fn unknown_claim<'a>(
    recipe: &'a str,
    file: &'a str,
    word: Option<Word<'a>>,
    lacks: bool,
    makers: Makers<'a>,
) -> Claim<'a>
    ensures { claim_view result ≡ unknown_claim recipe.entry.now file.entry.now
        (option_map word_view word.entry) lacks (makers_view makers.entry) }
{
    match word {
        Some(Word::Needs { prerequisite, .. }) => {
            let topic = Topic {
                kind: Kind::UnreachedRead,
                has_line: true,
                first: prerequisite,
                second: "",
                cycle: "",
            };
            Claim {
                topic,
                who: recipe,
                what: file,
            }
        }
        Some(Word::Phony { .. }) | None => unwritten_claim(recipe, file, lacks, makers),
    }
}

/// The claim of a finding. The lookups are those of the subject. Allocates nothing.
fn claim_of<'a>(subject: &'a Subject<'_>, lookups: &Lookups<'a>, finding: &'a Finding) -> Claim<'a>
    requires { AreLookups subject.now lookups.now }
    ensures { claim_view result ≡ claim_of subject.entry.now finding.entry.now }
{
    match finding {
        Finding::NoRecord { recipe } => about(Kind::NoRecord, false, recipe.as_str(), ""),
        Finding::OtherCommands { recipe } => about(Kind::OtherCommands, false, recipe.as_str(), ""),
        Finding::VaryingCommands { recipe } => {
            about(Kind::VaryingCommands, false, recipe.as_str(), "")
        }
        Finding::NoTarget { recipe } => {
            let has_line = is_repaired(subject, lookups, finding);
            about(Kind::NoTarget, has_line, recipe.as_str(), "")
        }
        Finding::TwoWriters {
            first,
            second,
            file,
        } => between(
            Kind::TwoWriters,
            first.as_str(),
            second.as_str(),
            file.as_str(),
            "",
        ),
        Finding::GivenWritten { recipe, file } => {
            about(Kind::GivenWritten, false, recipe.as_str(), file.as_str())
        }
        Finding::OwnRead { recipe, file } => {
            about(Kind::OwnRead, false, recipe.as_str(), file.as_str())
        }
        Finding::UnknownRead { recipe, file } => {
            let word = word_of(subject, lookups, finding);
            let lacks = lacks_record(subject, file.as_str());
            let makers = makers_of(subject, lookups, file.as_str());
            unknown_claim(recipe.as_str(), file.as_str(), word, lacks, makers)
        }
        Finding::Loose { name, writer } => {
            if needs_directly(subject, writer.as_str(), name.as_str()) {
                return about(Kind::OwnPrerequisite, false, name.as_str(), writer.as_str());
            }
            let has_line = is_repaired(subject, lookups, finding);
            about(Kind::Loose, has_line, name.as_str(), writer.as_str())
        }
        Finding::Race { recipe, file, .. } => {
            let word = word_of(subject, lookups, finding);
            read_claim(
                Kind::Race,
                Kind::OutputRace,
                recipe.as_str(),
                file.as_str(),
                word,
            )
        }
        Finding::Stale { recipe, file } => {
            let word = word_of(subject, lookups, finding);
            read_claim(
                Kind::Stale,
                Kind::OutputStale,
                recipe.as_str(),
                file.as_str(),
                word,
            )
        }
        Finding::Selection { name, chosen } => between(
            Kind::Selection,
            name.as_str(),
            chosen.as_str(),
            name.as_str(),
            chosen.as_str(),
        ),
    }
}

/// The claims of the findings, in the same order. Takes the time of `words_of`. The only error is
/// out of memory.
pub fn claims_of<'a>(
    alloc: Global,
    subject: &'a Subject<'_>,
    findings: &'a [Finding],
) -> Result<Vec<Claim<'a>>, AllocError>
    ensures { IfOk result (λ claims. map claim_view claims.items ≡
        map (claim_of subject.entry.now) findings.entry.now) }
{
    let lookups = lookups_of(alloc, subject)?;
    let mut claims = Vec::with_capacity(alloc, findings.len())?;
    for finding in findings {
        claims.push(claim_of(subject, &lookups, finding))?;
    }
    Ok(claims)
}
