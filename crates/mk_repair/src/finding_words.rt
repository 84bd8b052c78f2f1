//! The words that findings give.

ghost use Rattle.std.specs.Prelude.{◌≡◌, option_map, IfOk};
ghost use Rattle.mk_repair.specs.FindingWords.{can_be_written, word_for, word_of, words_of};
ghost use Rattle.mk_repair.specs.Lookups.{AreLookups};
ghost use Rattle.mk_repair.specs.Makers.{makers_of, only_maker};
ghost use Rattle.mk_repair.specs.Provider.{provider};
ghost use Rattle.mk_repair.specs.Word.{needs};
ghost use Rattle.mk_repair.specs.Words.{word_view};

use crate::commanded::is_commanded;
use crate::lookups::{Lookups, lookups_of};
use crate::make_name::is_make_name;
use crate::makers::{Makers, makers_of};
use crate::needed::needs_directly;
use crate::provider::provider;
use crate::word::Word;
use crate::words::Words;
use mk_find::Finding;
use mk_subject::Subject;
use std::alloc::{AllocError, Global};

/// The word that the recipe needs what provides the file, if something does.
fn need_of<'a>(subject: &'a Subject<'_>, recipe: &'a str, file: &'a str) -> Option<Word<'a>>
    ensures { option_map word_view result ≡
        option_map (needs recipe.entry.now) (provider subject.entry.now file.entry.now) }
{
    let prerequisite = provider(subject, file)?;
    Some(Word::Needs {
        target: recipe,
        prerequisite,
    })
}

/// The word that the recipe needs the one target that may make the file, if there is one alone.
fn need_of_maker<'a>(
    subject: &Subject<'_>,
    lookups: &Lookups<'a>,
    recipe: &'a str,
    file: &'a str,
) -> Option<Word<'a>>
    requires { AreLookups subject.now lookups.now }
    ensures { option_map word_view result ≡ option_map (needs recipe.entry.now)
        (only_maker (makers_of subject.now file.entry.now)) }
{
    match makers_of(subject, lookups, file) {
        Makers::One(prerequisite) => Some(Word::Needs {
            target: recipe,
            prerequisite,
        }),
        Makers::None | Makers::Two(..) => None,
    }
}

/// The word for a finding, whatever its names are. The lookups are those of the subject.
pub fn word_for<'a>(
    subject: &'a Subject<'_>,
    lookups: &Lookups<'a>,
    finding: &'a Finding,
) -> Option<Word<'a>>
    requires { AreLookups subject.now lookups.now }
    ensures { option_map word_view result ≡ word_for subject.entry.now finding.entry.now }
{
    match finding {
        Finding::NoTarget { recipe } => {
            let target = recipe.as_str();
            if lookups.needed.contains(target) || !is_commanded(subject.makefile(), target) {
                return None;
            }
            Some(Word::Phony { target })
        }
        Finding::Loose { name, writer } => {
            if needs_directly(subject, writer.as_str(), name.as_str()) {
                return None;
            }
            Some(Word::Needs {
                target: name.as_str(),
                prerequisite: writer.as_str(),
            })
        }
        Finding::Race { recipe, file, .. } => need_of(subject, recipe.as_str(), file.as_str()),
        Finding::Stale { recipe, file } => need_of(subject, recipe.as_str(), file.as_str()),
        Finding::UnknownRead { recipe, file } => {
            need_of_maker(subject, lookups, recipe.as_str(), file.as_str())
        }
        Finding::NoRecord { .. }
        | Finding::OtherCommands { .. }
        | Finding::VaryingCommands { .. }
        | Finding::TwoWriters { .. }
        | Finding::GivenWritten { .. }
        | Finding::OwnRead { .. }
        | Finding::Selection { .. } => None,
    }
}

/// Whether a makefile can hold the names of a word.
fn can_be_written(word: Word<'_>) -> bool
    ensures { result ≡ can_be_written (word_view word.entry) }
{
    match word {
        Word::Needs {
            target,
            prerequisite,
        } => is_make_name(target) && is_make_name(prerequisite),
        Word::Phony { target } => is_make_name(target),
    }
}

/// The word that a finding gives, if it gives one. The lookups are those of the
/// subject. Allocates nothing.
pub fn word_of<'a>(
    subject: &'a Subject<'_>,
    lookups: &Lookups<'a>,
    finding: &'a Finding,
) -> Option<Word<'a>>
    requires { AreLookups subject.now lookups.now }
    ensures { option_map word_view result ≡ word_of subject.entry.now finding.entry.now }
{
    let word = word_for(subject, lookups, finding)?;
    if can_be_written(word) {
        Some(word)
    } else {
        None
    }
}

/// The words of the findings, each once, in the order of the findings; `None` if a finding gives no
/// word. Takes time linear in the makefile, the graph and the findings, and for each unknown file
/// in what the recipes that the goals don't reach write. The only error is out of memory.
///
/// A stale read or a race says that its recipe needs the file, or the recipe that writes it where
/// the file is neither a source nor a node. A loose name needs its writer, unless that has it as a
/// direct prerequisite. A target with commands of its own whose recipe doesn't write it is phony,
/// unless a recipe that isn't phony needs it. A recipe that reads an unknown file needs the target
/// that may make it, if there is one alone. Other findings give no word, and neither does a name
/// that a makefile can't hold.
pub fn words_of<'a>(
    alloc: Global,
    subject: &'a Subject<'_>,
    findings: &'a [Finding],
) -> Result<Option<Words>, AllocError>
    ensures { IfOk result (λ words. words ≡ words_of subject.now findings.now) }
{
    let lookups = lookups_of(alloc, subject)?;
    let mut words = Words::new(alloc);
    for finding in findings {
        let Some(word) = word_of(subject, &lookups, finding) else {
            return Ok(None);
        };
        words.insert(alloc, word)?;
    }
    Ok(Some(words))
}
