//! The sentence of a group.

ghost use Rattle.std.specs.Prelude.{◌≡◌, ◌++◌, IfOk, OnOk};
ghost use Rattle.std.specs.String.{string_bytes};
ghost use Rattle.mk_repair.specs.Rows.{names_view};
ghost use Rattle.mk_claims.specs.Topics.{topic_view};
ghost use Rattle.mk_sentences.specs.Sentences.{both_effects, given_written, loose, no_record, no_target, other_commands, output_race, output_race_and_stale, output_stale, own_read, race, race_and_stale, reads, recipes_of, selection, sentence, stale, stays_old, two_writers, unknown_read, unreached_read, unrecorded_read, varying_commands};

use crate::phrases::{by, shown};
use mk_claims::{Kind, Topic};
use std::alloc::{AllocError, Global};

/// Appends the sentence on recipes without a record.
fn push_no_record(alloc: Global, out: &mut String, who: &[&str]) -> Result<(), AllocError>
    ensures { OnOk result (string_bytes out.new ≡
        string_bytes out.old ++ no_record (names_view who.now)) }
{
    let names = shown(alloc, who)?;
    let lack = by(
        who,
        " has no record, so nothing is known of what its recipe reads and writes",
        " have no record, so nothing is known of what their recipes read and write",
    );
    write!(out, "{names}{lack}")
}

/// Appends the sentence on recipes that were recorded with other commands.
fn push_other_commands(alloc: Global, out: &mut String, who: &[&str]) -> Result<(), AllocError>
    ensures { OnOk result (string_bytes out.new ≡
        string_bytes out.old ++ other_commands (names_view who.now)) }
{
    let names = shown(alloc, who)?;
    let were = by(
        who,
        " was recorded with other commands than it has with these goals and macros, \
         which may read other files",
        " were recorded with other commands than they have with these goals and macros, \
         which may read other files",
    );
    write!(out, "{names}{were}")
}

/// Appends the sentence on recipes whose commands use `$?`.
fn push_varying_commands(alloc: Global, out: &mut String, who: &[&str]) -> Result<(), AllocError>
    ensures { OnOk result (string_bytes out.new ≡
        string_bytes out.old ++ varying_commands (names_view who.now)) }
{
    let names = shown(alloc, who)?;
    let effect = by(
        who,
        " use $?, so what it holds may depend on what was out of date",
        " use $?, so what they hold may depend on what was out of date",
    );
    write!(out, "the commands of {names}{effect}")
}

/// Appends the sentence on recipes that don't write their targets.
fn push_no_target(alloc: Global, out: &mut String, who: &[&str]) -> Result<(), AllocError>
    ensures { OnOk result (string_bytes out.new ≡
        string_bytes out.old ++ no_target (names_view who.now)) }
{
    let names = shown(alloc, who)?;
    let fact = by(
        who,
        " isn't phony, but its recipe doesn't write it: ",
        " aren't phony, but their recipes don't write them: ",
    );
    let effect = by(
        who,
        "as long as there is no such file, each make runs the recipe again",
        "as long as there are no such files, each make runs the recipes again",
    );
    write!(out, "{names}{fact}{effect}")
}

/// Appends the sentence on files that two recipes write.
fn push_two_writers(
    alloc: Global,
    out: &mut String,
    first: &str,
    second: &str,
    who: &[&str],
) -> Result<(), AllocError>
    ensures { OnOk result (string_bytes out.new ≡
        string_bytes out.old ++ two_writers first.now second.now (names_view who.now)) }
{
    let names = shown(alloc, who)?;
    write!(
        out,
        "the recipes of {first} and {second} both write {names}: \
         what is left depends on which of them ran last"
    )
}

/// The beginning of a sentence on recipes.
#[tactic(auto, unfolding(crate::specs::Sentences::recipes_of))]
fn recipes_of(alloc: Global, who: &[&str]) -> Result<String, AllocError>
    ensures { IfOk result (λ text. string_bytes text ≡ recipes_of (names_view who.now)) }
{
    let names = shown(alloc, who)?;
    let recipes = by(who, "the recipe of ", "the recipes of ");
    format!(in alloc; "{recipes}{names}")
}

/// Appends the sentence on recipes that write files from which a make starts.
fn push_given_written(
    alloc: Global,
    out: &mut String,
    who: &[&str],
    what: &[&str],
) -> Result<(), AllocError>
    ensures { OnOk result (string_bytes out.new ≡
        string_bytes out.old ++ given_written (names_view who.now) (names_view what.now)) }
{
    let recipes = recipes_of(alloc, who)?;
    let write = by(who, " writes ", " write ");
    let files = shown(alloc, what)?;
    write!(
        out,
        "{recipes}{write}{files}, which each make takes as given (a source, a makefile, or a name \
         of -include or .PHONY): the next make starts from something else"
    )
}

/// Appends the sentence on recipes that read files which they write themselves.
fn push_own_read(
    alloc: Global,
    out: &mut String,
    who: &[&str],
    what: &[&str],
) -> Result<(), AllocError>
    ensures { OnOk result (string_bytes out.new ≡
        string_bytes out.old ++ own_read (names_view who.now) (names_view what.now)) }
{
    let recipes = recipes_of(alloc, who)?;
    let read = by(who, " reads ", " read ");
    let files = shown(alloc, what)?;
    let leave = by(
        who,
        ", which it also writes: what it leaves",
        ", which they also write: what they leave",
    );
    write!(
        out,
        "{recipes}{read}{files}{leave} may depend on what was there before"
    )
}

/// Appends the sentence on recipes that read files of unknown origin.
fn push_unknown_read(
    alloc: Global,
    out: &mut String,
    who: &[&str],
    what: &[&str],
) -> Result<(), AllocError>
    ensures { OnOk result (string_bytes out.new ≡
        string_bytes out.old ++ unknown_read (names_view who.now) (names_view what.now)) }
{
    let recipes = recipes_of(alloc, who)?;
    let read = by(who, " reads ", " read ");
    let files = shown(alloc, what)?;
    let effect = by(
        what,
        ", which is neither a source nor written by a recipe: nothing says when it changes",
        ", which are neither sources nor written by recipes: nothing says when they change",
    );
    write!(out, "{recipes}{read}{files}{effect}")
}

/// Appends the sentence on recipes that read files whose recipes have no record.
fn push_unrecorded_read(
    alloc: Global,
    out: &mut String,
    who: &[&str],
    what: &[&str],
) -> Result<(), AllocError>
    ensures { OnOk result (string_bytes out.new ≡
        string_bytes out.old ++ unrecorded_read (names_view who.now) (names_view what.now)) }
{
    let recipes = recipes_of(alloc, who)?;
    let read = by(who, " reads ", " read ");
    let files = shown(alloc, what)?;
    let lack = by(
        what,
        ", whose recipe has no record, so nothing is known of what it writes",
        ", whose recipes have no records, so nothing is known of what they write",
    );
    write!(out, "{recipes}{read}{files}{lack}")
}

/// Appends the sentence on names that don't wait for the recipes that write their files.
fn push_loose(
    alloc: Global,
    out: &mut String,
    who: &[&str],
    what: &[&str],
) -> Result<(), AllocError>
    ensures { OnOk result (string_bytes out.new ≡
        string_bytes out.old ++ loose (names_view who.now) (names_view what.now)) }
{
    let names = shown(alloc, who)?;
    let lack = by(
        who,
        " has no recipe and doesn't depend on ",
        " have no recipes and don't depend on ",
    );
    let writers = shown(alloc, what)?;
    let write = by(what, ", whose recipe writes ", ", whose recipes write ");
    let effect = by(
        who,
        "it: make may take it as done while it is being written",
        "them: make may take them as done while they are being written",
    );
    write!(out, "{names}{lack}{writers}{write}{effect}")
}

/// Who reads what.
#[tactic(auto, unfolding(crate::specs::Sentences::reads))]
fn reads(alloc: Global, who: &[&str], what: &[&str]) -> Result<String, AllocError>
    ensures { IfOk result (λ text. string_bytes text ≡
        reads (names_view who.now) (names_view what.now)) }
{
    let names = shown(alloc, who)?;
    let read = by(who, " reads ", " read ");
    let files = shown(alloc, what)?;
    format!(in alloc; "{names}{read}{files}")
}

/// Appends the sentence on recipes that read files which the recipe of `maker` makes, where the
/// goals don't reach that.
fn push_unreached_read(
    alloc: Global,
    out: &mut String,
    maker: &str,
    who: &[&str],
    what: &[&str],
) -> Result<(), AllocError>
    ensures { OnOk result (string_bytes out.new ≡ string_bytes out.old ++
        unreached_read maker.now (names_view who.now) (names_view what.now)) }
{
    let reads = reads(alloc, who, what)?;
    let lack = by(who, "doesn't depend on ", "don't depend on ");
    write!(
        out,
        "{reads}, which the recipe of {maker} makes, but {lack}{maker}, so these goals don't run \
         that recipe"
    )
}

/// Appends the sentence on recipes that may begin before files are written.
fn push_race(alloc: Global, out: &mut String, who: &[&str], what: &[&str]) -> Result<(), AllocError>
    ensures { OnOk result (string_bytes out.new ≡
        string_bytes out.old ++ race (names_view who.now) (names_view what.now)) }
{
    let reads = reads(alloc, who, what)?;
    let lack = by(who, ", but doesn't wait for ", ", but don't wait for ");
    let effect = by(
        what,
        "it: with several jobs it may be missing, old or half-written then",
        "them: with several jobs one may be missing, old or half-written then",
    );
    write!(out, "{reads}{lack}{effect}")
}

/// Appends the sentence on recipes that may begin before the recipe of `writer` has written files.
fn push_output_race(
    alloc: Global,
    out: &mut String,
    writer: &str,
    who: &[&str],
    what: &[&str],
) -> Result<(), AllocError>
    ensures { OnOk result (string_bytes out.new ≡
        string_bytes out.old ++
        output_race writer.now (names_view who.now) (names_view what.now)) }
{
    let reads = reads(alloc, who, what)?;
    let lack = by(who, "doesn't wait for ", "don't wait for ");
    let effect = by(
        what,
        ": with several jobs it may be missing, old or half-written then",
        ": with several jobs one may be missing, old or half-written then",
    );
    write!(
        out,
        "{reads}, which the recipe of {writer} writes, but {lack}{writer}{effect}"
    )
}

/// The end of a sentence on recipes that don't run again.
#[tactic(auto, unfolding(crate::specs::Sentences::stays_old))]
fn stays_old(alloc: Global, who: &[&str]) -> Result<String, AllocError>
    ensures { IfOk result (λ text. string_bytes text ≡ stays_old (names_view who.now)) }
{
    let names = shown(alloc, who)?;
    let names = by(who, names.as_str(), "they");
    let stay = by(who, " stays old", " stay old");
    format!(in alloc; "{names}{stay}")
}

/// What follows of a race and a stale read.
#[tactic(auto, unfolding(crate::specs::Sentences::both_effects))]
fn both_effects(alloc: Global, who: &[&str], what: &[&str]) -> Result<String, AllocError>
    ensures { IfOk result (λ text. string_bytes text ≡
        both_effects (names_view who.now) (names_view what.now)) }
{
    let effect = by(
        what,
        "with several jobs it may be missing, old or half-written then, and when it changes, ",
        "with several jobs one may be missing, old or half-written then, and when one changes, ",
    );
    let stay = stays_old(alloc, who)?;
    format!(in alloc; "{effect}{stay}")
}

/// Appends the sentence on recipes that don't run again when files change.
fn push_stale(
    alloc: Global,
    out: &mut String,
    who: &[&str],
    what: &[&str],
) -> Result<(), AllocError>
    ensures { OnOk result (string_bytes out.new ≡
        string_bytes out.old ++ stale (names_view who.now) (names_view what.now)) }
{
    let reads = reads(alloc, who, what)?;
    let lack = by(who, ", but doesn't depend on ", ", but don't depend on ");
    let change = by(what, "it: when it changes, ", "them: when one changes, ");
    let stay = stays_old(alloc, who)?;
    write!(out, "{reads}{lack}{change}{stay}")
}

/// Appends the sentence on recipes that don't run again when files change which the recipe of
/// `writer` writes.
fn push_output_stale(
    alloc: Global,
    out: &mut String,
    writer: &str,
    who: &[&str],
    what: &[&str],
) -> Result<(), AllocError>
    ensures { OnOk result (string_bytes out.new ≡
        string_bytes out.old ++
        output_stale writer.now (names_view who.now) (names_view what.now)) }
{
    let reads = reads(alloc, who, what)?;
    let lack = by(who, "doesn't depend on ", "don't depend on ");
    let change = by(what, ": when it changes, ", ": when one changes, ");
    let stay = stays_old(alloc, who)?;
    write!(
        out,
        "{reads}, which the recipe of {writer} writes, but {lack}{writer}{change}{stay}"
    )
}

/// Appends the sentence on recipes that may begin before files are written, and that don't run
/// again when these change.
fn push_race_and_stale(
    alloc: Global,
    out: &mut String,
    who: &[&str],
    what: &[&str],
) -> Result<(), AllocError>
    ensures { OnOk result (string_bytes out.new ≡
        string_bytes out.old ++ race_and_stale (names_view who.now) (names_view what.now)) }
{
    let reads = reads(alloc, who, what)?;
    let lack = by(who, ", but doesn't depend on ", ", but don't depend on ");
    let effect = by(what, "it: ", "them: ");
    let both = both_effects(alloc, who, what)?;
    write!(out, "{reads}{lack}{effect}{both}")
}

/// Appends the sentence on recipes that may begin before the recipe of `writer` has written files,
/// and that don't run again when these change.
fn push_output_race_and_stale(
    alloc: Global,
    out: &mut String,
    writer: &str,
    who: &[&str],
    what: &[&str],
) -> Result<(), AllocError>
    ensures { OnOk result (string_bytes out.new ≡ string_bytes out.old ++
        output_race_and_stale writer.now (names_view who.now) (names_view what.now)) }
{
    let reads = reads(alloc, who, what)?;
    let lack = by(who, "doesn't depend on ", "don't depend on ");
    let both = both_effects(alloc, who, what)?;
    write!(
        out,
        "{reads}, which the recipe of {writer} writes, but {lack}{writer}: {both}"
    )
}

/// Appends the sentence on a name that an inference rule makes from another file once recipes have
/// run.
fn push_selection(out: &mut String, name: &str, chosen: &str) -> Result<(), AllocError>
    ensures { OnOk result (string_bytes out.new ≡
        string_bytes out.old ++ selection name.now chosen.now) }
{
    write!(
        out,
        "once recipes have run, an inference rule makes {name} from {chosen}, \
         but not before: the second make differs from the first"
    )
}

/// Appends the sentence of a group, without a newline. The only error is out of memory.
pub fn push_sentence(
    alloc: Global,
    out: &mut String,
    topic: &Topic<'_>,
    who: &[&str],
    what: &[&str],
) -> Result<(), AllocError>
    ensures { OnOk result (string_bytes out.new ≡ string_bytes out.old ++
        sentence (topic_view topic.now) (names_view who.now) (names_view what.now)) }
{
    match topic.kind {
        Kind::NoRecord => push_no_record(alloc, out, who),
        Kind::OtherCommands => push_other_commands(alloc, out, who),
        Kind::VaryingCommands => push_varying_commands(alloc, out, who),
        Kind::NoTarget => push_no_target(alloc, out, who),
        Kind::TwoWriters => push_two_writers(alloc, out, topic.first, topic.second, who),
        Kind::GivenWritten => push_given_written(alloc, out, who, what),
        Kind::OwnRead => push_own_read(alloc, out, who, what),
        Kind::UnknownRead => push_unknown_read(alloc, out, who, what),
        Kind::UnrecordedRead => push_unrecorded_read(alloc, out, who, what),
        Kind::UnreachedRead => push_unreached_read(alloc, out, topic.first, who, what),
        Kind::Loose => push_loose(alloc, out, who, what),
        Kind::OwnPrerequisite => push_loose(alloc, out, who, what),
        Kind::Race => push_race(alloc, out, who, what),
        Kind::OutputRace => push_output_race(alloc, out, topic.first, who, what),
        Kind::Stale => push_stale(alloc, out, who, what),
        Kind::OutputStale => push_output_stale(alloc, out, topic.first, who, what),
        Kind::RaceAndStale => push_race_and_stale(alloc, out, who, what),
        Kind::OutputRaceAndStale => {
            push_output_race_and_stale(alloc, out, topic.first, who, what)
        }
        Kind::Selection => push_selection(out, topic.first, topic.second),
    }
}
