//! What to do about a group that no line of the makefile mends.

ghost use Rattle.std.specs.Prelude.{◌≡◌, ◌++◌, OnOk};
ghost use Rattle.std.specs.String.{string_bytes};
ghost use Rattle.mk_lines.specs.Names.{has_name};
ghost use Rattle.mk_repair.specs.Rows.{names_view};
ghost use Rattle.mk_claims.specs.Topics.{topic_view};
ghost use Rattle.mk_sentences.specs.Advice.{advice, choose_maker, find_maker, keep_first, keep_one, open_cycle, rename, split_writer, take_in, write_another, write_rule};

use crate::phrases::{by, shown};
use mk_claims::{Kind, Topic};
use std::alloc::{AllocError, Global};

/// Appends what to do about files whose names a makefile can't hold.
fn push_rename(out: &mut String, what: &[&str]) -> Result<(), AllocError>
    ensures { OnOk result (string_bytes out.new ≡
        string_bytes out.old ++ rename (names_view what.now)) }
{
    out.push_str(by(
        what,
        "rename the file: a makefile can't hold its name",
        "rename the files: a makefile can't hold their names",
    ))
}

/// Whether this name is among the names. Allocates nothing.
fn has_name(names: &[&str], name: &str) -> bool
    ensures { result ≡ has_name (names_view names.now) name.now }
{
    for other in names {
        if name == *other {
            return true;
        }
    }
    false
}

/// Appends what to do about two recipes, of which the first makes all that the second one makes.
fn push_keep_first(out: &mut String, first: &str, second: &str) -> Result<(), AllocError>
    ensures { OnOk result (string_bytes out.new ≡
        string_bytes out.old ++ keep_first first.now second.now) }
{
    write!(
        out,
        "; if the recipe of {first} makes all that the recipe of {second} makes, \
         write `{second}: {first} ;` in place of the rule of {second}"
    )
}

/// Appends what to do about two recipes that write the same files.
fn push_keep_one(
    out: &mut String,
    first: &str,
    second: &str,
    who: &[&str],
) -> Result<(), AllocError>
    ensures { OnOk result (string_bytes out.new ≡
        string_bytes out.old ++ keep_one first.now second.now (names_view who.now)) }
{
    out.push_str(
        "let each recipe write files of its own, and check a target such as clean by itself",
    )?;
    if has_name(who, second) {
        return push_keep_first(out, first, second);
    }
    Ok(())
}

/// Appends what to do about a file from which each make starts.
fn push_write_another(out: &mut String, what: &[&str]) -> Result<(), AllocError>
    ensures { OnOk result (string_bytes out.new ≡
        string_bytes out.old ++ write_another (names_view what.now)) }
{
    out.push_str(by(
        what,
        "let the recipe write another file, or take this one out of the sources, -include \
         and .PHONY; if it is a dependency file, as cc -MMD writes it, let mkcheck-import read \
         the build",
        "let the recipe write other files, or take these out of the sources, -include \
         and .PHONY; if they are dependency files, as cc -MMD writes them, let mkcheck-import \
         read the build",
    ))
}

/// Appends what to do about a file that the recipe which writes it has as a prerequisite.
fn push_split_writer(
    alloc: Global,
    out: &mut String,
    who: &[&str],
    what: &[&str],
) -> Result<(), AllocError>
    ensures { OnOk result (string_bytes out.new ≡
        string_bytes out.old ++ split_writer (names_view who.now) (names_view what.now)) }
{
    let names = shown(alloc, who)?;
    let rules = by(
        who,
        " a rule of its own, or take it out of the prerequisites of ",
        " rules of their own, or take them out of the prerequisites of ",
    );
    let writers = shown(alloc, what)?;
    write!(
        out,
        "give {names}{rules}{writers}: to depend on that would close a cycle"
    )
}

/// Appends what to do about a line that would close this cycle.
fn push_open_cycle(out: &mut String, cycle: &str) -> Result<(), AllocError>
    ensures { OnOk result (string_bytes out.new ≡ string_bytes out.old ++ open_cycle cycle.now) }
{
    write!(
        out,
        "with a line for this each of these names would need the next one:{cycle}; \
         split one of these recipes in two, or take a prerequisite away"
    )
}

/// Appends what to do about a file of unknown origin.
fn push_take_in(out: &mut String, what: &[&str]) -> Result<(), AllocError>
    ensures { OnOk result (string_bytes out.new ≡
        string_bytes out.old ++ take_in (names_view what.now)) }
{
    out.push_str(by(
        what,
        "take it into the project and record again, or record with --fixed if it never changes",
        "take them into the project and record again, or record with --fixed if they never change",
    ))
}

/// Appends what to do about a file that two targets may make which the goals don't reach.
fn push_choose_maker(
    out: &mut String,
    first: &str,
    second: &str,
    what: &[&str],
) -> Result<(), AllocError>
    ensures { OnOk result (string_bytes out.new ≡
        string_bytes out.old ++ choose_maker first.now second.now (names_view what.now)) }
{
    let recorded = by(
        what,
        " were recorded to write it",
        " were recorded to write them",
    );
    write!(
        out,
        "the recipes of {first} and {second}{recorded}, \
         and these goals reach neither: write the one that is meant as a prerequisite"
    )
}

/// Appends what to do about a file of unknown origin, by the second of two targets that may make
/// it; empty without them.
fn push_find_maker(
    out: &mut String,
    first: &str,
    second: &str,
    what: &[&str],
) -> Result<(), AllocError>
    ensures { OnOk result (string_bytes out.new ≡
        string_bytes out.old ++ find_maker first.now second.now (names_view what.now)) }
{
    if second == "" {
        return push_take_in(out, what);
    }
    push_choose_maker(out, first, second, what)
}

/// Appends what to do about a name that an inference rule makes from another file.
fn push_write_rule(out: &mut String, name: &str, chosen: &str) -> Result<(), AllocError>
    ensures { OnOk result (string_bytes out.new ≡
        string_bytes out.old ++ write_rule name.now chosen.now) }
{
    write!(
        out,
        "write a rule with commands for {name}, \
         or make {chosen} a target of the recipe that writes it"
    )
}

/// Appends what to do about a group that no line of the makefile mends, without a newline. The only
/// error is out of memory.
pub fn push_advice(
    alloc: Global,
    out: &mut String,
    topic: &Topic<'_>,
    who: &[&str],
    what: &[&str],
) -> Result<(), AllocError>
    ensures { OnOk result (string_bytes out.new ≡ string_bytes out.old ++
        advice (topic_view topic.now) (names_view who.now) (names_view what.now)) }
{
    if topic.cycle != "" {
        return push_open_cycle(out, topic.cycle);
    }
    match topic.kind {
        Kind::NoRecord | Kind::OtherCommands | Kind::UnrecordedRead => {
            out.push_str("record again, with the goals and macros that are checked")
        }
        Kind::VaryingCommands => {
            out.push_str("write $^ in place of $?, and make the whole file anew in each run")
        }
        Kind::NoTarget => out.push_str(by(
            who,
            "let the recipe write its target, and record again; if another recipe writes it, \
             write that recipe's target as a prerequisite, and `;` in place of the commands; \
             if it is a folder, take it out of the prerequisites, \
             and write mkdir -p in the recipes that need it",
            "let the recipes write their targets, and record again; if other recipes write them, \
             write those recipes' targets as prerequisites, and `;` in place of the commands; \
             if they are folders, take them out of the prerequisites, \
             and write mkdir -p in the recipes that need them",
        )),
        Kind::TwoWriters => push_keep_one(out, topic.first, topic.second, who),
        Kind::GivenWritten => push_write_another(out, what),
        Kind::OwnRead => out.push_str(
            "split the recipe in two, or make each file anew from other files alone",
        ),
        Kind::UnknownRead => push_find_maker(out, topic.first, topic.second, what),
        Kind::UnreachedRead => push_rename(out, what),
        Kind::Loose => push_rename(out, what),
        Kind::OwnPrerequisite => push_split_writer(alloc, out, who, what),
        Kind::Race => push_rename(out, what),
        Kind::OutputRace => push_rename(out, what),
        Kind::Stale => push_rename(out, what),
        Kind::OutputStale => push_rename(out, what),
        Kind::RaceAndStale => push_rename(out, what),
        Kind::OutputRaceAndStale => push_rename(out, what),
        Kind::Selection => push_write_rule(out, topic.first, topic.second),
    }
}
