//! The findings, with their sentences and texts.

ghost use Rattle.std.specs.Prelude.{◌≡◌, map, IfOk};
ghost use Rattle.std.specs.List.{find, flat_map};
ghost use Rattle.std.specs.Option.{option_map};
ghost use Rattle.std.specs.Str.{bytes_eq, str_eq_ignore_ascii_case};
ghost use Rattle.std.specs.String.{string_bytes};
ghost use Rattle.mk_explain.specs.Explain.{all_finding_lines, finding_line, finding_sentence, finding_spelled, lookup_word};
ghost use Rattle.mk_explain.specs.Texts.{finding_text};

use std::alloc::{AllocError, Global};

/// A finding: its first word, and a sentence.
type Row = (&'static str, &'static str);

/// The first word of each finding, and a sentence.
pub const FINDINGS: [(&str, &str); 12] = [
    ("record", "a recipe has no recorded footprint; record again"),
    (
        "commands",
        "a recipe was recorded with other commands; record again",
    ),
    (
        "varying",
        "a recipe's commands use `$?`; list the files in its place",
    ),
    (
        "target",
        "a recipe doesn't write its target; write it, or make it phony",
    ),
    (
        "writers",
        "two recipes write the same file; let only one of them write it",
    ),
    (
        "given",
        "a recipe writes a file that the build starts from; write another one",
    ),
    (
        "own",
        "a recipe reads a file that it writes; write the file anew each time",
    ),
    (
        "unknown",
        "a file is read that nothing makes or gives; take it into the project",
    ),
    (
        "loose",
        "a target's file is written by a recipe that it doesn't need; add it",
    ),
    (
        "race",
        "a file may be read while it is still written; add a prerequisite",
    ),
    (
        "stale",
        "a file can change, and its reader doesn't run again; add a prerequisite",
    ),
    (
        "selection",
        "once files are made, another inference rule applies; write a rule",
    ),
];

/// `no record R`.
pub const RECORD: &str = "\
`no record R`: the recipe of R has no record in the footprint file, so nothing
says what it reads and writes.

    b: a
    \tcp a b

No record has the target `b`: `no record b`. Record again with
`mkcheck-record`, with the goals and macros that are checked.
";

/// `no commands R`.
pub const COMMANDS: &str = "\
`no commands R`: R has a record with other commands than the makefile gives,
and the makefile's commands don't vary. Other commands may read other files.

    b: a
    \tcp -p a b

The record of `b` has the command `cp a b`: `no commands b`. Record again with
`mkcheck-record`, with the goals and macros that are checked.
";

/// `no varying R`.
pub const VARYING: &str = "\
`no varying R`: the commands of R use `$?`, so they differ from make to make.
What such a recipe writes may depend on what was out of date.

    lib.a: a.o
    \tar rv $@ $?

This is `no varying lib.a`. Write `$^`, and make the file anew:
`rm -f $@; ar rc $@ $^`.
";

/// `no target R`.
pub const TARGET: &str = "\
`no target R`: R has a record, isn't phony, and by its record its recipe
doesn't write R. If no file R exists, each make runs the recipe again.

    all: a
    \techo done

The recipe of `all` writes no file: `no target all`. Write `.PHONY: all`, or
let the recipe write the file that its target names. If R is a folder, which
is no file, take it out of the prerequisites, and write `mkdir -p R` in the
recipes that need it.
";

/// `no writers R S F`.
pub const WRITERS: &str = "\
`no writers R S F`: R and S both write F; R comes first in the serial order.
With several jobs both may write it at once. There is a line for each pair and
file.

    p.c p.h: p.y
    \tbison -d p.y -o p.c

A rule line with two targets is two rules, and each run of `bison` writes both
files: `no writers p.c p.h p.c` and `no writers p.c p.h p.h`. Give one of them
the recipe, and make the other need it: `p.c: p.y` with the command, and
`p.h: p.c ;` in place of the other rule. If several recipes append to one log,
give each a file of its own.
";

/// `no given R F`.
pub const GIVEN: &str = "\
`no given R F`: R writes F, and F is given, is named by `.PHONY`, or is a name
that reading the makefile passed over: of `-include`, or `makefile` if
`Makefile` was taken. After the make, the makefile or what the build starts
from is another one.

    -include a.d
    a.o: a.c
    \tcc -MMD -c a.c

The recipe of `a.o` writes `a.d` too: `no given a.o a.d`. Dependency files
change what the next make reads: let `mkcheck-import` read the build, which
knows them; or let a target that is made by hand write the lists of headers,
and keep them in the makefile (docs/FROM_GNU_MAKE.md). If a recipe changes a
source, let it write to another file instead.
";

/// `no own R F`.
pub const OWN: &str = "\
`no own R F`: R reads F, which it writes itself: what it leaves may depend on
what it left before.

    log: a
    \tcat a >> log

The recipe of `log` reads `a` and `log`, and writes `log`: `no own log log`.
Write the file anew in each run: `cat a > log`.
";

/// `no unknown R F`.
pub const UNKNOWN: &str = "\
`no unknown R F`: R reads F, which is neither given nor written by any recipe
that the goals reach. Nothing says where it comes from.

    b: a
    \tcat a /home/me/note > b

No recipe writes the note, and it is no source: `no unknown b /home/me/note`.
Take the file into the project, or, if it never changes, record with
`--fixed /home/me/`. If F has a rule that the goals don't reach, write `R: F`:
else a change of what F is made from never reaches R. If F has a recipe
without a record, nothing says that this writes F: record again, so that it
has one.
";

/// `no loose T R`.
pub const LOOSE: &str = "\
`no loose T R`: T is a name that the goals reach and that has no recipe, R
writes it, and R isn't a direct prerequisite of T. So T may count as done
while R still writes it.

    p.h:
    p.c: p.y
    \tbison -d p.y -o p.c

The recipe of `p.c` writes `p.h` too: `no loose p.h p.c`. Write `p.h: p.c`. If
GNU make runs the build, write `p.h: p.c ;`, with an empty recipe: else it
looks at `p.h` before `p.c` is made. If R itself needs T, as a program that
writes its own prerequisite, give T that command, or take it out of what R
needs.
";

/// `no race R S F`.
pub const RACE: &str = "\
`no race R S F`: R reads F, which another recipe S writes, and S isn't always
done before R begins. With several jobs R may read an old F, half of it, or
none.

    v.h: v.txt
    \tsed 's/.*/#define V \"&\"/' v.txt > v.h
    m.o: m.c
    \tcc -c m.c

`m.c` includes `v.h`, but the line of `m.o` doesn't name it:
`no race m.o v.h v.h`. Name the file: `m.o: m.c v.h`. `.WAIT` between the two
in the prerequisites of a goal removes the race, but not the stale read.
";

/// `no stale R F`.
pub const STALE: &str = "\
`no stale R F`: R reads F, which can change, and there is no way: nothing
makes R run when F changes, and what R wrote before stays.

    a.o: a.c
    \tcc -c a.c

The recipe of `a.o` reads `a.c` and `a.h`, and its line names only `a.c`:
`no stale a.o a.h`. Name the file: `a.o: a.c a.h`.
";

/// `no selection T F`.
pub const SELECTION: &str = "\
`no selection T F`: T is a name that the goals reach. Once recipes have
written their files, an inference rule would make T from F; as long as these
files don't exist, it makes T from something else, or not at all. So the
second make is of another graph.

    all: gen .WAIT x.o
    gen:
    \tmk

There are inference rules `.c.o` and `.s.o`, in this order, `x.s` is a source,
and the recipe of `gen` writes `x.c`: `no selection x.o x.c`. Name what is
generated: `x.c: gen`, or give `x.o` commands of its own.
";

/// The text of the finding with this first word, if there is one.
#[tactic(auto, unfolding(crate::specs::Texts::finding_text))]
pub fn finding_text(word: &str) -> Option<&'static str>
    ensures { option_map (λ text. text.now) result ≡ finding_text word.now }
{
    match word {
        "record" => Some(RECORD),
        "commands" => Some(COMMANDS),
        "varying" => Some(VARYING),
        "target" => Some(TARGET),
        "writers" => Some(WRITERS),
        "given" => Some(GIVEN),
        "own" => Some(OWN),
        "unknown" => Some(UNKNOWN),
        "loose" => Some(LOOSE),
        "race" => Some(RACE),
        "stale" => Some(STALE),
        "selection" => Some(SELECTION),
        _ => None,
    }
}

/// The first row with this word.
fn row_of<'a>(rows: &'a [Row], word: &str) -> Option<&'a Row>
    ensures { option_map (λ row. row.now) result ≡
        find (λ row. bytes_eq row.0.now word.now) rows.now }
{
    rows.iter().find(|row| row.0 == word)
}

/// The sentence in the first row with this word.
fn sentence_in(rows: &[Row], word: &str) -> Option<&'static str>
    ensures { option_map (λ sentence. sentence.now) result ≡
        lookup_word word.now (map (λ row. (row.0.now, row.1.now)) rows.now) }
{
    match row_of(rows, word) {
        Some(row) => Some(row.1),
        None => None,
    }
}

/// The sentence of the finding with this first word, if there is one.
#[tactic(auto, unfolding(crate::specs::Explain::finding_sentence))]
pub fn finding_sentence(word: &str) -> Option<&'static str>
    ensures { option_map (λ sentence. sentence.now) result ≡ finding_sentence word.now }
{
    sentence_in(&FINDINGS, word)
}

/// The first row whose word is this one but for the case of letters.
fn row_spelled<'a>(rows: &'a [Row], word: &str) -> Option<&'a Row>
    ensures { option_map (λ row. row.now) result ≡
        find (λ row. str_eq_ignore_ascii_case row.0.now word.now) rows.now }
{
    rows.iter().find(|row| row.0.eq_ignore_ascii_case(word))
}

/// The first word in these rows that is this one but for the case of letters.
fn spelled_in(rows: &[Row], word: &str) -> Option<&'static str>
    ensures { option_map (λ found. found.now) result ≡
        find (λ other. str_eq_ignore_ascii_case other word.now) (map (λ row. row.0.now) rows.now) }
{
    match row_spelled(rows, word) {
        Some(row) => Some(row.0),
        None => None,
    }
}

/// The first word of the finding that is this word but for the case of letters, if there is one.
#[tactic(auto, unfolding(crate::specs::Explain::finding_spelled))]
pub fn finding_spelled(what: &str) -> Option<&'static str>
    ensures { option_map (λ word. word.now) result ≡ finding_spelled what.now }
{
    spelled_in(&FINDINGS, what)
}

/// A line for each finding of these rows.
fn finding_lines(alloc: Global, rows: &[Row]) -> Result<String, AllocError>
    ensures { IfOk result (λ text. string_bytes text ≡
        flat_map finding_line (map (λ row. (row.0.now, row.1.now)) rows.now)) }
{
    let mut text = String::new(alloc);
    for (word, sentence) in rows {
        let line = format!(in alloc; "{word}: {sentence}\n")?;
        text.push_str(line.as_str())?;
    }
    Ok(text)
}

/// The line of each finding.
#[tactic(auto, unfolding(crate::specs::Explain::all_finding_lines))]
pub fn all_finding_lines(alloc: Global) -> Result<String, AllocError>
    ensures { IfOk result (λ text. string_bytes text ≡ all_finding_lines) }
{
    finding_lines(alloc, &FINDINGS)
}
