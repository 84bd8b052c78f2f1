//! Tables of lines, comments, words, paths, references, and lookups of names.

use crate::expecting::{same, same_bytes, same_number, see_that};
use mk_lines::{
    Line, LineFault, Name, NamePlaces, NameTable, Prefixes, Span, first_outside, is_blank,
    is_plain_path, is_plain_text_path, is_rule_line, logical_lines, trimmed, uncomment, words,
};
use std::alloc::{AllocError, Global};
use std::process::Abort;
use std::str;
use std::test::Fail;
use tests_tables::{long, names};

/// Returns a line as text: its number, `!` for a command line or else `:`, its text, and `/`.
fn line_text(alloc: Global, line: &Line) -> Result<String, AllocError> {
    let mark = if line.command { '!' } else { ':' };
    let text = str::from_utf8(&line.text).unwrap_or("?");
    format!(in alloc; "{}{mark}{text}/", line.first)
}

/// Returns lines as text.
fn lines_text(alloc: Global, lines: &[Line]) -> Result<String, AllocError> {
    let mut out = String::new(alloc);
    for line in lines {
        out.push_str(line_text(alloc, line)?.as_str())?;
    }
    Ok(out)
}

/// Reads a text and returns its lines, or the fault.
fn read(alloc: Global, text: &[u8]) -> Result<String, LineFault> {
    match logical_lines(alloc, text) {
        Ok(lines) => Ok(lines_text(alloc, &lines)?),
        Err(LineFault::Memory) => Err(LineFault::Memory),
        Err(fault) => Ok(format!(in alloc; "{fault}")?),
    }
}

/// Texts, and what they are read as.
const LINES: &[(&str, &str)] = &[
    ("", ""),
    ("a: b \\\n   c # d \\\ne\n", "1:a: b  c # d  e/"),
    ("\techo a\\\n\tb\n", "1!echo a\\\nb/"),
    ("\techo a\\\n\t\tb\\\nc", "1!echo a\\\n\tb\\\nc/"),
    ("a \\\\\nb\n", "1:a \\\\/2:b/"),
    ("a\\\\\\\nb", "1:a\\\\ b/"),
    ("a\\", "1:a\\/"),
    ("a\\\n", "1:a /"),
    ("\\\n", ""),
    ("\t\\\n", "1!\\\n/"),
    ("\n\na\nb\\\nc\nd", "3:a/4:b c/6:d/"),
    ("a\n \t\n\t\nb\n", "1:a/4:b/"),
    (" \\\n\tx", "1:  x/"),
    ("x\0y", "line 1 holds byte 0"),
    ("a\n\nb\\\n\0\n\0", "line 3 holds byte 0"),
];

#[test]
fn reads_lines(rt: HostRuntime) -> Result<(), Fail> {
    for &(text, printed) in LINES {
        let got = read(rt.alloc(), text.as_bytes())?;
        same(&rt, got.as_str(), printed, text);
    }
    Ok(())
}

/// A front, a unit, how often it is repeated, an end, and what they are read as.
const LONG: &[(&str, &str, usize, &str, &str)] = &[
    ("\n#", "x", 65_536, "", "line 2 is over 65,536 bytes"),
    ("x\\\n", "y", 65_535, "", "line 1 is over 65,536 bytes"),
    ("\0", "x", 65_536, "", "line 1 holds byte 0"),
    ("", "x", 65_537, "\n\0", "line 1 is over 65,536 bytes"),
    ("", " ", 65_537, "", ""),
    (
        "\n\n",
        "a:\n",
        65_536,
        " \na:\n",
        "line 65540 is one line too many",
    ),
    ("", "a:\n", 65_537, "", "line 65537 is one line too many"),
    ("", "a:\n", 65_536, "\0", "line 65537 holds byte 0"),
];

#[test]
fn keeps_limits(rt: HostRuntime) -> Result<(), Fail> {
    for &(front, unit, count, end, want) in LONG {
        let mut text = long(rt.alloc(), front.as_bytes(), unit.as_bytes(), count)?;
        text.extend_from_slice(end.as_bytes())?;
        let got = read(rt.alloc(), &text)?;
        same(&rt, got.as_str(), want, want);
    }
    Ok(())
}

/// A front, a unit, how often it is repeated, and how many lines they have.
const COUNTS: &[(&str, &str, usize, usize)] = &[
    ("#", "x", 65_535, 1),
    ("\n\n", "a:\n", 65_536, 65_536),
];

#[test]
fn reads_to_the_limits(rt: HostRuntime) -> Result<(), Fail> {
    for &(front, unit, count, want) in COUNTS {
        let text = long(rt.alloc(), front.as_bytes(), unit.as_bytes(), count)?;
        let lines = logical_lines(rt.alloc(), &text)?;
        same_number(&rt, lines.len(), want, front);
    }
    Ok(())
}

/// Lines, and what is left of them without comments.
const COMMENTS: &[(&str, &str)] = &[
    ("a # b", "a "),
    ("a \\# b # c", "a # b "),
    ("\\\\#", "\\#"),
    ("a: b;echo #x", "a: b;echo #x"),
    ("X = u;v # w", "X = u;v "),
    ("a # b; c", "a "),
    (" # x", " "),
    ("a: b;c \\# d", "a: b;c \\# d"),
    ("a: $(b#c)", "a: $(b"),
    ("a: \\#b;c \\# d", "a: #b;c \\# d"),
    ("#", ""),
    ("", ""),
];

#[test]
fn drops_comments(rt: HostRuntime) -> Result<(), Fail> {
    for &(text, left) in COMMENTS {
        let line = uncomment(rt.alloc(), text.as_bytes())?;
        same_bytes(&rt, &line, left.as_bytes(), text);
    }
    Ok(())
}

/// Texts, and what is left of them without leading blanks.
const BLANKS: &[(&str, &str)] = &[(" \t a b ", "a b "), ("a", "a"), ("\t ", ""), ("", "")];

#[test]
fn drops_leading_blanks(rt: HostRuntime) {
    for &(text, rest) in BLANKS {
        same_bytes(&rt, trimmed(text.as_bytes()), rest.as_bytes(), text);
    }
}

#[test]
fn knows_blanks(rt: HostRuntime) {
    see_that(&rt, is_blank(b' ') && is_blank(b'\t'), "blanks");
    see_that(&rt, !is_blank(b'\n') && !is_blank(b'\x0b'), "no blanks");
}

/// Texts, and where their words are.
const WORDS: &[(&str, &[Span])] = &[
    (
        " a  bc",
        &[Span { start: 1, end: 2 }, Span { start: 4, end: 6 }],
    ),
    (" \t ", &[]),
    ("", &[]),
];

#[test]
fn finds_words(rt: HostRuntime) -> Result<(), Fail> {
    for &(text, expected) in WORDS {
        let spans = words(rt.alloc(), text.as_bytes())?;
        see_that(&rt, spans.as_slice() == expected, text);
    }
    Ok(())
}

/// Plain paths.
const PATHS: &str = "..
../a
/a
a/b
../..
a.b
ä
.a
a/.b
..a/b
/...";

/// Texts that are no plain paths, the empty text among them.
const NO_PATHS: &str = "/..
a/..
/
a/
//a
./a
a//b

a/./b
.
a b
a\tb
a\x7f";

/// Checks whether a text is a plain path.
fn see_path(rt: &impl Abort, path: &str, want: bool) {
    see_that(rt, is_plain_path(path.as_bytes()) == want, path);
    see_that(rt, is_plain_text_path(path) == want, path);
}

#[test]
fn knows_plain_paths(rt: HostRuntime) {
    for path in PATHS.lines() {
        see_path(&rt, path, true);
    }
    for path in NO_PATHS.lines() {
        see_path(&rt, path, false);
    }
}

#[test]
fn knows_long_paths(rt: HostRuntime) -> Result<(), Fail> {
    for (count, want) in [(4096, true), (4097, false)] {
        let path = long(rt.alloc(), b"", b"x", count)?;
        see_that(&rt, is_plain_path(&path) == want, "a long path");
    }
    see_that(&rt, !is_plain_path(b"a\xff"), "no text");
    Ok(())
}

/// Texts, and the place of the first colon outside references.
const COLONS: &[(&str, Option<usize>)] = &[
    ("$(a:b):c", Some(6)),
    ("$$(a:b)", Some(4)),
    ("$(a${b)}:c):", Some(11)),
    ("$(a:b", None),
    ("$(a(b)c):", Some(8)),
    ("$a:", Some(2)),
    ("${a)}:", Some(5)),
    ("", None),
    ("a", None),
];

#[test]
fn searches_outside_references(rt: HostRuntime) -> Result<(), Fail> {
    for &(text, at) in COLONS {
        let found = first_outside(rt.alloc(), b":", text.as_bytes())?;
        see_that(&rt, found == at, text);
    }
    Ok(())
}

/// Rule lines.
const RULE_LINES: &str = "a: b
a:
includes: b
$(a=b): c
a:b=c";

/// Lines that are no rule lines, the empty line among them.
const OTHER_LINES: &str = "a

a := b
a:: b
X=a:b
include a:b
 -include a:b
$(a:b)
a;b:c";

/// Checks whether each line is a rule line.
fn see_rule_lines(rt: &impl Abort, alloc: Global, lines: &str, want: bool) -> Result<(), Fail> {
    for line in lines.lines() {
        see_that(rt, is_rule_line(alloc, line.as_bytes())? == want, line);
    }
    Ok(())
}

#[test]
fn knows_rule_lines(rt: HostRuntime) -> Result<(), Fail> {
    see_rule_lines(&rt, rt.alloc(), RULE_LINES, true)?;
    see_rule_lines(&rt, rt.alloc(), OTHER_LINES, false)
}

/// Checks the place of a name in a table, and the name that the table returns.
fn see_name(rt: &impl Abort, table: &NameTable, name: &str, place: Option<usize>) {
    see_that(rt, table.place(name) == place, name);
    see_that(rt, table.contains(name) == place.is_some(), name);
    see_that(rt, table.get(name) == place.map(|_| name), name);
}

/// Checks what a table of four names finds.
fn see_names(rt: &impl Abort, table: &NameTable) {
    see_name(rt, table, "b", Some(0));
    see_name(rt, table, "a.c", Some(1));
    see_name(rt, table, "é", Some(3));
    see_name(rt, table, "a", None);
    see_that(rt, table.contains_bytes("é".as_bytes()), "é");
    see_that(rt, !table.contains_bytes(b"\xc3"), "half of é");
    same_number(rt, table.as_slice().len(), 4, "names");
    let third = table.as_slice().get(2);
    same(rt, third.map_or("", String::as_str), "b", "names");
}

#[test]
fn finds_names(rt: HostRuntime) -> Result<(), Fail> {
    let table = NameTable::new(rt.alloc(), names(rt.alloc(), "b a.c b é")?)?;
    see_names(&rt, &table);
    drop(table);
    Ok(())
}

/// Checks the place of a name.
fn see_place(rt: &impl Abort, places: &NamePlaces, name: &str, place: Option<usize>) {
    see_that(rt, places.place(name) == place, name);
    see_that(rt, places.contains(name) == place.is_some(), name);
}

#[test]
fn finds_places(rt: HostRuntime) -> Result<(), Fail> {
    let mut places = NamePlaces::with_capacity(rt.alloc(), 3)?;
    for (i, name) in ["b", "é", "b"].iter().enumerate() {
        places.note(rt.alloc(), name, i)?;
    }
    see_place(&rt, &places, "b", Some(0));
    see_place(&rt, &places, "é", Some(1));
    see_place(&rt, &places, "a", None);
    drop(places);
    Ok(())
}

/// Names, and whether they are under `/usr/`, `lib/` or `é/`.
const UNDER: &[(&str, bool)] = &[
    ("/usr/x.h", true),
    ("/usr/", true),
    ("lib/a/b", true),
    ("é/x", true),
    ("/usr", false),
    ("usr/x.h", false),
    ("li", false),
    ("x/lib/", false),
    ("", false),
    ("e/x", false),
];

/// Checks whether names are under these prefixes.
fn see_under(rt: &impl Abort, prefixes: &Prefixes) {
    for &(name, want) in UNDER {
        see_that(rt, prefixes.begins_with_any(name) == want, name);
    }
}

#[test]
fn finds_prefixes(rt: HostRuntime) -> Result<(), Fail> {
    let prefixes = Prefixes::new(rt.alloc(), names(rt.alloc(), "/usr/ lib/ é/")?)?;
    see_under(&rt, &prefixes);
    drop(prefixes);
    Ok(())
}

#[test]
fn copies_names(rt: HostRuntime) -> Result<(), Fail> {
    let spelled = Name::from_string(String::from_str(rt.alloc(), "b.c")?);
    same(&rt, spelled.clone()?.as_str(), "b.c", "a copy");
    Ok(())
}
