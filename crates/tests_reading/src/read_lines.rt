//! Rows on the kinds of lines, on words as names, and on special targets.

use mk_lines::{Name, uncomment};
use mk_macros::Op;
use mk_read::{KindFault, Place, ReadFault, Special, has_reserved};
use mk_read_parse::{Kind, is_special, is_suffix, kind_of, name_of, names_of, special_of};
use std::alloc::{AllocError, Global};
use std::process::Abort;
use std::str;
use std::test::Fail;

/// Returns the word for an operator.
fn word_of(op: Op) -> &'static str {
    match op {
        Op::Delay => "=",
        Op::Now => "::=",
        Op::Double => ":::=",
        Op::IfUnset => "?=",
        Op::Append => "+=",
    }
}

/// Appends a part of a line in brackets.
fn add(shown: &mut Vec<u8>, part: &[u8]) -> Result<(), AllocError> {
    shown.push(b'[')?;
    shown.extend_from_slice(part)?;
    shown.push(b']')?;
    Ok(())
}

/// Appends the kind of a line: a word, and then its parts in brackets.
fn add_kind(shown: &mut Vec<u8>, kind: Kind<'_>) -> Result<(), AllocError> {
    match kind {
        Kind::Comment => shown.extend_from_slice(b"comment")?,
        Kind::Include(line) => {
            let word = if line.optional { "-include" } else { "include" };
            shown.extend_from_slice(word.as_bytes())?;
            add(shown, line.names)?;
        }
        Kind::Assignment(line) => {
            shown.extend_from_slice(word_of(line.op).as_bytes())?;
            add(shown, line.name)?;
            add(shown, line.value)?;
        }
        Kind::Rule(line) => {
            shown.extend_from_slice(b"rule")?;
            add(shown, line.targets)?;
            add(shown, line.words)?;
            if let Some(command) = line.command {
                add(shown, command)?;
            }
        }
    }
    Ok(())
}

/// Returns the kind of a line after its comment is removed, or the words of the fault.
fn shown(alloc: Global, text: &[u8]) -> Result<Vec<u8>, Fail> {
    let line = uncomment(alloc, text)?;
    let mut shown = Vec::new(alloc);
    match kind_of(alloc, &line) {
        Ok(kind) => add_kind(&mut shown, kind)?,
        Err(KindFault::Memory) => return Err(KindFault::Memory.into()),
        Err(fault) => {
            let words = format!(in alloc; "{fault}")?;
            shown.extend_from_slice(words.as_str().as_bytes())?;
        }
    }
    Ok(shown)
}

/// Comment lines and include lines. The first word decides.
const WORDS: &[(&str, &str)] = &[
    ("", "comment"),
    ("# a: b", "comment"),
    (" \t# a", "comment"),
    ("include a b", "include[a b]"),
    ("  -include a.d # b", "-include[a.d ]"),
    ("include", "include[]"),
    ("include\ta", "include[a]"),
    ("include = x", "include[= x]"),
    ("include=x", "=[include][x]"),
    ("includes: a", "rule[includes][ a]"),
];

/// Assignments. The byte before the `=` counts, whatever it belongs to.
const ASSIGNMENTS: &[(&str, &str)] = &[
    ("A = b", "=[A][b]"),
    ("  A  =  b  ", "=[A][b  ]"),
    ("A=", "=[A][]"),
    ("A ?= b", "?=[A][b]"),
    ("A += b", "+=[A][b]"),
    ("A ::= $(B)", "::=[A][$(B)]"),
    ("A:::=b", ":::=[A][b]"),
    ("$+=x", "+=[$][x]"),
    ("X = $(Y", "=[X][$(Y]"),
    ("A = b: c; d = e", "=[A][b: c; d = e]"),
    ("$(A:a=b) = c", "=[$(A:a=b)][c]"),
    ("= x", "=[][x]"),
];

/// Rule lines.
const RULES: &[(&str, &str)] = &[
    ("a: b c", "rule[a][ b c]"),
    ("a b:c;  d  ", "rule[a b][c][d  ]"),
    ("a:;", "rule[a][][]"),
    ("a: b; c = d; e # f", "rule[a][ b][c = d; e # f]"),
    ("$(a=b): c", "rule[$(a=b)][ c]"),
    ("a: $(b;c=d)", "rule[a][ $(b;c=d)]"),
    ("all: $(X", "rule[all][ $(X]"),
    ("a: b :: c", "rule[a][ b :: c]"),
];

/// Lines that are refused. Of several faults the one with the lowest number is reported.
const FAULTS: &[(&str, &str)] = &[
    ("V != date", "shell assignment"),
    ("V!=date", "shell assignment"),
    ("A := b", "assignment with `:=`"),
    ("a :: b", "double-colon rule"),
    ("a ::::= b", "double-colon rule"),
    (":: a", "double-colon rule"),
    ("a: b = c", "target-specific macro"),
    (": a = b", "target-specific macro"),
    ("a: b := c; d", "target-specific macro"),
    (": a", "unknown kind of line"),
    ("a", "unknown kind of line"),
    ("a ; b: c", "unknown kind of line"),
    ("$(X: a", "unknown kind of line"),
    ("$(a=b)", "unknown kind of line"),
];

/// Checks the kind of each line.
fn are(rt: &impl Abort, alloc: Global, rows: &[(&str, &str)]) -> Result<(), Fail> {
    for &(line, wanted) in rows {
        let found = shown(alloc, line.as_bytes())?;
        assert_eq!(rt; str::from_utf8(&found).unwrap_or("?"), wanted, "at {line}");
    }
    Ok(())
}

#[test]
fn knows_comments_and_includes(rt: HostRuntime) -> Result<(), Fail> {
    are(&rt, rt.alloc(), WORDS)
}

#[test]
fn knows_assignments(rt: HostRuntime) -> Result<(), Fail> {
    are(&rt, rt.alloc(), ASSIGNMENTS)
}

#[test]
fn knows_rule_lines(rt: HostRuntime) -> Result<(), Fail> {
    are(&rt, rt.alloc(), RULES)
}

#[test]
fn refuses_other_lines(rt: HostRuntime) -> Result<(), Fail> {
    are(&rt, rt.alloc(), FAULTS)
}

/// Words, and the names that they are, or the words of the fault. The first bad word decides.
const NAMES: &[(&str, &str)] = &[
    ("", ""),
    (" a  ../b\t.WAIT ", "[a][../b][.WAIT]"),
    ("/a .c.o", "[/a][.c.o]"),
    ("a%", "bad name"),
    ("a ./x", "bad name"),
    ("a | b", "bad name"),
    ("a::b", "bad name"),
    ("l.a(x.o)", "archive member"),
    ("a%(", "archive member"),
    ("a% l(x)", "bad name"),
    ("l(x) a%", "archive member"),
];

/// Returns the words of a fault. Out of memory ends the test.
fn words_of(alloc: Global, fault: &ReadFault) -> Result<Vec<u8>, Fail> {
    if fault.is_out_of_memory() {
        return Err("want of memory".into());
    }
    let words = format!(in alloc; "{fault}")?;
    Ok(words.into_bytes())
}

/// Returns the words of a fault, and drops it.
fn fault_words(alloc: Global, fault: ReadFault) -> Result<Vec<u8>, Fail> {
    let words = words_of(alloc, &fault);
    drop(fault);
    words
}

/// Returns names in brackets.
fn in_brackets(alloc: Global, names: &[String]) -> Result<Vec<u8>, AllocError> {
    let mut shown = Vec::new(alloc);
    for name in names {
        add(&mut shown, name.as_bytes())?;
    }
    Ok(shown)
}

/// Returns the names that words are, in brackets, or the words of the fault.
fn shown_names(alloc: Global, file: &Name, text: &[u8]) -> Result<Vec<u8>, Fail> {
    match names_of(alloc, file, 1, text) {
        Ok(names) => Ok(in_brackets(alloc, &names)?),
        Err(fault) => fault_words(alloc, fault),
    }
}

#[test]
fn knows_names(rt: HostRuntime) -> Result<(), Fail> {
    let file = Name::new(rt.alloc(), "makefile")?;
    for &(text, wanted) in NAMES {
        let found = shown_names(rt.alloc(), &file, text.as_bytes())?;
        assert_eq!(rt; str::from_utf8(&found).unwrap_or("?"), wanted, "at {text}");
    }
    Ok(())
}

#[test]
fn knows_reserved_bytes(rt: HostRuntime) {
    assert!(rt; has_reserved("a%b".as_bytes()));
    assert!(rt; !has_reserved("a-b".as_bytes()));
}

/// Returns the `Debug` text of a fault.
fn told_of(alloc: Global, fault: &ReadFault) -> Result<String, AllocError> {
    format!(in alloc; "{fault:?}")
}

/// Returns the `Debug` text of the fault of a word.
fn told_of_word(alloc: Global, file: &Name, word: &[u8]) -> Result<String, AllocError> {
    match name_of(alloc, file, 7, word) {
        Ok(_name) => Ok(String::new(alloc)),
        Err(fault) => {
            let told = told_of(alloc, &fault);
            drop(fault);
            told
        }
    }
}

#[test]
fn knows_places(rt: HostRuntime) -> Result<(), Fail> {
    let file = Name::new(rt.alloc(), "f1")?;
    let told = told_of_word(rt.alloc(), &file, b"a*")?;
    assert!(rt; told.as_str().contains("f1"), "the file");
    assert!(rt; told.as_str().contains("line: 7"), "the line");
    Ok(())
}

/// Checks whether a fault is out of memory.
fn see_memory(rt: &impl Abort, fault: ReadFault, want: bool, row: &str) {
    let is_memory = fault.is_out_of_memory();
    drop(fault);
    assert!(rt; is_memory == want, "at {row}");
}

#[test]
fn knows_want_of_memory(rt: HostRuntime) -> Result<(), Fail> {
    let file = Name::new(rt.alloc(), "f1")?;
    let place = Place { file, line: 1 };
    see_memory(&rt, ReadFault::IncludeDepth(place), false, "another fault");
    see_memory(&rt, ReadFault::Memory, true, "want of memory");
    Ok(())
}

/// Names, and whether they are names of special targets.
const SPECIAL: &[(&str, bool)] = &[
    (".POSIX", true),
    (".WAIT", true),
    (".SCCS_GET", true),
    (".ABC", true),
    (".___", true),
    (".AB", false),
    (".c.o", false),
    (".abc", false),
    ("POSIX", false),
    ("a.ABC", false),
    (".ABC1", false),
    (".", false),
];

#[test]
fn knows_special_names(rt: HostRuntime) {
    for &(name, want) in SPECIAL {
        assert!(rt; is_special(name) == want, "at {name}");
    }
}

/// Names, and the special targets that are read.
const TARGETS: &[(&str, Option<Special>)] = &[
    (".SUFFIXES", Some(Special::Suffixes)),
    (".PHONY", Some(Special::Phony)),
    (".NOTPARALLEL", Some(Special::NotParallel)),
    (".WAIT", Some(Special::Wordless)),
    (".PRECIOUS", Some(Special::Unread)),
    (".DEFAULT", None),
    (".SCCS_GET", None),
    (".phony", None),
    ("PHONY", None),
    (".c", None),
];

#[test]
fn knows_special_targets(rt: HostRuntime) {
    for (name, want) in TARGETS {
        assert!(rt; special_of(name) == *want, "at {name}");
    }
}

/// Words, and whether they are suffixes.
const SUFFIXES: &[(&str, bool)] = &[
    (".o", true),
    (".c~", true),
    (".WAIT", true),
    ("", false),
    (".", false),
    ("o", false),
    (".a.b", false),
    (".a/b", false),
    ("..", false),
    ("a.o", false),
];

#[test]
fn knows_suffixes(rt: HostRuntime) {
    for &(word, want) in SUFFIXES {
        assert!(rt; is_suffix(word) == want, "at {word}");
    }
}
