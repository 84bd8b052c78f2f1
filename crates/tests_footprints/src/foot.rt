//! Tables of footprint files.

use mk_foot::{Book, FootFault, Record, Setting, read_book};
use mk_lines::Name;
use std::alloc::{AllocError, Global};
use std::process::Abort;
use std::test::Fail;
use tests_tables::{add_names, long, names, rows};

/// Appends a record: its target, its reads, its writes, and its commands in brackets.
fn push_record(out: &mut String, record: &Record) -> Result<(), AllocError> {
    out.push(' ')?;
    out.push_str(record.target.as_str())?;
    out.push(':')?;
    add_names(out, &record.reads)?;
    out.push_str(" >")?;
    add_names(out, &record.writes)?;
    out.push_str(" (")?;
    for (i, command) in record.commands.iter().enumerate() {
        if i > 0 {
            out.push_str(" / ")?;
        }
        out.push_str(command.as_str())?;
    }
    out.push_str(");")
}

/// Returns a book as text.
fn printed(alloc: Global, footprints: &Book) -> Result<String, AllocError> {
    let mut out = String::from_str(alloc, "fixed")?;
    add_names(&mut out, &footprints.fixed)?;
    out.push_str("; sources")?;
    add_names(&mut out, &footprints.sources)?;
    out.push(';')?;
    for record in &footprints.records {
        push_record(&mut out, record)?;
    }
    Ok(out)
}

/// Returns the words of a text as goals.
fn goals_of(alloc: Global, words: &str) -> Result<Vec<Name>, AllocError> {
    let mut goals = Vec::new(alloc);
    for word in words.split_whitespace() {
        goals.push(Name::new(alloc, word)?)?;
    }
    Ok(goals)
}

/// Returns the line of a fault: its number, and its key or name.
fn refused(alloc: Global, fault: &FootFault) -> Result<String, AllocError> {
    match fault {
        FootFault::NotJson => format!(in alloc; "refused 51"),
        FootFault::Shape(key) => format!(in alloc; "refused 52 {key}"),
        FootFault::OtherFormat => format!(in alloc; "refused 53"),
        FootFault::TwoRecords(name) => format!(in alloc; "refused 54 {name}"),
        FootFault::BadName(key) => format!(in alloc; "refused 55 {key}"),
        FootFault::SourceIsFixed(name) => format!(in alloc; "refused 56 {name}"),
        FootFault::NoGroup => format!(in alloc; "refused 57"),
        FootFault::NoList => format!(in alloc; "refused 58"),
        FootFault::Memory => format!(in alloc; "want of memory"),
    }
}

/// Reads a footprint file for some goals and returns the book, or the line of the fault.
fn read(alloc: Global, bytes: &[u8], goals: &str) -> Result<String, AllocError> {
    let goals = goals_of(alloc, goals)?;
    match read_book(alloc, bytes, &goals) {
        Ok(book) => printed(alloc, &book),
        Err(fault) => refused(alloc, &fault),
    }
}

/// The example in the description of format 1.
const EXAMPLE: &str = r#"{"format":1,"fixed":[],"sources":["a.c"],"records":[
{"target":"p","commands":["cc -o p a.o"],"reads":["a.o"],"writes":["p"]},
{"target":"a.o","commands":["cc -c a.c"],"reads":["a.c"],"writes":["a.o"]}]}"#;

/// The book of `EXAMPLE`.
const EXAMPLE_BOOK: &str =
    "fixed; sources a.c; p: a.o > p (cc -o p a.o); a.o: a.c > a.o (cc -c a.c);";

/// A file of format 2 with two recipes that share a list.
const SHARING: &str = concat!(
    r#"{"format":2,"fixed":[],"sources":["a.c","h.h"],"lists":{"hd":["h.h"]},"#,
    r#""groups":[{"goals":["p"],"records":[{"target":"p","commands":["cc -o p a.o"],"#,
    r#""reads":["a.o"],"writes":["p"],"shared":[]},"#,
    r#"{"target":"a.o","commands":["cc -c a.c"],"reads":["a.c"],"writes":["a.o"],"#,
    r#""shared":["hd"]}]}]}"#,
);

/// The book of `SHARING` for the goal `p`.
const SHARING_BOOK: &str =
    "fixed; sources a.c h.h; p: a.o > p (cc -o p a.o); a.o: a.c h.h > a.o (cc -c a.c);";

/// The file `SHARING` with the name of a list that doesn't exist.
const LACKING: &str = concat!(
    r#"{"format":2,"fixed":[],"sources":["a.c","h.h"],"lists":{"hd":["h.h"]},"#,
    r#""groups":[{"goals":["p"],"records":[{"target":"p","commands":["cc -o p a.o"],"#,
    r#""reads":["a.o"],"writes":["p"],"shared":[]},"#,
    r#"{"target":"a.o","commands":["cc -c a.c"],"reads":["a.c"],"writes":["a.o"],"#,
    r#""shared":["x"]}]}]}"#,
);

/// Values that are no file of either format, and what they are read as.
const VALUES: &str = r#"[] => refused 52 top
1 => refused 52 top
"x" => refused 52 top
null => refused 52 top
{} => refused 52 format
{"format":"1"} => refused 52 format
{"format":[1]} => refused 52 format
{"format":2} => refused 52 fixed
{"format":3} => refused 53
{"format":1} => refused 52 fixed
{"format":0} => refused 53
{"format":-1} => refused 53
{"format":18446744073709551615} => refused 53
{"format":1.0} => refused 52 format
{"format":1e0} => refused 52 format
{"format":-0} => refused 52 format
{"format":18446744073709551616} => refused 52 format
{"format":true} => refused 52 format
{"format":null} => refused 52 format
{"format":3,"format":1} => refused 52 fixed
{"format":1,"format":3} => refused 53
{ => refused 51
{"format":1,} => refused 51
{} x => refused 51
{}{} => refused 51
{"format":01} => refused 51
"#;

/// Files of format 1, and what they are read as.
const FIRST: &str = r#"{"format":1,"fixed":["usr"],"sources":[],"records":[]} => refused 55 fixed
{"format":1,"fixed":["/usr/"],"sources":["/usr/x.h"],"records":[]} => refused 56 /usr/x.h
{"format":1,"fixed":[],"sources":[],"records":[],"x":0} => refused 52 unknown
{"format":1,"fixed":[],"sources":[],"records":[]} => fixed; sources;
{"format":1,"fixed":{}} => refused 52 fixed
{"format":1,"fixed":[1]} => refused 52 fixed
{"format":1,"fixed":["/",null]} => refused 52 fixed
{"format":1,"fixed":[]} => refused 52 sources
{"format":1,"fixed":[],"sources":"a"} => refused 52 sources
{"format":1,"fixed":[],"sources":[["a"]]} => refused 52 sources
{"format":1,"fixed":[],"sources":[]} => refused 52 records
{"format":1,"fixed":[],"sources":[],"records":{}} => refused 52 records
{"format":1,"records":[],"sources":[],"x":0} => refused 52 fixed
{"format":1,"fixed":[],"sources":[],"records":[],"lists":{}} => refused 52 unknown
{"format":1,"fixed":[],"sources":[],"records":[],"groups":[]} => refused 52 unknown
{"format":1,"fixed":[],"sources":[],"records":[{}],"x":0} => refused 52 unknown
{"format":1,"fixed":[],"sources":[],"records":[0]} => refused 52 records
{"format":1,"fixed":[],"sources":[],
    "records":[{"target":"t","commands":[],"reads":[],"writes":[]},[]]} => refused 52 records
{"format":1,"fixed":[],"sources":[],"records":[{}]} => refused 52 target
{"format":1,"fixed":[],"sources":[],
    "records":[{"target":["t"],"commands":[],"reads":[],"writes":[]}]} => refused 52 target
{"format":1,"fixed":[],"sources":[],"records":[{"target":"t"}]} => refused 52 commands
{"format":1,"fixed":[],"sources":[],
    "records":[{"target":"t","commands":"c","reads":[],"writes":[]}]} => refused 52 commands
{"format":1,"fixed":[],"sources":[],
    "records":[{"target":"t","commands":[0],"reads":[],"writes":[]}]} => refused 52 commands
{"format":1,"fixed":[],"sources":[],"records":[{"target":"t","commands":[]}]} => refused 52 reads
{"format":1,"fixed":[],"sources":[],
    "records":[{"target":"t","commands":[],"reads":[false],"writes":[]}]} => refused 52 reads
{"format":1,"fixed":[],"sources":[],
    "records":[{"target":"t","commands":[],"reads":0,"writes":[]}]} => refused 52 reads
{"format":1,"fixed":[],"sources":[],
    "records":[{"target":"t","commands":[],"reads":[],"writes":[0]}]} => refused 52 writes
{"format":1,"fixed":[],"sources":[],
    "records":[{"target":"t","commands":[],"reads":[]}]} => refused 52 writes
{"format":1,"fixed":[],"sources":[],
    "records":[{"target":"t","commands":[],"reads":[],"writes":{}}]} => refused 52 writes
{"format":1,"fixed":[],"sources":[],
    "records":[{"target":"t","commands":[],"reads":[],"writes":[],
    "shared":[]}]} => refused 52 unknown
{"format":1,"fixed":[],"sources":[],
    "records":[{"target":0,"commands":[],"reads":[],"writes":[],"x":0}]} => refused 52 target
{"format":1,"fixed":[],"sources":[],
    "records":[{"target":"t","commands":[],"reads":[],"writes":[],"x":0},
    {}]} => refused 52 unknown
{"format":1,"fixed":[""],"sources":[],"records":[]} => refused 55 fixed
{"format":1,"fixed":["//"],"sources":[],"records":[]} => refused 55 fixed
{"format":1,"fixed":["a//"],"sources":[],"records":[]} => refused 55 fixed
{"format":1,"fixed":["./"],"sources":[],"records":[]} => refused 55 fixed
{"format":1,"fixed":["/"],"sources":[],"records":[]} => fixed /; sources;
{"format":1,"fixed":["/usr/","lib/","../x/","/usr/"],"sources":[],
    "records":[]} => fixed /usr/ lib/ ../x/; sources;
{"format":1,"fixed":[],"sources":["./a"],"records":[]} => refused 55 sources
{"format":1,"fixed":[],"sources":["a","b c"],"records":[]} => refused 55 sources
{"format":1,"fixed":[],"sources":["a/"],
    "records":[{"target":"/","commands":[],"reads":[],"writes":[]}]} => refused 55 sources
{"format":1,"fixed":[],"sources":[],
    "records":[{"target":"","commands":[],"reads":["//"],"writes":[]}]} => refused 55 target
{"format":1,"fixed":[],"sources":[],
    "records":[{"target":"t","commands":[],"reads":["//"],"writes":["."]}]} => refused 55 reads
{"format":1,"fixed":[],"sources":[],
    "records":[{"target":"t","commands":[],"reads":[],"writes":["a/.."]}]} => refused 55 writes
{"format":1,"fixed":[],"sources":[],
    "records":[{"target":"t","commands":[],"reads":[],"writes":["."]},
    {"target":".","commands":[],"reads":[],"writes":[]}]} => refused 55 writes
{"format":1,"fixed":[],"sources":[],
    "records":[{"target":"t","commands":["","a b/"],"reads":[],"writes":[]}]} => fixed; sources
    ; t: > ( / a b/);
{"format":1,"fixed":[],"sources":[],
    "records":[{"target":"a","commands":[],"reads":[],"writes":[]},
    {"target":"b","commands":[],"reads":[],"writes":[]},
    {"target":"b","commands":[],"reads":[],"writes":[]},
    {"target":"a","commands":[],"reads":[],"writes":[]}]} => refused 54 b
{"format":1,"fixed":[],"sources":[],
    "records":[{"target":"t","commands":[],"reads":[],"writes":[]},
    {"target":"t","commands":[],"reads":["."],"writes":[]}]} => refused 55 reads
{"format":1,"fixed":["a/","/"],"sources":["b","a/c","/d"],"records":[]} => refused 56 a/c
{"format":1,"fixed":["a/"],"sources":["a/c"],
    "records":[{"target":"t","commands":[],"reads":[],"writes":[]},
    {"target":"t","commands":[],"reads":[],"writes":[]}]} => refused 54 t
{"format":1,"fixed":["b/"],"sources":["a/b/c","b"],"records":[]} => fixed b/; sources a/b/c b;
{"format":1,"fixed":[],"sources":["b","a","b","c","a"],
    "records":[{"target":"t","commands":["x","x"],"reads":["b","a","b"],"writes":["t","u",
    "t"]}]} => fixed; sources b a c; t: b a > t u (x / x);
{"format":1,"fixed":[],"sources":["x"],"sources":["y"],"records":[]} => fixed; sources y;
"#;

/// Files of format 2, and what they are read as for the goal `p`.
const SECOND: &str = r#"{"format":2,"fixed":[]} => refused 52 sources
{"format":2,"fixed":"/"} => refused 52 fixed
{"format":2,"fixed":[{}]} => refused 52 fixed
{"format":2,"fixed":[],"sources":{}} => refused 52 sources
{"format":2,"fixed":[],"sources":[null]} => refused 52 sources
{"format":2,"fixed":[],"sources":[],"lists":{},"groups":[{"goals":["p"],
    "records":[{"target":1}]}]} => refused 52 target
{"format":2,"fixed":[],"sources":[],"lists":{},"groups":[{"goals":["p"],
    "records":[{"target":"t","commands":{}}]}]} => refused 52 commands
{"format":2,"fixed":[],"sources":[],"lists":{},"groups":[{"goals":["p"],
    "records":[{"target":"t","commands":[true]}]}]} => refused 52 commands
{"format":2,"fixed":[],"sources":[],"lists":{},"groups":[{"goals":["p"],
    "records":[{"target":"t","commands":[],"reads":"r"}]}]} => refused 52 reads
{"format":2,"fixed":[],"sources":[],"lists":{},"groups":[{"goals":["p"],
    "records":[{"target":"t","commands":[],"reads":[[]]}]}]} => refused 52 reads
{"format":2,"fixed":[],"sources":[],"lists":{},"groups":[{"goals":["p"],
    "records":[{"target":"t","commands":[],"reads":[],"writes":[1]}]}]} => refused 52 writes
{"format":2,"fixed":[],"sources":[]} => refused 52 lists
{"format":2,"fixed":[],"sources":[],"lists":[],"groups":[]} => refused 52 lists
{"format":2,"fixed":[],"sources":[],"lists":{"a":"b"},"groups":[]} => refused 52 lists
{"format":2,"fixed":[],"sources":[],"lists":{"a":[0]},"groups":[]} => refused 52 lists
{"format":2,"fixed":[],"sources":[],"lists":{}} => refused 52 groups
{"format":2,"fixed":[],"sources":[],"lists":{},"groups":{}} => refused 52 groups
{"format":2,"fixed":[],"sources":[],"lists":{},"groups":[],"records":[]} => refused 52 unknown
{"format":2,"fixed":[],"sources":[],"lists":{},"groups":[0],"x":0} => refused 52 unknown
{"format":2,"fixed":[],"sources":[],"lists":{},"groups":[0]} => refused 52 groups
{"format":2,"fixed":[],"sources":[],"lists":{},"groups":[{"goals":["p"],
    "records":[]},0]} => refused 52 groups
{"format":2,"fixed":[],"sources":[],"lists":{},"groups":[{}]} => refused 52 goals
{"format":2,"fixed":[],"sources":[],"lists":{},"groups":[{"goals":"p",
    "records":[]}]} => refused 52 goals
{"format":2,"fixed":[],"sources":[],"lists":{},"groups":[{"goals":[1],
    "records":[]}]} => refused 52 goals
{"format":2,"fixed":[],"sources":[],"lists":{},"groups":[{"goals":["p"]}]} => refused 52 records
{"format":2,"fixed":[],"sources":[],"lists":{},"groups":[{"goals":["p"],
    "records":{}}]} => refused 52 records
{"format":2,"fixed":[],"sources":[],"lists":{},"groups":[{"goals":["p"],
    "records":[0]}]} => refused 52 records
{"format":2,"fixed":[],"sources":[],"lists":{},"groups":[{"goals":["p"],
    "records":[{}],"x":0}]} => refused 52 unknown
{"format":2,"fixed":[],"sources":[],"lists":{},"groups":[{"goals":["p"],
    "records":[{"target":"t","commands":[],"reads":[],"writes":[]}]}]} => refused 52 shared
{"format":2,"fixed":[],"sources":[],"lists":{},"groups":[{"goals":["p"],
    "records":[{"target":"t","commands":[],"reads":[],"writes":[],
    "shared":{}}]}]} => refused 52 shared
{"format":2,"fixed":[],"sources":[],"lists":{},"groups":[{"goals":["p"],
    "records":[{"target":"t","commands":[],"reads":[],"writes":[],
    "shared":[[]]}]}]} => refused 52 shared
{"format":2,"fixed":[],"sources":[],"lists":{},"groups":[{"goals":["p"],
    "records":[{"target":"t","commands":[],"reads":[],"writes":[],"shared":[],
    "x":0}]}]} => refused 52 unknown
{"format":2,"fixed":[],"sources":[],"lists":{},"groups":[{"goals":["p"],
    "records":[{"target":"t","commands":[],"reads":[],"writes":0,
    "shared":0}]}]} => refused 52 writes
{"format":2,"fixed":[],"sources":[],"lists":{},"groups":[{"goals":["p"],"records":[{}]},
    {}]} => refused 52 target
{"format":2,"fixed":[],"sources":[],"lists":{"b":["./b"],"a":["a"]},"groups":[{"goals":["."],
    "records":[]}]} => refused 55 lists
{"format":2,"fixed":[],"sources":[],"lists":{},"groups":[{"goals":["."],
    "records":[{"target":".","commands":[],"reads":[],"writes":[],
    "shared":[]}]}]} => refused 55 goals
{"format":2,"fixed":[],"sources":[],"lists":{},"groups":[{"goals":["p"],
    "records":[{"target":"t","commands":[],"reads":["."],"writes":[],"shared":[]}]},
    {"goals":["."],"records":[]}]} => refused 55 reads
{"format":2,"fixed":[],"sources":[],"lists":{"./":["a"]},"groups":[{"goals":["p"],
    "records":[{"target":"t","commands":[],"reads":[],"writes":[],"shared":["./"]}]}]} => fixed
    ; sources; t: a > ();
{"format":2,"fixed":[],"sources":[],"lists":{},"groups":[{"goals":["p"],
    "records":[{"target":"t","commands":[],"reads":[],"writes":[],"shared":[]}]},{"goals":["q"],
    "records":[{"target":"t","commands":[],"reads":[],"writes":[],"shared":[]}]}]} => fixed
    ; sources; t: > ();
{"format":2,"fixed":[],"sources":[],"lists":{},"groups":[{"goals":["p"],"records":[]},
    {"goals":["q"],"records":[{"target":"t","commands":[],"reads":[],"writes":[],"shared":["x"]},
    {"target":"t","commands":[],"reads":[],"writes":[],"shared":[]}]}]} => refused 54 t
{"format":2,"fixed":["/"],"sources":["/a"],"lists":{},"groups":[{"goals":["p"],
    "records":[{"target":"t","commands":[],"reads":[],"writes":[],
    "shared":["x"]}]}]} => refused 56 /a
{"format":2,"fixed":[],"sources":[],"lists":{},"groups":[{"goals":["p"],"records":[]},
    {"goals":["q"],"records":[{"target":"t","commands":[],"reads":[],"writes":[],
    "shared":["x"]}]}]} => refused 58
{"format":2,"fixed":[],"sources":[],"lists":{},"groups":[{"goals":["q"],
    "records":[{"target":"t","commands":[],"reads":[],"writes":[],
    "shared":["x"]}]}]} => refused 58
{"format":2,"fixed":[],"sources":[],"lists":{},"groups":[]} => refused 57
{"format":2,"fixed":[],"sources":[],"lists":{},"groups":[{"goals":["p","p"],
    "records":[]}]} => refused 57
{"format":2,"fixed":[],"sources":[],"lists":{},"groups":[{"goals":[],"records":[]}]} => refused 57
{"format":2,"fixed":[],"sources":[],"lists":{},"groups":[{"goals":["p"],
    "records":[{"target":"a","commands":[],"reads":[],"writes":[],"shared":[]}]},{"goals":["p"],
    "records":[{"target":"b","commands":[],"reads":[],"writes":[],"shared":[]}]}]} => fixed
    ; sources; a: > ();
{"format":2,"fixed":[],"sources":[],"lists":{"a":["x","y"],"b":["z","y","w"]},
    "groups":[{"goals":["p"],"records":[{"target":"t","commands":[],"reads":["w","v","w"],
    "writes":[],"shared":["b","a","b"]}]}]} => fixed; sources; t: w v z y x > ();
{"format":2,"fixed":[],"sources":[],"lists":{"a":["x"],"a":["y"]},"groups":[{"goals":["p"],
    "records":[{"target":"t","commands":[],"reads":[],"writes":[],"shared":["a"]}]}]} => fixed
    ; sources; t: y > ();
"#;

/// Checks what the text of a row is read as for the goal `p`.
fn see_row(rt: &impl Abort, alloc: Global, row: &str) -> Result<(), AllocError> {
    let (text, line) = row.split_once(" => ").unwrap_or((row, ""));
    let got = read(alloc, text.as_bytes(), "p")?;
    assert_eq!(rt; got.as_str(), line, "at {row}");
    Ok(())
}

/// Checks each row of a table.
fn see_rows(rt: &impl Abort, alloc: Global, table: &str) -> Result<(), AllocError> {
    for row in &rows(alloc, table)? {
        see_row(rt, alloc, row)?;
    }
    Ok(())
}

#[test]
fn reads_files(rt: HostRuntime) -> Result<(), Fail> {
    for &table in &[VALUES, FIRST, SECOND] {
        see_rows(&rt, rt.alloc(), table)?;
    }
    Ok(())
}

/// Files, goals, and what is read.
const EXAMPLES: &[(&str, &str, &str)] = &[
    (EXAMPLE, "", EXAMPLE_BOOK),
    (EXAMPLE, "x ./y", EXAMPLE_BOOK),
    (SHARING, "p", SHARING_BOOK),
    (SHARING, "a.o", "refused 57"),
    (SHARING, "", "refused 57"),
    (SHARING, "p a.o", "refused 57"),
    (LACKING, "p", "refused 58"),
    (LACKING, "a.o", "refused 58"),
];

#[test]
fn reads_the_examples(rt: HostRuntime) -> Result<(), Fail> {
    for &(text, goals, line) in EXAMPLES {
        let got = read(rt.alloc(), text.as_bytes(), goals)?;
        assert_eq!(rt; got.as_str(), line, "at {goals}");
    }
    Ok(())
}

/// Checks what bytes are read as without goals.
fn see(rt: &impl Abort, alloc: Global, bytes: &[u8], want: &str) -> Result<(), AllocError> {
    let got = read(alloc, bytes, "")?;
    assert_eq!(rt; got.as_str(), want, "at {want}");
    Ok(())
}

/// No proper prefix of a file has a JSON value.
#[test]
fn refuses_fronts(rt: HostRuntime) -> Result<(), Fail> {
    let text = EXAMPLE.as_bytes();
    for end in 0..text.len() {
        see(&rt, rt.alloc(), &text[..end], "refused 51")?;
    }
    Ok(())
}

/// Bytes that aren't UTF-8, or have something around a value, and what they are read as.
const OTHERS: &[(&[u8], &str)] = &[
    (b"\xef\xbb\xbf{}", "refused 51"),
    (b" {} \n", "refused 52 format"),
    (b"{\"format\":1,\"fixed\":[\"\xff\"]}", "refused 51"),
    (b"\xc0\x80", "refused 51"),
];

#[test]
fn refuses_what_is_no_json(rt: HostRuntime) -> Result<(), Fail> {
    for &(bytes, want) in OTHERS {
        see(&rt, rt.alloc(), bytes, want)?;
    }
    Ok(())
}

#[test]
fn refuses_deep_arrays(rt: HostRuntime) -> Result<(), Fail> {
    let deep = long(rt.alloc(), b"", b"[", 100_000)?;
    see(&rt, rt.alloc(), &deep, "refused 51")?;
    let front = long(rt.alloc(), b"", b"[", 100)?;
    let whole = long(rt.alloc(), &front, b"]", 100)?;
    see(&rt, rt.alloc(), &whole, "refused 52 top")?;
    Ok(())
}

/// If an allocation fails, the answer is out of memory or the whole answer.
#[test]
fn wants_memory_or_answers(rt: HostRuntime) -> Result<(), Fail> {
    let got = read(rt.alloc(), SHARING.as_bytes(), "p")?;
    let is_known = got.as_str() == SHARING_BOOK || got.as_str() == "want of memory";
    assert!(rt; is_known, "a book or want of memory");
    Ok(())
}

/// A file with prefixes, sources and records, in which some names are repeated.
const BUILD: &str = concat!(
    r#"{"format":1,"fixed":["/usr/"],"sources":["a.c","b.mk","a.c"],"#,
    r#""records":[{"target":"p","commands":["mk p","mk p"],"reads":["a.c","q","a.c"],"#,
    r#""writes":["p"]},{"target":"q","commands":["mk q"],"reads":[],"writes":["q","q"]}]}"#,
);

/// Appends for each of these names what the setting says: given, editable, passed over.
fn push_told(out: &mut String, setting: &Setting, names: &str) -> Result<(), AllocError> {
    for name in names.split(',') {
        out.push_str(name)?;
        if setting.is_given(name) {
            out.push_str(" given")?;
        }
        if setting.is_editable(name) {
            out.push_str(" editable")?;
        }
        if setting.is_passed_over(name) {
            out.push_str(" passed over")?;
        }
        out.push(';')?;
    }
    Ok(())
}

/// Appends the record of each of these names.
fn push_records(out: &mut String, setting: &Setting, names: &str) -> Result<(), AllocError> {
    for name in names.split(',') {
        match setting.record_of(name) {
            Some(record) => push_record(out, record)?,
            None => out.push_str(" none;")?,
        }
    }
    Ok(())
}

/// Returns what a setting says about some names.
fn told(alloc: Global, setting: &Setting) -> Result<String, AllocError> {
    let mut out = String::new(alloc);
    push_told(&mut out, setting, "a.c,b.mk,c.mk,gone.mk,/usr/x.h,/usr/")?;
    push_told(&mut out, setting, "/usr,lib/usr/x,a,a.c/x,p,")?;
    add_names(&mut out, setting.sources().as_slice())?;
    push_records(&mut out, setting, "q,p,r")?;
    Ok(out)
}

/// Returns what the setting of a book says, with these makefile texts and these names that were
/// passed over.
fn told_with(
    alloc: Global,
    footprints: Book,
    texts: &[String],
    passed_over: &[String],
) -> Result<String, AllocError> {
    let setting = Setting::new(alloc, footprints, texts, passed_over)?;
    let told = told(alloc, &setting);
    drop(setting);
    told
}

/// What the setting of `BUILD` says with the makefile texts and missing names of the test.
const TOLD: &str = concat!(
    "a.c given editable;b.mk given;c.mk given;gone.mk passed over;/usr/x.h given;/usr/ given;",
    "/usr;lib/usr/x;a;a.c/x;p;; a.c b.mk q: > q (mk q); p: a.c q > p (mk p / mk p); none;",
);

#[test]
fn knows_its_files(rt: HostRuntime) -> Result<(), Fail> {
    let texts = names(rt.alloc(), "c.mk b.mk")?;
    let passed_over = names(rt.alloc(), "gone.mk")?;
    let book = read_book(rt.alloc(), BUILD.as_bytes(), &[])?;
    let out = told_with(rt.alloc(), book, &texts, &passed_over)?;
    assert_eq!(rt; out.as_str(), TOLD, "a setting");
    Ok(())
}
