//! Each command of `run`, over files in memory.

use mk_core::MemFiles;
use mk_core_since::Below;
use mkcheck_host::Outcome;
use mkcheck_run::run;
use std::alloc::{AllocError, Global};
use std::process::Abort;
use std::test::Fail;

/// A program of one object that reads a header, which its rule doesn't name.
const MAKEFILE: &str = "p: a.o\n\tcc -o p a.o\na.o: a.c\n\tcc -c a.c\n";

/// Its footprints, with that header.
const STALE: &str = r#"{"format":1,"fixed":[],"sources":["a.c","h.h"],"records":[
{"target":"p","commands":["cc -o p a.o"],"reads":["a.o"],"writes":["p"]},
{"target":"a.o","commands":["cc -c a.c"],"reads":["a.c","h.h"],"writes":["a.o"]}]}"#;

/// Its footprints, without that header.
const RIGHT: &str = r#"{"format":1,"fixed":[],"sources":["a.c"],"records":[
{"target":"p","commands":["cc -o p a.o"],"reads":["a.o"],"writes":["p"]},
{"target":"a.o","commands":["cc -c a.c"],"reads":["a.c"],"writes":["a.o"]}]}"#;

/// The certificate of the program without that header.
const CERTIFICATE: &str = concat!(
    r#"{"format":1,"goals":["p"],"ways":[{"end":"source","file":"a.c","path":["a.o"],"#,
    r#""recipe":"a.o"},{"end":"written","file":"a.o","path":["p","a.o"],"recipe":"p"}]}"#,
);

/// The files: the makefile, both footprints, the certificate, a plan, and a makefile that is
/// refused.
const FILES: [(&str, &str); 6] = [
    ("makefile", MAKEFILE),
    ("S", STALE),
    ("B", RIGHT),
    ("K", CERTIFICATE),
    ("P", "make 1\nrun a.o\nrun p\nend\n"),
    ("x.mk", "a:\nx"),
];

/// Runs a command line, of which the read with this number fails.
fn ran(alloc: Global, words: &str, failing: u64) -> Result<Outcome, AllocError> {
    let words: Vec<&str> = words.split_whitespace().collect(alloc)?;
    let mut files = MemFiles::new(alloc);
    for (name, text) in FILES {
        files.add(name, text.as_bytes())?;
    }
    files.fail_at(failing);
    let mut below = Below::new(alloc, MemFiles::new(alloc));
    run(alloc, &mut files, &mut below, &words)
}

/// Checks the text that a command line prints, and its status. Another text is an error that shows
/// both.
fn expect(alloc: Global, words: &str, failing: u64, status: u8, want: &str) -> Result<(), Fail> {
    let outcome = ran(alloc, words, failing)?;
    let is_status = outcome.err.is_empty() && outcome.status == status;
    let text = String::from_utf8(outcome.out)?;
    if is_status && text.as_str() == want {
        return Ok(());
    }
    Err(Fail::new(format_args!("{words} prints\n{text}\nand not\n{want}")))
}

#[test]
fn prints_graphs(rt: HostRuntime) -> Result<(), Fail> {
    let graph = "goals p\na.c:\na.o recipe: a.c\np recipe: a.o\n";
    expect(rt.alloc(), "graph", 0, 0, graph)?;
    let commands = "goals a.o\na.c:\na.o recipe: a.c\n\tcc -c a.c\n";
    expect(rt.alloc(), "graph -c a.o", 0, 0, commands)
}

#[test]
fn judges_builds(rt: HostRuntime) -> Result<(), Fail> {
    let yes = "yes 2 recipes 2 reads\nway a.o a.c source a.o\nway p a.o written p a.o\n";
    expect(rt.alloc(), "check -b B", 0, 0, yes)?;
    expect(rt.alloc(), "check -b S", 0, 1, "no stale a.o h.h\n")?;
    expect(rt.alloc(), "check -b S -e 2", 0, 1, "no plan\n")?;
    let sentence = "makefile:3: a.o reads h.h, but doesn't depend on it: when it changes, a.o \
                    stays old [stale]\n  add: a.o: h.h\n1 finding in 1 group; 1 line mends it\n";
    expect(rt.alloc(), "check -w -b S", 0, 1, sentence)
}

#[test]
fn mends_makefiles(rt: HostRuntime) -> Result<(), Fail> {
    expect(rt.alloc(), "repair -b B", 0, 0, "")?;
    expect(rt.alloc(), "repair -b S", 0, 0, "\na.o: h.h\n")?;
    let value = "{\"answer\":\"yes\",\"format\":1,\"lines\":\"\\na.o: h.h\\n\"}\n";
    expect(rt.alloc(), "repair --json -b S", 0, 0, value)
}

#[test]
fn verifies_certificates(rt: HostRuntime) -> Result<(), Fail> {
    expect(
        rt.alloc(),
        "verify -b B -k K",
        0,
        0,
        "yes 2 recipes 2 reads\n",
    )?;
    expect(rt.alloc(), "verify -b S -k K", 0, 2, "refused 74 a.o h.h\n")
}

#[test]
fn runs_plans(rt: HostRuntime) -> Result<(), Fail> {
    let run = "a.c 1 1\na.o 2 2\np 3 3\nplan ok\n";
    expect(rt.alloc(), "simulate -b B -p P", 0, 0, run)?;
    expect(rt.alloc(), "simulate -w -b B -p P", 0, 0, run)?;
    let value = "{\"answer\":\"yes\",\"format\":1,\"printed\":\"a.c 1 1\\na.o 2 2\\np 3 3\\n\"}\n";
    expect(rt.alloc(), "simulate --json -b B -p P", 0, 0, value)
}

#[test]
fn explains_without_a_read(rt: HostRuntime) -> Result<(), Fail> {
    let outcome = ran(rt.alloc(), "explain 27", 1)?;
    let text = String::from_utf8(outcome.out)?;
    assert!(rt; text.starts_with("BadName (27): "));
    assert!(rt; outcome.err.is_empty() && outcome.status == 0);
    Ok(())
}

/// The refusal of `x.mk`, without its line.
const REFUSAL: &str =
    "x.mk:2: NotALine (25): no rule, macro or include line, as `ifdef`; commands need a tab\n";

/// The line of a refusal is read once more, and left out if that read fails.
#[test]
fn leaves_out_a_line_that_is_not_read(rt: HostRuntime) -> Result<(), Fail> {
    let words = "check -w -f x.mk -b B";
    let whole = format!(in rt.alloc(); "{REFUSAL}  x\n")?;
    expect(rt.alloc(), words, 0, 2, whole.as_str())?;
    expect(rt.alloc(), words, 2, 2, REFUSAL)?;
    expect(rt.alloc(), words, 3, 2, whole.as_str())
}

/// Command lines whose makefile's name or operand is refused, and what is printed.
const UNREAD: [(&str, &str); 8] = [
    ("graph -f - b=1", "refused 27 -\n"),
    ("graph CC+=cc", "refused 11 operand:1\n"),
    ("check -b B -f a/ a", "refused 27 a/\n"),
    ("check -b B -e 1 b=1 CC+=cc", "refused 11 operand:2\n"),
    ("repair -b B -f - CC+=cc", "refused 27 -\n"),
    ("repair -b B b=1 CC+=cc", "refused 11 operand:2\n"),
    ("verify -b B -k K -f - CC+=cc", "refused 27 -\n"),
    ("simulate -b B -p P CC+=cc", "refused 11 operand:1\n"),
];

#[test]
fn refuses_before_it_reads(rt: HostRuntime) -> Result<(), Fail> {
    for (words, printed) in UNREAD {
        expect(rt.alloc(), words, 1, 2, printed)?;
    }
    Ok(())
}

#[test]
fn rejects_other_words(rt: HostRuntime) -> Result<(), Fail> {
    for words in ["", "check", "check -b B -e 0", "graph -x"] {
        let outcome = ran(rt.alloc(), words, 0)?;
        assert!(rt;
            outcome.out.is_empty() && !outcome.err.is_empty(),
            "of {words:?}"
        );
        assert_eq!(rt; outcome.status, 2, "of {words:?}");
    }
    Ok(())
}

#[test]
fn prints_the_version(rt: HostRuntime) -> Result<(), Fail> {
    let version = "mkcheck 0.2.0 (proved with rattle-kit-13f logic dac8208d650f15bf)\n";
    expect(rt.alloc(), "--version", 0, 0, version)
}

#[test]
fn prints_help(rt: HostRuntime) -> Result<(), Fail> {
    for words in ["--help", "help", "graph --help", "repair --help"] {
        let outcome = ran(rt.alloc(), words, 0)?;
        assert!(rt; !outcome.out.is_empty() && outcome.err.is_empty() && outcome.status == 0);
    }
    Ok(())
}
