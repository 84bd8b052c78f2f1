//! Tests of makefiles that are read from memory.

use crate::files::file_of;
use mk_lines::Name;
use mk_read::{Command, Makefile, ReadFault};
use mk_read_parse::{MemFiles, read_makefile};
use std::alloc::{AllocError, Global};
use std::process::Abort;
use std::str;
use std::test::Fail;
use tests_tables::{add_names, unfolded};

/// Appends commands, each after a semicolon.
fn add_commands(shown: &mut String, commands: &[Command]) -> Result<(), AllocError> {
    for command in commands {
        shown.push(';')?;
        shown.push_str(str::from_utf8(&command.text).unwrap_or("?"))?;
    }
    Ok(())
}

/// Returns a line for each rule line: its targets, its prerequisites and its commands.
fn rules_text(alloc: Global, makefile: &Makefile) -> Result<String, AllocError> {
    let mut shown = String::new(alloc);
    for rule in makefile.rules() {
        add_names(&mut shown, &rule.targets)?;
        shown.push(':')?;
        add_names(&mut shown, &rule.words)?;
        if let Some(commands) = &rule.commands {
            add_commands(&mut shown, commands)?;
        }
        shown.push('\n')?;
    }
    Ok(shown)
}

/// Returns the lists of names, separated by bars.
fn lists_text(alloc: Global, makefile: &Makefile) -> Result<String, AllocError> {
    let mut shown = String::new(alloc);
    add_names(&mut shown, makefile.suffixes())?;
    shown.push_str(" |")?;
    add_names(&mut shown, makefile.phony())?;
    shown.push_str(" |")?;
    add_names(&mut shown, makefile.texts())?;
    shown.push_str(" |")?;
    add_names(&mut shown, makefile.passed_over())?;
    Ok(shown)
}

/// A makefile that includes another one, with `→` for a tab.
const INCLUDING: &str = r".SUFFIXES: .s .c .s
.PHONY: all
.NOTPARALLEL:
all: $(OUT) .WAIT b
include more.mk
-include gone.mk
b:;echo $@
# a comment
→echo done
";

/// The rule lines of `INCLUDING`.
const INCLUDING_RULES: &str = " all: a.out .WAIT b\n x y: z;cp z $@\n b:;echo $@;echo done\n";

/// Makes the files of the makefile and of what it includes.
fn files(alloc: Global) -> Result<MemFiles, AllocError> {
    let text = unfolded(alloc, INCLUDING)?;
    let mut files = file_of(alloc, "makefile", text.as_bytes())?;
    files.add("more.mk", b"x y: z\n\tcp z $@\n")?;
    Ok(files)
}

/// What is checked of a makefile: its rule lines, its lists, and whether it has `.NOTPARALLEL`.
type Seen<'a> = (&'a str, &'a str, bool);

/// Checks a makefile.
fn see(rt: &impl Abort, alloc: Global, makefile: &Makefile, want: Seen<'_>) -> Result<(), Fail> {
    let rules = rules_text(alloc, makefile)?;
    assert_eq!(rt; rules.as_str(), want.0, "rule lines");
    let lists = lists_text(alloc, makefile)?;
    assert_eq!(rt; lists.as_str(), want.1, "lists");
    assert!(rt; makefile.not_parallel() == want.2, "not parallel");
    Ok(())
}

/// What is asked of a reading.
#[derive(Drop)]
struct Request<'a> {
    /// Whether the default text is read.
    defaults: bool,
    /// The operands.
    operands: &'a [Vec<u8>],
}

/// Reads files as requested, and checks the makefile.
fn see_read(
    rt: &impl Abort,
    alloc: Global,
    files: &mut MemFiles,
    request: &Request<'_>,
    want: Seen<'_>,
) -> Result<(), Fail> {
    let makefile = read_makefile(alloc, files, None, request.defaults, request.operands)?;
    let seen = see(rt, alloc, &makefile, want);
    drop(makefile);
    seen
}

/// What is checked of the makefile and of what it includes.
const BOTH: Seen<'static> = (
    INCLUDING_RULES,
    " .s .c | all | makefile more.mk | gone.mk",
    true,
);

/// Checks both files.
fn see_both(rt: &impl Abort, alloc: Global, files: &mut MemFiles) -> Result<(), Fail> {
    let operand = b"OUT=a.out".to_vec(alloc)?;
    let request = Request {
        defaults: false,
        operands: &[operand],
    };
    see_read(rt, alloc, files, &request, BOTH)
}

#[test]
fn reads_makefiles(rt: HostRuntime) -> Result<(), Fail> {
    let mut files = files(rt.alloc())?;
    let seen = see_both(&rt, rt.alloc(), &mut files);
    drop(files);
    seen
}

/// The rule lines of the default text, and one of the makefile.
const DEFAULT_RULES: &str = " .c:;$(CC) $(CFLAGS) $(LDFLAGS) -o $@ $<
 .sh:;cp $< $@;chmod a+x $@
 .c.o:;$(CC) $(CFLAGS) -c $<
 .c.o:;cc -c $<
";

/// What is checked of the default text and the makefile.
const DEFAULT: Seen<'static> = (
    DEFAULT_RULES,
    " .o .c .sh .x | | Makefile | makefile",
    false,
);

#[test]
fn reads_the_default_text(rt: HostRuntime) -> Result<(), Fail> {
    let text = b".SUFFIXES: .x\n.c.o:\n\tcc -c $<\n";
    let mut files = file_of(rt.alloc(), "Makefile", text)?;
    let request = Request {
        defaults: true,
        operands: &[],
    };
    let seen = see_read(&rt, rt.alloc(), &mut files, &request, DEFAULT);
    drop(files);
    seen
}

/// A makefile that includes three files by one line, and their texts.
fn three_files(alloc: Global) -> Result<MemFiles, AllocError> {
    let mut files = file_of(alloc, "Makefile", b"# three\ninclude one two three\n")?;
    files.add("three", b"c:\n")?;
    files.add("two", b"b:\n")?;
    files.add("one", b"a:\n")?;
    Ok(files)
}

/// The fault of a read, as a text: the line that includes the file, if there is one, and the name
/// of the file.
fn failure_text(alloc: Global, read: &Result<Makefile, ReadFault>) -> Result<String, AllocError> {
    match read {
        Err(ReadFault::ReadFailed(Some(place), name)) => {
            format!(in alloc; "{}:{} {}", place.file.as_str(), place.line, name.as_str())
        }
        Err(ReadFault::ReadFailed(None, name)) => format!(in alloc; "{}", name.as_str()),
        Err(_) => String::from_str(alloc, "another fault"),
        Ok(_) => String::from_str(alloc, "no fault"),
    }
}

/// The text of the fault where the read with this number fails.
const FAILURES: [(u64, &str); 6] = [
    (1, "makefile"),
    (2, "Makefile"),
    (3, "Makefile:2 one"),
    (4, "Makefile:2 two"),
    (5, "Makefile:2 three"),
    (6, "no fault"),
];

#[test]
fn names_the_file_of_a_failed_read(rt: HostRuntime) -> Result<(), Fail> {
    let alloc = rt.alloc();
    for (number, want) in FAILURES {
        let mut files = three_files(alloc)?;
        files.fail_at(number);
        let read = read_makefile(alloc, &mut files, None, true, &[]);
        let got = failure_text(alloc, &read)?;
        assert_eq!(rt; got.as_str(), want, "a failed read");
    }
    Ok(())
}

#[test]
fn refuses_requests_before_reading(rt: HostRuntime) -> Result<(), Fail> {
    let alloc = rt.alloc();
    let mut files = three_files(alloc)?;
    files.fail_at(1);
    let dash = Name::new(alloc, "-")?;
    let read = read_makefile(alloc, &mut files, Some(&dash), true, &[]);
    assert!(rt;
        matches!(&read, Err(ReadFault::BadMakefileName(_))),
        "a bad name"
    );
    let operand = b"A B=".to_vec(alloc)?;
    let read = read_makefile(alloc, &mut files, None, true, &[operand]);
    assert!(rt;
        matches!(&read, Err(ReadFault::Macro(_, _))),
        "a bad operand"
    );
    Ok(())
}
