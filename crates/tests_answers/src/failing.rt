//! Reads that fail, each in its turn.

use crate::requests::{Call, RIGHT, answer, files, request, same};
use mk_core::{Files, FilesError, MemFiles};
use std::alloc::{AllocError, Global};
use std::process::Abort;
use std::test::Fail;

/// Checks what a call gives if the read with this number fails.
fn expect(alloc: Global, read: u64, call: Call, want: &str) -> Result<(), Fail> {
    let asked = request(alloc, &[])?;
    let mut files = files(alloc, RIGHT)?;
    files.fail_at(read);
    let got = answer(alloc, &mut files, &asked, call)?;
    same(got.as_str(), want)
}

#[test]
fn names_the_file_of_each_read(rt: HostRuntime) -> Result<(), Fail> {
    let alloc = rt.alloc();
    for call in [
        Call::Graph,
        Call::Check,
        Call::Verify,
        Call::Simulate,
        Call::PlanOrVerdict(1),
    ] {
        expect(alloc, 1, call, "refused 35 makefile")?;
        expect(alloc, 2, call, "refused 35 B")?;
    }
    expect(alloc, 3, Call::Verify, "refused 35 K")?;
    expect(alloc, 3, Call::Simulate, "refused 35 P")
}

#[test]
fn a_read_behind_the_last_one_changes_nothing(rt: HostRuntime) -> Result<(), Fail> {
    let graph = "goals p\na.c:\na.o recipe: a.c\np recipe: a.o\n";
    expect(rt.alloc(), 3, Call::Graph, graph)?;
    expect(rt.alloc(), 4, Call::Verify, "yes 2 recipes 2 reads\n")
}

/// Makes files of which the second read fails.
fn failing_second(alloc: Global) -> Result<MemFiles, AllocError> {
    let mut files = MemFiles::new(alloc);
    files.add("a", b"x")?;
    files.fail_at(2);
    Ok(files)
}

#[test]
fn fails_at_one_read(rt: HostRuntime) -> Result<(), Fail> {
    let mut files = failing_second(rt.alloc())?;
    let text = files.read(rt.alloc(), "a");
    assert!(rt; matches!(&text, Ok(Some(text)) if text.as_slice() == b"x".as_slice()));
    let text = files.read(rt.alloc(), "a");
    assert!(rt; matches!(&text, Err(FilesError::ReadFailed)));
    let text = files.read(rt.alloc(), "b");
    assert!(rt; matches!(&text, Ok(None)));
    Ok(())
}
