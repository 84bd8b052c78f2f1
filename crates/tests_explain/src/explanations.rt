//! Explanations of a finding and of a fault, and the overview.

use mk_explain::{explain, fault_name, fault_sentence, named_sentence, near_words, overview};
use std::process::Abort;
use std::test::Fail;

/// The explanation of `DoubleColon`.
const DOUBLE_COLON: &str = "\
DoubleColon (23): a rule line has `::`; write one colon

`refused 23 FILE:LINE`: a rule line has `::` after its targets.

    all:: a

Write one colon. A target may be on any number of lines, one of which may have
commands.
";

/// The explanation of `loose`.
const LOOSE: &str = "\
loose: a target's file is written by a recipe that it doesn't need; add it

`no loose T R`: T is a name that the goals reach and that has no recipe, R
writes it, and R isn't a direct prerequisite of T. So T may count as done
while R still writes it.

    p.h:
    p.c: p.y
    \tbison -d p.y -o p.c

The recipe of `p.c` writes `p.h` too: `no loose p.h p.c`. Write `p.h: p.c`. If
GNU make runs the build, write `p.h: p.c ;`, with an empty recipe: else it
looks at `p.h` before `p.c` is made. If R itself needs T, as a program that
writes its own prerequisite, give T that command, or take it out of what R
needs.
";

#[test]
fn explains(rt: HostRuntime) -> Result<(), Fail> {
    let wanted = [
        ("23", DOUBLE_COLON),
        ("DoubleColon", DOUBLE_COLON),
        ("loose", LOOSE),
        ("doublecolon", DOUBLE_COLON),
        ("Loose", LOOSE),
    ];
    for (what, text) in wanted {
        let told = explain(rt.alloc(), what)?;
        assert!(rt;
            told.is_some_and(|told| told.as_str() == text),
            "of {what:?}"
        );
    }
    for what in ["", "0", "4", "023", "+23", "loose p.h p.c", "no"] {
        assert!(rt; explain(rt.alloc(), what)?.is_none(), "of {what:?}");
    }
    Ok(())
}

#[test]
fn explains_other_words(rt: HostRuntime) -> Result<(), Fail> {
    for what in ["yes", "way", "cycle", "tried", "since"] {
        let told = explain(rt.alloc(), what)?;
        assert!(rt;
            told.is_some_and(|told| told.as_str().starts_with(what)),
            "of {what}"
        );
    }
    let told = explain(rt.alloc(), "Cycle")?;
    assert!(rt; told.is_some_and(|told| told.as_str().starts_with("Cycle (42): ")));
    Ok(())
}

#[test]
fn names_faults(rt: HostRuntime) -> Result<(), Fail> {
    assert!(rt; fault_name(31).is_some_and(|name| name == "TwoRecipes"));
    assert!(rt; fault_name(32).is_some_and(|name| name == "IncludeMissing"));
    assert!(rt; fault_name(39).is_none());
    Ok(())
}

#[test]
fn says_what_to_do(rt: HostRuntime) -> Result<(), Fail> {
    let sentence = "a rule line has `::`; write one colon";
    assert!(rt; fault_sentence(23).is_some_and(|said| said == sentence));
    assert!(rt; fault_sentence(79).is_none());
    assert!(rt; named_sentence("DoubleColon").is_some_and(|said| said == sentence));
    let other = "a goal is no name, or is `.WAIT` or `-`; give another one";
    assert!(rt; named_sentence("BadGoal").is_some_and(|said| said == other));
    assert!(rt; named_sentence("23").is_none());
    Ok(())
}

#[test]
fn lists_all(rt: HostRuntime) -> Result<(), Fail> {
    let text = overview(rt.alloc())?;
    let finding = "loose: a target's file is written by a recipe that it doesn't need; add it";
    assert!(rt; text.as_str().lines().any(|line| line == finding));
    let fault = "23 DoubleColon: a rule line has `::`; write one colon";
    assert!(rt; text.as_str().lines().any(|line| line == fault));
    assert!(rt; text.as_str().lines().count() == 78);
    Ok(())
}

#[test]
fn names_words_that_begin_alike(rt: HostRuntime) -> Result<(), Fail> {
    let near = [
        ("nojason", "NoJobFree"),
        ("STAL", "stale, Static"),
        ("reco", "record, Recursive"),
        ("xyz", ""),
        ("st", ""),
    ];
    for (what, wanted) in near {
        assert!(rt;
            near_words(rt.alloc(), what)?.as_str() == wanted,
            "of {what}"
        );
    }
    Ok(())
}
