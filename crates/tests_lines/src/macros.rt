//! Rows on expansions. The expected texts were worked out by hand.

use crate::expecting::{same_bytes, same_number, see_that};
use crate::macro_rows::{follow, follow_anew};
use mk_macros::{Locals, MacroTable, Op, without_blanks};
use std::alloc::{AllocError, Global};
use std::borrow::CowSlice;
use std::process::Abort;
use std::test::Fail;
use tests_tables::unfolded;

/// The macros of the rows below.
const MACROS: &str = r"S‖=‖a.c  b.h .c‖
K‖=‖S‖
T‖=‖aba abba‖
X‖=‖$(Y)‖
Y‖=‖$(X)‖
V‖=‖$$v‖
W‖=‖$(V)‖
P‖=‖a.c b.h‖
H‖=‖$?$(S)‖
1‖=‖one‖";

/// Defines `MACROS`, and then runs and checks the rows.
fn follow_both(
    rt: &impl Abort,
    alloc: Global,
    macros: &mut MacroTable,
    locals: &Locals<'_>,
    rows: &str,
) -> Result<(), Fail> {
    follow(rt, alloc, macros, locals, MACROS)?;
    follow(rt, alloc, macros, locals, rows)
}

/// Does the same over a new table.
fn follow_rows(
    rt: &impl Abort,
    alloc: Global,
    locals: &Locals<'_>,
    rows: &str,
) -> Result<(), Fail> {
    let mut macros = MacroTable::new(alloc);
    let followed = follow_both(rt, alloc, &mut macros, locals, rows);
    drop(macros);
    followed
}

/// Texts, and what they expand to outside commands.
const ROWS: &str = r"‖
plain‖plain
a$$b$$‖a$b$
$(S:.c=.o)‖a.o b.h .o
${S:.c=.o}‖a.o b.h .o
$(S:=.x)‖a.c.x b.h.x .c.x
$(S:a%c=%-%)‖.-% b.h .c
$($(K):.h=.i)‖a.c b.i .c
$(${K})$1‖a.c  b.h .cone
$(T:ab%ba=x)‖aba x
$(P:%.c=obj/%.o)‖obj/a.o b.h
$W$(W)‖$v$v
<$(U)$U>‖<>
$(S:.$(C)c=.$(O)o)‖a.o b.h .o
[$@$*$<$^$+$(@D)$(^F)]‖[]
x$?‖~x
$H‖~a.c  b.h .c
$(?D)‖~
$‖lone dollar
a$ b‖lone dollar
a$‖lone dollar
$(S)$)‖lone dollar
$(X‖unclosed reference
$(a:b‖unclosed reference
${X)‖unclosed reference
$($(a)‖unclosed reference
$(a:b)‖bad macro name
$(a b)‖bad macro name
$()‖bad macro name
$($:)b)‖bad macro name
$(%X)‖bad macro name
$(a=b)‖bad macro name
$(a b:$%=)‖macro of an archive member
$%‖macro of an archive member
$(%D)‖macro of an archive member
$(%F)‖macro of an archive member
$(X)‖a loop of X
$(Y)‖a loop of Y
$(a b)$(X)‖bad macro name
$(X)$(a b)‖a loop of X
$(a:$(X)=$)‖a loop of X";

#[test]
fn outside_commands(rt: HostRuntime) -> Result<(), Fail> {
    follow_rows(&rt, rt.alloc(), &Locals::Empty, ROWS)
}

/// Texts, and what they expand to in a command.
const IN_COMMAND: &str = r"$@‖obj/a.o
$(@D)‖obj
$(@F)‖a.o
$*‖obj/a
$(*F)‖a
$<‖src/a.c
$^‖src/a.c b.h
$(^D)‖src .
$+‖src/a.c b.h src/a.c
${+F}‖a.c b.h a.c
$(@:.o=.d)‖obj/a.d
$(@:%.o=%.d)‖obj/a.d
$?‖~
$(@X)‖bad macro name
$(@DF)‖bad macro name";

#[test]
fn in_a_command(rt: HostRuntime) -> Result<(), Fail> {
    let locals = Locals::Recipe {
        target: "obj/a.o",
        stem: "obj/a",
        first: Some("src/a.c"),
        all: &["src/a.c", "b.h", "src/a.c"],
    };
    follow_rows(&rt, rt.alloc(), &locals, IN_COMMAND)
}

/// The internal macros and their forms with `D` and `F`, for names with slashes.
const PARTS: &str = r"$@‖out/a.o
$*‖out/a
$<‖a.c
$^‖a.c /b /c/d e/ a//f
$+‖a.c /b a.c /c/d e/ /b a//f
$(?)‖~
$(@D)‖out
$(@F)‖a.o
$(*D)‖out
$(*F)‖a
$(<D)‖.
$(<F)‖a.c
$(^D)‖. / /c e a/
$(^F)‖a.c b d  f
$(+D)‖. / . /c e / a/
$(+F)‖a.c b a.c d  b f
$(?D)‖~
$(@d)‖bad macro name
$(DD)‖";

#[test]
fn internal_macros_have_parts(rt: HostRuntime) -> Result<(), Fail> {
    let locals = Locals::Recipe {
        target: "out/a.o",
        stem: "out/a",
        first: Some("a.c"),
        all: &["a.c", "/b", "a.c", "/c/d", "e/", "/b", "a//f"],
    };
    follow_rows(&rt, rt.alloc(), &locals, PARTS)
}

/// The internal macros and their forms outside commands.
const EMPTY: &str = r"$@$*$<$^$+‖
$(@D)$(@F)$(*D)$(*F)$(<D)$(<F)$(^D)$(^F)$(+D)$(+F)‖
$(?)$(?D)$(?F)‖~";

#[test]
fn internal_macros_are_empty_outside(rt: HostRuntime) -> Result<(), Fail> {
    follow_rows(&rt, rt.alloc(), &Locals::Empty, EMPTY)
}

/// Values that each operator stores by expanding or appending.
const STORED: &str = r"X‖=‖$$v‖
Y‖::=‖$(X)‖
Z‖:::=‖$(X)‖
$(Y)|$(Z)|$(X)‖$v|$v|$v
Z‖+=‖$(X)‖
Y‖+=‖$(X)‖
X‖=‖w‖
$(Z)|$(Y)‖$v w|$v $v";

#[test]
fn values_that_were_stored(rt: HostRuntime) -> Result<(), Fail> {
    follow_anew(&rt, rt.alloc(), STORED)
}

/// Returns rows that define macros of which each refers twice to the one below it, and the lowest
/// is empty.
fn doubling(alloc: Global, count: usize, rows: &str) -> Result<String, AllocError> {
    let mut out = String::from_str(alloc, "A0‖=‖‖\n")?;
    for n in 1..count {
        let below = n.saturating_sub(1);
        let row = format!(in alloc; "A{n}‖=‖$(A{below})$(A{below})‖\n")?;
        out.push_str(row.as_str())?;
    }
    out.push_str(rows)?;
    Ok(out)
}

/// Texts with the maximum number of references, and with one more.
const MOST: &str = r"$(A15)$(A0)‖
$(A15)$(A0)$(A0)‖too many references";

#[test]
fn most_references(rt: HostRuntime) -> Result<(), Fail> {
    let rows = doubling(rt.alloc(), 16, MOST)?;
    follow_anew(&rt, rt.alloc(), rows.as_str())
}

/// Returns rows that define this many macros, of which each refers to the next one and the last is
/// empty.
fn chained(alloc: Global, count: usize, row: &str) -> Result<String, AllocError> {
    let mut out = String::new(alloc);
    for n in 1..count {
        let next = n.saturating_add(1);
        let row = format!(in alloc; "A{n}‖=‖$(A{next})‖\n")?;
        out.push_str(row.as_str())?;
    }
    let last = format!(in alloc; "A{count}‖=‖‖\n{row}")?;
    out.push_str(last.as_str())?;
    Ok(out)
}

#[test]
fn deepest_values(rt: HostRuntime) -> Result<(), Fail> {
    let rows = chained(rt.alloc(), 256, "$(A1)‖")?;
    follow_anew(&rt, rt.alloc(), rows.as_str())
}

#[test]
fn too_deep_values(rt: HostRuntime) -> Result<(), Fail> {
    let rows = chained(rt.alloc(), 257, "$(A1)‖too many references")?;
    follow_anew(&rt, rt.alloc(), rows.as_str())
}

/// A name in the maximum number of nested references, and in one more.
const NESTED: &str = r"X‖=‖X‖
×256×$(×X×256×)×‖X
×257×$(×X×257×)×‖too many references";

#[test]
fn deepest_names(rt: HostRuntime) -> Result<(), Fail> {
    follow_anew(&rt, rt.alloc(), NESTED)
}

/// Whether a text was borrowed.
fn is_lent(text: &CowSlice<'_, u8>) -> bool {
    matches!(text, CowSlice::Borrowed(_))
}

/// Returns the length of the expansion of a text, and whether it is borrowed.
fn measured(alloc: Global, macros: &MacroTable, text: &[u8]) -> Result<(usize, bool), Fail> {
    let found = macros.expand(alloc, text, &Locals::Empty)?;
    Ok((found.text.as_slice().len(), is_lent(&found.text)))
}

/// Checks the length of the expansion of a row's text, and whether it is borrowed.
fn see_measured(
    rt: &impl Abort,
    alloc: Global,
    macros: &MacroTable,
    row: &str,
    want: (usize, bool),
) -> Result<(), Fail> {
    let text = unfolded(alloc, row)?;
    let found = measured(alloc, macros, text.as_bytes())?;
    same_number(rt, found.0, want.0, row);
    see_that(rt, found.1 == want.1, row);
    Ok(())
}

/// Checks texts of maximum length, where `E` is empty.
fn see_longest(rt: &impl Abort, alloc: Global, macros: &mut MacroTable) -> Result<(), Fail> {
    macros.define(b"E", Op::Delay, b"")?;
    see_measured(rt, alloc, macros, "×1048576×x×", (1_048_576, true))?;
    see_measured(rt, alloc, macros, "×1048576×x×$(E)", (1_048_576, false))
}

#[test]
fn longest_texts(rt: HostRuntime) -> Result<(), Fail> {
    let mut macros = MacroTable::new(rt.alloc());
    let seen = see_longest(&rt, rt.alloc(), &mut macros);
    drop(macros);
    seen
}

/// Longer texts, where `E` is empty.
const LONGER: &str = r"E‖=‖‖
×1048576×x×$(E)x$‖value over 1,048,576 bytes
×1048577×x×‖value over 1,048,576 bytes";

#[test]
fn too_long_texts(rt: HostRuntime) -> Result<(), Fail> {
    follow_anew(&rt, rt.alloc(), LONGER)
}

/// Texts with a macro of maximum length, and what they expand to.
const TOO_LONG: &str = r"L‖=‖×1048576×x×‖
$(L)$‖lone dollar
$(L)x$‖value over 1,048,576 bytes
x$(L)$‖value over 1,048,576 bytes
$(L)$$$‖value over 1,048,576 bytes
$$$(L)$‖value over 1,048,576 bytes
$(L:=x)$‖value over 1,048,576 bytes
$(L:%=)$‖lone dollar
$(L:x=yx)$‖value over 1,048,576 bytes";

#[test]
fn too_long_before_other_faults(rt: HostRuntime) -> Result<(), Fail> {
    follow_anew(&rt, rt.alloc(), TOO_LONG)
}

/// Texts, and what is left of them without blanks at their ends.
const BLANKS: &[(&str, &str)] = &[(" \t a b \t", "a b"), ("a", "a"), (" \t ", ""), ("", "")];

#[test]
fn blanks_at_the_ends(rt: HostRuntime) {
    for &(text, rest) in BLANKS {
        same_bytes(&rt, without_blanks(text.as_bytes()), rest.as_bytes(), text);
    }
}
