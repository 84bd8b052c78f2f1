//! Rows on definitions, operands and substitutions.

use crate::expecting::same_number;
use crate::macro_rows::{expanded, follow_anew};
use mk_macros::{Locals, MacroTable, Op};
use std::alloc::Global;
use std::process::Abort;
use std::test::Fail;

/// Definitions of `N` with each operator after each other one, and what `N` then expands to.
const DEFINITIONS: &str = r"N‖=‖x‖
N‖=‖$(y)‖
y‖=‖Y‖
$(N)‖Y

N‖?=‖x‖
N‖?=‖y‖
$(N)‖x

N‖+=‖x‖
$(N)‖x

N‖=‖x‖
N‖+=‖$(y)‖
y‖=‖Y‖
$(N)‖x Y

N‖=‖‖
N‖+=‖‖
<$(N)>‖< >

N‖::=‖a‖
N‖=‖$(y)‖
y‖=‖Y‖
$(N)‖Y

y‖=‖a$$b‖
N‖=‖x‖
N‖::=‖$(y)‖
y‖=‖c‖
$(N)‖a$b

N‖::=‖a‖
N‖?=‖x‖
$(N)‖a

y‖=‖a$$b‖
N‖:::=‖$(y)‖
y‖=‖c‖
$(N)‖a$b

N‖::=‖a‖
N‖:::=‖b‖
$(N)‖b

M‖=‖b‖
N‖:::=‖a‖
N‖+=‖$(M)$$‖
M‖=‖c‖
$(N)‖a c$

M‖=‖b‖
N‖::=‖a‖
N‖+=‖$(M)$$‖
M‖=‖c‖
$(N)‖a b$
N‖+=‖$(‖unclosed reference
$(N)‖a b$

M‖=‖x‖
N‖?=‖none‖
$(N)‖none";

#[test]
fn definitions_set_macros(rt: HostRuntime) -> Result<(), Fail> {
    follow_anew(&rt, rt.alloc(), DEFINITIONS)
}

/// Names of macros, and whether they are valid.
const NAMES: &str = r"A‖=‖x‖
a.b_c-9Z‖=‖x‖
‖=‖x‖bad macro name
a b‖=‖x‖bad macro name
a:‖=‖x‖bad macro name
a/b‖=‖x‖bad macro name
aé‖=‖x‖bad macro name
$(A)‖=‖x‖bad macro name
a b‖::=‖$‖bad macro name";

#[test]
fn names_are_tested(rt: HostRuntime) -> Result<(), Fail> {
    follow_anew(&rt, rt.alloc(), NAMES)
}

/// Definitions with texts of maximum length, one byte longer, and one byte shorter.
const LIMITS: &str = r"A‖=‖×1048576×x×‖
B‖=‖×1048577×x×‖value over 1,048,576 bytes
a b‖=‖×1048577×x×‖bad macro name
A‖+=‖‖value over 1,048,576 bytes
$(B)‖
A‖=‖×1048575×x×‖
A‖+=‖y‖value over 1,048,576 bytes
A‖+=‖‖";

#[test]
fn texts_have_a_limit(rt: HostRuntime) -> Result<(), Fail> {
    follow_anew(&rt, rt.alloc(), LIMITS)
}

/// Operands, their fault, and what `<$(A)>` expands to after `A` was also defined as `later` and
/// `v` as `w`.
const OPERANDS: &str = r"A=x‖‖<x>
A = x ‖‖<x >
→A→=→ x‖‖<x>
A=‖‖<>
A=b=c‖‖<b=c>
A=b::=c‖‖<b::=c>
A=$(‖‖unclosed reference
A=$v‖‖<w>
A::=$$v‖‖<$v>
A ::= $$v‖‖<$v>
A:::=$$v‖‖<$v>
A::=$v‖‖<>
A:::=$v‖‖<>
A::=$‖lone dollar‖<later>
A‖bad macro name‖<later>
‖bad macro name‖<later>
=x‖bad macro name‖<later>
A+=x‖bad macro name‖<later>
A:=x‖bad macro name‖<later>
A ?= x‖bad macro name‖<later>
A::::=x‖bad macro name‖<later>
A b=x‖bad macro name‖<later>";

/// Checks what a row says about an operand and a later definition.
fn see_operand(rt: &impl Abort, alloc: Global, row: &str) -> Result<(), Fail> {
    let (operand, value) = row.rsplit_once("‖").ok_or("no row")?;
    let rows = format!(in alloc; "fix‖{operand}\nA‖=‖later‖\nv‖=‖w‖\n<$(A)>‖{value}")?;
    follow_anew(rt, alloc, rows.as_str())
}

#[test]
fn operands_fix_macros(rt: HostRuntime) -> Result<(), Fail> {
    for row in OPERANDS.lines() {
        see_operand(&rt, rt.alloc(), row)?;
    }
    Ok(())
}

/// Definitions before and after operands of the same name, and of another name.
const FIXED: &str = r"A‖=‖0‖
fix‖A=1‖
fix‖A = 2‖
$(A)‖2
A‖=‖3‖
A‖=‖$‖
$(A)‖2
A‖::=‖3‖
A‖::=‖$‖
$(A)‖2
A‖:::=‖3‖
A‖:::=‖$‖
$(A)‖2
A‖?=‖3‖
A‖?=‖$‖
$(A)‖2
A‖+=‖3‖
A‖+=‖$‖
$(A)‖2
B‖=‖$(A)3‖
$(B)‖23";

#[test]
fn operands_win(rt: HostRuntime) -> Result<(), Fail> {
    follow_anew(&rt, rt.alloc(), FIXED)
}

/// Returns the length of a macro's value after this many definitions.
fn length_of_many(alloc: Global, macros: &mut MacroTable) -> Result<usize, Fail> {
    for _ in 0..60_000 {
        macros.define(b"A", Op::Append, b"sixteen bytes of")?;
    }
    Ok(expanded(alloc, macros, &Locals::Empty, "$(A)")?.len())
}

#[test]
fn many_appends_are_quick(rt: HostRuntime) -> Result<(), Fail> {
    let mut macros = MacroTable::new(rt.alloc());
    let length = length_of_many(rt.alloc(), &mut macros);
    drop(macros);
    same_number(&rt, length?, 1_019_999, "$(A)");
    Ok(())
}

/// Values, and what substitutions make of their words.
const SUBSTITUTIONS: &str = r"V‖=‖‖
$(V:.c=.o)‖
V‖=‖ → ‖
$(V:.c=.o)‖
V‖=‖a.c‖
$(V:.c=.o)‖a.o
V‖=‖  a.c→b.c  c.h ‖
$(V:.c=.o)‖a.o b.o c.h
V‖=‖.c‖
$(V:.c=.o)‖.o
V‖=‖a.c.c‖
$(V:.c=.o)‖a.c.o
V‖=‖a.cc b‖
$(V:.c=.o)‖a.cc b
V‖=‖a b‖
$(V:=.o)‖a.o b.o
$(V:a=)‖ b
V‖=‖a.c b.c‖
$(V:%.c=o/%.o)‖o/a.o o/b.o
V‖=‖xa.c a.c‖
$(V:x%.c=%.o)‖a.o a.c
V‖=‖aba ababa‖
$(V:ab%ba=[%])‖aba [a]
V‖=‖abba‖
$(V:ab%ba=[%])‖[]
V‖=‖a.c‖
$(V:%.c=x)‖x
$(V:%.c=%%)‖a%
V‖=‖a.c b%.c‖
$(V:%%.c=<%>)‖a.c <b>
V‖=‖a.c‖
$(V:.c=%)‖a%
V‖=‖a‖
$(V:%=%-%)‖a-%";

#[test]
fn words_are_replaced(rt: HostRuntime) -> Result<(), Fail> {
    follow_anew(&rt, rt.alloc(), SUBSTITUTIONS)
}
