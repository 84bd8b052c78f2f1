//! The texts of faults of macros.

ghost use Rattle.std.specs.Prelude.{◌≡◌};
ghost use Rattle.std.specs.Option.{option_map};
ghost use Rattle.mk_explain.specs.Texts.{macros_text};

/// `BadMacroName` (11).
pub const BAD_MACRO_NAME: &str = "\
`refused 11 FILE:LINE`: a macro has a bad name, such as an empty one or one
with blanks; a reference has `:` and no `=`; or an operand has another
operator than `=`, `::=` and `:::=`. Functions of GNU make are such names.

    all: $(wildcard *.c)

Write the list out, and use names of letters, digits, `.`, `_` and `-`. What a
shell can compute, the recipe's shell can (docs/FROM_GNU_MAKE.md). Or let
`mkcheck-import` read the build as GNU make does. For an operand such as
`CFLAGS+=-g` give the whole value: `CFLAGS=\"-O1 -g\"`.
";

/// `Recursive` (12).
pub const RECURSIVE: &str = "\
`refused 12 FILE:LINE NAME`: the macro NAME occurs inside its own value,
directly or in another macro's. The line is that of the text that uses it.

    CFLAGS = -g
    CFLAGS = $(CFLAGS) -Wall
    all: ; cc $(CFLAGS) a.c

Write `CFLAGS += -Wall`, or `::=` in the second line, which expands its text
at once.
";

/// `Unclosed` (13).
pub const UNCLOSED: &str = "\
`refused 13 FILE:LINE`: a reference, which begins with `$(` or `${`, has no
end.

    all: $(OBJECTS

Close the reference. A `#` in a reference begins a comment, so `$(N:#=x)` has
no end either; put the `#` into a macro by `\\#`.
";

/// `TooManyReferences` (14).
pub const TOO_MANY_REFERENCES: &str = "\
`refused 14 FILE:LINE`: this is the 65,537th reference in one expansion, or
one at level 256, as where `A1` is `$(A2)`, `A2` is `$(A3)`, and so on up to
`A256`.

Set what is used often by `::=`: its value counts as one reference.
";

/// `ValueTooLong` (15).
pub const VALUE_TOO_LONG: &str = "\
`refused 15 FILE:LINE`: a macro's value, or a text that is expanded on the
way, is over 1,048,576 bytes.

Split the list into several macros, and the rule into several lines.
";

/// `LoneDollar` (16).
pub const LONE_DOLLAR: &str = "\
`refused 16 FILE:LINE`: a `$` stands at the end of a text, or before a byte
that begins no reference.

    all: ; awk '/a$/ { print $1 }' list > all

Write a `$` for the shell as `$$`: `awk '/a$$/ { print $$1 }'`.
";

/// `MemberMacro` (17).
pub const MEMBER_MACRO: &str = "\
`refused 17 FILE:LINE`: a text uses `$%`, `$(%D)` or `$(%F)`. Members of
archives aren't supported.

    all: ; echo $%

Make the archive anew from its objects: see `ArchiveMember` (28).
";

/// The text of the fault with this number, if it is one of these.
#[tactic(auto, unfolding(crate::specs::Texts::macros_text))]
pub fn macros_text(number: u32) -> Option<&'static str>
    ensures { option_map (λ text. text.now) result ≡ macros_text number }
{
    match number {
        11 => Some(BAD_MACRO_NAME),
        12 => Some(RECURSIVE),
        13 => Some(UNCLOSED),
        14 => Some(TOO_MANY_REFERENCES),
        15 => Some(VALUE_TOO_LONG),
        16 => Some(LONE_DOLLAR),
        17 => Some(MEMBER_MACRO),
        _ => None,
    }
}
