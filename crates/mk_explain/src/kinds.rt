//! The texts of faults of kinds of lines.

ghost use Rattle.std.specs.Prelude.{◌≡◌};
ghost use Rattle.std.specs.Option.{option_map};
ghost use Rattle.mk_explain.specs.Texts.{kinds_text};

/// `ShellAssign` (21).
pub const SHELL_ASSIGN: &str = "\
`refused 21 FILE:LINE`: a line assigns by `!=`. The value comes from a shell
and not from the makefile.

    VERSION != git describe
    all: ; echo $(VERSION)

Let the recipe's shell compute it: `v=$$(git describe); echo $$v`. Or give the
value on the command line.
";

/// `ColonAssign` (22).
pub const COLON_ASSIGN: &str = "\
`refused 22 FILE:LINE`: a line assigns by `:=`.

    DIR := src
    all: $(DIR)/a

Write `::=`, which is the standard's name for it, or `=` if nothing in the
value is set again later.
";

/// `DoubleColon` (23).
pub const DOUBLE_COLON: &str = "\
`refused 23 FILE:LINE`: a rule line has `::` after its targets.

    all:: a

Write one colon. A target may be on any number of lines, one of which may have
commands.
";

/// `TargetMacro` (24).
pub const TARGET_MACRO: &str = "\
`refused 24 FILE:LINE`: a rule line has `=` among its prerequisites, by which
GNU make sets a macro for one target.

    debug: CFLAGS = -g

Use a macro of its own for the target, in the commands of that target.
";

/// `NotALine` (25).
pub const NOT_A_LINE: &str = "\
`refused 25 FILE:LINE`: a line is no rule, no assignment and no include line,
or is a rule line without targets. Conditionals, `define`, `export` and the
like are such lines, and so are commands that begin with spaces.

    ifdef DEBUG

Write `?=` if that is meant, or write files of which one is included:
`include config-$(SYSTEM).mk`, with `SYSTEM` as an operand. Or let
`mkcheck-import` read the build as GNU make does.
";

/// `StrayCommand` (26).
pub const STRAY_COMMAND: &str = "\
`refused 26 FILE:LINE`: a line that begins with a tab belongs to no rule. An
assignment and an include line separate it from the rule before them. If its
first byte that is no blank is `#`, it is a comment and isn't refused.

    OBJECTS = a.o
    \techo $(OBJECTS)
    all: $(OBJECTS)

Put the line after its rule, or remove the tab.
";

/// The text of the fault with this number, if it is one of these.
#[tactic(auto, unfolding(crate::specs::Texts::kinds_text))]
pub fn kinds_text(number: u32) -> Option<&'static str>
    ensures { option_map (λ text. text.now) result ≡ kinds_text number }
{
    match number {
        21 => Some(SHELL_ASSIGN),
        22 => Some(COLON_ASSIGN),
        23 => Some(DOUBLE_COLON),
        24 => Some(TARGET_MACRO),
        25 => Some(NOT_A_LINE),
        26 => Some(STRAY_COMMAND),
        _ => None,
    }
}
