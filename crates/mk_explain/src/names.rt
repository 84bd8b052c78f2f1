//! The texts of faults of names and rules.

ghost use Rattle.std.specs.Prelude.{◌≡◌};
ghost use Rattle.std.specs.Option.{option_map};
ghost use Rattle.mk_explain.specs.Texts.{names_text};

/// `BadName` (27).
pub const BAD_NAME: &str = "\
`refused 27 FILE:LINE`: a word is no name. Pattern rules (`%`), wildcards
(`*`), order-only prerequisites (`|`), grouped targets (`&:`), quotes, lines
that end in CR LF, and second spellings of a file, as `./a.o` or `obj/`, have
such words. A goal may be no name either, or be `.WAIT` or `-` (`BadGoal`). If
the name for `-f` is `-` or no plain path, that name is printed in place of
FILE:LINE (`BadMakefileName`).

    %.o: %.c
    \tcc -c $<

Write `a.o` for `./a.o`; an inference rule, `.c.o:`, for a pattern rule; the
list itself for a wildcard; or let `mkcheck-import` read the build as GNU make
does. For a makefile on standard input write `-f /dev/stdin`.
";

/// `ArchiveMember` (28).
pub const ARCHIVE_MEMBER: &str = "\
`refused 28 FILE:LINE`: a word holds `(` or `)`. Members of archives aren't
supported. For a goal the fault is `GoalIsMember`.

    lib.a: lib.a(a.o)

Write `lib.a: a.o` with the command `rm -f $@; ar rc $@ $^`.
";

/// `UnknownSpecial` (29).
pub const UNKNOWN_SPECIAL: &str = "\
`refused 29 FILE:LINE`: a target of `.` and three or more of `A-Z` and `_` is
none of the special targets that are taken. `.DEFAULT` and `.SCCS_GET` are
POSIX's, but not taken here.

    .DELETE_ON_ERROR:
    all: ; cc -o all all.c

Remove it. So that a recipe that fails leaves no half-written file, let it
write to another name, and rename that. In place of `.DEFAULT` write a rule
for each name that it is to make.
";

/// `SpecialShape` (30).
pub const SPECIAL_SHAPE: &str = "\
`refused 30 FILE:LINE`: a special target stands beside another one, has
commands, or has words that it can't have. For commands the line is that of
the first command.

    .PHONY: all
    \techo

Write a line for the special target alone.
";

/// `TwoRecipes` (31).
pub const TWO_RECIPES: &str = "\
`refused 31 FILE:LINE TARGET`: a second rule line has commands for TARGET. The
line is that of this rule, and TARGET is the first on it that has commands
already.

    a: b
    \tcp b a
    a: c
    \tcp c a

Write one line with all the commands; other lines only add prerequisites.
";

/// The text of the fault with this number, if it is one of these.
#[tactic(auto, unfolding(crate::specs::Texts::names_text))]
pub fn names_text(number: u32) -> Option<&'static str>
    ensures { option_map (λ text. text.now) result ≡ names_text number }
{
    match number {
        27 => Some(BAD_NAME),
        28 => Some(ARCHIVE_MEMBER),
        29 => Some(UNKNOWN_SPECIAL),
        30 => Some(SPECIAL_SHAPE),
        31 => Some(TWO_RECIPES),
        _ => None,
    }
}
