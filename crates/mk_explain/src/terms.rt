//! The texts of other words that answers begin with.

ghost use Rattle.std.specs.Prelude.{◌≡◌};
ghost use Rattle.std.specs.Option.{option_map};
ghost use Rattle.mk_explain.specs.Texts.{term_text};

/// `yes N recipes M reads`.
pub const YES: &str = "\
yes: makes leave what a clean build leaves

`yes N recipes M reads`: the goals reach N recipes, which read M files. For
every number of jobs, every order that make allows and every list of edits of
sources, what each make leaves is what a clean build of the same sources
leaves. With 0 recipes the goals reach no recipe, so nothing was judged:
perhaps the first target of the makefile is a source.
";

/// `way R F END NAMES`.
pub const WAY: &str = "\
way: how a change of a file reaches a recipe

`way R F END NAMES`: when F changes, make runs R, since each of the recipes
NAMES writes a prerequisite of the one before it, and for the last one END
holds: `written`, it writes F; `source`, F is its prerequisite, which people
edit; `always`, it or a prerequisite of it is phony, so that it always runs.

    p: a.o
    \tcc -o p a.o
    a.o: a.c
    \tcc -c a.c

The recipe of `p` reads `a.o`, which that of `a.o` writes:
`way p a.o written p a.o`.
";

/// A cycle.
pub const CYCLE: &str = "\
cycle: each of these names needs the next one, and the last one the first

Where prerequisites form a cycle, the makefile is refused: see
`mkcheck explain 42`. `repair` tells of a cycle where each name has the next
one as a prerequisite, or its recipe reads what that of the next one writes.
No lines mend this: let one of these recipes read less, or write less.
";

/// `tried LINE`.
pub const TRIED: &str = "\
tried: a line that doesn't mend the makefile

`tried LINE`, which `repair` prints: with these lines `check` still says no,
or refuses the makefile. What it says then follows. Nothing else is known
that could mend the makefile.
";

/// What `since` prints.
pub const SINCE: &str = "\
since: the files of an old build to remove before the new one

After a change of the makefile a file may be newer than all that it is made
from, and yet be made by other commands. `mkcheck since DIR -b BOOK` prints
the files to remove: what dropped recipes wrote, and what a recipe writes whose
files can't stay, such as one that is new, has other commands, writes or reads
other files than it did, or read the makefile. DIR holds what the build in this
folder was made from, as `mkcheck-record --keep DIR` writes it.

    mkcheck since DIR -b BOOK > old && xargs -d '\\n' rm -f -- < old && make

Nothing is named, and standard error says why, where the new build has a
finding, the old one has another finding than races and stale reads, or one of
them is refused. Makes are right after the removal if all that recipes wrote
is the old build's, from a clean start or after such a removal before, its last
make made all its goals, and nobody changed what recipes wrote.
";

/// The text of the word, if it is one of these.
#[tactic(auto, unfolding(crate::specs::Texts::term_text))]
pub fn term_text(word: &str) -> Option<&'static str>
    ensures { option_map (λ text. text.now) result ≡ term_text word.now }
{
    match word {
        "yes" => Some(YES),
        "way" => Some(WAY),
        "cycle" => Some(CYCLE),
        "tried" => Some(TRIED),
        "since" => Some(SINCE),
        _ => None,
    }
}
