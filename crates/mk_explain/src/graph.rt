//! The texts of faults of the graph.

ghost use Rattle.std.specs.Prelude.{◌≡◌};
ghost use Rattle.std.specs.Option.{option_map};
ghost use Rattle.mk_explain.specs.Texts.{graph_text};

/// `NoRule` (41).
pub const NO_RULE: &str = "\
`refused 41 NAME`: nothing makes NAME, which is a goal or a prerequisite, and
it isn't given: by the footprints it is no source and under no fixed prefix,
and it is no text of the makefile. With `-w` the first rule line is shown that
has NAME as a prerequisite.

    p: a.o
    \tcc -o p a.o

No line makes `a.o`, and the footprints have no source `a.c`:
`refused 41 a.o`. Write a rule for the name, or record footprints with it;
perhaps a goal is misspelled.
";

/// `Cycle` (42).
pub const CYCLE: &str = "\
`refused 42 NAME...`: prerequisites form a cycle. The words are the names
along it, the first one repeated last. With `-w` the first rule line is shown
that closes it.

    a: b c
    c: d
    d: c a

This is `refused 42 c d c`. Remove the prerequisite that closes the cycle.
";

/// `TooManyNodes` (43).
pub const TOO_MANY_NODES: &str = "\
`refused 43`: the goals reach over 4,096 names, the goals included.

    $ { printf all:; seq -f ' n%g' 4096 | tr -d '\\n'; } > many.mk
    $ mkcheck graph -f many.mk
    refused 43

Give fewer goals at a time.
";

/// `NoGoal` (44).
pub const NO_GOAL: &str = "\
`refused 44`: no goal is given, and the makefile has no target for one.
Special targets and inference rules are none.

    CC = cc

Write a rule.
";

/// `InferencePrerequisites` (45).
pub const INFERENCE_PREREQUISITES: &str = "\
`refused 45 FILE:LINE`: an inference rule has prerequisites. The line is the
first such line.

    .c.o: all.h
    \tcc -c $<

Write them on a line that names the objects: `a.o b.o: all.h`.
";

/// The text of the fault with this number, if it is one of these.
#[tactic(auto, unfolding(crate::specs::Texts::graph_text))]
pub fn graph_text(number: u32) -> Option<&'static str>
    ensures { option_map (λ text. text.now) result ≡ graph_text number }
{
    match number {
        41 => Some(NO_RULE),
        42 => Some(CYCLE),
        43 => Some(TOO_MANY_NODES),
        44 => Some(NO_GOAL),
        45 => Some(INFERENCE_PREREQUISITES),
        _ => None,
    }
}
