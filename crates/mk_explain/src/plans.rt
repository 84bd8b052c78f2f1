//! The texts of faults of plans.

ghost use Rattle.std.specs.Prelude.{◌≡◌};
ghost use Rattle.std.specs.Option.{option_map};
ghost use Rattle.mk_explain.specs.Texts.{plans_text};

/// `ClockSpent` (59).
pub const CLOCK_SPENT: &str = "\
`refused 59 line N`: a file is to be written, and the clock has no stamp left.
No plan has enough lines to write so often.
";

/// `OtherOutcome` (60).
pub const OTHER_OUTCOME: &str = "\
`refused 60 line N`: what a recipe wrote differs from what it wrote when it
saw the same.

    edit a 1
    make 1
    begin b
    look b a
    put b b 7
    done b

`b` was made from an `a` with content 1 before, and got another content. Let
the recipe write what it wrote before, as `finish` does; one that doesn't is
no function of what it reads.
";

/// `NoMake` (61).
pub const NO_MAKE: &str = "\
`refused 61 line N`: the line is for a make, and no make is in progress.

    begin b

Write `make` first.
";

/// `MakeRuns` (62).
pub const MAKE_RUNS: &str = "\
`refused 62 line N`: the line begins a make or edits a file, and a make is in
progress.

    make 1
    edit a

Write `end` or `stop` first.
";

/// `NotReady` (63).
pub const NOT_READY: &str = "\
`refused 63 line N`: the target isn't ready, or it is to begin and has no
recipe. A target is ready if the make wants it, it is neither done nor
running, and all its prerequisites are done.

    make 1
    begin p

Write the lines of its prerequisites first.
";

/// `NoJobFree` (64).
pub const NO_JOB_FREE: &str = "\
`refused 64 line N`: a recipe is to begin, and as many run as the make has
jobs.

    make 1
    begin b
    begin c

Give `make` more jobs, or write `done` before.
";

/// `OutOfDate` (65).
pub const OUT_OF_DATE: &str = "\
`refused 65 line N`: the target is to be skipped, and its recipe must run:
it is phony or doesn't exist, or a prerequisite is phony or newer.

    make 1
    pass b

Write `run` in place of `pass`.
";

/// `NotRunning` (66).
pub const NOT_RUNNING: &str = "\
`refused 66 line N`: a recipe is to look at a file, to write one or to end,
and it isn't running.

    make 1
    look b a

Write `begin` first.
";

/// `NotInFootprint` (67).
pub const NOT_IN_FOOTPRINT: &str = "\
`refused 67 line N`: the file of `look` isn't among those that the recipe
reads by its record, or that of `put` isn't among those that it writes.

    make 1
    begin b
    look b c

Name a file of its record.
";

/// `NotAllDone` (68).
pub const NOT_ALL_DONE: &str = "\
`refused 68 line N`: a recipe is to end before all its looks and puts, a make
is to end before all its goals are done, or it is to end or stop while a
recipe runs.

    make 1
    begin b
    look b a
    done b

Write `finish` in place of `done`, or the lines that are missing.
";

/// `PlanLine` (69).
pub const PLAN_LINE: &str = "\
`refused 69 line N`: a line of the plan is malformed, or is the 65,537th, and
nothing is run (`BadPlanLine`); or a name in it is no node, or no file of
the world.

    make 0

A make has 1 to 4,096 jobs. The lines of plans begin with `make`, `begin`,
`look`, `put`, `done`, `break`, `finish`, `run`, `pass`, `end`, `stop` or
`edit`.
";

/// `NotEditable` (70).
pub const NOT_EDITABLE: &str = "\
`refused 70 line N`: the file isn't editable: it is no source, or it is a text
of the makefile.

    edit b

Edit a source.
";

/// `NotAGoal` (77).
pub const NOT_A_GOAL: &str = "\
`refused 77 line N`: a target of `make` is no goal.

    make 1 b

Name a goal of the command line, or give the target as a goal there.
";

/// `NotLeftToRun` (78).
pub const NOT_LEFT_TO_RUN: &str = "\
`refused 78 line N`: a recipe is to break off, and would not have to run
again: its target isn't removed and it need not run, or the target that is
removed isn't among the files that it writes by its record.

    make 1
    run b
    stop
    make 1
    begin b
    break b

Write `break b removed`, or `finish b`.
";

/// The text of the fault with this number, if it is one of these.
#[tactic(auto, unfolding(crate::specs::Texts::plans_text))]
pub fn plans_text(number: u32) -> Option<&'static str>
    ensures { option_map (λ text. text.now) result ≡ plans_text number }
{
    match number {
        59 => Some(CLOCK_SPENT),
        60 => Some(OTHER_OUTCOME),
        61 => Some(NO_MAKE),
        62 => Some(MAKE_RUNS),
        63 => Some(NOT_READY),
        64 => Some(NO_JOB_FREE),
        65 => Some(OUT_OF_DATE),
        66 => Some(NOT_RUNNING),
        67 => Some(NOT_IN_FOOTPRINT),
        68 => Some(NOT_ALL_DONE),
        69 => Some(PLAN_LINE),
        70 => Some(NOT_EDITABLE),
        77 => Some(NOT_A_GOAL),
        78 => Some(NOT_LEFT_TO_RUN),
        _ => None,
    }
}
