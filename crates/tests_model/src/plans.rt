//! Plans, run in worlds.

use crate::graph_fixtures::{built, nodes_of, same};
use mk_foot::{Book, Setting, read_book};
use mk_graph::Graph;
use mk_world::{Plan, PlanFault, Run, StepFault, World, print_files, run_plan};
use mk_world_plan::read_plan;
use std::alloc::{AllocError, Global};
use std::process::Abort;
use std::test::Fail;
use tests_tables::{lines_of, rows};

/// A recipe that copies a source.
const COPY: &str = r#"{"format":1,"fixed":[],"sources":["a"],"records":[
{"target":"b","commands":["cp a b"],"reads":["a"],"writes":["b"]}]}"#;

/// Plans for this build, with a slash for each newline, and what is printed.
const COPY_ROWS: &str =
    "make 1/begin b/finish b/end/edit a/make 1/pass b => a 1 1/b 2 2/refused 65 line 7/a 3 3/
    b 2 2/
make 2/begin b/put b b 7/look b a/done b/end/edit a 5/make 1/run b/end/edit a 1/make 1/run b/end/
    make 1/begin b/put b b 9/look b a/done b => a 1 1/b 7 2/a 5 3/b 4 4/a 1 5/b 7 6/
    refused 60 line 19/a 1 5/b 9 7/
begin b => refused 61 line 1/a 1 1/
stop => refused 61 line 1/a 1 1/
end => refused 61 line 1/a 1 1/
edit b => refused 70 line 1/a 1 1/
make 1/pass a => refused 63 line 2/a 1 1/
make 1/look b a => refused 66 line 2/a 1 1/
make 1/put b b => refused 66 line 2/a 1 1/
make 1/done b => refused 66 line 2/a 1 1/
make 1/begin z => refused 69 line 2/a 1 1/
make 1/begin b/look b b => refused 67 line 3/a 1 1/
make 1/begin b/put b a => refused 67 line 3/a 1 1/
make 1/begin b/look b z => refused 69 line 3/a 1 1/
make 1/begin b/done b => refused 68 line 3/a 1 1/
make 1/begin b/begin b => refused 63 line 3/a 1 1/
make 1/begin b/stop => refused 68 line 3/a 1 1/
make 1/begin b/put b b 7/end => refused 68 line 4/a 1 1/b 7 2/
make 2/begin b/put b b 7/break b removed/stop/make 1/run b/end => a 1 1/b 3 3/plan ok/
make 1/begin b/break b/end => refused 68 line 4/a 1 1/
make 1/begin b/break b/begin b => refused 63 line 4/a 1 1/
make 1/begin b/put b b/break b => refused 78 line 4/a 1 1/b 2 2/
make 1/break b => refused 66 line 2/a 1 1/
break b removed => refused 61 line 1/a 1 1/
make 1/end => refused 68 line 2/a 1 1/
make 1/make 1 => refused 62 line 2/a 1 1/
make 1/edit a => refused 62 line 2/a 1 1/
make 1/edit z => refused 69 line 2/a 1 1/
make 1/make 1 z => refused 69 line 2/a 1 1/
make 1 a => refused 77 line 1/a 1 1/
make 1 b b/stop => plan ok/
make 4096 => plan ok/
edit a 0/make 1/run b/end => a 0 2/b 3 3/plan ok/
edit a 18446744073709551615/make 1/run b/end => a 18446744073709551615 2/b 3 3/plan ok/
edit a 007/make 1/run b/end => a 7 2/b 3 3/plan ok/
# a/  #b// \t/make 1 =>  plan ok/";

/// Texts that aren't plans, and what is printed.
const REFUSED_ROWS: &str = "make 0 => refused 69 line 1
make 4097 => refused 69 line 1
make => refused 69 line 1
make 1/begin b/fin => refused 69 line 3
frob => refused 69 line 1
# a//frob => refused 69 line 3
begin => refused 69 line 1
begin b b => refused 69 line 1
stop b => refused 69 line 1
break b remove => refused 69 line 1
break b b removed => refused 69 line 1
look b => refused 69 line 1
put b b 7 7 => refused 69 line 1
edit a 18446744073709551616 => refused 69 line 1
edit a +1 => refused 69 line 1
edit a 1a => refused 69 line 1
make -1 => refused 69 line 1";

/// Two recipes; the second copies what the first wrote.
const COPIES: &str = r#"{"format":1,"fixed":[],"sources":["a"],"records":[
{"target":"b","commands":["cp a b"],"reads":["a"],"writes":["b"]},
{"target":"c","commands":["cp b c"],"reads":["b"],"writes":["c"]}]}"#;

/// Plans for this build with the goals `c` and `b`.
const COPIES_ROWS: &str =
    "make 1 b/run b/end/edit a/make 1/run b/stop/make 1 c/pass b/run c/end => a 1 1/b 2 2/
    a 3 3/b 4 4/c 5 5/plan ok/
make 1 a => refused 77 line 1/a 1 1/
make 1/run c => refused 63 line 2/a 1 1/
make 1 c/run b/run c/run b => refused 63 line 4/a 1 1/b 2 2/c 3 3/";

/// Two recipes that read the same source.
pub const TWO: &str = r#"{"format":1,"fixed":[],"sources":["s"],"records":[
{"target":"p","commands":["p"],"reads":["s"],"writes":["p"]},
{"target":"q","commands":["q"],"reads":["s"],"writes":["q"]}]}"#;

/// Plans for this build.
const TWO_ROWS: &str =
    "make 2/begin p/begin q/look p s/look q s/put q q/put p p/done q/done p/end => p 3 3/q 2 2/
    s 1 1/plan ok/
make 1/begin p/begin q => refused 64 line 3/s 1 1/
make 1/begin p/finish p/begin q => plan ok/";

/// The number of a fault, 0 for out of memory.
fn number_of(fault: &StepFault) -> usize {
    match fault {
        StepFault::ClockSpent => 59,
        StepFault::OtherOutcome => 60,
        StepFault::NoMake => 61,
        StepFault::MakeRuns => 62,
        StepFault::NotReady => 63,
        StepFault::NoJobFree => 64,
        StepFault::OutOfDate => 65,
        StepFault::NotRunning => 66,
        StepFault::NotInFootprint => 67,
        StepFault::NotAllDone => 68,
        StepFault::PlanLine => 69,
        StepFault::NotEditable => 70,
        StepFault::NotAGoal => 77,
        StepFault::NotLeftToRun => 78,
        StepFault::Memory => 0,
    }
}

/// What a run prints: its text, and after a refusal the line and the files.
fn printed(alloc: Global, run: &Run, files: &str) -> Result<String, AllocError> {
    let text = run.text.as_str();
    match &run.refused {
        Some((line, fault)) => {
            let number = number_of(fault);
            format!(in alloc; "{text}refused {number} line {line}\n{files}")
        }
        None => format!(in alloc; "{text}plan ok\n"),
    }
}

/// What a run in a world prints.
fn printed_in(alloc: Global, world: &World, run: &Run) -> Result<String, AllocError> {
    let mut files = String::new(alloc);
    print_files(alloc, world, &mut files)?;
    printed(alloc, run, files.as_str())
}

/// What the run of a plan prints.
fn run_in(alloc: Global, world: &mut World, plan: &Plan) -> Result<String, AllocError> {
    let run = run_plan(alloc, world, plan)?;
    let text = printed_in(alloc, world, &run);
    drop(run);
    text
}

/// The same in a new world.
fn simulated(
    alloc: Global,
    graph: &Graph,
    setting: &Setting,
    plan: &Plan,
) -> Result<String, AllocError> {
    let mut world = World::new(alloc, graph, setting)?;
    let text = run_in(alloc, &mut world, plan);
    drop(world);
    text
}

/// The line at which a text isn't a plan.
fn line_of(alloc: Global, fault: PlanFault) -> Result<String, AllocError> {
    match fault {
        PlanFault::Line(line) => format!(in alloc; "refused 69 line {line}"),
        PlanFault::Memory => Err(AllocError),
    }
}

/// What the run of a text as a plan prints, or the line at which it isn't a plan.
fn ran(alloc: Global, graph: &Graph, setting: &Setting, plan: &[u8]) -> Result<String, AllocError> {
    match read_plan(alloc, plan) {
        Ok(plan) => {
            let text = simulated(alloc, graph, setting, &plan);
            drop(plan);
            text
        }
        Err(fault) => line_of(alloc, fault),
    }
}

/// Asserts that a plan prints what its row says.
fn see_row(
    rt: &impl Abort,
    alloc: Global,
    graph: &Graph,
    setting: &Setting,
    row: &str,
) -> Result<(), AllocError> {
    let (plan, want) = row.split_once(" => ").unwrap_or((row, ""));
    let plan = lines_of(alloc, plan)?;
    let got = ran(alloc, graph, setting, plan.as_bytes())?;
    let want = lines_of(alloc, want.trim_start())?;
    same(rt, got.as_str(), want.as_str(), row);
    Ok(())
}

/// Asserts that plans print what their rows say.
fn see_rows(
    rt: &impl Abort,
    alloc: Global,
    graph: &Graph,
    setting: &Setting,
    table: &str,
) -> Result<(), AllocError> {
    for row in &rows(alloc, table)? {
        see_row(rt, alloc, graph, setting, row)?;
    }
    Ok(())
}

/// Asserts that plans over a footprint file print what their rows say.
fn see_recorded(
    rt: &impl Abort,
    alloc: Global,
    graph: &Graph,
    footprints: Book,
    rows: &str,
) -> Result<(), AllocError> {
    let setting = Setting::new(alloc, footprints, &[], &[])?;
    let seen = see_rows(rt, alloc, graph, &setting, rows);
    drop(setting);
    seen
}

/// Asserts that plans over the text of a footprint file print what their rows say.
pub fn see_plans(
    rt: &impl Abort,
    alloc: Global,
    graph: &Graph,
    book: &str,
    rows: &str,
) -> Result<(), Fail> {
    let book = read_book(alloc, book.as_bytes(), &[])?;
    Ok(see_recorded(rt, alloc, graph, book, rows)?)
}

/// Nodes, goals, a footprint file, and rows of plans.
const PLANS: &[(&str, &[usize], &str, &str)] = &[
    ("b!:1 a", &[0], COPY, COPY_ROWS),
    ("b!:1 a", &[0], COPY, REFUSED_ROWS),
    ("c!:1 b!:2 a", &[0, 1], COPIES, COPIES_ROWS),
    ("all:12 p!:3 q!:3 s", &[0], TWO, TWO_ROWS),
];

/// Asserts that plans over these nodes, goals and footprint file print what their rows say.
fn see_built(
    rt: &impl Abort,
    alloc: Global,
    nodes: &str,
    goals: &[usize],
    plans: (&str, &str),
) -> Result<(), Fail> {
    let graph = built(rt, alloc, nodes_of(alloc, nodes)?, goals)?;
    let seen = see_plans(rt, alloc, &graph, plans.0, plans.1);
    drop(graph);
    seen
}

#[test]
fn plans_that_are_run(rt: HostRuntime) -> Result<(), Fail> {
    for &(nodes, goals, book, rows) in PLANS {
        see_built(&rt, rt.alloc(), nodes, goals, (book, rows))?;
    }
    Ok(())
}

/// The line at which a text isn't a plan, or `none`.
fn bad_line(alloc: Global, text: &[u8]) -> Result<String, AllocError> {
    match read_plan(alloc, text) {
        Ok(plan) => {
            drop(plan);
            String::from_str(alloc, "none")
        }
        Err(fault) => line_of(alloc, fault),
    }
}

/// The begin of a text, the number of comment lines after it, the end of the text, and the line at
/// which it isn't a plan: words that aren't UTF-8, and the greatest number of lines.
const TEXTS: &[(&[u8], usize, &[u8], &str)] = &[
    (b"begin b\nbegin \xff\n", 0, b"", "refused 69 line 2"),
    (b"# \xff\n\n", 0, b"", "none"),
    (b"", 65_536, b"", "none"),
    (b"", 65_536, b"#", "refused 69 line 65537"),
];

/// A text with this many comment lines between its begin and its end.
fn commented(alloc: Global, front: &[u8], count: usize, end: &[u8]) -> Result<Vec<u8>, AllocError> {
    let mut text = Vec::from_slice(alloc, front)?;
    for _ in 0..count {
        text.extend_from_slice(b"#\n")?;
    }
    text.extend_from_slice(end)?;
    Ok(text)
}

#[test]
fn texts_and_their_bad_lines(rt: HostRuntime) -> Result<(), Fail> {
    for &(front, count, end, want) in TEXTS {
        let text = commented(rt.alloc(), front, count, end)?;
        let got = bad_line(rt.alloc(), &text)?;
        same(&rt, got.as_str(), want, want);
    }
    Ok(())
}
