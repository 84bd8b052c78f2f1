//! Builds to judge, and what is asked of them.

ghost use Rattle.std.specs.Prelude.{◌≡◌, [], false, map, Ok, IfOk};
ghost use Rattle.mk_build.specs.Setting as build;
ghost use Rattle.mk_infer.specs.Selection.{Selects};

use crate::calls::{Call, answer};
use mk_foot::{Setting, read_book};
use mk_graph::Graph;
use mk_infer::{Choices, Exists, RuleTable};
use mk_infer_select::{Goals, goal_names, select};
use mk_lines::{Name, NameTable};
use mk_read::Makefile;
use mk_read_parse::{MemFiles, read_makefile};
use mk_subject::Subject;
use mk_subject::laws::selected_goals;
use std::alloc::{AllocError, Global};
use std::test::Fail;

/// A build: the text of its makefile, its goals, and the text of its footprint file.
#[derive(Clone, Copy)]
pub(crate) struct Build<'a> {
    pub makefile: &'a str,
    pub goals: &'a str,
    pub footprints: &'a str,
}

/// Files in memory: a `makefile` with this text.
fn files_of(alloc: Global, text: &str) -> Result<MemFiles, Fail> {
    let mut files = MemFiles::new(alloc);
    files.add("makefile", text.as_bytes())?;
    Ok(files)
}

/// The makefile of a text, with the default text before it.
fn makefile_of(alloc: Global, text: &str) -> Result<Makefile, Fail> {
    let mut files = files_of(alloc, text)?;
    Ok(read_makefile(alloc, &mut files, None, true, &[])?)
}

/// The words of a text as names.
fn names_of(alloc: Global, words: &str) -> Result<Vec<Name>, AllocError> {
    let mut names = Vec::new(alloc);
    for word in words.split_whitespace() {
        names.push(Name::new(alloc, word)?)?;
    }
    Ok(names)
}

/// The goals that these words name; the first target if there are none.
fn goals_of(alloc: Global, table: &RuleTable<'_>, words: &str) -> Result<Goals, Fail> {
    let names = names_of(alloc, words)?;
    Ok(goal_names(alloc, table, &names)?)
}

/// The build inputs by the footprints for these goals and by the makefile.
fn setting_of(
    alloc: Global,
    makefile: &Makefile,
    goals: &Goals,
    footprints: &str,
) -> Result<Setting, Fail> {
    let book = read_book(alloc, footprints.as_bytes(), goals.as_slice())?;
    let setting = Setting::new(alloc, book, makefile.texts(), makefile.passed_over())?;
    Ok(setting)
}

/// The files that exist by a setting, and `more` names.
fn there<'a>(setting: &'a Setting, more: &'a NameTable) -> Exists<'a>
    ensures any_leaf { result.any_leaf ≡ false }
    ensures sources { result.sources ≡ setting.now.sources }
    ensures fixed { result.fixed ≡ setting.now.fixed }
    ensures texts { result.texts ≡ setting.now.texts }
    ensures more { result.more ≡ more.now }
{
    Exists {
        any_leaf: false,
        sources: setting.sources(),
        fixed: setting.fixed(),
        texts: setting.texts(),
        more,
    }
}

/// The graph of the goals.
fn graph_of(
    alloc: Global,
    table: &RuleTable<'_>,
    there: &Exists<'_>,
    goals: &Goals,
) -> Result<Graph, Fail>
    ensures { IfOk result (λ graph.
        Selects table.now there.now (map (build.name graph) graph.goals) (Ok graph)) }
{
    selected_goals();
    let choices = Choices::new(alloc, table, there)?;
    let graph = select(alloc, &choices, goals)?;
    Ok(graph)
}

/// A graph, and what it was selected by.
#[derive(Drop)]
struct Selection<'s> {
    /// The makefile.
    table: &'s RuleTable<'s>,
    /// The files that exist.
    there: Exists<'s>,
    /// The graph.
    graph: &'s Graph,
}

/// What a call returns for the build of a graph.
fn over_graph(
    alloc: Global,
    selection: Selection<'_>,
    setting: &Setting,
    call: &Call<'_>,
) -> Result<String, Fail>
    requires selected { Selects selection.table.now selection.there
        (map (build.name selection.graph.now) selection.graph.now.goals)
        (Ok selection.graph.now) }
    requires no_leaf { selection.there.any_leaf ≡ false }
    requires nothing_more { selection.there.more ≡ [] }
    requires sources { selection.there.sources ≡ setting.now.sources }
    requires fixed { selection.there.fixed ≡ setting.now.fixed }
    requires texts { selection.there.texts ≡ setting.now.texts }
{
    let Selection {
        table,
        there,
        graph,
    } = selection;
    let subject = Subject::new(alloc, table, there, graph, setting)?;
    answer(alloc, &subject, call)
}

/// What a call returns for the build of these goals with these build inputs.
fn over_setting(
    alloc: Global,
    table: &RuleTable<'_>,
    goals: &Goals,
    setting: &Setting,
    call: &Call<'_>,
) -> Result<String, Fail> {
    let more = NameTable::new(alloc, Vec::new(alloc))?;
    let graph = graph_of(alloc, table, &there(setting, &more), goals)?;
    let selection = Selection {
        table,
        there: there(setting, &more),
        graph: &graph,
    };
    over_graph(alloc, selection, setting, call)
}

/// What a call returns for a build, over its indexed makefile.
fn over_table(
    alloc: Global,
    table: &RuleTable<'_>,
    build: &Build<'_>,
    call: &Call<'_>,
) -> Result<String, Fail> {
    let goals = goals_of(alloc, table, build.goals)?;
    let setting = setting_of(alloc, table.makefile(), &goals, build.footprints)?;
    over_setting(alloc, table, &goals, &setting, call)
}

/// What a call returns for a build.
fn answer_to(alloc: Global, build: &Build<'_>, call: &Call<'_>) -> Result<String, Fail> {
    let makefile = makefile_of(alloc, build.makefile)?;
    let table = RuleTable::new(alloc, &makefile)?;
    over_table(alloc, &table, build, call)
}

/// Checks that a call returns `want` for a build. Another text is an error that shows both.
pub(crate) fn expect_answer(
    alloc: Global,
    build: &Build<'_>,
    call: &Call<'_>,
    want: &str,
) -> Result<(), Fail> {
    let got = answer_to(alloc, build, call)?;
    if got.as_str() == want {
        return Ok(());
    }
    Err(Fail::new(format_args!("returns\n{got}\nand not\n{want}")))
}
