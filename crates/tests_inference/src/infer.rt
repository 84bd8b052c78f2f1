//! Rows on inference rules, selection, goals and commands, over makefiles in memory.

use mk_graph::Graph;
use mk_infer::{
    ChoiceAndCommands, Choices, Commands, Exists, InferFault, RuleTable, choice,
    choice_and_commands, commands,
};
use mk_infer_select::{Goals, goal_names, select};
use mk_lines::{NameTable, Prefixes};
use mk_read::Makefile;
use mk_read_parse::{MemFiles, read_makefile};
use std::alloc::{AllocError, Global};
use std::process::Abort;
use std::test::Fail;
use tests_tables::{field, fields_of, names, unfolded};

/// Reads a makefile after the default text, with a macro operand.
fn makefile(alloc: Global, text: &[u8]) -> Result<Makefile, Fail> {
    let mut files = MemFiles::new(alloc);
    files.add("makefile", text)?;
    let operand = b"CC=cc".to_vec(alloc)?;
    Ok(read_makefile(alloc, &mut files, None, true, &[operand])?)
}

/// Returns the words of a text as a table of names.
fn table(alloc: Global, words: &str) -> Result<NameTable, AllocError> {
    NameTable::new(alloc, names(alloc, words)?)
}

/// Tables of the files that exist before a make.
#[derive(Drop)]
struct ThereTables {
    sources: NameTable,
    fixed: Prefixes,
    texts: NameTable,
    more: NameTable,
}

/// Makes tables of sources and fixed prefixes.
fn given(alloc: Global, sources: &str, fixed: &str) -> Result<(NameTable, Prefixes), AllocError> {
    let sources = table(alloc, sources)?;
    let fixed = Prefixes::new(alloc, names(alloc, fixed)?)?;
    Ok((sources, fixed))
}

/// Makes tables of the makefile texts, and of `m.c` as an extra name that counts as present.
fn others(alloc: Global) -> Result<(NameTable, NameTable), AllocError> {
    let texts = table(alloc, "makefile")?;
    let more = table(alloc, "m.c")?;
    Ok((texts, more))
}

/// Makes the tables of these sources and fixed prefixes.
fn tables(alloc: Global, sources: &str, fixed: &str) -> Result<ThereTables, AllocError> {
    let (texts, more) = others(alloc)?;
    let (sources, fixed) = given(alloc, sources, fixed)?;
    Ok(ThereTables {
        sources,
        fixed,
        texts,
        more,
    })
}

/// Borrows the tables.
fn exists(tables: &ThereTables, any_leaf: bool) -> Exists<'_> {
    Exists {
        any_leaf,
        sources: &tables.sources,
        fixed: &tables.fixed,
        texts: &tables.texts,
        more: &tables.more,
    }
}

/// Appends a byte, and then the names of the nodes with these numbers, each after a space.
fn add_group(
    out: &mut Vec<u8>,
    graph: &Graph,
    byte: u8,
    group: &[usize],
) -> Result<(), AllocError> {
    out.push(byte)?;
    for n in group {
        if let Some(node) = graph.nodes().get(*n) {
            out.push(b' ')?;
            out.extend_from_slice(node.name.as_str().as_bytes())?;
        }
    }
    Ok(())
}

/// Returns a line for each node: its name, `!` if it has a recipe, `*` if it is phony, and its
/// groups, each after `|`.
fn shown(alloc: Global, graph: &Graph) -> Result<Vec<u8>, AllocError> {
    let mut out = Vec::new(alloc);
    for node in graph.nodes() {
        out.extend_from_slice(node.name.as_str().as_bytes())?;
        if node.recipe {
            out.push(b'!')?;
        }
        if node.phony {
            out.push(b'*')?;
        }
        for group in node.groups.as_slice() {
            add_group(&mut out, graph, b'|', group)?;
        }
        out.push(b'\n')?;
    }
    Ok(out)
}

/// Returns the graph of the default goal as text, or the words of the fault.
fn graph_shown(
    alloc: Global,
    table: &RuleTable<'_>,
    exists: &Exists<'_>,
) -> Result<Vec<u8>, AllocError> {
    match selected(alloc, table, exists) {
        Ok(graph) => {
            let shown = shown(alloc, &graph);
            drop(graph);
            shown
        }
        Err(fault) => fault_words(alloc, fault),
    }
}

/// Returns the graph of these goals.
fn selected_of(
    alloc: Global,
    table: &RuleTable<'_>,
    exists: &Exists<'_>,
    goals: &Goals,
) -> Result<Graph, InferFault> {
    let choices = Choices::new(alloc, table, exists)?;
    let graph = select(alloc, &choices, goals);
    drop(choices);
    graph
}

/// Returns the graph of the default goal.
fn selected(
    alloc: Global,
    table: &RuleTable<'_>,
    exists: &Exists<'_>,
) -> Result<Graph, InferFault> {
    let goals = goal_names(alloc, table, &[])?;
    let graph = selected_of(alloc, table, exists, &goals);
    drop(goals);
    graph
}

/// Returns the number of a fault, with its line or its name.
fn fault_text(alloc: Global, fault: &InferFault) -> Result<String, AllocError> {
    match fault {
        InferFault::BadGoal(place) => format!(in alloc; "27 {}", place.line),
        InferFault::GoalIsMember(place) => format!(in alloc; "28 {}", place.line),
        InferFault::NoRule(name, _) => format!(in alloc; "41 {}", name.as_str()),
        InferFault::NoGoal => format!(in alloc; "44"),
        InferFault::InferencePrerequisites(place) => format!(in alloc; "45 {}", place.line),
        InferFault::Macro(place, _) => format!(in alloc; "macro {}", place.line),
        InferFault::Graph(_, _) => format!(in alloc; "graph"),
        InferFault::Memory => format!(in alloc; "memory"),
    }
}

/// Returns the words of a fault as bytes, and drops the fault.
fn fault_words(alloc: Global, fault: InferFault) -> Result<Vec<u8>, AllocError> {
    let text = fault_text(alloc, &fault);
    drop(fault);
    Ok(text?.into_bytes())
}

/// Returns commands, each after a newline, with `?` before them if they vary.
fn lines_text(alloc: Global, found: &Commands) -> Result<Vec<u8>, AllocError> {
    let mut out = Vec::new(alloc);
    if found.varying {
        out.push(b'?')?;
    }
    for line in &found.lines {
        out.push(b'\n')?;
        out.extend_from_slice(line)?;
    }
    Ok(out)
}

/// Returns the commands of a name, or the words of the fault.
fn told(alloc: Global, choices: &Choices<'_>, name: &str) -> Result<Vec<u8>, AllocError> {
    match commands(alloc, choices, name) {
        Ok(found) => {
            let lines = lines_text(alloc, &found);
            drop(found);
            lines
        }
        Err(fault) => fault_words(alloc, fault),
    }
}

/// Returns the inferred prerequisite of a name, or `-` if it has none.
fn choice_text(alloc: Global, choices: &Choices<'_>, name: &str) -> Result<Vec<u8>, AllocError> {
    choice(alloc, choices, name)?
        .unwrap_or("-")
        .as_bytes()
        .to_vec(alloc)
}

/// Returns the inferred prerequisite, or `-` if there is none, and the commands.
fn made_text(alloc: Global, made: &ChoiceAndCommands<'_>) -> Result<Vec<u8>, AllocError> {
    let mut out = made.choice.unwrap_or("-").as_bytes().to_vec(alloc)?;
    out.extend_from_slice(&lines_text(alloc, &made.commands)?)?;
    Ok(out)
}

/// Returns the inferred prerequisite and the commands of a name, or the words of the fault.
fn told_at_once(alloc: Global, choices: &Choices<'_>, name: &str) -> Result<Vec<u8>, AllocError> {
    match choice_and_commands(alloc, choices, name) {
        Ok(made) => {
            let text = made_text(alloc, &made);
            drop(made);
            text
        }
        Err(fault) => fault_words(alloc, fault),
    }
}

/// Returns what a row asks about a name.
fn asked(
    alloc: Global,
    choices: &Choices<'_>,
    what: &str,
    name: &str,
) -> Result<Vec<u8>, AllocError> {
    match what {
        "commands" => told(alloc, choices, name),
        "choice" => choice_text(alloc, choices, name),
        _ => told_at_once(alloc, choices, name),
    }
}

/// Returns what a row asks about a name of a table.
fn asked_of(
    alloc: Global,
    table: &RuleTable<'_>,
    exists: &Exists<'_>,
    what: &str,
    name: &str,
) -> Result<Vec<u8>, AllocError> {
    let choices = Choices::new(alloc, table, exists)?;
    let told = asked(alloc, &choices, what, name);
    drop(choices);
    told
}

/// Returns what the fields of a row ask about a table.
fn of_table(
    alloc: Global,
    table: &RuleTable<'_>,
    exists: &Exists<'_>,
    fields: &[&str],
) -> Result<Vec<u8>, AllocError> {
    match fields {
        [what, _, name] => asked_of(alloc, table, exists, what, name),
        _ => graph_shown(alloc, table, exists),
    }
}

/// Returns what the fields of a row ask about a makefile.
fn of_makefile(
    alloc: Global,
    makefile: &Makefile,
    exists: &Exists<'_>,
    fields: &[&str],
) -> Result<Vec<u8>, AllocError> {
    let table = RuleTable::new(alloc, makefile)?;
    let told = of_table(alloc, &table, exists, fields);
    drop(table);
    told
}

/// A makefile whose last line defines a macro that its commands use.
const OBJECT: &str = "d/a.o: b b¶→echo $* $< $^ $+ $(X)¶b.o:¶b.c:¶v: b¶→echo $?¶X = 2¶";

/// Returns the text of a row's makefile: the first of two fields, or else `OBJECT`.
fn text_of(alloc: Global, fields: &[&str]) -> Result<String, AllocError> {
    match fields {
        [text, _] => unfolded(alloc, text),
        _ => unfolded(alloc, OBJECT),
    }
}

/// Returns what the fields of a row ask about its makefile.
fn answer_of(alloc: Global, exists: &Exists<'_>, fields: &[&str]) -> Result<Vec<u8>, Fail> {
    let text = text_of(alloc, fields)?;
    let makefile = makefile(alloc, text.as_bytes())?;
    let told = of_makefile(alloc, &makefile, exists, fields);
    drop(makefile);
    Ok(told?)
}

/// Checks that an answer is the second field of a row.
fn see_answer(
    rt: &impl Abort,
    alloc: Global,
    answer: &[u8],
    fields: &[&str],
    row: &str,
) -> Result<(), AllocError> {
    let wanted = field(alloc, fields, 1)?;
    assert_eq!(rt; answer, wanted.as_bytes(), "at {row}");
    Ok(())
}

/// Checks that the fields of a row have their second field as answer.
fn expect_fields(
    rt: &impl Abort,
    alloc: Global,
    exists: &Exists<'_>,
    fields: &[&str],
    row: &str,
) -> Result<(), Fail> {
    let got = answer_of(alloc, exists, fields)?;
    Ok(see_answer(rt, alloc, &got, fields, row)?)
}

/// Checks a row.
fn expect_row(rt: &impl Abort, alloc: Global, exists: &Exists<'_>, row: &str) -> Result<(), Fail> {
    let fields = fields_of(alloc, row)?;
    expect_fields(rt, alloc, exists, &fields, row)
}

/// Checks each line of a table as a row.
fn expect_rows(
    rt: &impl Abort,
    alloc: Global,
    exists: &Exists<'_>,
    rows: &str,
) -> Result<(), Fail> {
    for row in rows.lines() {
        expect_row(rt, alloc, exists, row)?;
    }
    Ok(())
}

/// Checks a table of rows with these present files.
fn expect_there(
    rt: &impl Abort,
    alloc: Global,
    tables: &ThereTables,
    any_leaf: bool,
    rows: &str,
) -> Result<(), Fail> {
    let exists = exists(tables, any_leaf);
    expect_rows(rt, alloc, &exists, rows)
}

/// The names that are given, each set as words.
#[derive(Drop)]
struct GivenNames<'g> {
    /// The sources.
    sources: &'g str,
    /// The prefixes of fixed names.
    fixed: &'g str,
    /// Whether each name without a rule is given.
    any_leaf: bool,
}

/// Checks a table of rows where these names are given.
fn expect_given(
    rt: &impl Abort,
    alloc: Global,
    given: &GivenNames<'_>,
    rows: &str,
) -> Result<(), Fail> {
    let tables = tables(alloc, given.sources, given.fixed)?;
    let seen = expect_there(rt, alloc, &tables, given.any_leaf, rows);
    drop(tables);
    seen
}

/// Checks a table of rows without sources and fixed prefixes, where each name without a rule is
/// given.
fn expect_anywhere(rt: &impl Abort, alloc: Global, rows: &str) -> Result<(), Fail> {
    let given = GivenNames {
        sources: "",
        fixed: "",
        any_leaf: true,
    };
    expect_given(rt, alloc, &given, rows)
}

/// Makefiles after the default text, and the graphs of their default goals.
const GRAPHS: &str = r"p: a.o¶→$(CC) -o $@ $^¶a.o:¶a.c:‖p!| a.o¶a.o!| a.c¶a.c¶
.SUFFIXES: .s¶.s.o:¶→as -o $@ $<¶x.o:¶x.s:¶x.c:‖x.o!| x.c¶x.c¶
prog:¶prog.c:‖prog!| prog.c¶prog.c¶
.SUFFIXES: .w .y .z¶.z.o:¶→zz $<¶.y.o:¶→yy $<¶.w.o:¶→ww $<¶x.o:¶x.z:¶x.y:‖x.o!| x.y¶x.y¶
.SUFFIXES: .w .y .z¶.z.o:¶→zz $<¶.y.o:¶→yy $<¶.w.o:¶→ww $<¶x.o:¶x.q:‖x.o¶
m.o:‖m.o!| m.c¶m.c¶
n.o:‖n.o¶
a.c:¶a.c.sh:‖a.c¶
a.b.o:¶a.b.c:‖a.b.o!| a.b.c¶a.b.c¶
a.o:;¶a.c:‖a.o¶
a.o: a.c¶a.c:‖a.o!| a.c a.c¶a.c¶
.PHONY: a.o¶a.o:¶a.c:‖a.o*¶
p.o:¶p.y:¶.y.c:¶→yacc $<¶.SUFFIXES: .y‖p.o¶
a.o: b .WAIT c¶a.c:‖a.o!| a.c b| c¶a.c¶b¶c¶
a.o: .WAIT b¶a.c:‖a.o!| a.c b¶a.c¶b¶
.NOTPARALLEL:¶a.o: b c¶a.c:‖a.o!| a.c| b| c¶a.c¶b¶c¶
.c.o: .WAIT¶a:‖a¶
.c.o: x¶a:‖45 1
.c.o:¶→cc‖44
a: b¶b: a‖graph";

#[test]
fn selects_graphs(rt: HostRuntime) -> Result<(), Fail> {
    expect_anywhere(&rt, rt.alloc(), GRAPHS)
}

/// Makefiles and graphs as in `GRAPHS`, with `a.c` as the only source and `/usr/` as a fixed
/// prefix.
const GIVEN: &str = r"p: a.o‖p| a.o¶a.o!| a.c¶a.c¶
p: b.o‖41 b.o
p: m.o‖41 m.c
p: m.c‖41 m.c
p: a.c b.c‖41 b.c
p: makefile‖p| makefile¶makefile¶
p: /usr/a.o¶/usr/a.c:‖p| /usr/a.o¶/usr/a.o¶
.PHONY: q¶p: q‖p| q¶q*¶";

#[test]
fn minds_what_is_given(rt: HostRuntime) -> Result<(), Fail> {
    let given = GivenNames {
        sources: "a.c",
        fixed: "/usr/",
        any_leaf: false,
    };
    expect_given(&rt, rt.alloc(), &given, GIVEN)
}

/// What a row asks about a name of `OBJECT`, the answer, and the name.
const MADE: &str = r"commands‖¶echo d/a b b b b 2‖d/a.o
commands‖?¶echo ‖v
commands‖¶cc -O1 -c b.c‖b.o
choice‖b.c‖b.o
choice‖-‖b.c
both‖b.c¶cc -O1 -c b.c‖b.o
both‖-‖b.c
both‖-?¶echo ‖v";

#[test]
fn expands_commands(rt: HostRuntime) -> Result<(), Fail> {
    expect_anywhere(&rt, rt.alloc(), MADE)
}
