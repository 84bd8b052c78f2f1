//! The faults, with their names and sentences.

ghost use Rattle.std.specs.Prelude.{◌≡◌, ◌==◌, map, IfOk};
ghost use Rattle.std.specs.List.{find, flat_map};
ghost use Rattle.std.specs.Fmt.{decimal};
ghost use Rattle.std.specs.Option.{option_map};
ghost use Rattle.std.specs.Str.{bytes_eq, str_eq_ignore_ascii_case};
ghost use Rattle.std.specs.String.{string_bytes};
ghost use Rattle.mk_explain.specs.Explain.{all_fault_lines, fault_line, fault_name, fault_sentence, fault_spelled, is_called, lookup, lookup_word, named_sentence, number_in, number_named};

use std::alloc::{AllocError, Global};

/// A fault: its number, its name, and a sentence.
type Row = (u32, &'static str, &'static str);

/// The number of each fault, its name, and a sentence. Where faults share a number, the first one
/// stands for all.
pub const FAULTS: [(u32, &str, &str); 66] = [
    (
        1,
        "NulByte",
        "a line holds a zero byte; save the file as UTF-8 text",
    ),
    (
        2,
        "LineTooLong",
        "a line is over 65,536 bytes; split it into several",
    ),
    (
        3,
        "TooManyLines",
        "a file has over 65,536 lines; move some into others",
    ),
    (
        11,
        "BadMacroName",
        "bad name, GNU function, `export`; operands take `=`, `::=`",
    ),
    (
        12,
        "Recursive",
        "a macro occurs inside its own value; write `+=` or `::=`",
    ),
    (13, "Unclosed", "a reference has no end; close its bracket"),
    (
        14,
        "TooManyReferences",
        "macros nest too deep or are used too often; use `::=`",
    ),
    (
        15,
        "ValueTooLong",
        "a value or a text is over 1,048,576 bytes; split it",
    ),
    (
        16,
        "LoneDollar",
        "a `$` begins no reference; write `$$` for the shell",
    ),
    (
        17,
        "MemberMacro",
        "`$%` names a member of an archive; name the archive",
    ),
    (
        21,
        "ShellAssign",
        "`!=` isn't supported; let the recipe's shell compute it",
    ),
    (22, "ColonAssign", "`:=` isn't supported; write `::=`"),
    (23, "DoubleColon", "a rule line has `::`; write one colon"),
    (
        24,
        "TargetMacro",
        "a rule line has `=`; use a macro of its own there",
    ),
    (
        25,
        "NotALine",
        "no rule, macro or include line, as `ifdef`; commands need a tab",
    ),
    (
        26,
        "StrayCommand",
        "a command line follows no rule; move it, or drop its tab",
    ),
    (
        27,
        "BadName",
        "a word is no file name; look for %, *, ./, |, &, quotes or CR LF",
    ),
    (
        27,
        "BadGoal",
        "a goal is no name, or is `.WAIT` or `-`; give another one",
    ),
    (
        27,
        "BadMakefileName",
        "the name for `-f` is `-` or no plain path; mend it",
    ),
    (
        28,
        "ArchiveMember",
        "members of archives aren't supported; name the archive",
    ),
    (
        28,
        "GoalIsMember",
        "a goal is a member of an archive; give the archive",
    ),
    (
        29,
        "UnknownSpecial",
        "this special target isn't taken; remove its line",
    ),
    (
        30,
        "SpecialShape",
        "a special target has too much on its line; move the rest",
    ),
    (
        31,
        "TwoRecipes",
        "a target has commands on two lines; keep those of one",
    ),
    (
        32,
        "IncludeMissing",
        "an included file is missing; mend its name",
    ),
    (
        33,
        "IncludeDepth",
        "include lines are nested too deep; use fewer levels",
    ),
    (
        34,
        "IncludeEmpty",
        "an include line names no file; remove the line",
    ),
    (
        35,
        "ReadFailed",
        "a file can't be read; give one that can be read",
    ),
    (
        35,
        "FileReadFailed",
        "a file of the command line can't be read; give another",
    ),
    (
        36,
        "TooManyFiles",
        "over 1,024 files are read; use fewer and longer files",
    ),
    (
        37,
        "NoMakefile",
        "there is no makefile; give its name and folder",
    ),
    (
        38,
        "NoFile",
        "a file of the command line doesn't exist; mend its name",
    ),
    (
        41,
        "NoRule",
        "no rule makes it and it is no source; mend it, or record again",
    ),
    (
        42,
        "Cycle",
        "prerequisites form a cycle; remove the one that closes it",
    ),
    (
        43,
        "TooManyNodes",
        "the goals reach over 4,096 names; give fewer goals",
    ),
    (44, "NoGoal", "there is no goal; write a rule"),
    (
        45,
        "InferencePrerequisites",
        "an inference rule has prerequisites; move them",
    ),
    (
        51,
        "NotJson",
        "the footprint file is no JSON value; record again",
    ),
    (
        52,
        "Shape",
        "the footprint file has another shape; record again",
    ),
    (
        53,
        "OtherFormat",
        "the footprints are of an unknown format; record again",
    ),
    (54, "TwoRecords", "a target has two records; record again"),
    (
        55,
        "BadFootprintName",
        "footprints have a name that is no path; record again",
    ),
    (
        56,
        "SourceIsFixed",
        "a source is under a fixed prefix; record again",
    ),
    (
        57,
        "NoGroup",
        "the footprints are of other goals; record with these",
    ),
    (
        58,
        "NoList",
        "the footprints lack a list that they name; record again",
    ),
    (
        59,
        "ClockSpent",
        "the clock has no stamp left; write fewer files",
    ),
    (
        60,
        "OtherOutcome",
        "a recipe saw the same and wrote otherwise; use `finish`",
    ),
    (61, "NoMake", "no make is in progress; write `make` first"),
    (
        62,
        "MakeRuns",
        "a make is in progress; write `end` or `stop` first",
    ),
    (
        63,
        "NotReady",
        "a target isn't ready; let its prerequisites be done first",
    ),
    (
        64,
        "NoJobFree",
        "all jobs are taken; allow more jobs, or write `done`",
    ),
    (
        65,
        "OutOfDate",
        "a recipe that must run is skipped; write `run`",
    ),
    (
        66,
        "NotRunning",
        "the target isn't running; write `begin` first",
    ),
    (
        67,
        "NotInFootprint",
        "the file isn't in the recipe's record; name one that is",
    ),
    (
        68,
        "NotAllDone",
        "something isn't done yet; write what is missing first",
    ),
    (
        69,
        "PlanLine",
        "a line of the plan is malformed or names nothing; mend it",
    ),
    (
        69,
        "BadPlanLine",
        "a line of the plan can't be parsed; write it as a step",
    ),
    (70, "NotEditable", "the file isn't editable; edit a source"),
    (
        77,
        "NotAGoal",
        "a target of `make` is no goal; give it as a goal",
    ),
    (
        78,
        "NotLeftToRun",
        "a broken recipe would not have to run; write `removed`",
    ),
    (
        71,
        "CertificateNotJson",
        "the certificate is no JSON; print a new one",
    ),
    (
        72,
        "CertificateShape",
        "the certificate has another shape; print a new one",
    ),
    (
        73,
        "OtherGoals",
        "the certificate is for other goals; give those",
    ),
    (74, "NoWay", "the certificate lacks a read; print a new one"),
    (
        75,
        "BadWay",
        "an entry of the certificate doesn't hold; print a new one",
    ),
    (
        76,
        "Static",
        "the build has a finding other than a stale read; run `check`",
    ),
];

/// The first row with this number.
fn row_of(rows: &[Row], number: u32) -> Option<&Row>
    ensures { option_map (λ row. row.now) result ≡ find (λ row. row.0 == number) rows.now }
{
    rows.iter().find(|row| row.0 == number)
}

/// The name in the first row with this number.
fn name_in(rows: &[Row], number: u32) -> Option<&'static str>
    ensures { option_map (λ name. name.now) result ≡
        lookup number (map (λ row. (row.0, row.1.now)) rows.now) }
{
    match row_of(rows, number) {
        Some(row) => Some(row.1),
        None => None,
    }
}

/// The sentence in the first row with this number.
fn sentence_in(rows: &[Row], number: u32) -> Option<&'static str>
    ensures { option_map (λ sentence. sentence.now) result ≡
        lookup number (map (λ row. (row.0, row.2.now)) rows.now) }
{
    match row_of(rows, number) {
        Some(row) => Some(row.2),
        None => None,
    }
}

/// The name of the fault with this number, if there is one.
#[tactic(auto, unfolding(crate::specs::Explain::fault_name))]
pub fn fault_name(number: u32) -> Option<&'static str>
    ensures { option_map (λ name. name.now) result ≡ fault_name number }
{
    name_in(&FAULTS, number)
}

/// For the fault with this number, if there is one: a sentence that says what is wrong and what to
/// do.
#[tactic(auto, unfolding(crate::specs::Explain::fault_sentence))]
pub fn fault_sentence(number: u32) -> Option<&'static str>
    ensures { option_map (λ sentence. sentence.now) result ≡ fault_sentence number }
{
    sentence_in(&FAULTS, number)
}

/// The first row with this name.
fn row_named<'a>(rows: &'a [Row], name: &str) -> Option<&'a Row>
    ensures { option_map (λ row. row.now) result ≡
        find (λ row. bytes_eq row.1.now name.now) rows.now }
{
    rows.iter().find(|row| row.1 == name)
}

/// The sentence in the first row with this name.
fn named_sentence_in(rows: &[Row], name: &str) -> Option<&'static str>
    ensures { option_map (λ sentence. sentence.now) result ≡
        lookup_word name.now (map (λ row. (row.1.now, row.2.now)) rows.now) }
{
    match row_named(rows, name) {
        Some(row) => Some(row.2),
        None => None,
    }
}

/// For the fault with this name, if there is one: a sentence that says what is wrong and what to
/// do.
#[tactic(auto, unfolding(crate::specs::Explain::named_sentence))]
pub fn named_sentence(name: &str) -> Option<&'static str>
    ensures { option_map (λ sentence. sentence.now) result ≡ named_sentence name.now }
{
    named_sentence_in(&FAULTS, name)
}

/// The first row whose name is this word but for the case of letters.
fn row_spelled<'a>(rows: &'a [Row], word: &str) -> Option<&'a Row>
    ensures { option_map (λ row. row.now) result ≡
        find (λ row. str_eq_ignore_ascii_case row.1.now word.now) rows.now }
{
    rows.iter().find(|row| row.1.eq_ignore_ascii_case(word))
}

/// The first name in these rows that is this word but for the case of letters.
fn spelled_in(rows: &[Row], word: &str) -> Option<&'static str>
    ensures { option_map (λ found. found.now) result ≡
        find (λ other. str_eq_ignore_ascii_case other word.now) (map (λ row. row.1.now) rows.now) }
{
    match row_spelled(rows, word) {
        Some(row) => Some(row.1),
        None => None,
    }
}

/// The name of the fault that is this word but for the case of letters, if there is one.
#[tactic(auto, unfolding(crate::specs::Explain::fault_spelled))]
pub fn fault_spelled(what: &str) -> Option<&'static str>
    ensures { option_map (λ name. name.now) result ≡ fault_spelled what.now }
{
    spelled_in(&FAULTS, what)
}

/// Whether this is the name of the fault, or its number in decimal.
fn is_called(alloc: Global, number: u32, name: &str, what: &str) -> Result<bool, AllocError>
    ensures { IfOk result (λ called. called ≡ is_called (number, name.now) what.now) }
{
    let digits = format!(in alloc; "{number}")?;
    Ok(digits.as_str() == what || name == what)
}

/// The number of the first row that is called so.
fn number_in(alloc: Global, rows: &[Row], what: &str) -> Result<Option<u32>, AllocError>
    ensures { IfOk result (λ number. number ≡
        number_in (map (λ row. (row.0, row.1.now)) rows.now) what.now) }
{
    for (number, name, _) in rows {
        if is_called(alloc, *number, name, what)? {
            return Ok(Some(*number));
        }
    }
    Ok(None)
}

/// The number of the first fault that has this name or, in decimal, this number.
#[tactic(auto, unfolding(crate::specs::Explain::number_named))]
pub fn number_named(alloc: Global, what: &str) -> Result<Option<u32>, AllocError>
    ensures { IfOk result (λ number. number ≡ number_named what.now) }
{
    number_in(alloc, &FAULTS, what)
}

/// A line for each fault of these rows.
fn fault_lines(alloc: Global, rows: &[Row]) -> Result<String, AllocError>
    ensures { IfOk result (λ text. string_bytes text ≡
        flat_map fault_line (map (λ row. (row.0, row.1.now, row.2.now)) rows.now)) }
{
    let mut text = String::new(alloc);
    for (number, name, sentence) in rows {
        let line = format!(in alloc; "{number} {name}: {sentence}\n")?;
        text.push_str(line.as_str())?;
    }
    Ok(text)
}

/// The line of each fault.
#[tactic(auto, unfolding(crate::specs::Explain::all_fault_lines))]
pub fn all_fault_lines(alloc: Global) -> Result<String, AllocError>
    ensures { IfOk result (λ text. string_bytes text ≡ all_fault_lines) }
{
    fault_lines(alloc, &FAULTS)
}
