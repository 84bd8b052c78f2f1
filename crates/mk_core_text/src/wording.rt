//! The printed text of a fault.

ghost use Rattle.std.specs.Prelude.{◌≡◌, ◌∷◌, [], codes, map, IfOk, option_to_list};
ghost use Rattle.std.specs.Option.{option_map};
ghost use Rattle.mk_core_text.specs.FaultText.{certificate_fault_text, fault_text, fault_text_in, fault_words, foot_fault_text, graph_fault_text, infer_fault_text, kind_fault_text, line_fault_text, macro_fault_text, place_text, plan_fault_text, read_fault_text, refusal, refusal_with, step_fault_text, step_fault_text_in, step_fault_words, verify_fault_text};

use crate::fault::Fault;
use crate::refusal::{
    Form, Printer, no_memory, refusal_about, refusal_at, refusal_in, refusal_near, refusal_of,
    refusal_of_line, refusal_with,
};
use mk_cert::CertFault;
use mk_cert_text::CertTextFault;
use mk_foot::FootFault;
use mk_graph::GraphFault;
use mk_infer::InferFault;
use mk_lines::{LineFault, Name};
use mk_macros::MacroFault;
use mk_read::{KindFault, Place, ReadFault};
use mk_world::{PlanFault, StepFault};
use std::alloc::{AllocError, Global};

/// The bytes of the names.
fn spellings<'a>(alloc: Global, names: &'a [Name]) -> Result<Vec<&'a [u8]>, AllocError>
    ensures { IfOk result (λ words. map (λ word. word.now) words.items ≡ names.now) }
{
    let mut words = Vec::new(alloc);
    for name in names {
        words.push(name.as_str().as_bytes())?;
    }
    Ok(words)
}

/// The text of a fault of a text's lines.
fn line_fault_text(printer: Printer, file: &Name, fault: &LineFault) -> Result<Vec<u8>, AllocError>
    ensures { IfOk result (λ text. text.items ≡ line_fault_text printer.form file.now fault.now) }
{
    match fault {
        LineFault::NulByte(line) => refusal_in(printer, 1, "NulByte", file, *line),
        LineFault::LineTooLong(line) => refusal_in(printer, 2, "LineTooLong", file, *line),
        LineFault::TooManyLines(line) => refusal_in(printer, 3, "TooManyLines", file, *line),
        LineFault::Memory => no_memory(printer.alloc),
    }
}

/// The text of a fault of a macro.
fn macro_fault_text(
    printer: Printer,
    place: &Place,
    fault: &MacroFault,
) -> Result<Vec<u8>, AllocError>
    ensures { IfOk result (λ text. text.items ≡ macro_fault_text printer.form place.now fault.now) }
{
    match fault {
        MacroFault::BadMacroName => refusal_at(printer, 11, "BadMacroName", place),
        MacroFault::Recursive(name) => {
            refusal_of(printer, 12, "Recursive", place, name.as_bytes())
        }
        MacroFault::Unclosed => refusal_at(printer, 13, "Unclosed", place),
        MacroFault::TooManyReferences => refusal_at(printer, 14, "TooManyReferences", place),
        MacroFault::ValueTooLong => refusal_at(printer, 15, "ValueTooLong", place),
        MacroFault::LoneDollar => refusal_at(printer, 16, "LoneDollar", place),
        MacroFault::MemberMacro => refusal_at(printer, 17, "MemberMacro", place),
        MacroFault::Memory => no_memory(printer.alloc),
    }
}

/// The text of a fault of a line's kind.
fn kind_fault_text(
    printer: Printer,
    place: &Place,
    fault: &KindFault,
) -> Result<Vec<u8>, AllocError>
    ensures { IfOk result (λ text. text.items ≡ kind_fault_text printer.form place.now fault.now) }
{
    match fault {
        KindFault::ShellAssign => refusal_at(printer, 21, "ShellAssign", place),
        KindFault::ColonAssign => refusal_at(printer, 22, "ColonAssign", place),
        KindFault::DoubleColon => refusal_at(printer, 23, "DoubleColon", place),
        KindFault::TargetMacro => refusal_at(printer, 24, "TargetMacro", place),
        KindFault::NotALine => refusal_at(printer, 25, "NotALine", place),
        KindFault::Memory => no_memory(printer.alloc),
    }
}

/// The text of a failed read, with the place of the include line where there is one.
fn failed_read_text(
    printer: Printer,
    place: &Option<Place>,
    name: &Name,
) -> Result<Vec<u8>, AllocError>
    ensures { IfOk result (λ text. text.items ≡
        refusal printer.form 35 (codes "ReadFailed") (option_map place_text place.now)
        (name.now ∷ [])) }
{
    let name = name.as_str().as_bytes();
    match place {
        Some(place) => refusal_of(printer, 35, "ReadFailed", place, name),
        None => refusal_with(printer, 35, "ReadFailed", &[name]),
    }
}

/// The text for a makefile that doesn't exist.
fn no_makefile_text(printer: Printer, name: &Option<Name>) -> Result<Vec<u8>, AllocError>
    ensures { IfOk result (λ text. text.items ≡
        refusal_with printer.form 37 (codes "NoMakefile") (option_to_list name.now)) }
{
    match name {
        Some(name) => refusal_with(printer, 37, "NoMakefile", &[name.as_str().as_bytes()]),
        None => refusal_with(printer, 37, "NoMakefile", &[]),
    }
}

/// The text of a fault of a makefile.
#[tactic(auto, unfolding(crate::specs::FaultText::read_fault_text))]
fn read_fault_text(printer: Printer, fault: &ReadFault) -> Result<Vec<u8>, AllocError>
    ensures { IfOk result (λ text. text.items ≡ read_fault_text printer.form fault.now) }
{
    match fault {
        ReadFault::Line(file, fault) => line_fault_text(printer, file, fault),
        ReadFault::Macro(place, fault) => macro_fault_text(printer, place, fault),
        ReadFault::Kind(place, fault) => kind_fault_text(printer, place, fault),
        ReadFault::StrayCommand(place) => refusal_at(printer, 26, "StrayCommand", place),
        ReadFault::BadName(place, word) => {
            refusal_about(printer, 27, "BadName", place, word.as_bytes())
        }
        ReadFault::BadMakefileName(name) => {
            let word = name.as_str().as_bytes();
            refusal_with(printer, 27, "BadMakefileName", &[word])
        }
        ReadFault::ArchiveMember(place, word) => {
            refusal_about(printer, 28, "ArchiveMember", place, word.as_bytes())
        }
        ReadFault::UnknownSpecial(place) => refusal_at(printer, 29, "UnknownSpecial", place),
        ReadFault::SpecialShape(place) => refusal_at(printer, 30, "SpecialShape", place),
        ReadFault::TwoRecipes(place, target) => {
            let word = target.as_str().as_bytes();
            refusal_of(printer, 31, "TwoRecipes", place, word)
        }
        ReadFault::IncludeMissing(place, name) => {
            let word = name.as_str().as_bytes();
            refusal_of(printer, 32, "IncludeMissing", place, word)
        }
        ReadFault::IncludeDepth(place) => refusal_at(printer, 33, "IncludeDepth", place),
        ReadFault::IncludeEmpty(place) => refusal_at(printer, 34, "IncludeEmpty", place),
        ReadFault::ReadFailed(place, name) => failed_read_text(printer, place, name),
        ReadFault::TooManyFiles(place) => refusal_at(printer, 36, "TooManyFiles", place),
        ReadFault::NoMakefile(name) => no_makefile_text(printer, name),
        ReadFault::Memory => no_memory(printer.alloc),
    }
}

/// The text of a fault of a graph, which has this place, if any.
fn graph_fault_text(
    printer: Printer,
    place: &Option<Place>,
    fault: &GraphFault,
) -> Result<Vec<u8>, AllocError>
    ensures { IfOk result (λ text. text.items ≡ graph_fault_text printer.form place.now fault.now) }
{
    match fault {
        GraphFault::Cycle(names) => {
            let words = spellings(printer.alloc, names.as_slice())?;
            refusal_near(printer, 42, "Cycle", place, &words)
        }
        GraphFault::TooManyNodes => refusal_with(printer, 43, "TooManyNodes", &[]),
        GraphFault::Memory => no_memory(printer.alloc),
    }
}

/// The text of a fault of goals, of their graph, or of commands.
#[tactic(auto, unfolding(crate::specs::FaultText::infer_fault_text))]
fn infer_fault_text(printer: Printer, fault: &InferFault) -> Result<Vec<u8>, AllocError>
    ensures { IfOk result (λ text. text.items ≡ infer_fault_text printer.form fault.now) }
{
    match fault {
        InferFault::BadGoal(place) => refusal_at(printer, 27, "BadGoal", place),
        InferFault::GoalIsMember(place) => refusal_at(printer, 28, "GoalIsMember", place),
        InferFault::NoRule(name, place) => {
            refusal_near(printer, 41, "NoRule", place, &[name.as_str().as_bytes()])
        }
        InferFault::NoGoal => refusal_with(printer, 44, "NoGoal", &[]),
        InferFault::InferencePrerequisites(place) => {
            refusal_at(printer, 45, "InferencePrerequisites", place)
        }
        InferFault::Macro(place, fault) => macro_fault_text(printer, place, fault),
        InferFault::Graph(fault, place) => graph_fault_text(printer, place, fault),
        InferFault::Memory => no_memory(printer.alloc),
    }
}

/// The text of a fault of footprints.
#[tactic(auto, unfolding(crate::specs::FaultText::foot_fault_text))]
fn foot_fault_text(printer: Printer, fault: &FootFault) -> Result<Vec<u8>, AllocError>
    ensures { IfOk result (λ text. text.items ≡ foot_fault_text printer.form fault.now) }
{
    match fault {
        FootFault::NotJson => refusal_with(printer, 51, "NotJson", &[]),
        FootFault::Shape(key) => refusal_with(printer, 52, "Shape", &[key.as_str().as_bytes()]),
        FootFault::OtherFormat => refusal_with(printer, 53, "OtherFormat", &[]),
        FootFault::TwoRecords(name) => {
            refusal_with(printer, 54, "TwoRecords", &[name.as_str().as_bytes()])
        }
        FootFault::BadName(key) => {
            let word = key.as_str().as_bytes();
            refusal_with(printer, 55, "BadFootprintName", &[word])
        }
        FootFault::SourceIsFixed(name) => {
            let word = name.as_str().as_bytes();
            refusal_with(printer, 56, "SourceIsFixed", &[word])
        }
        FootFault::NoGroup => refusal_with(printer, 57, "NoGroup", &[]),
        FootFault::NoList => refusal_with(printer, 58, "NoList", &[]),
        FootFault::Memory => no_memory(printer.alloc),
    }
}

/// The text of a fault of a plan.
fn plan_fault_text(printer: Printer, fault: &PlanFault) -> Result<Vec<u8>, AllocError>
    ensures { IfOk result (λ text. text.items ≡ plan_fault_text printer.form fault.now) }
{
    match fault {
        PlanFault::Line(line) => refusal_of_line(printer, 69, "BadPlanLine", *line),
        PlanFault::Memory => no_memory(printer.alloc),
    }
}

/// The text of a fault of a certificate's text.
fn certificate_fault_text(printer: Printer, fault: &CertTextFault) -> Result<Vec<u8>, AllocError>
    ensures { IfOk result (λ text. text.items ≡ certificate_fault_text printer.form fault.now) }
{
    match fault {
        CertTextFault::NotJson => refusal_with(printer, 71, "CertificateNotJson", &[]),
        CertTextFault::Shape(key) => {
            let word = key.as_str().as_bytes();
            refusal_with(printer, 72, "CertificateShape", &[word])
        }
        CertTextFault::Memory => no_memory(printer.alloc),
    }
}

/// A refusal whose words are a recipe and a file.
fn refusal_of_read(
    printer: Printer,
    number: usize,
    name: &str,
    recipe: &Name,
    file: &Name,
) -> Result<Vec<u8>, AllocError>
    ensures { IfOk result (λ text. text.items ≡
        refusal_with printer.form number name.now (recipe.now ∷ file.now ∷ [])) }
{
    let words = [recipe.as_str().as_bytes(), file.as_str().as_bytes()];
    refusal_with(printer, number, name, &words)
}

/// The text of why a certificate isn't accepted.
fn verify_fault_text(printer: Printer, fault: &CertFault) -> Result<Vec<u8>, AllocError>
    ensures { IfOk result (λ text. text.items ≡ verify_fault_text printer.form fault.now) }
{
    match fault {
        CertFault::OtherGoals => refusal_with(printer, 73, "OtherGoals", &[]),
        CertFault::NoWay { recipe, file } => { refusal_of_read(printer, 74, "NoWay", recipe, file) }
        CertFault::BadWay { recipe, file } => {
            refusal_of_read(printer, 75, "BadWay", recipe, file)
        }
        CertFault::Static(finding) => {
            let words = format!(in printer.alloc; "{finding}")?;
            refusal_with(printer, 76, "Static", &[words.as_bytes()])
        }
        CertFault::Memory => no_memory(printer.alloc),
    }
}

/// The text of why a step refuses this line of a plan.
#[tactic(auto, unfolding(crate::specs::FaultText::step_fault_text_in))]
fn step_fault_text_in(
    printer: Printer,
    line: usize,
    fault: &StepFault,
) -> Result<Vec<u8>, AllocError>
    ensures { IfOk result (λ text. text.items ≡ step_fault_text_in printer.form line fault.now) }
{
    match fault {
        StepFault::ClockSpent => refusal_of_line(printer, 59, "ClockSpent", line),
        StepFault::OtherOutcome => refusal_of_line(printer, 60, "OtherOutcome", line),
        StepFault::NoMake => refusal_of_line(printer, 61, "NoMake", line),
        StepFault::MakeRuns => refusal_of_line(printer, 62, "MakeRuns", line),
        StepFault::NotReady => refusal_of_line(printer, 63, "NotReady", line),
        StepFault::NoJobFree => refusal_of_line(printer, 64, "NoJobFree", line),
        StepFault::OutOfDate => refusal_of_line(printer, 65, "OutOfDate", line),
        StepFault::NotRunning => refusal_of_line(printer, 66, "NotRunning", line),
        StepFault::NotInFootprint => refusal_of_line(printer, 67, "NotInFootprint", line),
        StepFault::NotAllDone => refusal_of_line(printer, 68, "NotAllDone", line),
        StepFault::PlanLine => refusal_of_line(printer, 69, "PlanLine", line),
        StepFault::NotEditable => refusal_of_line(printer, 70, "NotEditable", line),
        StepFault::NotAGoal => refusal_of_line(printer, 77, "NotAGoal", line),
        StepFault::NotLeftToRun => refusal_of_line(printer, 78, "NotLeftToRun", line),
        StepFault::Memory => no_memory(printer.alloc),
    }
}

/// The text of why a step refuses this line of a plan, as that of `fault_text`. The only error is
/// out of memory.
#[tactic(auto, unfolding(crate::specs::FaultText::step_fault_text))]
pub fn step_fault_text(alloc: Global, line: usize, fault: &StepFault) -> Result<Vec<u8>, AllocError>
    ensures { IfOk result (λ text. text.items ≡ step_fault_text line fault.now) }
{
    let printer = Printer {
        alloc,
        form: Form::Numbered,
    };
    step_fault_text_in(printer, line, fault)
}

/// The text in words of why a step refuses this line of a plan, as that of `fault_words`. The only
/// error is out of memory.
#[tactic(auto, unfolding(crate::specs::FaultText::step_fault_words))]
pub fn step_fault_words(
    alloc: Global,
    line: usize,
    fault: &StepFault,
) -> Result<Vec<u8>, AllocError>
    ensures { IfOk result (λ text. text.items ≡ step_fault_words line fault.now) }
{
    let printer = Printer {
        alloc,
        form: Form::InWords,
    };
    step_fault_text_in(printer, line, fault)
}

/// The text of a fault.
#[tactic(auto, unfolding(crate::specs::FaultText::fault_text_in))]
fn fault_text_in(printer: Printer, fault: &Fault) -> Result<Vec<u8>, AllocError>
    ensures { IfOk result (λ text. text.items ≡ fault_text_in printer.form fault.now) }
{
    match fault {
        Fault::Read(fault) => read_fault_text(printer, fault),
        Fault::Infer(fault) => infer_fault_text(printer, fault),
        Fault::Foot(fault) => foot_fault_text(printer, fault),
        Fault::Plan(fault) => plan_fault_text(printer, fault),
        Fault::Certificate(fault) => certificate_fault_text(printer, fault),
        Fault::Verify(fault) => verify_fault_text(printer, fault),
        Fault::FileReadFailed(name) => {
            let word = name.as_str().as_bytes();
            refusal_with(printer, 35, "FileReadFailed", &[word])
        }
        Fault::NoFile(name) => refusal_with(printer, 38, "NoFile", &[name.as_str().as_bytes()]),
        Fault::Memory => no_memory(printer.alloc),
    }
}

/// The text of a fault, without a newline: `refused`, the number, then the words; for out of memory
/// `want of memory`. The only error is out of memory.
#[tactic(auto, unfolding(crate::specs::FaultText::fault_text))]
pub fn fault_text(alloc: Global, fault: &Fault) -> Result<Vec<u8>, AllocError>
    ensures { IfOk result (λ text. text.items ≡ fault_text fault.now) }
{
    let printer = Printer {
        alloc,
        form: Form::Numbered,
    };
    fault_text_in(printer, fault)
}

/// The text of a fault in words, without a newline: its place, its name, its number, what it names,
/// and a sentence that says what is wrong and what to do; for out of memory `want of memory`. The
/// only error is out of memory.
#[tactic(auto, unfolding(crate::specs::FaultText::fault_words))]
pub fn fault_words(alloc: Global, fault: &Fault) -> Result<Vec<u8>, AllocError>
    ensures { IfOk result (λ text. text.items ≡ fault_words fault.now) }
{
    let printer = Printer {
        alloc,
        form: Form::InWords,
    };
    fault_text_in(printer, fault)
}
