//! The number and the name of a fault, as its printed text has them.

ghost use Rattle.std.specs.Prelude.{◌≡◌};
ghost use Rattle.mk_core_json.specs.FaultNames.{certificate_name, fault_name, foot_name, graph_name, infer_name, kind_name, line_name, macro_name, plan_name, read_name, verify_name};

use mk_cert::CertFault;
use mk_cert_text::CertTextFault;
use mk_core::Fault;
use mk_foot::FootFault;
use mk_graph::GraphFault;
use mk_infer::InferFault;
use mk_lines::LineFault;
use mk_macros::MacroFault;
use mk_read::{KindFault, ReadFault};
use mk_world::PlanFault;

/// What stands for out of memory, which is no refusal.
const NO_NAME: (u32, &str) = (0, "");

/// The number and the name of a fault of a text's lines.
fn line_name(fault: &LineFault) -> (u32, &'static str)
    ensures number { result.0 ≡ (line_name fault.now).0 }
    ensures name { result.1.now ≡ (line_name fault.now).1 }
{
    match fault {
        LineFault::NulByte(_) => (1, "NulByte"),
        LineFault::LineTooLong(_) => (2, "LineTooLong"),
        LineFault::TooManyLines(_) => (3, "TooManyLines"),
        LineFault::Memory => NO_NAME,
    }
}

/// The number and the name of a fault of a macro.
fn macro_name(fault: &MacroFault) -> (u32, &'static str)
    ensures number { result.0 ≡ (macro_name fault.now).0 }
    ensures name { result.1.now ≡ (macro_name fault.now).1 }
{
    match fault {
        MacroFault::BadMacroName => (11, "BadMacroName"),
        MacroFault::Recursive(_) => (12, "Recursive"),
        MacroFault::Unclosed => (13, "Unclosed"),
        MacroFault::TooManyReferences => (14, "TooManyReferences"),
        MacroFault::ValueTooLong => (15, "ValueTooLong"),
        MacroFault::LoneDollar => (16, "LoneDollar"),
        MacroFault::MemberMacro => (17, "MemberMacro"),
        MacroFault::Memory => NO_NAME,
    }
}

/// The number and the name of a fault of a line's kind.
fn kind_name(fault: &KindFault) -> (u32, &'static str)
    ensures number { result.0 ≡ (kind_name fault.now).0 }
    ensures name { result.1.now ≡ (kind_name fault.now).1 }
{
    match fault {
        KindFault::ShellAssign => (21, "ShellAssign"),
        KindFault::ColonAssign => (22, "ColonAssign"),
        KindFault::DoubleColon => (23, "DoubleColon"),
        KindFault::TargetMacro => (24, "TargetMacro"),
        KindFault::NotALine => (25, "NotALine"),
        KindFault::Memory => NO_NAME,
    }
}

/// The number and the name of a fault of a makefile.
fn read_name(fault: &ReadFault) -> (u32, &'static str)
    ensures number { result.0 ≡ (read_name fault.now).0 }
    ensures name { result.1.now ≡ (read_name fault.now).1 }
{
    match fault {
        ReadFault::Line(_, fault) => line_name(fault),
        ReadFault::Macro(_, fault) => macro_name(fault),
        ReadFault::Kind(_, fault) => kind_name(fault),
        ReadFault::StrayCommand(_) => (26, "StrayCommand"),
        ReadFault::BadName(..) => (27, "BadName"),
        ReadFault::BadMakefileName(_) => (27, "BadMakefileName"),
        ReadFault::ArchiveMember(..) => (28, "ArchiveMember"),
        ReadFault::UnknownSpecial(_) => (29, "UnknownSpecial"),
        ReadFault::SpecialShape(_) => (30, "SpecialShape"),
        ReadFault::TwoRecipes(..) => (31, "TwoRecipes"),
        ReadFault::IncludeMissing(..) => (32, "IncludeMissing"),
        ReadFault::IncludeDepth(_) => (33, "IncludeDepth"),
        ReadFault::IncludeEmpty(_) => (34, "IncludeEmpty"),
        ReadFault::ReadFailed(..) => (35, "ReadFailed"),
        ReadFault::TooManyFiles(_) => (36, "TooManyFiles"),
        ReadFault::NoMakefile(_) => (37, "NoMakefile"),
        ReadFault::Memory => NO_NAME,
    }
}

/// The number and the name of a fault of a graph.
fn graph_name(fault: &GraphFault) -> (u32, &'static str)
    ensures number { result.0 ≡ (graph_name fault.now).0 }
    ensures name { result.1.now ≡ (graph_name fault.now).1 }
{
    match fault {
        GraphFault::Cycle(_) => (42, "Cycle"),
        GraphFault::TooManyNodes => (43, "TooManyNodes"),
        GraphFault::Memory => NO_NAME,
    }
}

/// The number and the name of a fault of goals, of their graph, or of commands.
fn infer_name(fault: &InferFault) -> (u32, &'static str)
    ensures number { result.0 ≡ (infer_name fault.now).0 }
    ensures name { result.1.now ≡ (infer_name fault.now).1 }
{
    match fault {
        InferFault::Macro(_, fault) => macro_name(fault),
        InferFault::Graph(fault, _) => graph_name(fault),
        InferFault::BadGoal(_) => (27, "BadGoal"),
        InferFault::GoalIsMember(_) => (28, "GoalIsMember"),
        InferFault::NoRule(_, _) => (41, "NoRule"),
        InferFault::NoGoal => (44, "NoGoal"),
        InferFault::InferencePrerequisites(_) => (45, "InferencePrerequisites"),
        InferFault::Memory => NO_NAME,
    }
}

/// The number and the name of a fault of footprints.
fn foot_name(fault: &FootFault) -> (u32, &'static str)
    ensures number { result.0 ≡ (foot_name fault.now).0 }
    ensures name { result.1.now ≡ (foot_name fault.now).1 }
{
    match fault {
        FootFault::NotJson => (51, "NotJson"),
        FootFault::Shape(_) => (52, "Shape"),
        FootFault::OtherFormat => (53, "OtherFormat"),
        FootFault::TwoRecords(_) => (54, "TwoRecords"),
        FootFault::BadName(_) => (55, "BadFootprintName"),
        FootFault::SourceIsFixed(_) => (56, "SourceIsFixed"),
        FootFault::NoGroup => (57, "NoGroup"),
        FootFault::NoList => (58, "NoList"),
        FootFault::Memory => NO_NAME,
    }
}

/// The number and the name of a fault of a plan.
fn plan_name(fault: &PlanFault) -> (u32, &'static str)
    ensures number { result.0 ≡ (plan_name fault.now).0 }
    ensures name { result.1.now ≡ (plan_name fault.now).1 }
{
    match fault {
        PlanFault::Line(_) => (69, "BadPlanLine"),
        PlanFault::Memory => NO_NAME,
    }
}

/// The number and the name of a fault of a certificate's text.
fn certificate_name(fault: &CertTextFault) -> (u32, &'static str)
    ensures number { result.0 ≡ (certificate_name fault.now).0 }
    ensures name { result.1.now ≡ (certificate_name fault.now).1 }
{
    match fault {
        CertTextFault::NotJson => (71, "CertificateNotJson"),
        CertTextFault::Shape(_) => (72, "CertificateShape"),
        CertTextFault::Memory => NO_NAME,
    }
}

/// The number and the name of why a certificate isn't accepted.
fn verify_name(fault: &CertFault) -> (u32, &'static str)
    ensures number { result.0 ≡ (verify_name fault.now).0 }
    ensures name { result.1.now ≡ (verify_name fault.now).1 }
{
    match fault {
        CertFault::OtherGoals => (73, "OtherGoals"),
        CertFault::NoWay { .. } => (74, "NoWay"),
        CertFault::BadWay { .. } => (75, "BadWay"),
        CertFault::Static(_) => (76, "Static"),
        CertFault::Memory => NO_NAME,
    }
}

/// The number and the name of a fault.
pub fn fault_name(fault: &Fault) -> (u32, &'static str)
    ensures number { result.0 ≡ (fault_name fault.now).0 }
    ensures name { result.1.now ≡ (fault_name fault.now).1 }
{
    match fault {
        Fault::Read(fault) => read_name(fault),
        Fault::Infer(fault) => infer_name(fault),
        Fault::Foot(fault) => foot_name(fault),
        Fault::Plan(fault) => plan_name(fault),
        Fault::Certificate(fault) => certificate_name(fault),
        Fault::Verify(fault) => verify_name(fault),
        Fault::FileReadFailed(_) => (35, "FileReadFailed"),
        Fault::NoFile(_) => (38, "NoFile"),
        Fault::Memory => NO_NAME,
    }
}
