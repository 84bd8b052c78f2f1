//! Writes what a fault is about: names, a word that is none, or a word of the command line.

ghost use Rattle.std.specs.Prelude.{◌≡◌, IfOk};
ghost use Rattle.serde_json.specs.View.{view};
ghost use Rattle.mk_cert_text.specs.Writing.{names_value};
ghost use Rattle.mk_core_json.specs.FaultWords.{argument_at, argument_value, fault_argument, fault_names, fault_word, foot_names, infer_names, read_names, read_word, verify_names, word_value};
ghost use Rattle.mk_core_json.specs.FindingValue.{names_of};

use crate::comparing::files_value;
use crate::names::names_value;
use mk_cert::CertFault;
use mk_core::Fault;
use mk_find::Finding;
use mk_foot::FootFault;
use mk_graph::GraphFault;
use mk_infer::InferFault;
use mk_read::{Place, ReadFault};
use serde_json::{Value, json};
use std::alloc::{AllocError, Global};

/// Makes the JSON value of the names in the text of a fault of a makefile.
fn read_names_value(alloc: Global, fault: &ReadFault) -> Result<Value, AllocError>
    ensures { IfOk result (λ value. view value ≡ names_value (read_names fault.now)) }
{
    match fault {
        ReadFault::BadMakefileName(name)
        | ReadFault::TwoRecipes(_, name)
        | ReadFault::IncludeMissing(_, name)
        | ReadFault::ReadFailed(_, name)
        | ReadFault::NoMakefile(Some(name)) => names_value(alloc, &[name.as_str()]),
        _ => names_value(alloc, &[]),
    }
}

/// Makes the JSON value of the names in the text of a fault of goals, of their graph, or of
/// commands.
fn infer_names_value(alloc: Global, fault: &InferFault) -> Result<Value, AllocError>
    ensures { IfOk result (λ value. view value ≡ names_value (infer_names fault.now)) }
{
    match fault {
        InferFault::NoRule(name, _) => names_value(alloc, &[name.as_str()]),
        InferFault::Graph(GraphFault::Cycle(names), _) => files_value(alloc, names.as_slice()),
        _ => names_value(alloc, &[]),
    }
}

/// Makes the JSON value of the names in the text of a fault of footprints.
fn foot_names_value(alloc: Global, fault: &FootFault) -> Result<Value, AllocError>
    ensures { IfOk result (λ value. view value ≡ names_value (foot_names fault.now)) }
{
    match fault {
        FootFault::TwoRecords(name) | FootFault::SourceIsFixed(name) => {
            names_value(alloc, &[name.as_str()])
        }
        _ => names_value(alloc, &[]),
    }
}

/// Makes the JSON value of the names of a finding, in the order in which they are printed.
fn finding_names_value(alloc: Global, finding: &Finding) -> Result<Value, AllocError>
    ensures { IfOk result (λ value. view value ≡ names_value (names_of finding.now)) }
{
    match finding {
        Finding::NoRecord { recipe }
        | Finding::OtherCommands { recipe }
        | Finding::VaryingCommands { recipe }
        | Finding::NoTarget { recipe } => names_value(alloc, &[recipe.as_str()]),
        Finding::TwoWriters {
            first,
            second,
            file,
        } => names_value(alloc, &[first.as_str(), second.as_str(), file.as_str()]),
        Finding::GivenWritten { recipe, file }
        | Finding::OwnRead { recipe, file }
        | Finding::UnknownRead { recipe, file }
        | Finding::Stale { recipe, file } => {
            names_value(alloc, &[recipe.as_str(), file.as_str()])
        }
        Finding::Loose { name, writer } => { names_value(alloc, &[name.as_str(), writer.as_str()]) }
        Finding::Race {
            recipe,
            writer,
            file,
        } => names_value(alloc, &[recipe.as_str(), writer.as_str(), file.as_str()]),
        Finding::Selection { name, chosen } => {
            names_value(alloc, &[name.as_str(), chosen.as_str()])
        }
    }
}

/// Makes the JSON value of the names in the text of why a certificate isn't accepted.
fn verify_names_value(alloc: Global, fault: &CertFault) -> Result<Value, AllocError>
    ensures { IfOk result (λ value. view value ≡ names_value (verify_names fault.now)) }
{
    match fault {
        CertFault::NoWay { recipe, file } | CertFault::BadWay { recipe, file } => {
            names_value(alloc, &[recipe.as_str(), file.as_str()])
        }
        CertFault::Static(finding) => finding_names_value(alloc, finding),
        _ => names_value(alloc, &[]),
    }
}

/// Makes the JSON value of the names of targets and files in the text of a fault. The only error is
/// out of memory.
pub fn fault_names_value(alloc: Global, fault: &Fault) -> Result<Value, AllocError>
    ensures { IfOk result (λ value. view value ≡ names_value (fault_names fault.now)) }
{
    match fault {
        Fault::Read(fault) => read_names_value(alloc, fault),
        Fault::Infer(fault) => infer_names_value(alloc, fault),
        Fault::Foot(fault) => foot_names_value(alloc, fault),
        Fault::Verify(fault) => verify_names_value(alloc, fault),
        Fault::FileReadFailed(name) | Fault::NoFile(name) => {
            names_value(alloc, &[name.as_str()])
        }
        _ => names_value(alloc, &[]),
    }
}

/// Makes the JSON value of the word of a makefile that is no name; null where that isn't the fault.
fn read_word_value(alloc: Global, fault: &ReadFault) -> Result<Value, AllocError>
    ensures { IfOk result (λ value. view value ≡ word_value (read_word fault.now)) }
{
    match fault {
        ReadFault::BadName(_, word) | ReadFault::ArchiveMember(_, word) => {
            Ok(Value::String(String::from_utf8_lossy(alloc, word.as_bytes())?))
        }
        _ => Ok(Value::Null),
    }
}

/// Makes the JSON value of the word of the makefile that is no name; null where that isn't the
/// fault. U+FFFD stands for bytes that aren't UTF-8. The only error is out of memory.
pub fn fault_word_value(alloc: Global, fault: &Fault) -> Result<Value, AllocError>
    ensures { IfOk result (λ value. view value ≡ word_value (fault_word fault.now)) }
{
    match fault {
        Fault::Read(fault) => read_word_value(alloc, fault),
        _ => Ok(Value::Null),
    }
}

/// Makes the JSON value of the word of the command line at this place: of the words of this kind the
/// one with its number. Null where the place is a line of a file.
fn argument_value(alloc: Global, kind: &str, place: &Place) -> Result<Value, AllocError>
    ensures { IfOk result (λ value. view value ≡
        argument_value (argument_at kind.now place.now)) }
{
    if place.file.as_str() != kind {
        return Ok(Value::Null);
    }
    let number = place.line;
    json!(in alloc; {
        "kind": kind,
        "number": number
    })
}

/// Makes the JSON value of the word of the command line that has the fault, a goal or a macro
/// operand; null where none has it. The only error is out of memory.
pub fn fault_argument_value(alloc: Global, fault: &Fault) -> Result<Value, AllocError>
    ensures { IfOk result (λ value. view value ≡ argument_value (fault_argument fault.now)) }
{
    match fault {
        Fault::Infer(InferFault::BadGoal(place) | InferFault::GoalIsMember(place)) => {
            argument_value(alloc, "goal", place)
        }
        Fault::Read(ReadFault::Macro(place, _)) => argument_value(alloc, "operand", place),
        _ => Ok(Value::Null),
    }
}
