//! Faults of a build that is read from a folder.

ghost use Rattle.std.specs.Prelude.{◌≡◌, IfOk};
ghost use Rattle.std.specs.Option.{option_map};
ghost use Rattle.mk_core_since.specs.Below.{name_below};
ghost use Rattle.mk_core_since.specs.InFolder.{fault_in, infer_fault_in, place_in, read_fault_in};

use crate::below::name_below;
use mk_core::{Fault, Name};
use mk_infer::InferFault;
use mk_read::{Place, ReadFault};
use std::alloc::{AllocError, Global};

/// The file's name as seen from outside of the folder.
fn file_in(alloc: Global, folder: &str, file: &Name) -> Result<Name, AllocError>
    ensures { IfOk result (λ full. full ≡ name_below folder.now file.now) }
{
    Ok(Name::from_string(name_below(alloc, folder, file.as_str())?))
}

/// The place with its file's name as seen from outside.
fn place_in(alloc: Global, folder: &str, place: &Place) -> Result<Place, AllocError>
    ensures { IfOk result (λ full. full ≡ place_in folder.now place.now) }
{
    Ok(Place {
        file: file_in(alloc, folder, &place.file)?,
        line: place.line,
    })
}

/// The place, if there is one, with its file's name as seen from outside.
fn optional_place_in(
    alloc: Global,
    folder: &str,
    place: &Option<Place>,
) -> Result<Option<Place>, AllocError>
    ensures { IfOk result (λ full. full ≡ option_map (place_in folder.now) place.now) }
{
    match place {
        Some(place) => Ok(Some(place_in(alloc, folder, place)?)),
        None => Ok(None),
    }
}

/// The name, if there is one, as seen from outside.
fn optional_file_in(
    alloc: Global,
    folder: &str,
    file: &Option<Name>,
) -> Result<Option<Name>, AllocError>
    ensures { IfOk result (λ full. full ≡ option_map (name_below folder.now) file.now) }
{
    match file {
        Some(file) => Ok(Some(file_in(alloc, folder, file)?)),
        None => Ok(None),
    }
}

/// The fault of a makefile with its files' names as seen from outside.
fn read_fault_in(alloc: Global, folder: &str, fault: ReadFault) -> Result<ReadFault, AllocError>
    ensures { IfOk result (λ full. full ≡ read_fault_in folder.now fault) }
{
    Ok(match fault {
        ReadFault::Line(file, fault) => ReadFault::Line(file_in(alloc, folder, &file)?, fault),
        ReadFault::Macro(place, fault) => {
            ReadFault::Macro(place_in(alloc, folder, &place)?, fault)
        }
        ReadFault::Kind(place, fault) => ReadFault::Kind(place_in(alloc, folder, &place)?, fault),
        ReadFault::StrayCommand(place) => {
            ReadFault::StrayCommand(place_in(alloc, folder, &place)?)
        }
        ReadFault::BadName(place, word) => {
            ReadFault::BadName(place_in(alloc, folder, &place)?, word)
        }
        ReadFault::BadMakefileName(name) => ReadFault::BadMakefileName(name),
        ReadFault::ArchiveMember(place, word) => {
            ReadFault::ArchiveMember(place_in(alloc, folder, &place)?, word)
        }
        ReadFault::UnknownSpecial(place) => {
            ReadFault::UnknownSpecial(place_in(alloc, folder, &place)?)
        }
        ReadFault::SpecialShape(place) => {
            ReadFault::SpecialShape(place_in(alloc, folder, &place)?)
        }
        ReadFault::TwoRecipes(place, target) => {
            ReadFault::TwoRecipes(place_in(alloc, folder, &place)?, target)
        }
        ReadFault::IncludeMissing(place, file) => ReadFault::IncludeMissing(
            place_in(alloc, folder, &place)?,
            file_in(alloc, folder, &file)?,
        ),
        ReadFault::IncludeDepth(place) => {
            ReadFault::IncludeDepth(place_in(alloc, folder, &place)?)
        }
        ReadFault::IncludeEmpty(place) => {
            ReadFault::IncludeEmpty(place_in(alloc, folder, &place)?)
        }
        ReadFault::ReadFailed(place, file) => ReadFault::ReadFailed(
            optional_place_in(alloc, folder, &place)?,
            file_in(alloc, folder, &file)?,
        ),
        ReadFault::TooManyFiles(place) => {
            ReadFault::TooManyFiles(place_in(alloc, folder, &place)?)
        }
        ReadFault::NoMakefile(file) => {
            ReadFault::NoMakefile(optional_file_in(alloc, folder, &file)?)
        }
        ReadFault::Memory => ReadFault::Memory,
    })
}

/// The fault of goals, graph or commands with its files' names as seen from outside.
fn infer_fault_in(alloc: Global, folder: &str, fault: InferFault) -> Result<InferFault, AllocError>
    ensures { IfOk result (λ full. full ≡ infer_fault_in folder.now fault) }
{
    Ok(match fault {
        InferFault::BadGoal(place) => InferFault::BadGoal(place_in(alloc, folder, &place)?),
        InferFault::GoalIsMember(place) => {
            InferFault::GoalIsMember(place_in(alloc, folder, &place)?)
        }
        InferFault::InferencePrerequisites(place) => {
            InferFault::InferencePrerequisites(place_in(alloc, folder, &place)?)
        }
        InferFault::Macro(place, fault) => {
            InferFault::Macro(place_in(alloc, folder, &place)?, fault)
        }
        InferFault::NoRule(name, place) => {
            InferFault::NoRule(name, optional_place_in(alloc, folder, &place)?)
        }
        InferFault::Graph(fault, place) => {
            InferFault::Graph(fault, optional_place_in(alloc, folder, &place)?)
        }
        fault => fault,
    })
}

/// The fault with its files' names as seen from outside of the folder. The only error is out of
/// memory.
pub fn fault_in(alloc: Global, folder: &str, fault: Fault) -> Result<Fault, AllocError>
    ensures { IfOk result (λ full. full ≡ fault_in folder.now fault) }
{
    Ok(match fault {
        Fault::Read(fault) => Fault::Read(read_fault_in(alloc, folder, fault)?),
        Fault::Infer(fault) => Fault::Infer(infer_fault_in(alloc, folder, fault)?),
        Fault::FileReadFailed(file) => Fault::FileReadFailed(file_in(alloc, folder, &file)?),
        Fault::NoFile(file) => Fault::NoFile(file_in(alloc, folder, &file)?),
        fault => fault,
    })
}
