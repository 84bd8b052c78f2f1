//! What is looked up for a file.

ghost use Rattle.std.specs.Prelude.{◌≡◌, IfOk};
ghost use Rattle.mk_subject.specs.FileInfo.{known_by};
ghost use Rattle.mk_subject.specs.Writers.{numbers_at};

use crate::file_writers::FileWriters;
use crate::writers::{Writers, writers_at};
use mk_foot::Setting;
use mk_infer::RuleTable;
use mk_lines::BorrowedNames;
use std::alloc::{AllocError, Global};
use std::marker::Model;

/// What is looked up for a file, once.
#[derive(Drop)]
pub struct FileInfo {
    /// The numbers of the nodes that write it, in the serial order.
    pub writers: FileWriters,
    /// Whether it exists before any recipe runs.
    pub given: bool,
    /// Whether it is a source that edits may change.
    pub editable: bool,
    /// Whether it is given, phony, or passed over as missing when the makefile was read.
    pub taken: bool,
    /// The number of the node with its name; the count of nodes where there is none.
    pub number: usize,
}

impl Model for FileInfo {
    ghost use Rattle.mk_subject.specs.FileInfo as value;

    ghost Value = { value.FileInfo };

    ghost view = { λ k.
        record {
          writers = k.writers;
          given = k.given;
          editable = k.editable;
          taken = k.taken;
          number = k.number;
        } };
}

/// Where the facts about a file are looked up, and the allocator of what is looked up.
#[derive(Drop)]
pub struct Sources<'s, 't, 'a> {
    pub alloc: Global,
    pub table: &'s RuleTable<'t>,
    pub setting: &'a Setting,
    pub writers: &'s Writers<'a>,
    /// The names of the nodes, in the order of their numbers.
    pub names: &'s BorrowedNames<'a>,
}

/// Looks up all that a `FileInfo` holds for a file. The only error is out of memory.
pub fn known_of(sources: &Sources<'_, '_, '_>, file: &str) -> Result<FileInfo, AllocError>
    ensures { IfOk result (λ known. known ≡ known_by sources.now.table.now
        sources.now.setting.now (numbers_at sources.now.writers.now) sources.now.names.now
        file.now) }
{
    let setting = sources.setting;
    let given = setting.is_given(file);
    Ok(FileInfo {
        writers: FileWriters::of(sources.alloc, writers_at(sources.writers, file))?,
        given,
        editable: setting.is_editable(file),
        taken: given || sources.table.is_phony(file) || setting.is_passed_over(file),
        number: sources.names.number_of(file),
    })
}
