//! The files that a build starts from.

ghost use Rattle.std.specs.Prelude.{◌≡◌, ℕ, List, map, IfOk, IfSome};
ghost use Rattle.std.specs.Option.{option_copied};
ghost use Rattle.std.specs.String.{string_bytes};
ghost use Rattle.mk_lines.specs.Places.{place_in};
ghost use Rattle.mk_foot.specs.Names.{has_name, once, place_from};
ghost use Rattle.mk_foot.specs.Setting.{record_for, is_given, is_editable};

use crate::book::{Book, Record};
use crate::names::clones_of;
use mk_lines::{NamePlaces, NameTable, Prefixes};
use std::alloc::{AllocError, Global};
use std::marker::Model;

/// What a build starts from: a book, the makefile texts (the makefile and what it includes), and
/// the missing names that reading the makefile passed over. A contract sees lists of records and
/// names; `specs.Setting` defines what a recipe reads and writes by them.
#[derive(Drop)]
pub struct Setting {
    fixed: Prefixes,
    sources: NameTable,
    texts: NameTable,
    passed_over: NameTable,
    targets: NamePlaces,
    records: Vec<Record>,
}

impl Model for Setting {
    ghost use Rattle.std.specs.Prelude.{◌≡◌, List, ℕ, map};
    ghost use Rattle.mk_lines.specs.Places.{place_in};
    ghost use Rattle.mk_foot.specs.Names.{place_from};
    ghost use Rattle.mk_foot.specs.Setting as value;

    ghost Value = { value.Setting };

    ghost view = { λ s.
        record {
          records = s.records.items;
          sources = s.sources;
          texts = s.texts;
          fixed = s.fixed;
          passed_over = s.passed_over;
        } };

    ghost invariant = { λ s. (name : List ℕ) →
        place_in s.targets name ≡ place_from 0 (map (λ r. r.target) s.records.items) name };
}

/// Maps each target to the place of its first record.
fn targets_of(alloc: Global, records: &[Record]) -> Result<NamePlaces, AllocError>
    ensures { IfOk result (λ targets. (name : List ℕ) →
        place_in targets name ≡ place_from 0 (map (λ r. r.target) records.now) name) }
{
    let mut targets = NamePlaces::with_capacity(alloc, records.len())?;
    for (i, record) in records.iter().enumerate() {
        targets.note(alloc, record.target.as_str(), i)?;
    }
    Ok(targets)
}

fn copies_of(alloc: Global, names: &[String]) -> Result<NameTable, AllocError>
    ensures { IfOk result (λ table. table ≡ map string_bytes names.now) }
{
    NameTable::new(alloc, clones_of(alloc, names)?)
}

/// Copies both lists into tables.
fn tables_of(
    alloc: Global,
    texts: &[String],
    passed_over: &[String],
) -> Result<(NameTable, NameTable), AllocError>
    ensures texts { IfOk result (λ r. r.0 ≡ map string_bytes texts.now) }
    ensures passed_over { IfOk result (λ r. r.1 ≡ map string_bytes passed_over.now) }
{
    let texts = copies_of(alloc, texts)?;
    let passed_over = copies_of(alloc, passed_over)?;
    Ok((texts, passed_over))
}

/// Makes tables of the fixed prefixes and the sources.
fn places_of(
    alloc: Global,
    fixed: Vec<String>,
    sources: Vec<String>,
) -> Result<(Prefixes, NameTable), AllocError>
    ensures fixed { IfOk result (λ r. r.0 ≡ map string_bytes fixed.items) }
    ensures sources { IfOk result (λ r. r.1 ≡ map string_bytes sources.items) }
{
    let fixed = Prefixes::new(alloc, fixed)?;
    let sources = NameTable::new(alloc, sources)?;
    Ok((fixed, sources))
}

/// Makes a setting of a book and the tables of `tables_of`.
fn of_tables(
    alloc: Global,
    footprints: Book,
    tables: (NameTable, NameTable),
) -> Result<Setting, AllocError>
    ensures { IfOk result (λ setting. setting ≡
        record {
          records = footprints.records;
          sources = footprints.sources;
          texts = tables.0;
          fixed = footprints.fixed;
          passed_over = tables.1;
        }) }
{
    let targets = targets_of(alloc, &footprints.records)?;
    let Book {
        fixed,
        sources,
        records,
    } = footprints;
    let (fixed, sources) = places_of(alloc, fixed, sources)?;
    let (texts, passed_over) = tables;
    Ok(Setting {
        fixed,
        sources,
        texts,
        passed_over,
        targets,
        records,
    })
}

impl Setting {
    /// Makes the setting of a book, of the names of the makefile texts, and of the names that
    /// reading the makefile passed over. Both lists of names are copied. The only error is out of
    /// memory.
    pub fn new(
        alloc: Global,
        footprints: Book,
        texts: &[String],
        passed_over: &[String],
    ) -> Result<Setting, AllocError>
        ensures { IfOk result (λ setting. setting ≡
            record {
              records = footprints.records;
              sources = footprints.sources;
              texts = map string_bytes texts.now;
              fixed = footprints.fixed;
              passed_over = map string_bytes passed_over.now;
            }) }
    {
        let tables = tables_of(alloc, texts, passed_over)?;
        of_tables(alloc, footprints, tables)
    }

    /// Whether a file is given: a source, a file under a fixed prefix, or a makefile text. It
    /// allocates nothing.
    pub fn is_given(&self, name: &str) -> bool
        ensures { result ≡ is_given self.now name.now }
    {
        self.sources.contains(name) || self.fixed.begins_with_any(name) || self.texts.contains(name)
    }

    /// Whether a file may be edited between makes: a source that is no makefile text. It allocates
    /// nothing.
    pub fn is_editable(&self, name: &str) -> bool
        ensures { result ≡ is_editable self.now name.now }
    {
        self.sources.contains(name) && !self.texts.contains(name)
    }

    /// Returns the first record of a target. Its reads have no repeats. It allocates nothing.
    pub fn record_of(&self, name: &str) -> Option<&Record>
        ensures found { option_copied result ≡ record_for self.now.records name.now }
        ensures distinct { IfSome result (λ r. once r.now.reads ≡ r.now.reads) }
    {
        match self.targets.place(name) {
            Some(place) => {
                let first = &self.records[place];
                let _reads = &first.reads;
                Some(first)
            }
            None => None,
        }
    }

    /// Returns the sources, in the order of the book.
    pub fn sources(&self) -> &NameTable
        ensures { result.now ≡ self.now.sources }
    {
        &self.sources
    }

    /// Returns the fixed prefixes.
    pub fn fixed(&self) -> &Prefixes
        ensures { result.now ≡ self.now.fixed }
    {
        &self.fixed
    }

    /// Returns the names of the makefile texts.
    pub fn texts(&self) -> &NameTable
        ensures { result.now ≡ self.now.texts }
    {
        &self.texts
    }

    /// Whether reading the makefile passed over this name. It allocates nothing.
    pub fn is_passed_over(&self, name: &str) -> bool
        ensures { result ≡ has_name self.now.passed_over name.now }
    {
        self.passed_over.contains(name)
    }
}
