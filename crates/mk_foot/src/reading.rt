//! Reads the book of a footprint file.

ghost use Rattle.std.specs.Prelude.{◌≡◌, true, ◌++◌, map, IfOk, OnOk, fold};
ghost use Rattle.std.specs.List.{flat_map};
ghost use Rattle.std.specs.String.{string_bytes};
ghost use Rattle.mk_foot.specs.Names.{with_name, once as all_once};
ghost use Rattle.mk_foot.specs.ReaderParts.{footprints_from, book_of_file};
ghost use Rattle.mk_foot.specs.Steps.{Gives};
ghost use Rattle.mk_foot.specs.Reading.{listed, record_of, book_from};

use crate::book::{Book, Record};
use crate::checks::{check_all, group_for};
use crate::fault::FootFault;
use crate::names::{copied, kept, once};
use crate::parts::{FootprintFile, RawRecord, SharedList};
use crate::shapes::read_footprints;
use json::{Reader, Scratch};
use mk_json::laws::whole_text;
use mk_json::{MAX_DEPTH, text_from_utf8};
use mk_lines::{BorrowedNames, Name, NameTable};
use std::alloc::{AllocError, Global};

/// Returns a table of the names of the shared lists.
fn list_names(alloc: Global, lists: &[SharedList]) -> Result<NameTable, AllocError>
    ensures { IfOk result (λ names. names ≡ map (λ list. list.name) lists.now) }
{
    let mut names = Vec::with_capacity(alloc, lists.len())?;
    for list in lists {
        names.push(list.name.clone()?)?;
    }
    NameTable::new(alloc, names)
}

/// Adds the names of the shared list with this name.
fn insert_list<'a>(
    set: &mut BorrowedNames<'a>,
    names: &NameTable,
    lists: &'a [SharedList],
    name: &str,
) -> Result<(), AllocError>
    requires { names.now ≡ map (λ list. list.name) lists.now }
    ensures { OnOk result (set.new ≡ fold with_name set.old (listed lists.now name.now)) }
{
    match names.place(name) {
        Some(place) => {
            let list = &lists[place];
            set.insert_all(&list.names)
        }
        None => Ok(()),
    }
}

/// Adds the names of the shared lists with these names.
fn insert_listed<'a>(
    set: &mut BorrowedNames<'a>,
    names: &NameTable,
    lists: &'a [SharedList],
    shared: &[String],
) -> Result<(), AllocError>
    requires { names.now ≡ map (λ list. list.name) lists.now }
    ensures { OnOk result (set.new ≡
        fold with_name set.old (flat_map (listed lists.now) (map string_bytes shared.now))) }
{
    for name in shared {
        insert_list(set, names, lists, name.as_str())?;
    }
    Ok(())
}

/// What a record says of its reads: its own, the names of its shared lists, and whether no name
/// stands twice among its own.
#[derive(Drop)]
struct RecordReads {
    own: Vec<String>,
    shared: Vec<String>,
    apart: bool,
}

/// Returns the files that a record reads, each once: its own, then those of its shared lists.
fn reads_of(
    alloc: Global,
    names: &NameTable,
    lists: &[SharedList],
    reads: RecordReads,
) -> Result<Vec<String>, AllocError>
    requires names { names.now ≡ map (λ list. list.name) lists.now }
    requires apart { reads.apart ≡ true →
        all_once (map string_bytes reads.own.items) ≡ map string_bytes reads.own.items }
    ensures { IfOk result (λ files. map string_bytes files.items ≡
        all_once (map string_bytes reads.own.items ++
        flat_map (listed lists.now) (map string_bytes reads.shared.items))) }
{
    let RecordReads { own, shared, apart } = reads;
    if shared.is_empty() {
        return kept(alloc, apart, own);
    }
    let mut set = BorrowedNames::with_capacity(alloc, own.len())?;
    set.insert_all(&own)?;
    insert_listed(&mut set, names, lists, &shared)?;
    copied(alloc, set.as_slice())
}

/// Converts a record of the file to one of the book.
#[tactic(auto, using(crate::proofs::OnceLaws::once_again))]
fn record_of(
    alloc: Global,
    names: &NameTable,
    lists: &[SharedList],
    entry: RawRecord,
) -> Result<Record, AllocError>
    requires { names.now ≡ map (λ list. list.name) lists.now }
    ensures { IfOk result (λ made. made ≡ record_of lists.now entry) }
{
    let RawRecord {
        target,
        commands,
        reads,
        writes,
        shared,
        plain: _,
        apart,
    } = entry;
    Ok(Record {
        target,
        commands,
        reads: reads_of(
            alloc,
            names,
            lists,
            RecordReads {
                own: reads,
                shared,
                apart,
            },
        )?,
        writes: kept(alloc, apart, writes)?,
    })
}

/// Converts the records of a group to those of the book.
fn records_of(
    alloc: Global,
    names: &NameTable,
    lists: &[SharedList],
    entries: Vec<RawRecord>,
) -> Result<Vec<Record>, AllocError>
    requires { names.now ≡ map (λ list. list.name) lists.now }
    ensures { IfOk result (λ records. records.items ≡ map (record_of lists.now) entries.items) }
{
    let mut records = Vec::with_capacity(alloc, entries.len())?;
    for entry in entries {
        records.push(record_of(alloc, names, lists, entry)?)?;
    }
    Ok(records)
}

/// Checks a footprint file and returns its book for the goals.
fn book_of(alloc: Global, file: FootprintFile, goals: &[Name]) -> Result<Book, FootFault>
    ensures { Gives (λ book. book) result (book_of_file goals.now file) }
{
    let names = list_names(alloc, &file.lists)?;
    check_all(alloc, &file, &names)?;
    let FootprintFile {
        fixed,
        sources,
        lists,
        groups,
    } = file;
    let group = group_for(goals, groups)?;
    Ok(Book {
        fixed: once(alloc, fixed)?,
        sources: once(alloc, sources)?,
        records: records_of(alloc, &names, &lists, group.records)?,
    })
}

/// Reads a footprint file into its parts.
#[tactic(auto, unfolding(crate::specs::ReaderParts::footprints_from))]
fn read_file(alloc: Global, bytes: &[u8]) -> Result<FootprintFile, FootFault>
    ensures { Gives (λ file. file) result (footprints_from bytes.now) }
{
    whole_text();
    let Some(text) = text_from_utf8(bytes) else {
        return Err(FootFault::NotJson);
    };
    let mut scratch = Scratch::new(alloc);
    let Ok(mut reader) = Reader::new(text, &mut scratch) else {
        return Err(FootFault::Memory);
    };
    let Ok(file) = read_footprints(alloc, &mut reader, MAX_DEPTH) else {
        return Err(FootFault::NotJson);
    };
    if reader.next().is_some() {
        return Err(FootFault::NotJson);
    }
    file
}

/// Reads a footprint file and returns its book for the goals of a build, or the first fault. On an
/// error nothing is returned.
///
/// A file of format 1 is a JSON object with exactly the keys `format` (1), `fixed`, `sources` and
/// `records`. In format 2 (`format` is 2) `lists` and `groups` replace `records`. The
/// book then has the records of the first group whose goals equal `goals`, and a record reads its
/// own files and then those of the shared lists that it names. All lists keep their order. Repeats
/// are dropped in `fixed`, `sources`, reads and writes, and kept in commands. If a key occurs
/// twice, its last value counts.
///
/// The checks come in this order:
///
/// 1. `NotJson` (51);
/// 2. `Shape` (52) and `OtherFormat` (53): the format, the keys of the object in the order of the
/// format's description, any other key, and then the same for each record, or for each group and
/// its records;
/// 3. `BadName` (55): `fixed`, `sources`, the shared lists by the bytes of their names, and then
/// for each group its goals and the target, reads and writes of each record;
/// 4. `TwoRecords` (54), `SourceIsFixed` (56), `NoList` (58), `NoGroup` (57).
///
/// `Memory` may come at any time. The file is read token by token, so memory use stays near the
/// size of the bytes and the book.
#[tactic(auto, unfolding(crate::specs::Reading::book_from))]
pub fn read_book(alloc: Global, bytes: &[u8], goals: &[Name]) -> Result<Book, FootFault>
    ensures { Gives (λ book. book) result (book_from goals.now bytes.now) }
{
    let file = read_file(alloc, bytes)?;
    book_of(alloc, file, goals)
}
