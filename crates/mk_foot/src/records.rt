//! Reads the records of a footprint file from JSON tokens.

ghost use Rattle.std.specs.Prelude.{◌≡◌, ◌&&◌, true, map, is_some, ok_or, IfOk};
ghost use Rattle.std.specs.List.{list_all};
ghost use Rattle.std.specs.String.{string_bytes};
ghost use Rattle.mk_lines.specs.Paths.{is_plain_path as is_plain};
ghost use Rattle.serde_json.specs.Data.{Data, object, Members, no_members, put};
ghost use Rattle.serde_json.specs.Find.{as_object};
ghost use Rattle.mk_json.specs.Kinds.{elements_of};
ghost use Rattle.mk_json.specs.Tokens.{Reads, ReadsItems, ReadsMembers};
ghost use Rattle.mk_foot.specs.declared.fault.FootFault.TheVariants.{Shape};
ghost use Rattle.mk_foot.specs.declared.format.Format.{Format};
ghost use Rattle.mk_foot.specs.declared.key.Key.TheVariants as keys;
ghost use Rattle.mk_foot.specs.FootprintFile.{entry_in, shared_in};
ghost use Rattle.mk_foot.specs.Keys.{spelling};
ghost use Rattle.mk_foot.specs.Names.{once};
ghost use Rattle.mk_foot.specs.ReaderParts.{GivesTexts, IsOfEntry, AreEach};
ghost use Rattle.mk_foot.specs.Steps.{Gives, each};

use crate::checks::are_paths;
use crate::fault::FootFault;
use crate::fields::{Texts, read_text, read_texts, with_next};
use crate::format::Format;
use crate::key::Key;
use crate::names::are_distinct;
use crate::parts::RawRecord;
use json::{Invalid, Reader};
use mk_json::laws::{
    items_are_read_in_order, last_value_counts, members_are_read_in_order, values_take_tokens,
};
use mk_json::{enter_array, enter_object, skip_value};
use mk_lines::is_plain_text_path;
use std::alloc::{AllocError, Global};

/// What the members of a record that were read so far give: for each key its last value or a fault,
/// and whether there is no other key.
#[derive(Drop)]
struct EntryParts {
    alloc: Global,
    target: Result<String, FootFault>,
    commands: Texts,
    reads: Texts,
    writes: Texts,
    shared: Texts,
    alone: bool,
}

/// The shared lists of a record without members: none in format 1, a missing key in format 2.
#[tactic(auto, unfolding(crate::specs::FootprintFile::shared_in, crate::specs::Fields::texts_at))]
fn no_shared(alloc: Global, format: Format) -> Texts
    ensures { GivesTexts result (shared_in format (object no_members)) }
{
    match format {
        Format::One => Ok(Vec::new(alloc)),
        Format::Two => Err(FootFault::Shape(Key::Shared)),
    }
}

/// The parts of a record without members.
fn no_entry_parts(alloc: Global, format: Format) -> EntryParts
    ensures { IsOfEntry format result (object no_members) }
{
    let shared = no_shared(alloc, format);
    EntryParts {
        alloc,
        target: Err(FootFault::Shape(Key::Target)),
        commands: Err(FootFault::Shape(Key::Commands)),
        reads: Err(FootFault::Shape(Key::Reads)),
        writes: Err(FootFault::Shape(Key::Writes)),
        shared,
        alone: true,
    }
}

/// Reads the value under `shared`, which is an unknown key in format 1.
fn read_shared(
    format: Format,
    parts: &mut EntryParts,
    reader: &mut Reader<'_>,
    depth: usize,
) -> Result<(), Invalid>
    ensures { Reads (λ _ value. (members : Members) →
        IsOfEntry format parts.old (object members) →
        IsOfEntry format parts.new (object (put (spelling keys.Shared) value members)))
        depth reader.old result reader.new }
{
    last_value_counts();
    match format {
        Format::One => {
            skip_value(reader, depth)?;
            parts.alone = false;
            Ok(())
        }
        Format::Two => {
            parts.shared = read_texts(parts.alloc, Key::Shared, reader, depth)?;
            Ok(())
        }
    }
}

/// Reads the value under a key of a record.
fn read_entry_part(
    format: Format,
    key: &str,
    parts: &mut EntryParts,
    reader: &mut Reader<'_>,
    depth: usize,
) -> Result<(), Invalid>
    ensures { Reads (λ _ value. (members : Members) →
        IsOfEntry format parts.old (object members) →
        IsOfEntry format parts.new (object (put key.now value members)))
        depth reader.old result reader.new }
{
    last_value_counts();
    match key {
        "target" => {
            parts.target = read_text(parts.alloc, Key::Target, reader, depth)?;
            Ok(())
        }
        "commands" => {
            parts.commands = read_texts(parts.alloc, Key::Commands, reader, depth)?;
            Ok(())
        }
        "reads" => {
            parts.reads = read_texts(parts.alloc, Key::Reads, reader, depth)?;
            Ok(())
        }
        "writes" => {
            parts.writes = read_texts(parts.alloc, Key::Writes, reader, depth)?;
            Ok(())
        }
        "shared" => read_shared(format, parts, reader, depth),
        _ => {
            skip_value(reader, depth)?;
            parts.alone = false;
            Ok(())
        }
    }
}

/// Reads the members of a record whose brace was read, into the parts of a record without members.
fn read_members(
    format: Format,
    parts: &mut EntryParts,
    reader: &mut Reader<'_>,
    depth: usize,
) -> Result<(), Invalid>
    requires { IsOfEntry format parts.old (object no_members) }
    ensures { ReadsMembers (λ _ members. IsOfEntry format parts.new (object members))
        depth reader.old result reader.new }
{
    members_are_read_in_order();
    values_take_tokens();
    'members: while let Some(key) = reader.next_key()? {
        read_entry_part(format, key, parts, reader, depth)?;
    }
    Ok(())
}

/// Reads the members of a record whose brace was read.
fn read_entry_parts(
    alloc: Global,
    format: Format,
    reader: &mut Reader<'_>,
    depth: usize,
) -> Result<EntryParts, Invalid>
    ensures { ReadsMembers (λ parts members. IsOfEntry format parts (object members))
        depth reader.old result reader.new }
{
    let mut parts = no_entry_parts(alloc, format);
    read_members(format, &mut parts, reader, depth)?;
    Ok(parts)
}

/// Whether the target, the reads and the writes of a record are plain paths.
fn are_plain(target: &str, reads: &[String], writes: &[String]) -> bool
    ensures { result ≡ (is_plain target.now && list_all is_plain (map string_bytes reads.now) &&
        list_all is_plain (map string_bytes writes.now)) }
{
    is_plain_text_path(target) && are_paths(reads) && are_paths(writes)
}

/// Whether the reads have no repeats, and the writes have none.
fn are_both_apart(alloc: Global, reads: &[String], writes: &[String]) -> Result<bool, AllocError>
    ensures { IfOk result (λ apart. apart ≡ true →
        (once (map string_bytes reads.now) ≡ map string_bytes reads.now) ×
        (once (map string_bytes writes.now) ≡ map string_bytes writes.now)) }
{
    if !are_distinct(alloc, reads)? {
        return Ok(false);
    }
    are_distinct(alloc, writes)
}

/// Returns the record that these parts give. A fault in a known key comes before another key.
#[tactic(auto, unfolding(crate::specs::FootprintFile::entry_in))]
fn entry_of(alloc: Global, parts: EntryParts) -> Result<RawRecord, FootFault>
    ensures { (format : Format) (whole : Data) → is_some (as_object whole) ≡ true →
        IsOfEntry format parts whole → Gives (λ entry. entry) result (entry_in format whole) }
{
    let EntryParts {
        alloc: _,
        target,
        commands,
        reads,
        writes,
        shared,
        alone,
    } = parts;
    let target = target?;
    let commands = commands?;
    let reads = reads?;
    let writes = writes?;
    let shared = shared?;
    if !alone {
        return Err(FootFault::Shape(Key::Unknown));
    }
    let plain = are_plain(&target, &reads, &writes);
    let apart = are_both_apart(alloc, &reads, &writes)?;
    Ok(RawRecord {
        target,
        commands,
        reads,
        writes,
        shared,
        plain,
        apart,
    })
}

/// Reads a record. A value that is no object is `Shape` (52).
fn read_entry(
    alloc: Global,
    format: Format,
    reader: &mut Reader<'_>,
    depth: usize,
) -> Result<Result<RawRecord, FootFault>, Invalid>
    ensures { Reads (λ entry value. Gives (λ entry. entry) entry (entry_in format value))
        depth reader.old result reader.new }
{
    if !enter_object(reader, depth)? {
        return Ok(Err(FootFault::Shape(Key::Records)));
    }
    let parts = read_entry_parts(alloc, format, reader, depth - 1)?;
    Ok(entry_of(alloc, parts))
}

/// Reads the records of an array whose bracket was read.
fn read_list(
    alloc: Global,
    format: Format,
    reader: &mut Reader<'_>,
    depth: usize,
) -> Result<Result<Vec<RawRecord>, FootFault>, Invalid>
    ensures { ReadsItems
        (λ entries values. Gives (λ all. all.items) entries (each (entry_in format) values))
        depth reader.old result reader.new }
{
    items_are_read_in_order();
    values_take_tokens();
    let mut entries: Result<Vec<RawRecord>, FootFault> = Ok(Vec::new(alloc));
    'items: while !reader.take_end_array() {
        let entry = read_entry(alloc, format, reader, depth)?;
        entries = with_next(entries, entry);
    }
    Ok(entries)
}

/// The records, or the first fault in them. The outer fault says that the value is no array.
pub type RecordsResult = Result<Result<Vec<RawRecord>, FootFault>, FootFault>;

/// Reads a list of records.
pub fn read_entries(
    alloc: Global,
    format: Format,
    reader: &mut Reader<'_>,
    depth: usize,
) -> Result<RecordsResult, Invalid>
    ensures { Reads (λ entries value. AreEach (entry_in format) entries
        (ok_or (elements_of value) (Shape keys.Records)))
        depth reader.old result reader.new }
{
    if !enter_array(reader, depth)? {
        return Ok(Err(FootFault::Shape(Key::Records)));
    }
    let entries = read_list(alloc, format, reader, depth - 1)?;
    Ok(Ok(entries))
}
