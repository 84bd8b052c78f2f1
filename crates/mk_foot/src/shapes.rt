//! Reads the shape of a footprint file from JSON tokens.

ghost use Rattle.std.specs.Prelude.{◌≡◌, true, is_some, map};
ghost use Rattle.serde_json.specs.Data.{Data, object, Members, no_members, put};
ghost use Rattle.serde_json.specs.Find.{as_object};
ghost use Rattle.mk_json.specs.Kinds.{has_only};
ghost use Rattle.mk_json.specs.Tokens.{Reads, ReadsMembers};
ghost use Rattle.mk_foot.specs.declared.format.Format.TheVariants.{One};
ghost use Rattle.mk_foot.specs.declared.key.Key.TheVariants as keys;
ghost use Rattle.mk_foot.specs.FootprintFile.{entry_in, group_in, lists_in, first_format, second_format, footprints_in};
ghost use Rattle.mk_foot.specs.Keys.{spelling};
ghost use Rattle.mk_foot.specs.Fields.{texts_at, elements_at};
ghost use Rattle.mk_foot.specs.ReaderParts.{GivesTexts, AreEach, IsOf, first_keys, second_keys};
ghost use Rattle.mk_foot.specs.Steps.{Gives};

use crate::fault::FootFault;
use crate::fields::{Texts, read_format, read_texts};
use crate::format::Format;
use crate::groups::{Groups, read_groups};
use crate::key::Key;
use crate::lists::{SharedLists, read_lists};
use crate::parts::{FootprintFile, Group};
use crate::records::{RecordsResult, read_entries};
use json::{Invalid, Reader};
use mk_json::laws::{last_value_counts, members_are_read_in_order, values_take_tokens};
use mk_json::{enter_object, skip_value};
use std::alloc::Global;

/// What the members of a file that were read so far give: for each key its last value or a fault,
/// and for each format whether there is no key but its own. The format may be the last key, so both
/// formats are prepared for.
#[derive(Drop)]
struct Parts {
    format: Result<Format, FootFault>,
    fixed: Texts,
    sources: Texts,
    records: RecordsResult,
    lists: SharedLists,
    groups: Groups,
    is_first: bool,
    is_second: bool,
}

/// The parts of a file without members.
fn no_parts() -> Parts
    ensures { IsOf result (object no_members) }
{
    Parts {
        format: Err(FootFault::Shape(Key::Format)),
        fixed: Err(FootFault::Shape(Key::Fixed)),
        sources: Err(FootFault::Shape(Key::Sources)),
        records: Err(FootFault::Shape(Key::Records)),
        lists: Err(FootFault::Shape(Key::Lists)),
        groups: Err(FootFault::Shape(Key::Groups)),
        is_first: true,
        is_second: true,
    }
}

/// Reads the value under a key of a file.
fn read_part(
    alloc: Global,
    key: &str,
    parts: &mut Parts,
    reader: &mut Reader<'_>,
    depth: usize,
) -> Result<(), Invalid>
    ensures { Reads (λ _ value. (members : Members) → IsOf parts.old (object members) →
        IsOf parts.new (object (put key.now value members)))
        depth reader.old result reader.new }
{
    last_value_counts();
    match key {
        "format" => {
            parts.format = read_format(reader, depth)?;
            Ok(())
        }
        "fixed" => {
            parts.fixed = read_texts(alloc, Key::Fixed, reader, depth)?;
            Ok(())
        }
        "sources" => {
            parts.sources = read_texts(alloc, Key::Sources, reader, depth)?;
            Ok(())
        }
        "records" => {
            parts.records = read_entries(alloc, Format::One, reader, depth)?;
            parts.is_second = false;
            Ok(())
        }
        "lists" => {
            parts.lists = read_lists(alloc, reader, depth)?;
            parts.is_first = false;
            Ok(())
        }
        "groups" => {
            parts.groups = read_groups(alloc, reader, depth)?;
            parts.is_first = false;
            Ok(())
        }
        _ => {
            skip_value(reader, depth)?;
            parts.is_first = false;
            parts.is_second = false;
            Ok(())
        }
    }
}

/// Reads the members of a file whose brace was read, into the parts of a file without members.
fn read_members(
    alloc: Global,
    parts: &mut Parts,
    reader: &mut Reader<'_>,
    depth: usize,
) -> Result<(), Invalid>
    requires { IsOf parts.old (object no_members) }
    ensures { ReadsMembers (λ _ members. IsOf parts.new (object members))
        depth reader.old result reader.new }
{
    members_are_read_in_order();
    values_take_tokens();
    'members: while let Some(key) = reader.next_key()? {
        read_part(alloc, key, parts, reader, depth)?;
    }
    Ok(())
}

/// Reads the members of a file whose brace was read.
fn read_parts(alloc: Global, reader: &mut Reader<'_>, depth: usize) -> Result<Parts, Invalid>
    ensures { ReadsMembers (λ parts members. IsOf parts (object members))
        depth reader.old result reader.new }
{
    let mut parts = no_parts();
    read_members(alloc, &mut parts, reader, depth)?;
    Ok(parts)
}

/// Returns the file of format 1 that its parts give, or the first fault.
#[tactic(auto, unfolding(crate::specs::FootprintFile::first_format))]
fn first_format(
    alloc: Global,
    fixed: Texts,
    sources: Texts,
    records: RecordsResult,
    alone: bool,
) -> Result<FootprintFile, FootFault>
    ensures { (whole : Data) → GivesTexts fixed (texts_at keys.Fixed whole) →
        GivesTexts sources (texts_at keys.Sources whole) →
        AreEach (entry_in One) records (elements_at keys.Records whole) →
        alone ≡ has_only (map spelling first_keys) whole →
        Gives (λ file. file) result (first_format whole) }
{
    let fixed = fixed?;
    let sources = sources?;
    let entries = records?;
    if !alone {
        return Err(FootFault::Shape(Key::Unknown));
    }
    let records = entries?;
    let group = Group {
        goals: None,
        records,
    };
    Ok(FootprintFile {
        fixed,
        sources,
        lists: Vec::new(alloc),
        groups: vec![in alloc; group]?,
    })
}

/// Returns the file of format 2 that its parts give, or the first fault.
#[tactic(auto, unfolding(crate::specs::FootprintFile::second_format))]
fn second_format(
    fixed: Texts,
    sources: Texts,
    lists: SharedLists,
    groups: Groups,
    alone: bool,
) -> Result<FootprintFile, FootFault>
    ensures { (whole : Data) → GivesTexts fixed (texts_at keys.Fixed whole) →
        GivesTexts sources (texts_at keys.Sources whole) →
        Gives (λ all. all.items) lists (lists_in whole) →
        AreEach group_in groups (elements_at keys.Groups whole) →
        alone ≡ has_only (map spelling second_keys) whole →
        Gives (λ file. file) result (second_format whole) }
{
    let fixed = fixed?;
    let sources = sources?;
    let lists = lists?;
    let groups = groups?;
    if !alone {
        return Err(FootFault::Shape(Key::Unknown));
    }
    let groups = groups?;
    Ok(FootprintFile {
        fixed,
        sources,
        lists,
        groups,
    })
}

/// Returns the file that its parts give, or the first fault.
#[tactic(auto, unfolding(crate::specs::FootprintFile::footprints_in))]
fn footprints_of(alloc: Global, parts: Parts) -> Result<FootprintFile, FootFault>
    ensures { (whole : Data) → is_some (as_object whole) ≡ true → IsOf parts whole →
        Gives (λ file. file) result (footprints_in whole) }
{
    let Parts {
        format,
        fixed,
        sources,
        records,
        lists,
        groups,
        is_first,
        is_second,
    } = parts;
    match format? {
        Format::One => first_format(alloc, fixed, sources, records, is_first),
        Format::Two => second_format(fixed, sources, lists, groups, is_second),
    }
}

/// Reads a file of either format. The inner error is a fault of its shape, the outer one invalid
/// JSON.
pub fn read_footprints(
    alloc: Global,
    reader: &mut Reader<'_>,
    depth: usize,
) -> Result<Result<FootprintFile, FootFault>, Invalid>
    ensures { Reads (λ file value. Gives (λ file. file) file (footprints_in value))
        depth reader.old result reader.new }
{
    if !enter_object(reader, depth)? {
        return Ok(Err(FootFault::Shape(Key::Top)));
    }
    let parts = read_parts(alloc, reader, depth - 1)?;
    Ok(footprints_of(alloc, parts))
}
