//! Reads the groups of a footprint file from JSON tokens.

ghost use Rattle.std.specs.Prelude.{◌≡◌, true, is_some, ok_or};
ghost use Rattle.serde_json.specs.Data.{Data, object, Members, no_members, put};
ghost use Rattle.serde_json.specs.Find.{as_object};
ghost use Rattle.mk_json.specs.Kinds.{elements_of};
ghost use Rattle.mk_json.specs.Tokens.{Reads, ReadsItems, ReadsMembers};
ghost use Rattle.mk_foot.specs.declared.fault.FootFault.TheVariants.{Shape};
ghost use Rattle.mk_foot.specs.declared.key.Key.TheVariants as keys;
ghost use Rattle.mk_foot.specs.FootprintFile.{group_in};
ghost use Rattle.mk_foot.specs.ReaderParts.{IsOfGroup, AreEach};
ghost use Rattle.mk_foot.specs.Steps.{Gives, each};

use crate::fault::FootFault;
use crate::fields::{Texts, read_texts, with_next};
use crate::format::Format;
use crate::key::Key;
use crate::parts::Group;
use crate::records::{RecordsResult, read_entries};
use json::{Invalid, Reader};
use mk_json::laws::{
    items_are_read_in_order, last_value_counts, members_are_read_in_order, values_take_tokens,
};
use mk_json::{enter_array, enter_object, skip_value};
use std::alloc::Global;

/// What the members of a group that were read so far give: for each key its last value or a fault,
/// and whether there is no other key.
#[derive(Drop)]
struct GroupParts {
    goals: Texts,
    records: RecordsResult,
    alone: bool,
}

/// The parts of a group without members.
fn no_group_parts() -> GroupParts
    ensures { IsOfGroup result (object no_members) }
{
    GroupParts {
        goals: Err(FootFault::Shape(Key::Goals)),
        records: Err(FootFault::Shape(Key::Records)),
        alone: true,
    }
}

/// Reads the value under a key of a group.
fn read_group_part(
    alloc: Global,
    key: &str,
    parts: &mut GroupParts,
    reader: &mut Reader<'_>,
    depth: usize,
) -> Result<(), Invalid>
    ensures { Reads (λ _ value. (members : Members) → IsOfGroup parts.old (object members) →
        IsOfGroup parts.new (object (put key.now value members)))
        depth reader.old result reader.new }
{
    last_value_counts();
    match key {
        "goals" => {
            parts.goals = read_texts(alloc, Key::Goals, reader, depth)?;
            Ok(())
        }
        "records" => {
            parts.records = read_entries(alloc, Format::Two, reader, depth)?;
            Ok(())
        }
        _ => {
            skip_value(reader, depth)?;
            parts.alone = false;
            Ok(())
        }
    }
}

/// Reads the members of a group whose brace was read, into the parts of a group without members.
fn read_members(
    alloc: Global,
    parts: &mut GroupParts,
    reader: &mut Reader<'_>,
    depth: usize,
) -> Result<(), Invalid>
    requires { IsOfGroup parts.old (object no_members) }
    ensures { ReadsMembers (λ _ members. IsOfGroup parts.new (object members))
        depth reader.old result reader.new }
{
    members_are_read_in_order();
    values_take_tokens();
    'members: while let Some(key) = reader.next_key()? {
        read_group_part(alloc, key, parts, reader, depth)?;
    }
    Ok(())
}

/// Reads the members of a group whose brace was read.
fn read_group_parts(
    alloc: Global,
    reader: &mut Reader<'_>,
    depth: usize,
) -> Result<GroupParts, Invalid>
    ensures { ReadsMembers (λ parts members. IsOfGroup parts (object members))
        depth reader.old result reader.new }
{
    let mut parts = no_group_parts();
    read_members(alloc, &mut parts, reader, depth)?;
    Ok(parts)
}

/// Returns the group that these parts give. Faults come in this order: the known keys, another key,
/// the records.
#[tactic(auto, unfolding(crate::specs::FootprintFile::group_in))]
fn group_of(parts: GroupParts) -> Result<Group, FootFault>
    ensures { (whole : Data) → is_some (as_object whole) ≡ true → IsOfGroup parts whole →
        Gives (λ group. group) result (group_in whole) }
{
    let GroupParts {
        goals,
        records,
        alone,
    } = parts;
    let goals = goals?;
    let entries = records?;
    if !alone {
        return Err(FootFault::Shape(Key::Unknown));
    }
    let records = entries?;
    Ok(Group {
        goals: Some(goals),
        records,
    })
}

/// Reads a group. A value that is no object is `Shape` (52).
fn read_group(
    alloc: Global,
    reader: &mut Reader<'_>,
    depth: usize,
) -> Result<Result<Group, FootFault>, Invalid>
    ensures { Reads (λ group value. Gives (λ group. group) group (group_in value))
        depth reader.old result reader.new }
{
    if !enter_object(reader, depth)? {
        return Ok(Err(FootFault::Shape(Key::Groups)));
    }
    let parts = read_group_parts(alloc, reader, depth - 1)?;
    Ok(group_of(parts))
}

/// Reads the groups of an array whose bracket was read.
fn read_list(
    alloc: Global,
    reader: &mut Reader<'_>,
    depth: usize,
) -> Result<Result<Vec<Group>, FootFault>, Invalid>
    ensures { ReadsItems (λ groups values. Gives (λ all. all.items) groups (each group_in values))
        depth reader.old result reader.new }
{
    items_are_read_in_order();
    values_take_tokens();
    let mut groups: Result<Vec<Group>, FootFault> = Ok(Vec::new(alloc));
    'items: while !reader.take_end_array() {
        let group = read_group(alloc, reader, depth)?;
        groups = with_next(groups, group);
    }
    Ok(groups)
}

/// The groups, or the first fault in them. The outer fault says that the value is no array.
pub type Groups = Result<Result<Vec<Group>, FootFault>, FootFault>;

/// Reads the list of groups.
pub fn read_groups(alloc: Global, reader: &mut Reader<'_>, depth: usize) -> Result<Groups, Invalid>
    ensures { Reads (λ groups value. AreEach group_in groups
        (ok_or (elements_of value) (Shape keys.Groups)))
        depth reader.old result reader.new }
{
    if !enter_array(reader, depth)? {
        return Ok(Err(FootFault::Shape(Key::Groups)));
    }
    let groups = read_list(alloc, reader, depth - 1)?;
    Ok(Ok(groups))
}
