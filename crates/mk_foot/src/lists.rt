//! Reads the shared lists of a footprint file from JSON tokens.

ghost use Rattle.std.specs.Prelude.{IfOk};
ghost use Rattle.serde_json.specs.Data.{Data, Members, put};
ghost use Rattle.mk_json.specs.Kinds.{pairs};
ghost use Rattle.mk_json.specs.Tokens.{Reads, ReadsMembers};
ghost use Rattle.mk_foot.specs.declared.key.Key.TheVariants as keys;
ghost use Rattle.mk_foot.specs.FootprintFile.{list_in};
ghost use Rattle.mk_foot.specs.Fields.{texts_of};
ghost use Rattle.mk_foot.specs.ReaderParts.{AreLists, GivesTexts, lists_from};
ghost use Rattle.mk_foot.specs.Steps.{Gives, each};

use crate::fault::FootFault;
use crate::fields::{Texts, read_texts};
use crate::key::Key;
use crate::parts::SharedList;
use json::{Invalid, Reader};
use mk_json::enter_object;
use mk_json::laws::{members_are_read_in_order, values_take_tokens};
use std::alloc::{AllocError, Global};
use std::collections::BTreeMap;

/// The lists that were read so far: for each name its last list, or a fault if that is no list of
/// texts.
type Lists = BTreeMap<String, Texts>;

/// The shared lists in the order of their names, or a fault.
pub type SharedLists = Result<Vec<SharedList>, FootFault>;

/// Sets the list of a name, in place of an earlier one.
fn with_list(
    alloc: Global,
    lists: Result<Lists, AllocError>,
    name: &str,
    names: Texts,
) -> Result<Lists, AllocError>
    ensures { (members : Members) (value : Data) →
        IfOk lists (λ lists. AreLists lists.entries members) →
        GivesTexts names (texts_of keys.Lists value) →
        IfOk result (λ lists. AreLists lists.entries (put name.now value members)) }
{
    let mut lists = lists?;
    let name = String::from_str(alloc, name)?;
    lists.insert(name, names)?;
    Ok(lists)
}

/// Reads the members of an object of shared lists whose brace was read.
fn read_members(
    alloc: Global,
    reader: &mut Reader<'_>,
    depth: usize,
) -> Result<Result<Lists, AllocError>, Invalid>
    ensures { ReadsMembers (λ lists members. IfOk lists (λ lists. AreLists lists.entries members))
        depth reader.old result reader.new }
{
    members_are_read_in_order();
    values_take_tokens();
    let mut lists: Result<Lists, AllocError> = Ok(BTreeMap::new(alloc));
    'members: while let Some(name) = reader.next_key()? {
        let names = read_texts(alloc, Key::Lists, reader, depth)?;
        lists = with_list(alloc, lists, name, names);
    }
    Ok(lists)
}

/// Returns the shared lists in the order of their names, or the first fault in this order.
fn lists_of(alloc: Global, found: Lists) -> SharedLists
    ensures { (members : Members) → AreLists found.entries members →
        Gives (λ lists. lists.items) result (each list_in (pairs members)) }
{
    let mut lists = Vec::with_capacity(alloc, found.len())?;
    for (name, names) in found {
        let names = names?;
        lists.push(SharedList { name, names })?;
    }
    Ok(lists)
}

/// Calls `lists_of` unless memory has run out before.
fn all_lists_of(alloc: Global, found: Result<Lists, AllocError>) -> SharedLists
    ensures { (members : Members) → IfOk found (λ lists. AreLists lists.entries members) →
        Gives (λ lists. lists.items) result (each list_in (pairs members)) }
{
    let found = found?;
    lists_of(alloc, found)
}

/// Reads the shared lists. A value that is no object of lists of texts is `Shape` (52).
pub fn read_lists(
    alloc: Global,
    reader: &mut Reader<'_>,
    depth: usize,
) -> Result<SharedLists, Invalid>
    ensures { Reads (λ lists value. Gives (λ all. all.items) lists (lists_from value))
        depth reader.old result reader.new }
{
    if !enter_object(reader, depth)? {
        return Ok(Err(FootFault::Shape(Key::Lists)));
    }
    let found = read_members(alloc, reader, depth - 1)?;
    Ok(all_lists_of(alloc, found))
}
