//! Reads the ways of a certificate from JSON tokens.

ghost use Rattle.std.specs.Prelude.{◌≡◌, ◌∷◌, ◌++◌, [], List, Result, true, is_some};
ghost use Rattle.mk_cert_text.specs.Certificate.{Way};
ghost use Rattle.mk_cert_text.specs.declared.fault.CertTextFault.{CertTextFault};
ghost use Rattle.serde_json.specs.Data.{Data, object, Members, no_members, put};
ghost use Rattle.serde_json.specs.Find.{as_object};
ghost use Rattle.mk_json.specs.Kinds.{elements_of};
ghost use Rattle.mk_json.specs.Tokens.{Reads, ReadsItems, ReadsMembers};
ghost use Rattle.mk_cert_text.specs.declared.key.Key.TheVariants as keys;
ghost use Rattle.mk_cert_text.specs.CertificateParts.{IsOfWay, GivesWays};
ghost use Rattle.mk_cert_text.specs.Reading.{way_in};
ghost use Rattle.mk_cert_text.specs.Steps.{Gives, at_least, each};

use crate::certificate::Finish;
use crate::fault::CertTextFault;
use crate::fields::{read_finish, read_name, read_names};
use crate::key::Key;
use crate::packed_names::PackedNames;
use crate::ways::Ways;
use json::{Invalid, Reader};
use mk_json::laws::{
    items_are_read_in_order, last_value_counts, members_are_read_in_order, values_take_tokens,
};
use mk_json::{enter_array, enter_object, skip_value};
use mk_lines::Name;
use std::alloc::Global;
use std::marker::Model;

/// A way that was read. It owns its names. A contract sees lists of bytes.
#[derive(Drop)]
struct OwnedWay {
    recipe: Name,
    file: Name,
    path: PackedNames,
    finish: Finish,
}

impl Model for OwnedWay {
    ghost use Rattle.mk_cert_text.specs.Certificate as value;

    ghost Value = { value.Way };

    ghost view = { λ w.
        record {
          recipe = w.recipe;
          file = w.file;
          path = w.path;
          finish = w.finish;
        } };
}

/// What the members of a way that were read so far give: for each key its last value or a fault,
/// and whether there is no other key.
#[derive(Drop)]
struct WayParts {
    finish: Result<Finish, CertTextFault>,
    file: Result<Name, CertTextFault>,
    path: Result<PackedNames, CertTextFault>,
    recipe: Result<Name, CertTextFault>,
    alone: bool,
}

/// The parts of a way without members.
fn no_way_parts() -> WayParts
    ensures { IsOfWay result (object no_members) }
{
    WayParts {
        finish: Err(CertTextFault::Shape(Key::End)),
        file: Err(CertTextFault::Shape(Key::File)),
        path: Err(CertTextFault::Shape(Key::Path)),
        recipe: Err(CertTextFault::Shape(Key::Recipe)),
        alone: true,
    }
}

/// Reads the value under a key of a way.
fn read_way_part(
    alloc: Global,
    key: &str,
    parts: &mut WayParts,
    reader: &mut Reader<'_>,
    depth: usize,
) -> Result<(), Invalid>
    ensures { Reads (λ _ value. (members : Members) → IsOfWay parts.old (object members) →
        IsOfWay parts.new (object (put key.now value members)))
        depth reader.old result reader.new }
{
    last_value_counts();
    match key {
        "end" => {
            parts.finish = read_finish(reader, depth)?;
            Ok(())
        }
        "file" => {
            parts.file = read_name(alloc, Key::File, reader, depth)?;
            Ok(())
        }
        "path" => {
            parts.path = read_names(alloc, Key::Path, reader, depth)?;
            Ok(())
        }
        "recipe" => {
            parts.recipe = read_name(alloc, Key::Recipe, reader, depth)?;
            Ok(())
        }
        _ => {
            skip_value(reader, depth)?;
            parts.alone = false;
            Ok(())
        }
    }
}

/// Reads the members of a way whose brace was read.
fn read_way_parts(alloc: Global, reader: &mut Reader<'_>, depth: usize) -> Result<WayParts, Invalid>
    ensures { ReadsMembers (λ parts members. IsOfWay parts (object members))
        depth reader.old result reader.new }
{
    members_are_read_in_order();
    values_take_tokens();
    let mut parts = no_way_parts();
    'members: while let Some(key) = reader.next_key()? {
        read_way_part(alloc, key, &mut parts, reader, depth)?;
    }
    Ok(parts)
}

/// Returns the way that these parts give. A fault in a known key comes before another key.
#[tactic(auto, unfolding(crate::specs::Reading::way_in))]
fn way_of(parts: WayParts) -> Result<OwnedWay, CertTextFault>
    ensures { (whole : Data) → is_some (as_object whole) ≡ true → IsOfWay parts whole →
        Gives (λ way. way) result (way_in whole) }
{
    let WayParts {
        finish,
        file,
        path,
        recipe,
        alone,
    } = parts;
    let finish = finish?;
    let file = file?;
    let path = path?;
    let recipe = recipe?;
    if !alone {
        return Err(CertTextFault::Shape(Key::Unknown));
    }
    Ok(OwnedWay {
        recipe,
        file,
        path,
        finish,
    })
}

/// Reads a way. A value that is no object is `Shape` (72).
fn read_way(
    alloc: Global,
    reader: &mut Reader<'_>,
    depth: usize,
) -> Result<Result<OwnedWay, CertTextFault>, Invalid>
    ensures { Reads (λ way value. Gives (λ way. way) way (way_in value))
        depth reader.old result reader.new }
{
    if !enter_object(reader, depth)? {
        return Ok(Err(CertTextFault::Shape(Key::Ways)));
    }
    let parts = read_way_parts(alloc, reader, depth - 1)?;
    Ok(way_of(parts))
}

/// Appends a way. If either is a fault, returns the first fault.
fn with_way(
    found: Result<Ways, CertTextFault>,
    next: Result<OwnedWay, CertTextFault>,
) -> Result<Ways, CertTextFault>
    ensures { (part : Data → Result Way CertTextFault) (front : List Data) (value : Data) →
        Gives (λ all. all) found (each part front) →
        Gives (λ one. one) next (part value) →
        Gives (λ all. all) result (each part (front ++ value ∷ [])) }
{
    let mut found = found?;
    let next = next?;
    found.push(
        next.recipe.as_str(),
        next.file.as_str(),
        &next.path,
        next.finish,
    )?;
    Ok(found)
}

/// Reads the ways of an array whose bracket was read.
fn read_list(
    alloc: Global,
    reader: &mut Reader<'_>,
    depth: usize,
) -> Result<Result<Ways, CertTextFault>, Invalid>
    ensures { ReadsItems (λ ways values. Gives (λ all. all) ways (each way_in values))
        depth reader.old result reader.new }
{
    items_are_read_in_order();
    values_take_tokens();
    let mut ways: Result<Ways, CertTextFault> = Ok(Ways::new(alloc));
    'items: while !reader.take_end_array() {
        let way = read_way(alloc, reader, depth)?;
        ways = with_way(ways, way);
    }
    Ok(ways)
}

/// The ways, or the first fault in them. The outer fault says that the value is no array.
pub type WaysResult = Result<Result<Ways, CertTextFault>, CertTextFault>;

/// Reads a list of ways.
pub fn read_ways(
    alloc: Global,
    reader: &mut Reader<'_>,
    depth: usize,
) -> Result<WaysResult, Invalid>
    ensures { Reads (λ ways value. GivesWays ways (at_least keys.Ways (elements_of value)))
        depth reader.old result reader.new }
{
    if !enter_array(reader, depth)? {
        return Ok(Err(CertTextFault::Shape(Key::Ways)));
    }
    let ways = read_list(alloc, reader, depth - 1)?;
    Ok(Ok(ways))
}
