//! Reads names, lists of names and ends of ways from JSON tokens. A value of another kind is a
//! fault with its key.

ghost use Rattle.std.specs.Prelude.{◌≡◌, ◌∷◌, ◌++◌, [], ℕ, List, Result};
ghost use Rattle.std.specs.Option.{option_map};
ghost use Rattle.serde_json.specs.Data.{Data};
ghost use Rattle.serde_json.specs.Find.{as_str};
ghost use Rattle.mk_json.specs.Tokens.{Reads, ReadsItems};
ghost use Rattle.mk_cert_text.specs.declared.fault.CertTextFault.{CertTextFault};
ghost use Rattle.mk_cert_text.specs.CertificateParts.{names_from, finish_from};
ghost use Rattle.mk_cert_text.specs.Reading.{name_in};
ghost use Rattle.mk_cert_text.specs.Steps.{Gives, each};
ghost use Rattle.mk_cert_text.specs.Words.{finish_of};

use crate::certificate::Finish;
use crate::fault::CertTextFault;
use crate::key::Key;
use crate::packed_names::PackedNames;
use json::{Invalid, Reader};
use mk_json::laws::{items_are_read_in_order, values_take_tokens};
use mk_json::{enter_array, next_text};
use mk_lines::{Name, is_plain_text_path};
use std::alloc::Global;

/// Returns the text, or `Shape` (72) if it is missing or no plain path.
#[tactic(auto, unfolding(crate::specs::Reading::name_in))]
fn name_of(key: Key, text: Option<&str>) -> Result<&str, CertTextFault>
    ensures { (value : Data) → option_map (λ found. found.now) text.entry ≡ as_str value →
        Gives (λ name. name.now) result (name_in key value) }
{
    let Some(text) = text else {
        return Err(CertTextFault::Shape(key));
    };
    if !is_plain_text_path(text) {
        return Err(CertTextFault::Shape(key));
    }
    Ok(text)
}

/// Reads a name and borrows it from the text.
fn next_name<'a>(
    key: Key,
    reader: &mut Reader<'a>,
    depth: usize,
) -> Result<Result<&'a str, CertTextFault>, Invalid>
    ensures { Reads (λ name value. Gives (λ name. name.now) name (name_in key value))
        depth reader.old result reader.new }
{
    let text = next_text(reader, depth)?;
    Ok(name_of(key, text))
}

/// Copies the name, if there is one.
fn copy_of(alloc: Global, name: Result<&str, CertTextFault>) -> Result<Name, CertTextFault>
    ensures { (defined : Result (List ℕ) CertTextFault) →
        Gives (λ name. name.now) name.entry defined → Gives (λ name. name) result defined }
{
    let name = name?;
    Ok(Name::new(alloc, name)?)
}

/// Reads a name. It fails with `Shape` (72) if the value is no plain path.
pub fn read_name(
    alloc: Global,
    key: Key,
    reader: &mut Reader<'_>,
    depth: usize,
) -> Result<Result<Name, CertTextFault>, Invalid>
    ensures { Reads (λ name value. Gives (λ name. name) name (name_in key value))
        depth reader.old result reader.new }
{
    let name = next_name(key, reader, depth)?;
    Ok(copy_of(alloc, name))
}

/// Appends a name. If either is a fault, returns the first fault.
fn with_name(
    found: Result<PackedNames, CertTextFault>,
    next: Result<&str, CertTextFault>,
) -> Result<PackedNames, CertTextFault>
    ensures { (part : Data → Result (List ℕ) CertTextFault) (front : List Data)
        (value : Data) → Gives (λ all. all) found (each part front) →
        Gives (λ one. one.now) next.entry (part value) →
        Gives (λ all. all) result (each part (front ++ value ∷ [])) }
{
    let mut found = found?;
    let next = next?;
    found.push(next)?;
    Ok(found)
}

/// Reads the names of an array whose bracket was read.
fn read_list(
    alloc: Global,
    key: Key,
    reader: &mut Reader<'_>,
    depth: usize,
) -> Result<Result<PackedNames, CertTextFault>, Invalid>
    ensures { ReadsItems (λ names values. Gives (λ all. all) names (each (name_in key) values))
        depth reader.old result reader.new }
{
    items_are_read_in_order();
    values_take_tokens();
    let mut names: Result<PackedNames, CertTextFault> = Ok(PackedNames::new(alloc));
    'items: while !reader.take_end_array() {
        let name = next_name(key, reader, depth)?;
        names = with_name(names, name);
    }
    Ok(names)
}

/// Reads a list of names. It fails with `Shape` (72) if the value is no list of plain paths.
pub fn read_names(
    alloc: Global,
    key: Key,
    reader: &mut Reader<'_>,
    depth: usize,
) -> Result<Result<PackedNames, CertTextFault>, Invalid>
    ensures { Reads (λ names value. Gives (λ names. names) names (names_from key value))
        depth reader.old result reader.new }
{
    if !enter_array(reader, depth)? {
        return Ok(Err(CertTextFault::Shape(key)));
    }
    let names = read_list(alloc, key, reader, depth - 1)?;
    Ok(names)
}

/// Returns the end that a word stands for.
fn finish_of(word: &str) -> Option<Finish>
    ensures { result ≡ finish_of word.now }
{
    match word {
        "written" => Some(Finish::Written),
        "source" => Some(Finish::Source),
        "always" => Some(Finish::Always),
        _ => None,
    }
}

/// Returns the end that a text stands for, or `Shape` (72) if there is none.
fn finish_in(text: Option<&str>) -> Result<Finish, CertTextFault>
    ensures { (value : Data) → option_map (λ found. found.now) text.entry ≡ as_str value →
        Gives (λ finish. finish) result (finish_from value) }
{
    let Some(word) = text else {
        return Err(CertTextFault::Shape(Key::End));
    };
    match finish_of(word) {
        Some(finish) => Ok(finish),
        None => Err(CertTextFault::Shape(Key::End)),
    }
}

/// Reads the end of a way. It fails with `Shape` (72) if the value is none of the words.
pub fn read_finish(
    reader: &mut Reader<'_>,
    depth: usize,
) -> Result<Result<Finish, CertTextFault>, Invalid>
    ensures { Reads (λ finish value. Gives (λ finish. finish) finish (finish_from value))
        depth reader.old result reader.new }
{
    let text = next_text(reader, depth)?;
    Ok(finish_in(text))
}
