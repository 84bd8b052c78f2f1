//! Writes the text of a certificate.

ghost use Rattle.std.specs.Prelude.{◌≡◌, ◌++◌, false, map, IfOk, OnOk};
ghost use Rattle.std.specs.String.{string_bytes};
ghost use Rattle.serde_json.specs.View.{view, items_of};
ghost use Rattle.serde_json.specs.Written.{compact_text, comma_if, has_float, items_text};
ghost use Rattle.mk_cert_text.specs.Writing.{names_value, way_value, value_of};

use crate::certificate::{Certificate, Way};
use crate::packed_names::PackedNames;
use crate::path::Path;
use crate::ways::Ways;
use serde_json::{Value, json};
use std::alloc::{AllocError, Global};

/// Makes the JSON value of names.
fn names_value(alloc: Global, names: &PackedNames) -> Result<Value, AllocError>
    ensures { IfOk result (λ value. view value ≡ names_value names.now) }
{
    let mut texts = Vec::with_capacity(alloc, names.len())?;
    for place in 0..names.len() {
        texts.push(Value::try_from_str(alloc, names.at(place))?)?;
    }
    Ok(Value::Array(texts))
}

/// Makes the JSON value of a path.
fn path_value(alloc: Global, path: &Path<'_>) -> Result<Value, AllocError>
    ensures { IfOk result (λ value. view value ≡ names_value path.now) }
{
    let mut texts = Vec::with_capacity(alloc, path.len())?;
    for place in 0..path.len() {
        texts.push(Value::try_from_str(alloc, path.at(place))?)?;
    }
    Ok(Value::Array(texts))
}

/// Makes the JSON value of a way.
fn way_value(alloc: Global, way: &Way<'_>) -> Result<Value, AllocError>
    ensures { IfOk result (λ value. view value ≡ way_value way.now) }
{
    let path = path_value(alloc, &way.path)?;
    let end = way.finish.as_str();
    json!(in alloc; {
        "end": end,
        "file": way.file,
        "path": path,
        "recipe": way.recipe
    })
}

/// Appends the text of a value.
fn push_value(alloc: Global, text: &mut String, value: &Value) -> Result<(), AllocError>
    requires { has_float (view value.now) ≡ false }
    ensures { OnOk result (string_bytes text.new ≡
        string_bytes text.old ++ compact_text (view value.now)) }
{
    let written = value.to_string(alloc)?;
    text.push_str(written.as_str())
}

/// Appends the text of names.
fn push_names(alloc: Global, text: &mut String, names: &PackedNames) -> Result<(), AllocError>
    ensures { OnOk result (string_bytes text.new ≡
        string_bytes text.old ++ compact_text (names_value names.now)) }
{
    let value = names_value(alloc, names)?;
    push_value(alloc, text, &value)
}

/// Appends the text of a way.
fn push_way(alloc: Global, text: &mut String, way: &Way<'_>) -> Result<(), AllocError>
    ensures { OnOk result (string_bytes text.new ≡
        string_bytes text.old ++ compact_text (way_value way.now)) }
{
    let value = way_value(alloc, way)?;
    push_value(alloc, text, &value)
}

/// Appends a comma if `later` is true.
fn push_comma(text: &mut String, later: bool) -> Result<(), AllocError>
    ensures { OnOk result (string_bytes text.new ≡ string_bytes text.old ++ comma_if later) }
{
    if later {
        text.push_str(",")?;
    }
    Ok(())
}

/// Appends the texts of ways, separated by commas, and the closing bracket.
fn push_ways(alloc: Global, text: &mut String, ways: &Ways) -> Result<(), AllocError>
    ensures { OnOk result (string_bytes text.new ≡
        string_bytes text.old ++ items_text false (items_of (map way_value ways.now))) }
{
    let mut later = false;
    for place in 0..ways.len() {
        push_comma(text, later)?;
        push_way(alloc, text, &ways.at(place))?;
        later = true;
    }
    text.push_str("]")
}

/// Returns the text of a certificate: compact JSON with its keys in the order of their bytes,
/// without a newline. The only error is out of memory.
///
/// Only one way is a JSON value at a time, so memory use stays near the size of the text.
pub fn certificate_text(alloc: Global, certificate: &Certificate) -> Result<String, AllocError>
    ensures { IfOk result (λ text. string_bytes text ≡ compact_text (value_of certificate.now)) }
{
    let mut text = String::from_str(alloc, "{\"format\":1,\"goals\":")?;
    push_names(alloc, &mut text, &certificate.goals)?;
    text.push_str(",\"ways\":[")?;
    push_ways(alloc, &mut text, &certificate.ways)?;
    text.push_str("}")?;
    Ok(text)
}
