//! Writes the answers of `since` as JSON.

ghost use Rattle.std.specs.Prelude.{◌≡◌, ◌++◌, ◌∷◌, [], false, map, IfOk, OnOk};
ghost use Rattle.std.specs.String.{string_bytes};
ghost use Rattle.serde_json.specs.View.{items_of, view};
ghost use Rattle.serde_json.specs.Written.{compact_text, items_text};
ghost use Rattle.mk_cert_text.specs.Writing.{names_value};
ghost use Rattle.mk_core_json.specs.AnswerValue.{answer_text};
ghost use Rattle.mk_core_json.specs.SinceValues.{named_value, told_value, told_values};

use crate::finding::{kind_of, push_line, push_names_of};
use crate::writing::{line_of, push_comma, push_text, push_value};
use mk_core::Name;
use mk_find::Finding;
use serde_json::{Value, json};
use std::alloc::{AllocError, Global};

/// Makes the JSON value of these files. The only error is out of memory.
pub fn files_value(alloc: Global, files: &[Name]) -> Result<Value, AllocError>
    ensures { IfOk result (λ value. view value ≡ names_value files.now) }
{
    let mut texts = Vec::with_capacity(alloc, files.len())?;
    for file in files {
        texts.push(Value::try_from_str(alloc, file.as_str())?)?;
    }
    Ok(Value::Array(texts))
}

/// Makes the JSON value of the answer with the files to remove.
fn named_value(alloc: Global, files: &[Name]) -> Result<Value, AllocError>
    ensures { IfOk result (λ value. view value ≡ named_value files.now) }
{
    let files = files_value(alloc, files)?;
    json!(in alloc; {
        "answer": "yes",
        "files": files,
        "format": 1u32
    })
}

/// What `since` prints where these are the files to remove. The only error is out of memory.
pub fn named_in_json(alloc: Global, files: &[Name]) -> Result<Vec<u8>, AllocError>
    ensures { IfOk result (λ line. line.items ≡ answer_text (named_value files.now)) }
{
    let value = named_value(alloc, files)?;
    let mut text = String::new(alloc);
    push_value(alloc, &mut text, &value)?;
    line_of(text)
}

/// Appends the text of a finding, with its kind and its names.
fn push_told(alloc: Global, out: &mut String, finding: &Finding) -> Result<(), AllocError>
    ensures { OnOk result (string_bytes out.new ≡
        string_bytes out.old ++ compact_text (told_value finding.now)) }
{
    out.push_str("{\"kind\":")?;
    push_text(alloc, out, kind_of(finding))?;
    out.push_str(",\"names\":")?;
    push_names_of(alloc, out, finding)?;
    out.push_str(",\"text\":")?;
    push_line(alloc, out, finding)?;
    out.push_str("}")
}

/// Appends the texts of findings, separated by commas, and the closing bracket.
fn push_all_told(alloc: Global, out: &mut String, found: &[Finding]) -> Result<(), AllocError>
    ensures { OnOk result (string_bytes out.new ≡
        string_bytes out.old ++ items_text false (items_of (map told_value found.now))) }
{
    let mut later = false;
    for finding in found {
        push_comma(out, later)?;
        push_told(alloc, out, finding)?;
        later = true;
    }
    out.push_str("]")
}

/// The text of the answer with the findings of a build.
fn told_text(alloc: Global, build: &str, found: &[Finding]) -> Result<String, AllocError>
    ensures { IfOk result (λ text. string_bytes text ≡
        compact_text (told_values build.now found.now)) }
{
    let mut text = String::from_str(alloc, "{\"answer\":\"no\",\"build\":")?;
    push_text(alloc, &mut text, build)?;
    text.push_str(",\"findings\":[")?;
    push_all_told(alloc, &mut text, found)?;
    text.push_str(",\"format\":1}")?;
    Ok(text)
}

/// What `since` prints where a build, which is `new` or `old`, has these findings. The only error is
/// out of memory.
pub fn told_in_json(alloc: Global, build: &str, found: &[Finding]) -> Result<Vec<u8>, AllocError>
    ensures { IfOk result (λ line. line.items ≡ answer_text (told_values build.now found.now)) }
{
    let text = told_text(alloc, build, found)?;
    line_of(text)
}
