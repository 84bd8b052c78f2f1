//! Writes refusals as JSON.

ghost use Rattle.std.specs.Prelude.{◌≡◌, ◌∷◌, ◌++◌, [], false, IfOk};
ghost use Rattle.std.specs.String.{string_bytes};
ghost use Rattle.std.specs.Str.Lossy.{utf8_lossy};
ghost use Rattle.serde_json.specs.View.{view};
ghost use Rattle.serde_json.specs.Written.{compact_text};
ghost use Rattle.mk_core_text.specs.Causes.{caused_words};
ghost use Rattle.mk_core_text.specs.FaultText.{fault_text};
ghost use Rattle.mk_core_sentences.specs.RefusedLine.{in_file, place_of};
ghost use Rattle.mk_core_json.specs.AnswerValue.{answer_text, bare_line, line_value, old_refusal_value, place_value, refusal_value};

use crate::fault_name::fault_name;
use crate::fault_words::{fault_argument_value, fault_names_value, fault_word_value};
use crate::writing::{line_of, push_value};
use mk_core::{Fault, fault_text};
use mk_core_sentences::line_in_file;
use mk_core_text::caused_words;
use mk_read_files::Cause;
use serde_json::{Value, json};
use std::alloc::{AllocError, Global};

/// Makes the JSON value of the line of a file that the fault names.
fn place_value(alloc: Global, fault: &Fault) -> Result<Value, AllocError>
    ensures { IfOk result (λ value. view value ≡ place_value (in_file (place_of fault.now))) }
{
    match line_in_file(fault) {
        Some(place) => {
            let file = place.file.as_str();
            let line = place.line;
            json!(in alloc; {
                "file": file,
                "line": line
            })
        }
        None => Ok(Value::Null),
    }
}

/// The text of a fault in words, for a failed read with its cause; U+FFFD stands for bytes that
/// aren't UTF-8.
fn sentence_of(alloc: Global, fault: &Fault, cause: Cause) -> Result<String, AllocError>
    ensures { IfOk result (λ text. string_bytes text ≡
        utf8_lossy (caused_words fault.now cause)) }
{
    let bytes = caused_words(alloc, fault, cause)?;
    String::from_utf8_lossy(alloc, &bytes)
}

/// The text of a fault with numbers; U+FFFD stands for bytes that aren't UTF-8.
fn text_of(alloc: Global, fault: &Fault) -> Result<String, AllocError>
    ensures { IfOk result (λ text. string_bytes text ≡ utf8_lossy (fault_text fault.now)) }
{
    let bytes = fault_text(alloc, fault)?;
    String::from_utf8_lossy(alloc, &bytes)
}

/// The line that `-w` prints, without the blanks before it and the newline behind it.
fn bare_line(line: &[u8]) -> &[u8]
    ensures { result.now ≡ bare_line line.now }
{
    if line.len() < 3 {
        return &[];
    }
    &line[2..line.len() - 1]
}

/// Makes the JSON value of the line that is shown; null where there is none. U+FFFD stands for bytes
/// that aren't UTF-8.
fn line_value(alloc: Global, line: &[u8]) -> Result<Value, AllocError>
    ensures { IfOk result (λ value. view value ≡ line_value line.now) }
{
    if line.is_empty() {
        return Ok(Value::Null);
    }
    Ok(Value::String(String::from_utf8_lossy(alloc, bare_line(line))?))
}

/// Makes the JSON value of a refusal.
fn refusal_value(
    alloc: Global,
    fault: &Fault,
    cause: Cause,
    line: &[u8],
) -> Result<Value, AllocError>
    ensures { IfOk result (λ value. view value ≡ refusal_value fault.now cause line.now) }
{
    let (number, name) = fault_name(fault);
    let argument = fault_argument_value(alloc, fault)?;
    let names = fault_names_value(alloc, fault)?;
    let word = fault_word_value(alloc, fault)?;
    let source = line_value(alloc, line)?;
    let place = place_value(alloc, fault)?;
    let sentence = sentence_of(alloc, fault, cause)?;
    let text = text_of(alloc, fault)?;
    json!(in alloc; {
        "answer": "refused",
        "argument": argument,
        "format": 1u32,
        "name": name,
        "names": names,
        "number": number,
        "place": place,
        "sentence": sentence.as_str(),
        "source": source,
        "text": text.as_str(),
        "word": word
    })
}

/// What is printed for a refusal by this fault, without a newline, given the cause of the last
/// failed read, and the line of a file that `-w` prints for the fault. The only error is out of
/// memory.
pub fn refusal_text(
    alloc: Global,
    fault: &Fault,
    cause: Cause,
    line: &[u8],
) -> Result<Vec<u8>, AllocError>
    ensures { IfOk result (λ text. text.items ≡
        compact_text (refusal_value fault.now cause line.now)) }
{
    let value = refusal_value(alloc, fault, cause, line)?;
    let mut text = String::new(alloc);
    push_value(alloc, &mut text, &value)?;
    Ok(text.into_bytes())
}

/// Makes the JSON value of a refusal of an old build.
fn old_refusal_value(alloc: Global, fault: &Fault, cause: Cause) -> Result<Value, AllocError>
    ensures { IfOk result (λ value. view value ≡ old_refusal_value fault.now cause) }
{
    let (number, name) = fault_name(fault);
    let argument = fault_argument_value(alloc, fault)?;
    let names = fault_names_value(alloc, fault)?;
    let word = fault_word_value(alloc, fault)?;
    let place = place_value(alloc, fault)?;
    let sentence = sentence_of(alloc, fault, cause)?;
    let text = text_of(alloc, fault)?;
    json!(in alloc; {
        "answer": "refused",
        "argument": argument,
        "build": "old",
        "format": 1u32,
        "name": name,
        "names": names,
        "number": number,
        "place": place,
        "sentence": sentence.as_str(),
        "source": null,
        "text": text.as_str(),
        "word": word
    })
}

/// What `since` prints where the old build is refused by this fault, given the cause of the last
/// failed read. The only error is out of memory.
pub fn old_refusal_in_json(
    alloc: Global,
    fault: &Fault,
    cause: Cause,
) -> Result<Vec<u8>, AllocError>
    ensures { IfOk result (λ line. line.items ≡ answer_text (old_refusal_value fault.now cause)) }
{
    let value = old_refusal_value(alloc, fault, cause)?;
    let mut text = String::new(alloc);
    push_value(alloc, &mut text, &value)?;
    line_of(text)
}
