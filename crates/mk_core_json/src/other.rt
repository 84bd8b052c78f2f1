//! Writes the answers of `graph`, `verify`, `simulate` and `repair` as JSON.

ghost use Rattle.std.specs.Prelude.{◌≡◌, ◌++◌, ◌∷◌, [], false, IfOk, Some, None};
ghost use Rattle.std.specs.Str.Lossy.{utf8_lossy};
ghost use Rattle.serde_json.specs.Data.{string};
ghost use Rattle.serde_json.specs.View.{view};
ghost use Rattle.serde_json.specs.Written.{compact_text, has_float};
ghost use Rattle.mk_core_text.specs.FaultText.{step_fault_text, step_fault_words};
ghost use Rattle.mk_core_json.specs.AnswerValue.{answer_text};
ghost use Rattle.mk_core_json.specs.OtherValues.{mended_value, part_value, printed_value, run_value, unmended_value};

use crate::writing::{line_of, push_value};
use mk_core::Simulation;
use mk_core_text::{step_fault_text, step_fault_words};
use mk_world::StepFault;
use serde_json::{Value, json};
use std::alloc::{AllocError, Global};

/// What is printed for a value.
fn value_line(alloc: Global, value: &Value) -> Result<Vec<u8>, AllocError>
    requires { has_float (view value.now) ≡ false }
    ensures { IfOk result (λ line. line.items ≡ compact_text (view value.now) ++ 10 ∷ []) }
{
    let mut text = String::new(alloc);
    push_value(alloc, &mut text, value)?;
    line_of(text)
}

/// Makes the JSON value of the answer of `graph` or `verify`.
fn printed_value(alloc: Global, text: &[u8]) -> Result<Value, AllocError>
    ensures { IfOk result (λ value. view value ≡ printed_value text.now) }
{
    let text = String::from_utf8_lossy(alloc, text)?;
    json!(in alloc; {
        "answer": "yes",
        "format": 1u32,
        "text": text.as_str()
    })
}

/// The answer of `graph` or `verify` that prints this text without `--json`. U+FFFD stands for bytes
/// that aren't UTF-8. The only error is out of memory.
pub fn printed_in_json(alloc: Global, text: &[u8]) -> Result<Vec<u8>, AllocError>
    ensures { IfOk result (λ line. line.items ≡ answer_text (printed_value text.now)) }
{
    let value = printed_value(alloc, text)?;
    value_line(alloc, &value)
}

/// Makes the JSON value of a text; U+FFFD stands for bytes that aren't UTF-8.
fn text_value(alloc: Global, text: &[u8]) -> Result<Value, AllocError>
    ensures { IfOk result (λ value. view value ≡ string (utf8_lossy text.now)) }
{
    Ok(Value::String(String::from_utf8_lossy(alloc, text)?))
}

/// Makes the JSON value of why a step refuses this line of a plan, in words.
fn words_value(alloc: Global, line: usize, fault: &StepFault) -> Result<Value, AllocError>
    ensures { IfOk result (λ value. view value ≡
        string (utf8_lossy (step_fault_words line fault.now))) }
{
    let words = step_fault_words(alloc, line, fault)?;
    text_value(alloc, &words)
}

/// Makes the JSON value of why a step refuses this line of a plan, with numbers.
fn numbers_value(alloc: Global, line: usize, fault: &StepFault) -> Result<Value, AllocError>
    ensures { IfOk result (λ value. view value ≡
        string (utf8_lossy (step_fault_text line fault.now))) }
{
    let numbers = step_fault_text(alloc, line, fault)?;
    text_value(alloc, &numbers)
}

/// Makes the JSON value of a run in which no line of the plan is refused.
fn ran_value(alloc: Global, printed: &[u8]) -> Result<Value, AllocError>
    ensures { IfOk result (λ value. view value ≡ run_value printed.now None []) }
{
    let printed = String::from_utf8_lossy(alloc, printed)?;
    json!(in alloc; {
        "answer": "yes",
        "format": 1u32,
        "printed": printed.as_str()
    })
}

/// Makes the JSON value of a run in which this line of the plan is refused.
fn stopped_value(
    alloc: Global,
    printed: &[u8],
    line: usize,
    fault: &StepFault,
    left: &[u8],
) -> Result<Value, AllocError>
    ensures { IfOk result (λ value. view value ≡
        run_value printed.now (Some (line, fault.now)) left.now) }
{
    let left = text_value(alloc, left)?;
    let printed = text_value(alloc, printed)?;
    let sentence = words_value(alloc, line, fault)?;
    let text = numbers_value(alloc, line, fault)?;
    json!(in alloc; {
        "answer": "refused",
        "format": 1u32,
        "left": left,
        "line": line,
        "printed": printed,
        "sentence": sentence,
        "text": text
    })
}

/// What is printed of a run in which no line of the plan is refused.
fn ran_line(alloc: Global, printed: &[u8]) -> Result<Vec<u8>, AllocError>
    ensures { IfOk result (λ line. line.items ≡ answer_text (run_value printed.now None [])) }
{
    let value = ran_value(alloc, printed)?;
    value_line(alloc, &value)
}

/// What is printed of a run in which this line of the plan is refused.
fn stopped_line(
    alloc: Global,
    printed: &[u8],
    line: usize,
    fault: &StepFault,
    left: &[u8],
) -> Result<Vec<u8>, AllocError>
    ensures { IfOk result (λ text. text.items ≡
        answer_text (run_value printed.now (Some (line, fault.now)) left.now)) }
{
    let value = stopped_value(alloc, printed, line, fault, left)?;
    value_line(alloc, &value)
}

/// The answer of `simulate` with this run. U+FFFD stands for bytes that aren't UTF-8. The only error
/// is out of memory.
pub fn run_in_json(alloc: Global, run: &Simulation) -> Result<Vec<u8>, AllocError>
    ensures { IfOk result (λ text. text.items ≡
        answer_text (run_value run.now.printed run.now.refused run.now.left)) }
{
    match &run.refused {
        Some((line, fault)) => stopped_line(alloc, &run.printed, *line, fault, &run.left),
        None => ran_line(alloc, &run.printed),
    }
}

/// Makes the JSON value of the lines of `repair`.
fn mended_value(alloc: Global, lines: &[u8]) -> Result<Value, AllocError>
    ensures { IfOk result (λ value. view value ≡ mended_value lines.now) }
{
    let lines = String::from_utf8_lossy(alloc, lines)?;
    json!(in alloc; {
        "answer": "yes",
        "format": 1u32,
        "lines": lines.as_str()
    })
}

/// The answer of `repair` where these lines mend the makefile, or none are needed. U+FFFD stands for
/// bytes that aren't UTF-8. The only error is out of memory.
pub fn mended_in_json(alloc: Global, lines: &[u8]) -> Result<Vec<u8>, AllocError>
    ensures { IfOk result (λ line. line.items ≡ answer_text (mended_value lines.now)) }
{
    let value = mended_value(alloc, lines)?;
    value_line(alloc, &value)
}

/// Makes the JSON value of the text of the lines for a part of the findings; null where there are
/// none.
fn part_value(alloc: Global, part: &[u8]) -> Result<Value, AllocError>
    ensures { IfOk result (λ value. view value ≡ part_value part.now) }
{
    if part.is_empty() {
        return Ok(Value::Null);
    }
    Ok(Value::String(String::from_utf8_lossy(alloc, part)?))
}

/// Makes the JSON value of why `repair` has no lines, and of those for a part of the findings.
fn unmended_value(alloc: Global, reason: &[u8], part: &[u8]) -> Result<Value, AllocError>
    ensures { IfOk result (λ value. view value ≡ unmended_value reason.now part.now) }
{
    let reason = String::from_utf8_lossy(alloc, reason)?;
    let part = part_value(alloc, part)?;
    json!(in alloc; {
        "answer": "no",
        "format": 1u32,
        "part": part,
        "reason": reason.as_str()
    })
}

/// The answer of `repair` where nothing mends the makefile, with what is said on standard error
/// without `--json`, and the text of the lines for a part of the findings, which is empty where
/// there are none. U+FFFD stands for bytes that aren't UTF-8. The only error is out of memory.
pub fn unmended_in_json(alloc: Global, reason: &[u8], part: &[u8]) -> Result<Vec<u8>, AllocError>
    ensures { IfOk result (λ line. line.items ≡
        answer_text (unmended_value reason.now part.now)) }
{
    let value = unmended_value(alloc, reason, part)?;
    value_line(alloc, &value)
}
