//! Writes JSON values.

ghost use Rattle.std.specs.Prelude.{◌≡◌, ◌∷◌, ◌++◌, [], false, IfOk, OnOk};
ghost use Rattle.std.specs.Fmt.{decimal};
ghost use Rattle.std.specs.List.{list_all};
ghost use Rattle.std.specs.String.{string_bytes};
ghost use Rattle.serde_json.specs.Data.{string};
ghost use Rattle.serde_json.specs.View.{view};
ghost use Rattle.serde_json.specs.Written.{comma_if, compact_text, has_float};
ghost use Rattle.mk_core_json.specs.PlainText.{is_plain};

use itoa::Buffer;
use serde_json::Value;
use std::alloc::{AllocError, Global};

/// Appends the text of a value. The only error is out of memory.
pub fn push_value(alloc: Global, text: &mut String, value: &Value) -> Result<(), AllocError>
    requires { has_float (view value.now) ≡ false }
    ensures { OnOk result (string_bytes text.new ≡
        string_bytes text.old ++ compact_text (view value.now)) }
{
    let written = value.to_string(alloc)?;
    text.push_str(written.as_str())
}

/// The bytes of a text, and a newline. The only error is out of memory.
pub fn line_of(text: String) -> Result<Vec<u8>, AllocError>
    ensures { IfOk result (λ line. line.items ≡ string_bytes text ++ 10 ∷ []) }
{
    let mut line = text.into_bytes();
    line.push(b'\n')?;
    Ok(line)
}

/// Appends a comma if `later` is true. The only error is out of memory.
pub fn push_comma(text: &mut String, later: bool) -> Result<(), AllocError>
    ensures { OnOk result (string_bytes text.new ≡ string_bytes text.old ++ comma_if later) }
{
    if later {
        text.push_str(",")?;
    }
    Ok(())
}

/// Appends a number. The only error is out of memory.
pub fn push_number(text: &mut String, number: usize) -> Result<(), AllocError>
    ensures { OnOk result (string_bytes text.new ≡ string_bytes text.old ++ decimal number) }
{
    let mut buffer = Buffer::new();
    text.push_str(buffer.format(number))
}

/// Whether the byte stands in a JSON text as it is.
fn is_plain(byte: u8) -> bool
    ensures { result ≡ is_plain byte }
{
    32 <= byte && byte != b'"' && byte != b'\\'
}

/// Whether the text stands in a JSON text as it is.
pub fn is_plain_text(text: &str) -> bool
    ensures { result ≡ list_all is_plain text.now }
{
    text.as_bytes().iter().all(|byte| is_plain(*byte))
}

/// Appends a text in quotes. The only error is out of memory.
pub fn push_text(alloc: Global, out: &mut String, text: &str) -> Result<(), AllocError>
    ensures { OnOk result (string_bytes out.new ≡
        string_bytes out.old ++ compact_text (string text.now)) }
{
    if !is_plain_text(text) {
        let value = Value::try_from_str(alloc, text)?;
        return push_value(alloc, out, &value);
    }
    out.push_str("\"")?;
    out.push_str(text)?;
    out.push_str("\"")
}
