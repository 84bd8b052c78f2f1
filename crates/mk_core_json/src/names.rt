//! Writes names as JSON.

ghost use Rattle.std.specs.Prelude.{◌≡◌, ◌++◌, false, IfOk, OnOk};
ghost use Rattle.std.specs.List.{list_all};
ghost use Rattle.std.specs.String.{string_bytes};
ghost use Rattle.serde_json.specs.View.{view};
ghost use Rattle.serde_json.specs.Written.{compact_text};
ghost use Rattle.mk_cert_text.specs.Writing.{names_value};
ghost use Rattle.mk_repair.specs.Rows.{names_view};
ghost use Rattle.mk_core_json.specs.PlainText.{is_plain, put_between};

use crate::writing::{is_plain_text, push_comma, push_text};
use serde_json::Value;
use std::alloc::{AllocError, Global};

/// Makes the JSON value of names. The only error is out of memory.
pub fn names_value(alloc: Global, names: &[&str]) -> Result<Value, AllocError>
    ensures { IfOk result (λ value. view value ≡ names_value (names_view names.now)) }
{
    let mut texts = Vec::with_capacity(alloc, names.len())?;
    for name in names {
        texts.push(Value::try_from_str(alloc, *name)?)?;
    }
    Ok(Value::Array(texts))
}

/// Appends the text of names. The only error is out of memory.
pub fn push_names(alloc: Global, out: &mut String, names: &[&str]) -> Result<(), AllocError>
    ensures { OnOk result (string_bytes out.new ≡
        string_bytes out.old ++ compact_text (names_value (names_view names.now))) }
{
    let mut later = false;
    out.push_str("[")?;
    for name in names {
        push_comma(out, later)?;
        push_text(alloc, out, name)?;
        later = true;
    }
    out.push_str("]")
}

/// Whether the names stand in a JSON text as they are.
pub fn are_plain(names: &[&str]) -> bool
    ensures { result ≡ list_all (list_all is_plain) (names_view names.now) }
{
    for name in names {
        if !is_plain_text(name) {
            return false;
        }
    }
    true
}

/// Appends the names as they are, with this text between them. The only error is out of memory.
pub fn push_between(out: &mut String, between: &str, names: &[&str]) -> Result<(), AllocError>
    ensures { OnOk result (string_bytes out.new ≡
        string_bytes out.old ++ put_between between.now false (names_view names.now)) }
{
    let mut later = false;
    for name in names {
        if later {
            out.push_str(between)?;
        }
        out.push_str(name)?;
        later = true;
    }
    Ok(())
}
