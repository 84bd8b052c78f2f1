//! Writes a yes as JSON.

ghost use Rattle.std.specs.Prelude.{◌≡◌, ◌++◌, IfOk, OnOk};
ghost use Rattle.std.specs.Fmt.{decimal};
ghost use Rattle.std.specs.String.{string_bytes};
ghost use Rattle.serde_json.specs.Written.{compact_text};
ghost use Rattle.mk_cert_text.specs.Writing.{value_of};
ghost use Rattle.mk_core_json.specs.AnswerValue.{answer_text, yes_value};

use crate::writing::line_of;
use mk_cert_text::{Certificate, certificate_text};
use std::alloc::{AllocError, Global};

/// Appends a number.
fn push_number(text: &mut String, number: u128) -> Result<(), AllocError>
    ensures { OnOk result (string_bytes text.new ≡ string_bytes text.old ++ decimal number) }
{
    write!(text, "{number}")
}

/// Appends the text of a certificate.
fn push_certificate(
    alloc: Global,
    text: &mut String,
    certificate: &Certificate,
) -> Result<(), AllocError>
    ensures { OnOk result (string_bytes text.new ≡
        string_bytes text.old ++ compact_text (value_of certificate.now)) }
{
    let written = certificate_text(alloc, certificate)?;
    text.push_str(written.as_str())
}

/// The text of the answer yes.
fn yes_value_text(
    alloc: Global,
    certificate: &Certificate,
    recipes: usize,
    reads: u128,
) -> Result<String, AllocError>
    ensures { IfOk result (λ text. string_bytes text ≡
        compact_text (yes_value certificate.now recipes reads)) }
{
    let mut text = String::from_str(alloc, "{\"answer\":\"yes\",\"certificate\":")?;
    push_certificate(alloc, &mut text, certificate)?;
    text.push_str(",\"format\":1,\"reads\":")?;
    push_number(&mut text, reads)?;
    text.push_str(",\"recipes\":")?;
    push_number(&mut text, recipes as u128)?;
    text.push_str("}")?;
    Ok(text)
}

/// What is printed for the answer yes. The only error is out of memory.
pub fn yes_text(
    alloc: Global,
    certificate: &Certificate,
    recipes: usize,
    reads: u128,
) -> Result<Vec<u8>, AllocError>
    ensures { IfOk result (λ text. text.items ≡
        answer_text (yes_value certificate.now recipes reads)) }
{
    let text = yes_value_text(alloc, certificate, recipes, reads)?;
    line_of(text)
}
