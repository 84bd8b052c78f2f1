//! Reads certificates.

ghost use Rattle.std.specs.Prelude.{◌≡◌, true, is_some};
ghost use Rattle.serde_json.specs.Data.{Data, object, Members, no_members, put};
ghost use Rattle.serde_json.specs.Find.{as_object};
ghost use Rattle.mk_json.specs.Tokens.{Reads, ReadsMembers};
ghost use Rattle.mk_cert_text.specs.CertificateParts.{IsOf, format_from};
ghost use Rattle.mk_cert_text.specs.Reading.{certificate_in, certificate_from};
ghost use Rattle.mk_cert_text.specs.Steps.{Gives};

use crate::certificate::Certificate;
use crate::fault::CertTextFault;
use crate::fields::read_names;
use crate::key::Key;
use crate::packed_names::PackedNames;
use crate::reading_ways::{WaysResult, read_ways};
use json::{Invalid, Reader, Scratch};
use mk_json::laws::{last_value_counts, members_are_read_in_order, values_take_tokens, whole_text};
use mk_json::{MAX_DEPTH, enter_object, next_integer, skip_value, text_from_utf8};
use std::alloc::Global;

/// What the members of a certificate that were read so far give: for each key its last value or a
/// fault, and whether there is no other key.
#[derive(Drop)]
struct CertificateParts {
    format: Result<(), CertTextFault>,
    goals: Result<PackedNames, CertTextFault>,
    ways: WaysResult,
    alone: bool,
}

/// The parts of a certificate without members.
fn no_parts() -> CertificateParts
    ensures { IsOf result (object no_members) }
{
    CertificateParts {
        format: Err(CertTextFault::Shape(Key::Format)),
        goals: Err(CertTextFault::Shape(Key::Goals)),
        ways: Err(CertTextFault::Shape(Key::Ways)),
        alone: true,
    }
}

/// Reads the format, which must be the whole number 1.
fn read_format(reader: &mut Reader<'_>, depth: usize) -> Result<Result<(), CertTextFault>, Invalid>
    ensures { Reads (λ format value. Gives (λ done. done) format (format_from value))
        depth reader.old result reader.new }
{
    match next_integer(reader, depth)? {
        Some(1) => Ok(Ok(())),
        _ => Ok(Err(CertTextFault::Shape(Key::Format))),
    }
}

/// Reads the value under a key of a certificate.
fn read_part(
    alloc: Global,
    key: &str,
    parts: &mut CertificateParts,
    reader: &mut Reader<'_>,
    depth: usize,
) -> Result<(), Invalid>
    ensures { Reads (λ _ value. (members : Members) → IsOf parts.old (object members) →
        IsOf parts.new (object (put key.now value members)))
        depth reader.old result reader.new }
{
    last_value_counts();
    match key {
        "format" => {
            parts.format = read_format(reader, depth)?;
            Ok(())
        }
        "goals" => {
            parts.goals = read_names(alloc, Key::Goals, reader, depth)?;
            Ok(())
        }
        "ways" => {
            parts.ways = read_ways(alloc, reader, depth)?;
            Ok(())
        }
        _ => {
            skip_value(reader, depth)?;
            parts.alone = false;
            Ok(())
        }
    }
}

/// Reads the members of a certificate whose brace was read.
fn read_parts(
    alloc: Global,
    reader: &mut Reader<'_>,
    depth: usize,
) -> Result<CertificateParts, Invalid>
    ensures { ReadsMembers (λ parts members. IsOf parts (object members))
        depth reader.old result reader.new }
{
    members_are_read_in_order();
    values_take_tokens();
    let mut parts = no_parts();
    'members: while let Some(key) = reader.next_key()? {
        read_part(alloc, key, &mut parts, reader, depth)?;
    }
    Ok(parts)
}

/// Returns the certificate that these parts give. Faults come in this order: the known keys,
/// another key, the ways.
#[tactic(auto, unfolding(crate::specs::Reading::certificate_in))]
fn certificate_of(parts: CertificateParts) -> Result<Certificate, CertTextFault>
    ensures { (whole : Data) → is_some (as_object whole) ≡ true → IsOf parts whole →
        Gives (λ certificate. certificate) result (certificate_in whole) }
{
    let CertificateParts {
        format,
        goals,
        ways,
        alone,
    } = parts;
    format?;
    let goals = goals?;
    let entries = ways?;
    if !alone {
        return Err(CertTextFault::Shape(Key::Unknown));
    }
    let ways = entries?;
    Ok(Certificate { goals, ways })
}

/// Reads a certificate. A value that is no object is `Shape` (72).
fn read_value(
    alloc: Global,
    reader: &mut Reader<'_>,
    depth: usize,
) -> Result<Result<Certificate, CertTextFault>, Invalid>
    ensures { Reads (λ certificate value.
        Gives (λ certificate. certificate) certificate (certificate_in value))
        depth reader.old result reader.new }
{
    if !enter_object(reader, depth)? {
        return Ok(Err(CertTextFault::Shape(Key::Top)));
    }
    let parts = read_parts(alloc, reader, depth - 1)?;
    Ok(certificate_of(parts))
}

/// Reads a certificate from bytes, or returns the first fault. On an error nothing is returned.
///
/// A certificate is a JSON object with exactly the keys `format` (the whole number 1), `goals` (a
/// list of names, in order) and `ways` (a list of objects with exactly the keys `end`, `file`,
/// `path` and `recipe`, in any order). `end` is `written`, `source` or `always`, `path` is a list
/// of names, and all names are plain paths. White space is allowed, also after the object. If a key
/// occurs twice, its last value counts.
///
/// The checks come in this order:
///
/// 1. `NotJson` (71);
/// 2. `Shape` (72) with `top`, the keys of the object in the order above, then any other key;
/// 3. `Shape` (72) for each way: `ways` if it is no object, its keys in the order above, then any
/// other key.
///
/// A name is checked where its key is. `Memory` may come at any time. The file is read token by
/// token, so memory use stays near the size of the bytes and the certificate.
#[tactic(auto, unfolding(crate::specs::Reading::certificate_from))]
pub fn read_certificate(alloc: Global, bytes: &[u8]) -> Result<Certificate, CertTextFault>
    ensures { Gives (λ certificate. certificate) result (certificate_from bytes.now) }
{
    whole_text();
    let Some(text) = text_from_utf8(bytes) else {
        return Err(CertTextFault::NotJson);
    };
    let mut scratch = Scratch::new(alloc);
    let Ok(mut reader) = Reader::new(text, &mut scratch) else {
        return Err(CertTextFault::Memory);
    };
    let Ok(certificate) = read_value(alloc, &mut reader, MAX_DEPTH) else {
        return Err(CertTextFault::NotJson);
    };
    if reader.next().is_some() {
        return Err(CertTextFault::NotJson);
    }
    certificate
}
