//! Reads texts, lists of texts and the format from JSON tokens. A value of another kind is a fault
//! with its key.

ghost use Rattle.std.specs.Prelude.{◌≡◌, ◌∷◌, ◌++◌, [], ℕ, List, Result, IfOk, OnOk, option_and_then};
ghost use Rattle.std.specs.Option.{option_map};
ghost use Rattle.std.specs.String.{string_bytes};
ghost use Rattle.serde_json.specs.Data.{Data};
ghost use Rattle.serde_json.specs.Find.{as_str, as_number, as_integer};
ghost use Rattle.mk_json.specs.Tokens.{Reads, ReadsItems};
ghost use Rattle.mk_foot.specs.declared.fault.FootFault.{FootFault};
ghost use Rattle.mk_foot.specs.Fields.{texts_of};
ghost use Rattle.mk_foot.specs.ReaderParts.{text_of, format_from, GivesTexts};
ghost use Rattle.mk_foot.specs.Steps.{Gives, each};

use crate::fault::FootFault;
use crate::format::Format;
use crate::key::Key;
use json::{Invalid, Reader};
use mk_json::laws::{items_are_read_in_order, values_take_tokens};
use mk_json::{enter_array, next_integer, next_text};
use std::alloc::{AllocError, Global};

/// A list of texts, or why there is none.
pub type Texts = Result<Vec<String>, FootFault>;

/// Copies the text that was read; `None` is `Shape` (52).
fn copy_of(alloc: Global, key: Key, text: Option<&str>) -> Result<String, FootFault>
    ensures { (value : Data) → option_map (λ found. found.now) text.entry ≡ as_str value →
        Gives string_bytes result (text_of key value) }
{
    match text {
        Some(text) => Ok(String::from_str(alloc, text)?),
        None => Err(FootFault::Shape(key)),
    }
}

/// Reads a text. It fails with `Shape` (52) if the value is no text.
pub fn read_text(
    alloc: Global,
    key: Key,
    reader: &mut Reader<'_>,
    depth: usize,
) -> Result<Result<String, FootFault>, Invalid>
    ensures { Reads (λ text value. Gives string_bytes text (text_of key value))
        depth reader.old result reader.new }
{
    let text = next_text(reader, depth)?;
    Ok(copy_of(alloc, key, text))
}

/// A list that gets a second text has capacity for this many more at once.
const MORE: usize = 15;

/// Appends a text. Many lists have a single text, so the first one is stored without spare
/// capacity.
fn push_text(texts: &mut Vec<String>, text: String) -> Result<(), AllocError>
    ensures { OnOk result (texts.new.items ≡ texts.old.items ++ text ∷ []) }
{
    if texts.is_empty() {
        texts.reserve_exact(1)?;
    } else if texts.len() == 1 {
        texts.reserve_exact(MORE)?;
    }
    texts.push(text)?;
    Ok(())
}

/// Appends a text to a list. If either is a fault, returns the first fault.
fn with_text(texts: Texts, text: Result<String, FootFault>) -> Texts
    ensures { (key : Key) (front : List Data) (value : Data) →
        GivesTexts texts (each (text_of key) front) →
        Gives string_bytes text (text_of key value) →
        GivesTexts result
        (each (text_of key) (front ++ value ∷ [])) }
{
    let mut texts = texts?;
    let text = text?;
    push_text(&mut texts, text)?;
    Ok(texts)
}

/// Reads the texts of an array whose bracket was read.
fn read_list(
    alloc: Global,
    key: Key,
    reader: &mut Reader<'_>,
    depth: usize,
) -> Result<Texts, Invalid>
    ensures { ReadsItems
        (λ texts values. GivesTexts texts (each (text_of key) values))
        depth reader.old result reader.new }
{
    items_are_read_in_order();
    values_take_tokens();
    let mut texts: Texts = Ok(Vec::new(alloc));
    'items: while !reader.take_end_array() {
        let text = read_text(alloc, key, reader, depth)?;
        texts = with_text(texts, text);
    }
    Ok(texts)
}

/// Returns the same texts. A list of several texts is moved to one without spare capacity. The only
/// error is out of memory.
fn fitted(alloc: Global, texts: Vec<String>) -> Result<Vec<String>, AllocError>
    ensures { IfOk result (λ all. all.items ≡ texts.items) }
{
    if texts.len() <= 1 {
        return Ok(texts);
    }
    let mut texts = texts;
    let mut exact = Vec::with_capacity(alloc, texts.len())?;
    exact.append(&mut texts)?;
    Ok(exact)
}

/// Applies `fitted` to a list without a fault.
fn without_room(alloc: Global, texts: Texts) -> Texts
    ensures { (defined : Result (List (List ℕ)) FootFault) →
        GivesTexts texts defined → GivesTexts result defined }
{
    let texts = texts?;
    Ok(fitted(alloc, texts)?)
}

/// Reads a list of texts. It fails with `Shape` (52) if the value is no array of texts.
pub fn read_texts(
    alloc: Global,
    key: Key,
    reader: &mut Reader<'_>,
    depth: usize,
) -> Result<Texts, Invalid>
    ensures { Reads
        (λ texts value. GivesTexts texts (texts_of key value))
        depth reader.old result reader.new }
{
    if !enter_array(reader, depth)? {
        return Ok(Err(FootFault::Shape(key)));
    }
    let texts = read_list(alloc, key, reader, depth - 1)?;
    Ok(without_room(alloc, texts))
}

/// Returns the format with a number. No number is `Shape` (52), another number `OtherFormat` (53).
fn format_of(number: Option<i128>) -> Result<Format, FootFault>
    ensures { (value : Data) → number ≡ option_and_then as_integer (as_number value) →
        Gives (λ format. format) result (format_from value) }
{
    match number {
        Some(1) => Ok(Format::One),
        Some(2) => Ok(Format::Two),
        Some(_) => Err(FootFault::OtherFormat),
        None => Err(FootFault::Shape(Key::Format)),
    }
}

/// Reads the format. It fails with `Shape` (52) or `OtherFormat` (53).
pub fn read_format(
    reader: &mut Reader<'_>,
    depth: usize,
) -> Result<Result<Format, FootFault>, Invalid>
    ensures { Reads (λ format value. Gives (λ format. format) format (format_from value))
        depth reader.old result reader.new }
{
    let number = next_integer(reader, depth)?;
    Ok(format_of(number))
}

/// Appends an element to a list. If either is a fault, returns the first fault.
pub fn with_next<T: Drop>(
    found: Result<Vec<T>, FootFault>,
    next: Result<T, FootFault>,
) -> Result<Vec<T>, FootFault>
    ensures { (part : Data → Result T FootFault) (front : List Data) (value : Data) →
        Gives (λ all. all.items) found (each part front) → Gives (λ one. one) next (part value) →
        Gives (λ all. all.items) result (each part (front ++ value ∷ [])) }
{
    let mut found = found?;
    let next = next?;
    found.push(next)?;
    Ok(found)
}
