//! The text of a refusal, in two forms.

ghost use Rattle.std.specs.Prelude.{◌≡◌, ◌++◌, [], map, IfOk, OnOk};
ghost use Rattle.std.specs.Option.{option_map, unwrap_or};
ghost use Rattle.std.specs.String.{string_bytes};
ghost use Rattle.mk_explain.specs.Explain.{named_sentence};
ghost use Rattle.mk_core_text.specs.FaultText.{in_words, no_memory, numbered, place_part, place_text, refusal, refusal_about, refusal_at, refusal_in, refusal_near, refusal_of, refusal_of_line, refusal_with, words_part, words_text};

use mk_explain::named_sentence;
use mk_lines::Name;
use mk_read::Place;
use std::alloc::{AllocError, Global};

/// How a refusal is printed.
#[derive(Clone, Copy, Debug, Drop)]
pub enum Form {
    /// `refused`, the number of the fault, the place if there is one, and the words.
    Numbered,
    /// The place if there is one, the name and the number of the fault, the words, and a sentence
    /// that says what is wrong and what to do.
    InWords,
}

/// Prints refusals in one form.
#[derive(Clone, Copy, Drop)]
pub struct Printer {
    /// The allocator of the texts.
    pub alloc: Global,
    /// The form.
    pub form: Form,
}

/// A place as `FILE:LINE`.
fn place_text(alloc: Global, place: &Place) -> Result<String, AllocError>
    ensures { IfOk result (λ text. string_bytes text ≡ place_text place.now) }
{
    let file = place.file.as_str();
    let line = place.line;
    format!(in alloc; "{file}:{line}")
}

/// Appends each word after a space.
fn push_words(out: &mut Vec<u8>, words: &[&[u8]]) -> Result<(), AllocError>
    ensures { OnOk result (out.new.items ≡
        out.old.items ++ words_text (map (λ word. word.now) words.now)) }
{
    for word in words {
        out.push(b' ')?;
        out.extend_from_slice(word)?;
    }
    Ok(())
}

/// `refused`, the number, the place if there is one, and the words, each after a space.
fn numbered(
    alloc: Global,
    number: usize,
    place: Option<&str>,
    words: &[&[u8]],
) -> Result<Vec<u8>, AllocError>
    ensures { IfOk result (λ text. text.items ≡
        numbered number (option_map (λ place. place.now) place.entry)
        (map (λ word. word.now) words.now)) }
{
    let head = match place {
        Some(place) => format!(in alloc; "refused {number} {place}")?,
        None => format!(in alloc; "refused {number}")?,
    };
    let mut text = head.into_bytes();
    push_words(&mut text, words)?;
    Ok(text)
}

/// The place with `: `, if there is one.
fn place_part(alloc: Global, place: Option<&str>) -> Result<String, AllocError>
    ensures { IfOk result (λ text. string_bytes text ≡
        place_part (option_map (λ place. place.now) place.entry)) }
{
    match place {
        Some(place) => format!(in alloc; "{place}: "),
        None => Ok(String::new(alloc)),
    }
}

/// Appends `:` and each word after a space, if there are any.
fn push_words_part(out: &mut Vec<u8>, words: &[&[u8]]) -> Result<(), AllocError>
    ensures { OnOk result (out.new.items ≡
        out.old.items ++ words_part (map (λ word. word.now) words.now)) }
{
    if words.is_empty() {
        return Ok(());
    }
    out.push(b':')?;
    push_words(out, words)
}

/// The sentence of the fault with this name; empty where there is no such fault.
fn sentence_of(name: &str) -> &'static str
    ensures { result.now ≡ unwrap_or (named_sentence name.now) [] }
{
    match named_sentence(name) {
        Some(sentence) => sentence,
        None => "",
    }
}

/// The place, the name, the number in brackets, the words, and the sentence of the fault with this
/// name.
fn in_words(
    alloc: Global,
    number: usize,
    name: &str,
    place: Option<&str>,
    words: &[&[u8]],
) -> Result<Vec<u8>, AllocError>
    ensures { IfOk result (λ text. text.items ≡
        in_words number name.now (option_map (λ place. place.now) place.entry)
        (map (λ word. word.now) words.now)) }
{
    let place = place_part(alloc, place)?;
    let mut text = format!(in alloc; "{place}{name} ({number})")?.into_bytes();
    push_words_part(&mut text, words)?;
    text.extend_from_slice(b": ")?;
    text.extend_from_slice(sentence_of(name).as_bytes())?;
    Ok(text)
}

/// The refusal in this form by the fault with this number and this name.
#[tactic(auto, unfolding(crate::specs::FaultText::refusal))]
pub fn refusal(
    printer: Printer,
    number: usize,
    name: &str,
    place: Option<&str>,
    words: &[&[u8]],
) -> Result<Vec<u8>, AllocError>
    ensures { IfOk result (λ text. text.items ≡
        refusal printer.form number name.now (option_map (λ place. place.now) place.entry)
        (map (λ word. word.now) words.now)) }
{
    match printer.form {
        Form::Numbered => numbered(printer.alloc, number, place, words),
        Form::InWords => in_words(printer.alloc, number, name, place, words),
    }
}

/// A refusal with a place and no words.
pub fn refusal_at(
    printer: Printer,
    number: usize,
    name: &str,
    place: &Place,
) -> Result<Vec<u8>, AllocError>
    ensures { IfOk result (λ text. text.items ≡ refusal_at printer.form number name.now place.now) }
{
    let place = place_text(printer.alloc, place)?;
    refusal(printer, number, name, Some(place.as_str()), &[])
}

/// A refusal with a place and one word.
pub fn refusal_of(
    printer: Printer,
    number: usize,
    name: &str,
    place: &Place,
    word: &[u8],
) -> Result<Vec<u8>, AllocError>
    ensures { IfOk result (λ text. text.items ≡
        refusal_of printer.form number name.now place.now word.now) }
{
    let place = place_text(printer.alloc, place)?;
    refusal(printer, number, name, Some(place.as_str()), &[word])
}

/// A refusal with a place and a word that is printed only in words.
pub fn refusal_about(
    printer: Printer,
    number: usize,
    name: &str,
    place: &Place,
    word: &[u8],
) -> Result<Vec<u8>, AllocError>
    ensures { IfOk result (λ text. text.items ≡
        refusal_about printer.form number name.now place.now word.now) }
{
    match printer.form {
        Form::Numbered => refusal_at(printer, number, name, place),
        Form::InWords => refusal_of(printer, number, name, place, word),
    }
}

/// A refusal with these words and with a place, if any, that is printed only in words.
pub fn refusal_near(
    printer: Printer,
    number: usize,
    name: &str,
    place: &Option<Place>,
    words: &[&[u8]],
) -> Result<Vec<u8>, AllocError>
    ensures { IfOk result (λ text. text.items ≡
        refusal_near printer.form number name.now place.now (map (λ word. word.now) words.now)) }
{
    match (printer.form, place) {
        (Form::InWords, Some(place)) => {
            let place = place_text(printer.alloc, place)?;
            refusal(printer, number, name, Some(place.as_str()), words)
        }
        _ => refusal_with(printer, number, name, words),
    }
}

/// A refusal with a line of this file and no words.
pub fn refusal_in(
    printer: Printer,
    number: usize,
    name: &str,
    file: &Name,
    line: usize,
) -> Result<Vec<u8>, AllocError>
    ensures { IfOk result (λ text. text.items ≡
        refusal_in printer.form number name.now file.now line) }
{
    let file = file.as_str();
    let place = format!(in printer.alloc; "{file}:{line}")?;
    refusal(printer, number, name, Some(place.as_str()), &[])
}

/// A refusal with these words and no place.
pub fn refusal_with(
    printer: Printer,
    number: usize,
    name: &str,
    words: &[&[u8]],
) -> Result<Vec<u8>, AllocError>
    ensures { IfOk result (λ text. text.items ≡
        refusal_with printer.form number name.now (map (λ word. word.now) words.now)) }
{
    refusal(printer, number, name, None, words)
}

/// A refusal of a line of a plan.
pub fn refusal_of_line(
    printer: Printer,
    number: usize,
    name: &str,
    line: usize,
) -> Result<Vec<u8>, AllocError>
    ensures { IfOk result (λ text. text.items ≡ refusal_of_line printer.form number name.now line) }
{
    let line = format!(in printer.alloc; "{line}")?;
    refusal_with(printer, number, name, &[b"line", line.as_bytes()])
}

/// The text that is printed for out of memory.
pub fn no_memory(alloc: Global) -> Result<Vec<u8>, AllocError>
    ensures { IfOk result (λ text. text.items ≡ no_memory) }
{
    Vec::from_slice(alloc, b"want of memory")
}
