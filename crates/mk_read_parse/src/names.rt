//! Turns words into names.

ghost use Rattle.std.specs.Prelude.{◌≡◌, true, false, map, IfOk, IfErr, MatchOption};
ghost use Rattle.std.specs.List.{list_all, list_any};
ghost use Rattle.std.specs.Str.{is_utf8};
ghost use Rattle.mk_lines.specs.Paths.{is_plain_path};
ghost use Rattle.mk_lines.specs.Words.{words};
ghost use Rattle.mk_read.specs.Names.{is_make_name, is_bracket, name_of, names_of};
ghost use Rattle.mk_read.specs.Special.{is_special, is_capital};
ghost use Rattle.std.specs.String.{string_bytes};
ghost use Rattle.mk_read.specs.Following.{IsOfText};
ghost use Rattle.mk_read.specs.Steps.{Gives};

use mk_lines::laws::{words_are_longest_parts, words_come_in_order};
use mk_lines::{Name, is_plain_path, words};
use mk_read::{Place, ReadFault, Word, has_reserved};
use std::alloc::{AllocError, Global};
use std::str;

/// The bytes as text, where they are UTF-8.
fn utf8(bytes: &[u8]) -> Option<&str>
    ensures { MatchOption result (is_utf8 bytes.now ≡ false) (λ text. (text.now ≡ bytes.now) ×
        (is_utf8 bytes.now ≡ true)) }
{
    str::from_utf8(bytes).ok()
}

/// The bytes as text, where they are a plain path.
fn plain_path(name: &[u8]) -> Option<&str>
    ensures { MatchOption result (is_plain_path name.now ≡ false) (λ text. (text.now ≡ name.now) ×
        (is_plain_path name.now ≡ true)) }
{
    if is_plain_path(name) {
        utf8(name)
    } else {
        None
    }
}

/// Whether a word has a bracket, as the name of an archive's member has.
fn has_bracket(word: &[u8]) -> bool
    ensures { result ≡ list_any is_bracket word.now }
{
    word.iter().any(|b| *b == b'(' || *b == b')')
}

/// The word as a name of a makefile: a plain path without reserved bytes.
#[tactic(auto, unfolding(mk_read::specs::Names::is_make_name))]
fn make_name(word: &[u8]) -> Option<&str>
    ensures { MatchOption result (is_make_name word.now ≡ false) (λ name. (name.now ≡ word.now) ×
        (is_make_name word.now ≡ true)) }
{
    if has_reserved(word) {
        None
    } else {
        plain_path(word)
    }
}

/// A word as a name (the standard's `make`, "Target Rules" and "Libraries"). Fails with
/// `ArchiveMember` (28) where it has a bracket, else with `BadName` (27) where it is no name, or
/// with `Memory`, out of memory.
#[tactic(auto, unfolding(mk_read::specs::Names::name_of))]
pub fn name_of<'a>(
    alloc: Global,
    file: &Name,
    line: usize,
    word: &'a [u8],
) -> Result<&'a str, ReadFault>
    ensures exact { Gives (λ name.
        name.now) result (name_of (record { file = file.now; line = line }) word.now) }
    ensures own { IfErr result IsOfText }
{
    // A name has no bracket, so most words need only this test.
    if let Some(name) = make_name(word) {
        return Ok(name);
    }
    let is_member = has_bracket(word);
    let place = Place {
        file: Name::new(alloc, file.as_str())?,
        line,
    };
    let word = Word::new(alloc, word)?;
    Err(if is_member {
        ReadFault::ArchiveMember(place, word)
    } else {
        ReadFault::BadName(place, word)
    })
}

/// The names in a part of a line that has been expanded (the standard's `make`, "Target Rules").
/// For each word in turn, fails with `ArchiveMember` (28) where it has a bracket, else with
/// `BadName` (27) where it is no name; or with `Memory`, out of memory.
pub fn names_of(
    alloc: Global,
    file: &Name,
    line: usize,
    text: &[u8],
) -> Result<Vec<String>, ReadFault>
    ensures exact { Gives (λ found.
        map string_bytes found.items) result (names_of (record { file = file.now; line = line })
        (words text.now)) }
    ensures own { IfErr result IsOfText }
{
    words_are_longest_parts();
    words_come_in_order();
    let spans = words(alloc, text)?;
    let mut names = Vec::with_capacity(alloc, spans.len())?;
    for span in &spans {
        let name = name_of(alloc, file, line, &text[span.start..span.end])?;
        names.push(String::from_str(alloc, name)?)?;
    }
    Ok(names)
}

/// Whether a name has the form of a special target: a dot and three or more of `A-Z` and `_` (the
/// standard's `make`, "Target Rules").
pub fn is_special(name: &str) -> bool
    ensures { result ≡ is_special name.now }
{
    match name.as_bytes() {
        [b'.', rest @ ..] => rest.len() >= 3 && is_capital_throughout(rest),
        _ => false,
    }
}

fn is_capital_throughout(word: &[u8]) -> bool
    ensures { result ≡ list_all is_capital word.now }
{
    word.iter().all(|b| b.is_ascii_uppercase() || *b == b'_')
}
