//! Reads JSON values token by token, without building a tree of values.
//!
//! Each `depth` says how deep arrays and objects may still nest. A value that nests deeper is
//! `Invalid`.

ghost use Rattle.std.specs.Prelude.{◌≡◌, ◌<◌, ◌∷◌, ⊤, None, MatchOption, option_and_then};
ghost use Rattle.std.specs.Option.{option_map};
ghost use Rattle.json.specs.Reads.{token_of};
ghost use Rattle.serde_json.specs.Find.{as_str, as_number, as_integer};
ghost use Rattle.serde_json.specs.Read.{max_depth, read};
ghost use Rattle.mk_json.specs.Reading.{json_of};
ghost use Rattle.mk_json.specs.Tokens.{Reads, ReadsItems, ReadsMembers, EntersArray, EntersObject};

use crate::numbers::number_of;
use json::{Invalid, Reader, Token};

/// The maximum nesting depth of arrays and objects.
pub const MAX_DEPTH: usize = 127;

/// Returns the bytes as text, or `None` if they aren't UTF-8. JSON is read from this text.
pub fn text_from_utf8(bytes: &[u8]) -> Option<&str>
    ensures { MatchOption result (json_of bytes.now ≡ None)
        (λ text. json_of bytes.now ≡ read text.now) }
{
    match std::str::from_utf8(bytes) {
        Ok(text) => Some(text),
        Err(_) => None,
    }
}

/// Skips the rest of a value whose first token was read.
#[cycle(skip)]
fn skip_rest(reader: &mut Reader<'_>, token: Token<'_>, depth: usize) -> Result<(), Invalid>
    ensures { Reads (λ _ _. ⊤) depth (token_of token.entry ∷ reader.old) result reader.new }
{
    match token {
        Token::String(_) | Token::Bool(_) | Token::Null => Ok(()),
        Token::Number(text) => match number_of(text) {
            Some(_) => Ok(()),
            None => Err(Invalid),
        },
        Token::EndObject | Token::EndArray | Token::Key(_) | Token::Bad => Err(Invalid),
        Token::BeginArray => {
            if depth == 0 {
                return Err(Invalid);
            }
            skip_items(reader, depth - 1)
        }
        Token::BeginObject => {
            if depth == 0 {
                return Err(Invalid);
            }
            skip_members(reader, depth - 1)
        }
    }
}

/// Skips the values of an array whose bracket was read, and its closing bracket.
#[cycle(skip)]
fn skip_items(reader: &mut Reader<'_>, depth: usize) -> Result<(), Invalid>
    ensures { ReadsItems (λ _ _. ⊤) depth reader.old result reader.new }
{
    'items: while !reader.take_end_array() {
        skip_value(reader, depth)?;
    }
    Ok(())
}

/// Skips the members of an object whose brace was read, and its closing brace.
#[cycle(skip)]
fn skip_members(reader: &mut Reader<'_>, depth: usize) -> Result<(), Invalid>
    ensures { ReadsMembers (λ _ _. ⊤) depth reader.old result reader.new }
{
    'members: while let Some(_) = reader.next_key()? {
        skip_value(reader, depth)?;
    }
    Ok(())
}

/// Skips the next value. It returns `Invalid` if there is no valid value.
#[cycle(skip)]
pub fn skip_value(reader: &mut Reader<'_>, depth: usize) -> Result<(), Invalid>
    ensures { Reads (λ _ _. ⊤) depth reader.old result reader.new }
{
    let token = reader.next().ok_or(Invalid)?;
    skip_rest(reader, token, depth)
}

/// Reads the next value and returns its text if it is a string. Another value is skipped, and
/// `None` is returned. It returns `Invalid` if there is no valid value.
pub fn next_text<'a>(reader: &mut Reader<'a>, depth: usize) -> Result<Option<&'a str>, Invalid>
    ensures { Reads (λ text value. option_map (λ found. found.now) text ≡ as_str value)
        depth reader.old result reader.new }
{
    let token = reader.next().ok_or(Invalid)?;
    match token {
        Token::String(text) => Ok(Some(text)),
        other => {
            skip_rest(reader, other, depth)?;
            Ok(None)
        }
    }
}

/// Reads the next value and returns it if it is a number that `serde_json` keeps as an integer.
/// Another value is skipped, and `None` is returned. It returns `Invalid` if there is no valid
/// value.
pub fn next_integer(reader: &mut Reader<'_>, depth: usize) -> Result<Option<i128>, Invalid>
    ensures { Reads (λ integer value. integer ≡ option_and_then as_integer (as_number value))
        depth reader.old result reader.new }
{
    let token = reader.next().ok_or(Invalid)?;
    match token {
        Token::Number(text) => match number_of(text) {
            Some(number) => Ok(number.as_i128()),
            None => Err(Invalid),
        },
        other => {
            skip_rest(reader, other, depth)?;
            Ok(None)
        }
    }
}

/// Reads the opening bracket if the next value is an array, and returns `true`; its values come
/// next. Another value is skipped, and `false` is returned. It returns `Invalid` if there is no
/// valid value, or no array may nest here.
pub fn enter_array(reader: &mut Reader<'_>, depth: usize) -> Result<bool, Invalid>
    ensures { EntersArray depth reader.old result reader.new }
{
    let token = reader.next().ok_or(Invalid)?;
    match token {
        Token::BeginArray => {
            if depth == 0 {
                return Err(Invalid);
            }
            Ok(true)
        }
        other => {
            skip_rest(reader, other, depth)?;
            Ok(false)
        }
    }
}

/// Reads the opening brace if the next value is an object, and returns `true`; its members come
/// next. Another value is skipped, and `false` is returned. It returns `Invalid` if there is no
/// valid value, or no object may nest here.
pub fn enter_object(reader: &mut Reader<'_>, depth: usize) -> Result<bool, Invalid>
    ensures { EntersObject depth reader.old result reader.new }
{
    let token = reader.next().ok_or(Invalid)?;
    match token {
        Token::BeginObject => {
            if depth == 0 {
                return Err(Invalid);
            }
            Ok(true)
        }
        other => {
            skip_rest(reader, other, depth)?;
            Ok(false)
        }
    }
}
