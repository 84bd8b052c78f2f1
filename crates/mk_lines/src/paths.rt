//! Plain paths: the only spelling of a path that mkcheck accepts, so that a file has one name.

ghost use Rattle.std.specs.Prelude.{◌≡◌, true};
ghost use Rattle.std.specs.List.{slice_split, list_all};
ghost use Rattle.std.specs.Str.{is_utf8};
ghost use Rattle.mk_lines.specs.Bytes.{is_byte};
ghost use Rattle.mk_lines.specs.Paths.{is_proper, goes_up_first, are_components, is_visible, has_path_shape, is_plain_path};

use crate::bytes::cut;
use std::str;

/// The most bytes of a path.
const MAX_PATH: usize = 4096;

/// Whether a component is neither empty nor `.` nor `..`.
fn is_proper(part: &[u8]) -> bool
    ensures { result ≡ is_proper part.now }
{
    !part.is_empty() && part != b".".as_slice() && part != b"..".as_slice()
}

/// Whether each component between slashes is proper.
fn are_proper(name: &[u8]) -> bool
    ensures { result ≡ list_all is_proper (slice_split (is_byte 47) name.now) }
{
    let mut rest = Some(name);
    while let Some(text) = rest {
        let (part, after) = cut(text, b'/');
        if !is_proper(part) {
            return false;
        }
        rest = after;
    }
    true
}

/// Whether the components are any number of `..`, then proper ones only.
fn goes_up_first(name: &[u8]) -> bool
    ensures { result ≡ goes_up_first (slice_split (is_byte 47) name.now) }
{
    let mut rest = name;
    loop {
        let (part, after) = cut(rest, b'/');
        if part != b"..".as_slice() {
            return are_proper(rest);
        }
        let Some(after) = after else { return true };
        rest = after;
    }
}

/// Whether each component is proper, but for an empty one before a leading slash, or `..` at the
/// start of a relative path.
fn are_components(name: &[u8]) -> bool
    ensures { result ≡ are_components (slice_split (is_byte 47) name.now) }
{
    match cut(name, b'/') {
        ([], Some(rest)) => are_proper(rest),
        ([], None) => false,
        _ => goes_up_first(name),
    }
}

/// Whether a name holds no space and no control byte.
fn is_visible_throughout(name: &[u8]) -> bool
    ensures { result ≡ list_all is_visible name.now }
{
    name.iter().all(|b| *b > b' ' && *b != 127)
}

/// A fast test that most paths pass, with one look at each byte: all bytes are visible, the first
/// byte is no dot, the last byte is no slash, and no slash is followed by a slash or a dot. A name
/// that passes has the shape of a path; one that fails may have it too.
fn passes_fast_test(name: &[u8]) -> bool
    ensures visible { result ≡ true → list_all is_visible name.now ≡ true }
    ensures components { result ≡ true → are_components (slice_split (is_byte 47) name.now) ≡ true }
{
    let [first, rest @ ..] = name else {
        return false;
    };
    let mut before = *first;
    if before <= b' ' || before == 127 || before == b'.' {
        return false;
    }
    for byte in rest {
        let after = *byte;
        // Most bytes are greater than a slash, and then one comparison more is enough.
        if after > b'/' {
            if after == 127 {
                return false;
            }
        } else if after <= b' ' || (before == b'/' && (after == b'/' || after == b'.')) {
            return false;
        }
        before = after;
    }
    before != b'/'
}

/// Whether a name is 1 to 4,096 bytes without spaces and control bytes, and has only components
/// that a plain path may have.
fn has_path_shape(name: &[u8]) -> bool
    ensures { result ≡ has_path_shape name.now }
{
    if name.is_empty() || name.len() > MAX_PATH {
        return false;
    }
    passes_fast_test(name) || (is_visible_throughout(name) && are_components(name))
}

/// Whether bytes are a plain path: UTF-8, 1 to 4,096 bytes, without spaces and control bytes. No
/// component is empty except before a leading slash, none is `.`, and `..` comes only at the start
/// of a relative path, after nothing but `..`. So a file has no second spelling, links aside.
#[tactic(auto, unfolding(crate::specs::Paths::is_plain_path))]
pub fn is_plain_path(name: &[u8]) -> bool
    ensures { result ≡ is_plain_path name.now }
{
    has_path_shape(name) && str::from_utf8(name).is_ok()
}

/// Whether a text is a plain path. It is `is_plain_path` of the text's bytes, without checking
/// again that they are UTF-8.
#[tactic(auto, unfolding(crate::specs::Paths::is_plain_path))]
pub fn is_plain_text_path(name: &str) -> bool
    ensures { result ≡ is_plain_path name.now }
{
    has_path_shape(name.as_bytes())
}
