//! Special targets and suffixes.

ghost use Rattle.std.specs.Prelude.{◌≡◌};
ghost use Rattle.std.specs.List.{list_all};
ghost use Rattle.mk_read.specs.Special.{special_of, is_suffix, is_suffix_byte};

use mk_read::Special;

/// What a name does as a special target, where it is a known one (the standard's `make`, "Target
/// Rules"). A name that doesn't begin with a dot isn't compared with any.
pub fn special_of(name: &str) -> Option<Special>
    ensures { result ≡ special_of name.now }
{
    match name.as_bytes() {
        [b'.', ..] => known(name),
        _ => None,
    }
}

/// What a name does as a special target, compared with all known ones.
fn known(name: &str) -> Option<Special>
    ensures { result ≡ special_of name.now }
{
    match name {
        ".SUFFIXES" => Some(Special::Suffixes),
        ".PHONY" => Some(Special::Phony),
        ".NOTPARALLEL" => Some(Special::NotParallel),
        ".POSIX" | ".WAIT" => Some(Special::Wordless),
        ".IGNORE" | ".SILENT" | ".PRECIOUS" => Some(Special::Unread),
        _ => None,
    }
}

/// Whether bytes have neither a dot nor a slash.
fn has_no_part(bytes: &[u8]) -> bool
    ensures { result ≡ list_all is_suffix_byte bytes.now }
{
    bytes.iter().all(|b| *b != b'.' && *b != b'/')
}

/// Whether a word is a suffix: a dot, and one or more bytes other than `.` and `/` (the standard's
/// `make`, "Inference Rules"). The word must be a name already.
pub fn is_suffix(word: &str) -> bool
    ensures { result ≡ is_suffix word.now }
{
    match word.as_bytes() {
        [b'.', rest @ ..] => !rest.is_empty() && has_no_part(rest),
        _ => false,
    }
}
