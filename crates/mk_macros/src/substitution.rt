//! Replaces the words of a value: `$(N:old=new)`.

ghost use Rattle.std.specs.Prelude.{◌≡◌, ◌⊎◌, ◌<◌, ◌≤◌, ◌&&◌, not, [], ◌∷◌, ◌++◌, filter, length, unwrap_or, IfErr, IfOk, IfSome, OnOk, if◌then◌else◌};
ghost use Rattle.std.specs.List.{list_any, before_first, after_first};
ghost use Rattle.std.specs.Option.{option_map};
ghost use Rattle.mk_lines.specs.Words.{is_word, words};
ghost use Rattle.mk_macros.specs.declared.fault.MacroFault.TheVariants.{ValueTooLong, Memory};
ghost use Rattle.mk_macros.specs.Substitution.{is_percent, is_between, part_text, with_stem, with_pattern_replaced, with_end_replaced, replaced, substituted};

use crate::bytes::{begins_with, ends_with, first_blank, first_place};
use crate::fault::MacroFault;
use std::alloc::AllocError;
use std::marker::Model;

/// A text split at its first `%`, seen by contracts as the text.
#[derive(Drop)]
struct PatternText<'a> {
    text: &'a [u8],
    has_percent: bool,
    before: &'a [u8],
    after: &'a [u8],
}

impl<'a> Model for PatternText<'a> {
    ghost use Rattle.std.specs.Prelude.{◌≡◌, List, ℕ};
    ghost use Rattle.std.specs.List.{list_any, before_first, after_first};
    ghost use Rattle.mk_macros.specs.Substitution.{is_percent};

    ghost Value = { List ℕ };

    ghost view = { λ cut. cut.text.now };

    ghost invariant = { λ cut. (cut.has_percent ≡ list_any is_percent cut.text.now) ×
        (cut.before.now ≡ before_first is_percent cut.text.now) ×
        (cut.after.now ≡ after_first is_percent cut.text.now) };
}

impl<'a> PatternText<'a> {
    /// Splits a text at its first `%`.
    fn new(text: &'a [u8]) -> PatternText<'a>
        ensures { result ≡ text.entry.now }
    {
        let at = first_place(b'%', text);
        if at == text.len() {
            return PatternText {
                text,
                has_percent: false,
                before: text,
                after: &[],
            };
        }
        PatternText {
            text,
            has_percent: true,
            before: &text[..at],
            after: &text[at + 1..],
        }
    }

    /// Whether the text has a `%`.
    fn has_percent(&self) -> bool
        ensures { result ≡ list_any is_percent self.now }
    {
        self.has_percent
    }

    /// The text before the first `%`, or the whole text where there is none.
    fn before(&self) -> &[u8]
        ensures { result.now ≡ before_first is_percent self.now }
    {
        self.before
    }

    /// The text after the first `%`; empty where there is none.
    fn after(&self) -> &[u8]
        ensures { result.now ≡ after_first is_percent self.now }
    {
        self.after
    }

    fn text(&self) -> &[u8]
        ensures { result.now ≡ self.now }
    {
        self.text
    }
}

/// Appends the new text, with its first `%` replaced by the stem.
fn push_with_stem(into: &mut Vec<u8>, stem: &[u8], new: &PatternText) -> Result<(), AllocError>
    ensures { OnOk result (into.new.items ≡ into.old.items ++ with_stem stem.now new.now) }
{
    if !new.has_percent() {
        into.extend_from_slice(new.text())?;
        return Ok(());
    }
    into.extend_from_slice(new.before())?;
    into.extend_from_slice(stem)?;
    into.extend_from_slice(new.after())?;
    Ok(())
}

/// Whether a word begins with `front` and ends with `back`, without overlap.
fn is_between(front: &[u8], back: &[u8], word: &[u8]) -> bool
    ensures { result ≡ is_between front.now back.now word.now }
{
    front.len() + back.len() <= word.len() && begins_with(front, word) && ends_with(back, word)
}

/// Appends a word replaced by a pattern: where it begins with `front` and ends with `back`, the new
/// text, its `%` replaced by what is between them; else the word unchanged.
fn push_by_pattern(
    into: &mut Vec<u8>,
    front: &[u8],
    back: &[u8],
    new: &PatternText,
    word: &[u8],
) -> Result<(), AllocError>
    ensures { OnOk result (into.new.items ≡
        into.old.items ++ with_pattern_replaced front.now back.now new.now word.now) }
{
    if !is_between(front, back, word) {
        into.extend_from_slice(word)?;
        return Ok(());
    }
    let without_back = &word[..word.len() - back.len()];
    push_with_stem(into, &without_back[front.len()..], new)?;
    Ok(())
}

/// Appends a word. Where it ends with `old`, that end is replaced by `new`.
fn push_by_end(into: &mut Vec<u8>, old: &[u8], new: &[u8], word: &[u8]) -> Result<(), AllocError>
    ensures { OnOk result (into.new.items ≡
        into.old.items ++ with_end_replaced old.now new.now word.now) }
{
    if !ends_with(old, word) {
        into.extend_from_slice(word)?;
        return Ok(());
    }
    into.extend_from_slice(&word[..word.len() - old.len()])?;
    into.extend_from_slice(new)?;
    Ok(())
}

/// Appends a word, replaced or unchanged.
fn push_replaced(
    into: &mut Vec<u8>,
    old: &PatternText,
    new: &PatternText,
    word: &[u8],
) -> Result<(), AllocError>
    ensures { OnOk result (into.new.items ≡ into.old.items ++ replaced old.now new.now word.now) }
{
    if old.has_percent() {
        push_by_pattern(into, old.before(), old.after(), new, word)?;
        return Ok(());
    }
    push_by_end(into, old.text(), new.text(), word)?;
    Ok(())
}

/// Appends a word, replaced or unchanged, after a space where it isn't the first.
fn push_next(
    into: &mut Vec<u8>,
    is_first: bool,
    old: &PatternText,
    new: &PatternText,
    word: &[u8],
) -> Result<(), AllocError>
    ensures { OnOk result (into.new.items ≡
        into.old.items ++
        (if is_first then replaced old.now new.now word.now else 32 ∷
        replaced old.now new.now word.now)) }
{
    if !is_first {
        into.push(b' ')?;
    }
    push_replaced(into, old, new, word)?;
    Ok(())
}

/// Appends what a part of a value between blanks becomes: nothing where it is empty, else its word.
/// Returns whether no word was appended so far.
fn push_part(
    into: &mut Vec<u8>,
    is_first: bool,
    old: &PatternText,
    new: &PatternText,
    part: &[u8],
) -> Result<bool, AllocError>
    ensures { IfOk result (λ none. (none ≡ is_first && not (is_word part.now)) ×
        (into.new.items ≡ into.old.items ++
        part_text is_first (replaced old.now new.now) part.now)) }
{
    if part.is_empty() {
        return Ok(is_first);
    }
    push_next(into, is_first, old, new, part)?;
    Ok(false)
}

/// The part of a text before its first blank, and the text behind that blank: `None` where there is
/// no blank.
fn cut_at_blank(text: &[u8]) -> (&[u8], Option<&[u8]>)
    ensures words { words text.now ≡ filter is_word (result.0.now ∷ []) ++
        unwrap_or (option_map (λ behind. words behind.now) result.1) [] }
    ensures shorter { IfSome result.1 (λ behind. length behind.now < length text.now) }
{
    let at = first_blank(text);
    if at == text.len() {
        return (text, None);
    }
    (&text[..at], Some(&text[at + 1..]))
}

/// Appends the words of a value, separated by one space, each replaced as `$(N:old=new)` says:
/// where a word ends with `old`, that end is replaced by `new`; where `old` has a `%`, as a
/// pattern. Other words are unchanged.
///
/// Fails with `ValueTooLong` (15) exactly where the result is longer than `room` bytes, at most a
/// word after that is known, or with `Memory`, out of memory. After an error the contents of `into`
/// are unspecified.
pub fn push_substituted(
    into: &mut Vec<u8>,
    room: usize,
    old: &[u8],
    new: &[u8],
    value: &[u8],
) -> Result<(), MacroFault>
    ensures ok { OnOk result (into.new.items ≡
        into.old.items ++ substituted old.now new.now value.now) }
    ensures fits { OnOk result (length (substituted old.now new.now value.now) ≤ room) }
    ensures err { IfErr result (λ fault. (fault ≡ Memory) ⊎
        ((fault ≡ ValueTooLong) × (room < length (substituted old.now new.now value.now)))) }
{
    let old_cut = PatternText::new(old);
    let new_cut = PatternText::new(new);
    let start = into.len();
    let mut is_first = true;
    let mut rest = value;
    'parts: loop {
        let (part, behind) = cut_at_blank(rest);
        is_first = push_part(into, is_first, &old_cut, &new_cut, part)?;
        if into.len() - start > room {
            return Err(MacroFault::ValueTooLong);
        }
        let Some(behind) = behind else {
            return Ok(());
        };
        rest = behind;
    }
}
