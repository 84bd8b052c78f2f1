//! The command of a plan line.

ghost use Rattle.std.specs.Prelude.{◌≡◌, true, false, map, option_map, IfOk, MatchOption};
ghost use Rattle.std.specs.List.{list_all};
ghost use Rattle.std.specs.Str.{is_utf8};
ghost use Rattle.std.specs.Char.{is_ascii_digit};
ghost use Rattle.mk_lines.specs.Words.{words};
ghost use Rattle.mk_world_plan.specs.PlanReading.{parse_number, parse_jobs, parse_content, single_word, parse_make, parse_look, parse_put, parse_edit, parse_removed, parse_break, parse_arguments, parse_words, parse_line};

use crate::keyword::{Keyword, keyword_of};
use mk_lines::laws::{words_are_longest_parts, words_come_in_order};
use mk_lines::{Name, Names};
use mk_world::PlanCommand;
use std::alloc::{AllocError, Global};
use std::str;

/// The most jobs of a make.
const MAX_JOBS: u64 = 4096;

/// Whether a word has only digits.
fn is_digits(word: &str) -> bool
    ensures { result ≡ list_all is_ascii_digit word.now }
{
    word.as_bytes().iter().all(|b| b.is_ascii_digit())
}

/// The number that a word of digits gives, if it is below 2^64.
fn parse_number(word: &str) -> Option<u64>
    ensures { result ≡ parse_number word.now }
{
    if !is_digits(word) {
        return None;
    }
    word.parse().ok()
}

/// The number of jobs that a word gives, if it is from 1 to 4,096.
fn parse_jobs(word: &str) -> Option<usize>
    ensures { result ≡ parse_jobs word.now }
{
    let jobs = parse_number(word)?;
    if jobs == 0 || jobs > MAX_JOBS {
        return None;
    }
    Some(jobs as usize)
}

/// The optional content after the names: nothing, or one number. `None` if the words are malformed.
fn parse_content(words: &[&str]) -> Option<Option<u64>>
    ensures { result ≡ parse_content (map (λ word. word.now) words.now) }
{
    match words {
        [] => Some(None),
        [word] => Some(Some(parse_number(word)?)),
        _ => None,
    }
}

/// The bytes as text, if they are UTF-8.
fn utf8(bytes: &[u8]) -> Option<&str>
    ensures { MatchOption result (is_utf8 bytes.now ≡ false) (λ text. (text.now ≡ bytes.now) ×
        (is_utf8 bytes.now ≡ true)) }
{
    str::from_utf8(bytes).ok()
}

/// The words of a line. The only error is out of memory.
fn words<'a>(alloc: Global, line: &'a [u8]) -> Result<Vec<&'a [u8]>, AllocError>
    ensures { IfOk result (λ found. map (λ word. word.now) found.items ≡ words line.now) }
{
    words_are_longest_parts();
    words_come_in_order();
    let spans = mk_lines::words(alloc, line)?;
    let mut found = Vec::new(alloc);
    for span in &spans {
        found.push(&line[span.start..span.end])?;
    }
    Ok(found)
}

/// The words as text, or `None` if one isn't UTF-8. The only error is out of memory.
fn texts_of<'a>(alloc: Global, words: &[&'a [u8]]) -> Result<Option<Vec<&'a str>>, AllocError>
    ensures { IfOk result (λ found. MatchOption found
        (list_all is_utf8 (map (λ word. word.now) words.now) ≡ false)
        (λ texts. (map (λ text. text.now) texts.items ≡ map (λ word. word.now) words.now) ×
        (list_all is_utf8 (map (λ word. word.now) words.now) ≡ true))) }
{
    let mut texts = Vec::with_capacity(alloc, words.len())?;
    for word in words {
        match utf8(word) {
            Some(text) => texts.push(text)?,
            None => return Ok(None),
        }
    }
    Ok(Some(texts))
}

/// Copies of the words, as names. The only error is out of memory.
fn names_of(alloc: Global, words: &[&str]) -> Result<Names, AllocError>
    ensures { IfOk result (λ names. names ≡ map (λ word. word.now) words.now) }
{
    let mut names = Vec::with_capacity(alloc, words.len())?;
    for word in words {
        names.push(Name::new(alloc, word)?)?;
    }
    Ok(Names::new(names))
}

/// The word as a name, if there is exactly one. The only error is out of memory.
fn single_word(alloc: Global, words: &[&str]) -> Result<Option<Name>, AllocError>
    ensures { IfOk result (λ found. found ≡ single_word (map (λ word. word.now) words.now)) }
{
    match words {
        [word] => Ok(Some(Name::new(alloc, word)?)),
        _ => Ok(None),
    }
}

/// The command of a line `make` with these words after it.
fn parse_make(alloc: Global, words: &[&str]) -> Result<Option<PlanCommand>, AllocError>
    ensures { IfOk result (λ order. order ≡ parse_make (map (λ word. word.now) words.now)) }
{
    let [word, rest @ ..] = words else {
        return Ok(None);
    };
    let Some(jobs) = parse_jobs(word) else {
        return Ok(None);
    };
    let goals = names_of(alloc, rest)?;
    Ok(Some(PlanCommand::Make { jobs, goals }))
}

/// The command of a line `look` with these words after it.
fn parse_look(alloc: Global, words: &[&str]) -> Result<Option<PlanCommand>, AllocError>
    ensures { IfOk result (λ order. order ≡ parse_look (map (λ word. word.now) words.now)) }
{
    let [first, second] = words else {
        return Ok(None);
    };
    let node = Name::new(alloc, first)?;
    let file = Name::new(alloc, second)?;
    Ok(Some(PlanCommand::Look { node, file }))
}

/// The command of a line `put` with these words after it.
fn parse_put(alloc: Global, words: &[&str]) -> Result<Option<PlanCommand>, AllocError>
    ensures { IfOk result (λ order. order ≡ parse_put (map (λ word. word.now) words.now)) }
{
    let [first, second, rest @ ..] = words else {
        return Ok(None);
    };
    let Some(content) = parse_content(rest) else {
        return Ok(None);
    };
    let node = Name::new(alloc, first)?;
    let file = Name::new(alloc, second)?;
    Ok(Some(PlanCommand::Put {
        node,
        file,
        content,
    }))
}

/// The command of a line `edit` with these words after it.
fn parse_edit(alloc: Global, words: &[&str]) -> Result<Option<PlanCommand>, AllocError>
    ensures { IfOk result (λ order. order ≡ parse_edit (map (λ word. word.now) words.now)) }
{
    let [first, rest @ ..] = words else {
        return Ok(None);
    };
    let Some(content) = parse_content(rest) else {
        return Ok(None);
    };
    let file = Name::new(alloc, first)?;
    Ok(Some(PlanCommand::Edit { file, content }))
}

/// Whether the target is removed, by the words after it: nothing, or `removed`. `None` if the words
/// are malformed.
fn parse_removed(words: &[&str]) -> Option<bool>
    ensures { result ≡ parse_removed (map (λ word. word.now) words.now) }
{
    match words {
        [] => Some(false),
        [word] => { if *word == "removed" { Some(true) } else { None } }
        _ => None,
    }
}

/// The command of a line `break` with these words after it.
fn parse_break(alloc: Global, words: &[&str]) -> Result<Option<PlanCommand>, AllocError>
    ensures { IfOk result (λ order. order ≡ parse_break (map (λ word. word.now) words.now)) }
{
    let [first, rest @ ..] = words else {
        return Ok(None);
    };
    let Some(removed) = parse_removed(rest) else {
        return Ok(None);
    };
    let node = Name::new(alloc, first)?;
    Ok(Some(PlanCommand::Break { node, removed }))
}

/// The command with this keyword and the words after it, or `None` if they are malformed. The only
/// error is out of memory.
fn parse_arguments(
    alloc: Global,
    keyword: Keyword,
    words: &[&str],
) -> Result<Option<PlanCommand>, AllocError>
    ensures { IfOk result
        (λ order. order ≡ parse_arguments keyword (map (λ word. word.now) words.now)) }
{
    match keyword {
        Keyword::Make => parse_make(alloc, words),
        Keyword::Stop => Ok(words.is_empty().then_some(PlanCommand::Stop)),
        Keyword::Begin => Ok(single_word(alloc, words)?.map(|node| PlanCommand::Begin { node })),
        Keyword::Look => parse_look(alloc, words),
        Keyword::Put => parse_put(alloc, words),
        Keyword::Done => Ok(single_word(alloc, words)?.map(|node| PlanCommand::Done { node })),
        Keyword::Break => parse_break(alloc, words),
        Keyword::Finish => Ok(single_word(alloc, words)?.map(|node| PlanCommand::Finish { node })),
        Keyword::Run => Ok(single_word(alloc, words)?.map(|node| PlanCommand::Run { node })),
        Keyword::Pass => Ok(single_word(alloc, words)?.map(|node| PlanCommand::Pass { node })),
        Keyword::End => Ok(words.is_empty().then_some(PlanCommand::End)),
        Keyword::Edit => parse_edit(alloc, words),
    }
}

/// The command of these words, or `None` if they are malformed. The only error is out of memory.
fn parse_words(alloc: Global, words: &[&str]) -> Result<Option<PlanCommand>, AllocError>
    ensures { IfOk result (λ order. order ≡ parse_words (map (λ word. word.now) words.now)) }
{
    let [first, rest @ ..] = words else {
        return Ok(None);
    };
    match keyword_of(first) {
        Some(keyword) => parse_arguments(alloc, keyword, rest),
        None => Ok(None),
    }
}

/// The command of a plan line, or `None` if it is malformed. The only error is out of memory.
pub fn parse_line(alloc: Global, line: &[u8]) -> Result<Option<PlanCommand>, AllocError>
    ensures { IfOk result (λ order. order ≡ parse_line line.now) }
{
    let words = words(alloc, line)?;
    match texts_of(alloc, &words)? {
        Some(texts) => parse_words(alloc, &texts),
        None => Ok(None),
    }
}
