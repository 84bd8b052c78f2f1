//! Rows of a table, their fields and their signs.

use std::alloc::{AllocError, Global};

/// Returns the rows of a table, one for each line. A line that begins with four blanks continues
/// the row before it; the newline and these blanks aren't part of the row.
pub fn rows(alloc: Global, table: &str) -> Result<Vec<String>, AllocError> {
    let mut rows: Vec<String> = Vec::new(alloc);
    for line in table.lines() {
        match (rows.last_mut(), line.strip_prefix("    ")) {
            (Some(row), Some(more)) => row.push_str(more)?,
            _ => rows.push(String::from_str(alloc, line)?)?,
        }
    }
    Ok(rows)
}

/// Returns the fields of a row, which are separated by `‖`.
pub fn fields_of(alloc: Global, row: &str) -> Result<Vec<&str>, AllocError> {
    row.split("‖").collect(alloc)
}

/// Returns the field with this number, counted from 0, or nothing if the row has fewer fields.
pub fn part<'a>(row: &'a str, number: usize) -> &'a str {
    row.split("‖").nth(number).unwrap_or("")
}

/// Appends a text with `¶` replaced by a newline and `→` by a tab.
fn push_unfolded(out: &mut String, text: &str) -> Result<(), AllocError> {
    for c in text.chars() {
        match c {
            '¶' => out.push('\n')?,
            '→' => out.push('\t')?,
            other => out.push(other)?,
        }
    }
    Ok(())
}

/// Appends a text `count` times.
fn push_times(out: &mut String, count: usize, text: &str) -> Result<(), AllocError> {
    for _ in 0..count {
        out.push_str(text)?;
    }
    Ok(())
}

/// Appends a text and, if there is one, the repeated text after it.
fn push_part(out: &mut String, part: &[&str]) -> Result<(), AllocError> {
    match part {
        [front] => push_unfolded(out, front),
        [front, count, text] => {
            push_unfolded(out, front)?;
            push_times(out, count.parse().unwrap_or(0), text)
        }
        _ => Ok(()),
    }
}

/// Returns a text with `¶` replaced by a newline, `→` by a tab, and `×3×ab×` by `ababab`.
pub fn unfolded(alloc: Global, text: &str) -> Result<String, AllocError> {
    let parts: Vec<&str> = text.split("×").collect(alloc)?;
    let mut out = String::new(alloc);
    for part in parts.chunks(3) {
        push_part(&mut out, part)?;
    }
    Ok(out)
}

/// Returns a field, with its signs replaced as by `unfolded`, or nothing if there is no such field.
pub fn field(alloc: Global, fields: &[&str], at: usize) -> Result<String, AllocError> {
    match fields.get(at) {
        Some(text) => unfolded(alloc, text),
        None => Ok(String::new(alloc)),
    }
}

/// Returns a text with each slash replaced by a newline.
pub fn lines_of(alloc: Global, text: &str) -> Result<String, AllocError> {
    let mut out = String::new(alloc);
    for c in text.chars() {
        out.push(if c == '/' { '\n' } else { c })?;
    }
    Ok(out)
}
