//! Texts in parts, and what is the same in them. A crate of tests that asks here needs nothing more of std for it, which costs its proof less.
use crate::rows::put;
use std::alloc::Global;
use std::fmt::Write;
use std::test::Fail;

/// What stands in front of the first mark and what stands behind it; the whole text and nothing where there is no mark.
pub fn parted(text: &str, mark: char) -> (&str, &str) {
    match text.split_once(mark) {
        Some(parts) => parts,
        None => (text, ""),
    }
}

/// Whether two texts are the same.
pub fn is_same(text: &str, other: &str) -> bool {
    text == other
}

/// Whether a text begins with another.
pub fn begins_with(text: &str, front: &str) -> bool {
    text.starts_with(front)
}

/// The text of these bytes, `no text` where they are none.
pub fn text_of(bytes: &[u8]) -> &str {
    match str::from_utf8(bytes) {
        Ok(text) => text,
        Err(_) => "no text",
    }
}

/// The number of these decimal digits.
pub fn number_of(digits: &str) -> Result<u64, Fail> {
    Ok(u64::from_str_radix(digits, 10)?)
}

/// Puts a number in decimal digits.
pub fn put_number(out: &mut String, number: u64) {
    let _ = write!(out, "{number}");
}

/// Puts a number in hexadecimal digits.
pub fn put_hexadecimal(out: &mut String, number: u64) {
    let _ = write!(out, "{number:x}");
}

fn push_word(alloc: Global, word: &str, words: &mut Vec<String>) -> Result<(), Fail> {
    Ok(words.push(String::from_str(alloc, word)?)?)
}

/// The words of a line, which single spaces part.
pub fn words_of(alloc: Global, line: &str) -> Result<Vec<String>, Fail> {
    let mut words = Vec::new(alloc);
    for word in line.split(' ') {
        push_word(alloc, word, &mut words)?;
    }
    Ok(words)
}

/// Puts a line behind others, unless it stands there.
pub fn put_once(line: &str, out: &mut String) -> Result<(), Fail> {
    if out.as_str().contains(line) {
        return Ok(());
    }
    Ok(write!(out, "{line}\n")?)
}

/// Puts lines, which a newline ends, behind a newline; nothing where there are none.
pub fn put_ended(lines: &str, out: &mut String) {
    if lines.is_empty() {
        return;
    }
    put(out, "\n");
    match lines.strip_suffix("\n") {
        Some(lines) => put(out, lines),
        None => {
            put(out, lines);
            put(out, " without a newline");
        }
    }
}

// Puts lines behind a newline, with a number in place of each `%`.
fn put_numbered(lines: &str, number: u64, out: &mut String) {
    put(out, "\n");
    for (place, part) in lines.split('%').enumerate() {
        if place > 0 {
            put_number(out, number);
        }
        put(out, part);
    }
}

/// Puts lines of which the last, those behind a line `repeat 0 9`, stand there for each number from the first to one below the second, which takes the
/// place of each `%`.
pub fn put_repeated(lines: &str, out: &mut String) -> Result<(), Fail> {
    let Some((front, rest)) = lines.split_once("\nrepeat ") else {
        return Err(Fail::new("nothing is repeated"));
    };
    let (numbers, lines) = parted(rest, '\n');
    let (first, end) = parted(numbers, ' ');
    put(out, front);
    for number in number_of(first)?..number_of(end)? {
        put_numbered(lines, number, out);
    }
    Ok(())
}

/// How many lines begin so.
pub fn count_of(lines: &str, front: &str) -> u64 {
    let mut count = 0u64;
    for line in lines.split('\n') {
        if line.starts_with(front) {
            count = count.saturating_add(1);
        }
    }
    count
}

// Whether a line is this front and this number.
fn is_numbered(alloc: Global, line: &str, front: &str, number: u64) -> bool {
    let mut due = String::new(alloc);
    put(&mut due, front);
    put_number(&mut due, number);
    line == due.as_str()
}

/// How many lines are this front and a number, from 0 on, one after the other.
pub fn count_in_order(alloc: Global, lines: &str, front: &str) -> u64 {
    let mut number = 0u64;
    for line in lines.split('\n') {
        if is_numbered(alloc, line, front, number) {
            number = number.saturating_add(1);
        }
    }
    number
}

// Puts a line without its first word, if its third begins so.
fn put_line_of(line: &str, front: &str, out: &mut String) {
    let (_, rest) = parted(line, ' ');
    let (_, text) = parted(rest, ' ');
    if text.trim_start().starts_with(front) {
        put(out, "\n");
        put(out, rest);
    }
}

/// Puts the lines whose third word begins so, each behind a newline and without its first word.
pub fn put_lines_of(lines: &str, front: &str, out: &mut String) {
    for line in lines.split('\n') {
        put_line_of(line, front, out);
    }
}

/// How many lines a text has.
pub fn line_count(lines: &str) -> u64 {
    lines.lines().count() as u64
}
