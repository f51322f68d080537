//! Bytes as words of two hexadecimal digits, in which a run of one value may be one word, as `01*134`; no bytes are the word `nothing`.
use std::alloc::Global;
use std::fmt::Write;
use std::test::Fail;
use test_rows::put_str;

pub fn bytes_of(alloc: Global, words: &str) -> Result<Vec<u8>, Fail> {
    let mut bytes = Vec::new(alloc);
    if words != "nothing" {
        for word in words.split_whitespace() {
            push_word(&mut bytes, word)?;
        }
    }
    Ok(bytes)
}

fn push_word(bytes: &mut Vec<u8>, word: &str) -> Result<(), Fail> {
    let (pair, count) = word.split_once('*').unwrap_or((word, "1"));
    let byte = u8::from_str_radix(pair, 16)?;
    for _ in 0..count.parse::<u32>()? {
        bytes.push(byte)?;
    }
    Ok(())
}

/// Puts the words of these bytes, where more than eight of one value are one word.
pub fn put_words(out: &mut String, bytes: &[u8]) -> Result<(), Fail> {
    let start = out.len();
    let mut last = 0u8;
    let mut count = 0u32;
    for byte in bytes {
        if *byte != last {
            put_run(out, start, last, count)?;
            count = 0;
        }
        last = *byte;
        count = count.saturating_add(1);
    }
    put_run(out, start, last, count)?;
    if out.len() == start {
        put_str(out, "nothing")?;
    }
    Ok(())
}

fn put_run(out: &mut String, start: usize, byte: u8, count: u32) -> Result<(), Fail> {
    if count > 8 {
        put_pair(out, start, byte)?;
        return Ok(write!(out, "*{count}")?);
    }
    for _ in 0..count {
        put_pair(out, start, byte)?;
    }
    Ok(())
}

fn put_pair(out: &mut String, start: usize, byte: u8) -> Result<(), Fail> {
    if out.len() > start {
        out.push(' ')?;
    }
    Ok(write!(out, "{byte:02x}")?)
}

/// Puts how many bytes a call took.
pub fn put_count(out: &mut String, taken: usize) -> Result<(), Fail> {
    Ok(write!(out, "took {taken}: ")?)
}
