//! The words of rows.
use std::test::Fail;
use test_rows::{put_digits, put_str};

/// Puts a semicolon behind what others put, if anything.
pub fn part(out: &mut String) -> Result<(), Fail> {
    if !out.is_empty() {
        put_str(out, "; ")?;
    }
    Ok(())
}

/// Puts the digits of these bytes, or `nothing`.
pub fn put_digits_or_nothing(bytes: &[u8], out: &mut String) -> Result<(), Fail> {
    if bytes.is_empty() {
        return put_str(out, "nothing");
    }
    put_digits(out, bytes)
}
