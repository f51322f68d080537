//! Bytes as pairs of hexadecimal digits with a space between them.
use std::alloc::Global;
use std::fmt::Write;
use std::test::Fail;

/// The bytes of these digits, as `01 7e`; none of an empty text.
pub fn bytes_of(alloc: Global, digits: &str) -> Result<Vec<u8>, Fail> {
    let mut bytes = Vec::new(alloc);
    for pair in digits.split_whitespace() {
        bytes.push(u8::from_str_radix(pair, 16)?)?;
    }
    Ok(bytes)
}

/// So many bytes of zero.
pub fn zeros_of(alloc: Global, count: usize) -> Result<Vec<u8>, Fail> {
    Ok(vec![in alloc; 0u8; count]?)
}

/// These bytes, where those of a text stand in place of the one at this place.
pub fn changed_of(alloc: Global, bytes: &[u8], place: u64, text: &str) -> Result<Vec<u8>, Fail> {
    let mut changed = Vec::new(alloc);
    for (at, byte) in bytes.iter().enumerate() {
        if at as u64 == place {
            changed.extend_from_slice(text.as_bytes())?;
        } else {
            changed.push(*byte)?;
        }
    }
    Ok(changed)
}

/// Puts the digits of these bytes behind a text.
pub fn put_digits(out: &mut String, bytes: &[u8]) -> Result<(), Fail> {
    let mut gap = "";
    for byte in bytes {
        write!(out, "{gap}{byte:02x}")?;
        gap = " ";
    }
    Ok(())
}

/// The same where no failure is told, as `put` does.
pub fn put_hex(out: &mut String, bytes: &[u8]) {
    let mut gap = "";
    for byte in bytes {
        let _ = write!(out, "{gap}{byte:02x}");
        gap = " ";
    }
}
