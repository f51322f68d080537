//! Rooms that quick ways write texts into at a place, and what they hold behind a call.
use std::alloc::Global;
use std::fmt::Write;
use std::test::Fail;

/// Where a text begins in a room: behind bytes that are to stay as they are.
pub const PLACE: usize = 3;

// What stands in front of the place.
const FRONT: &[u8] = b"at:";

/// A room with so many bytes behind the place.
pub fn room_of(alloc: Global, size: usize) -> Result<Vec<u8>, Fail> {
    let mut room = Vec::new(alloc);
    room.extend_from_slice(FRONT)?;
    for _ in 0..size {
        room.push(b'.')?;
    }
    Ok(room)
}

/// What a call did that was to write a text at the place and answered where it ends, or nothing.
pub fn told_of(room: &[u8], end: Option<usize>, text: &str) -> &'static str {
    if !room.starts_with(FRONT) {
        return "another front";
    }
    let Some(end) = end else {
        return "left";
    };
    let (_, written) = room.split_at(PLACE.min(room.len()));
    if written.starts_with(text.as_bytes()) && end == PLACE.saturating_add(text.len()) {
        "placed"
    } else {
        "another text"
    }
}

/// Puts what calls did of a text: in a room with bytes left, in one with room for the text alone, and in one with a byte less.
pub fn put_told(out: &mut String, wide: &str, exact: &str, less: &str) -> Result<(), Fail> {
    if wide == exact && less == "left" {
        return Ok(write!(out, "{wide}")?);
    }
    Ok(write!(out, "{wide}, exact {exact}, less {less}")?)
}
