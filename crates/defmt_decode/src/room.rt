//! The buffers that lines and messages are written into.

ghost use Rattle.std.specs.Prelude.{◌≡◌, ◌≤◌, length, take, IfOk, OnOk};

use defmt_eager::PRINTED_LIMIT;
use dl_io::Memory;

// The room for a line of its own: this many bytes, and so many for each of the first bytes of its message, up to the limit of texts.
const LEAST_ROOM: usize = 4096;

const GROWTH: usize = 8;

const ENLARGED: usize = (PRINTED_LIMIT - LEAST_ROOM) / GROWTH;

// The least room for lines that stand one behind another.
const ROOM_FOR_MANY: usize = 2 * PRINTED_LIMIT;

// Makes a buffer as large as it has to be.
pub(crate) fn make_room(buffer: &mut Vec<u8>, least: usize) -> Result<(), Memory>
    ensures { OnOk result (least ≤ length buffer.new.items) }
{
    if buffer.len() < least {
        buffer.resize(least, 0)?;
    }
    Ok(())
}

// Enough for most lines of a message with so many bytes.
pub(crate) fn line_room(count: usize) -> usize
    ensures { result ≤ 65536 }
{
    count.min(ENLARGED) * GROWTH + LEAST_ROOM
}

// Makes room behind a place for any line whose texts aren't long, and answers where that room ends. What stands in front of the place
// stays.
pub(crate) fn room_behind(text: &mut Vec<u8>, at: usize) -> Result<usize, Memory>
    requires { at ≤ length text.old.items }
    ensures room { IfOk result (λ end. (at ≤ end) × (end ≤ length text.new.items)) }
    ensures front { take at text.new.items ≡ take at text.old.items }
{
    let end = at + PRINTED_LIMIT;
    if text.len() < end {
        // Lines follow, so it has room for many.
        text.resize(end.max(ROOM_FOR_MANY), 0)?;
    }
    Ok(end)
}
