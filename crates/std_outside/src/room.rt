//! The room on the heap into which a source and a shelf read.
ghost use Rattle.std.specs.Prelude.{◌≡◌, ◌≤◌, length, vec_capacity, OnErr};
ghost use Rattle.std.specs.Io.{ReadsAtMost};

use dl_io::Memory;
use std::alloc::Global;
use std::io;
use std::io::Read;

// The most bytes that one call asks of the system.
pub(crate) const MOST_AT_ONCE: usize = 65_536;

// A room for so many bytes. It is cleared only as far as it is used.
#[derive(Drop)]
pub(crate) struct Room {
    pub(crate) bytes: Vec<u8>,
    ghost large: { 65536 ≤ vec_capacity bytes },
}

impl Room {
    pub(crate) fn new(alloc: Global) -> Result<Self, Memory> {
        Ok(Room {
            bytes: Vec::with_capacity(alloc, MOST_AT_ONCE)?,
        })
    }

    // So many of its bytes can be read into.
    pub(crate) fn clear_up_to(&mut self, size: usize)
        requires { size ≤ 65536 }
        ensures { size ≤ length self.new.bytes.items }
    {
        if self.bytes.len() < size {
            self.bytes.resize(size, 0).unwrap();
        }
    }
}

// One read into a room, from which the bytes are copied.
pub(crate) fn read_by<R: Read>(reader: &mut R, room: &mut [u8], buf: &mut [u8]) -> io::Result<usize>
    ensures bound { ReadsAtMost result buf.new }
    ensures kept { OnErr result (buf.new ≡ buf.old) }
{
    let size = buf.len().min(room.len());
    let count = reader.read(&mut room[..size])?;
    buf[..count].copy_from_slice(&room[..count]);
    Ok(count)
}
