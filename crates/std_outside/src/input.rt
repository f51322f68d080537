//! The standard input as a source.
ghost use Rattle.std.specs.Prelude.{◌≡◌, None, IfOk, OnErr, if◌then◌else◌};
ghost use Rattle.std.specs.Io.{ReadsAtMost};
ghost use Rattle.std.specs.Result.{is_err};
ghost use Rattle.dl_io.specs.Outside.{HasCause, raised};

use crate::room::{MOST_AT_ONCE, Room, read_by};
use dl_io::{Failed, Memory, Source};
use std::alloc::Global;
use std::io::Read;
use std::marker::Model;

/// A source over a reader, as the standard input. It tells nothing of the bytes to come, and counts one fault at each
/// `Err` that it answers. At most 65,536 bytes are read at a time.
#[derive(Drop)]
pub struct Input<R> {
    reader: R,
    faults: u64,
    room: Room,
}

impl<R> Model for Input<R> {
    ghost use Rattle.std.specs.Prelude.{ℕ};

    ghost Value = { ℕ };

    ghost view = { λ s. s.faults };
}

impl<R: Read> Input<R> {
    /// Reads from the reader.
    pub fn new(alloc: Global, reader: R) -> Result<Self, Memory>
    where
        R: Drop,
        ensures { IfOk result (λ source. source ≡ 0) }
    {
        Ok(Input {
            room: Room::new(alloc)?,
            reader,
            faults: 0,
        })
    }
}

impl<R: Read> Source for Input<R> {
    ghost left = { λ _. None };

    ghost faults = { λ s. s };

    fn read(&mut self, buf: &mut [u8]) -> Result<usize, Failed>
        ensures bound { ReadsAtMost result buf.new }
        ensures cause { HasCause self.old self.new result }
        ensures kept { OnErr result (buf.new ≡ buf.old) }
        ensures count { self.new ≡ (if is_err result then raised self.old else self.old) }
    {
        let size = buf.len().min(MOST_AT_ONCE);
        self.room.clear_up_to(size);
        match read_by(&mut self.reader, &mut self.room.bytes, buf) {
            Ok(count) => Ok(count),
            Err(_) => {
                self.faults = self.faults.saturating_add(1);
                Err(Failed)
            }
        }
    }

    fn faults(&self) -> u64 {
        self.faults
    }
}
