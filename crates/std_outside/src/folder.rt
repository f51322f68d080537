//! The files of the working folder as a shelf.
ghost use Rattle.std.specs.Prelude.{◌≡◌, ◌≤◌, ◌⊎◌, None, IfOk, OnErr, if◌then◌else◌};
ghost use Rattle.std.specs.Io.{ReadsAtMost};
ghost use Rattle.std.specs.Result.{is_err};
ghost use Rattle.dl_io.specs.Outside.{Rose, raised};

use crate::opened::Opened;
use crate::room::{MOST_AT_ONCE, Room};
use dl_io::{Failed, Memory, Shelf};
use std::alloc::Global;
use std::marker::Model;
use std::rt::Files;
use std::{fs, io};

/// The files of the folder that the program runs in. The first fetch from a name opens its file, and the fetches behind it read that
/// one on, until its end was told or a file of another name is fetched from: so a file that is replaced meanwhile is read whole, as it
/// was. A file that is read from its front to its end may be a pipe. It tells nothing of the files, and counts one fault at each `Err`
/// that it answers. At most 65,536 bytes are fetched at a time.
#[derive(Drop)]
pub struct Folder<R: Files> {
    rt: R,
    faults: u64,
    room: Room,
    opened: Opened<R::File>,
}

impl<R: Files> Model for Folder<R> {
    ghost use Rattle.std.specs.Prelude.{ℕ};

    ghost Value = { ℕ };

    ghost view = { λ s. s.faults };
}

impl<R: Files> Folder<R> {
    /// Opens files through the runtime.
    pub fn new(alloc: Global, rt: R) -> Result<Self, Memory>
    where
        R: Drop,
        ensures { IfOk result (λ shelf. shelf ≡ 0) }
    {
        Ok(Folder {
            room: Room::new(alloc)?,
            opened: Opened::new(alloc)?,
            rt,
            faults: 0,
        })
    }
}

impl<R: Files> Shelf for Folder<R> {
    ghost files = { λ _. None };

    ghost faults = { λ s. s };

    fn fetch(&mut self, name: &str, at: u64, buf: &mut [u8]) -> Result<usize, Failed>
        ensures bound { ReadsAtMost result buf.new }
        ensures later { self.old ≤ self.new }
        ensures failed { OnErr result (Rose self.old self.new ⊎ ⊥) }
        ensures kept { OnErr result (buf.new ≡ buf.old) }
        ensures count { self.new ≡ (if is_err result then raised self.old else self.old) }
    {
        let size = buf.len().min(MOST_AT_ONCE);
        self.room.clear_up_to(size);
        let room = &mut self.room.bytes;
        match fetch_by(&self.rt, &mut self.opened, name, at, room, buf) {
            Ok(count) => Ok(count),
            Err(_) => {
                self.faults = self.faults.saturating_add(1);
                Err(Failed)
            }
        }
    }

    fn faults(&self) -> u64 {
        self.faults
    }
}

// One read from a place of a file, which is opened where it isn't yet.
fn fetch_by<R: Files>(
    rt: &R,
    opened: &mut Opened<R::File>,
    name: &str,
    at: u64,
    room: &mut [u8],
    buf: &mut [u8],
) -> io::Result<usize>
    ensures bound { ReadsAtMost result buf.new }
    ensures kept { OnErr result (buf.new ≡ buf.old) }
{
    if !opened.has(name) {
        opened.put(name, fs::open(rt, name)?)?;
    }
    opened.read_at(at, room, buf)
}
