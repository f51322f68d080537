//! The file that a shelf has open.
ghost use Rattle.std.specs.Prelude.{◌≡◌, ◌≤◌, length, vec_capacity, IfOk, OnErr};
ghost use Rattle.std.specs.Io.{ReadsAtMost};

use crate::room::read_by;
use dl_io::Memory;
use std::alloc::Global;
use std::io;
use std::io::{ErrorKind, Read, Seek, SeekFrom};

// The most bytes of a name: Linux opens none of a longer one.
const LONGEST_NAME: usize = 4096;

// A file under the name by which it was opened, or none. The room for the name is made with it, so that opening takes no memory.
#[derive(Drop)]
pub(crate) struct Opened<F: Drop> {
    name: Vec<u8>,
    file: Option<F>,
    // Where the next read begins, where that is known.
    place: Option<u64>,
    ghost large: { 4096 ≤ vec_capacity name },
}

impl<F: Read + Seek + Drop> Opened<F> {
    pub(crate) fn new(alloc: Global) -> Result<Self, Memory> {
        Ok(Opened {
            name: Vec::with_capacity(alloc, LONGEST_NAME)?,
            file: None,
            place: None,
        })
    }

    // Whether a file of this name is open.
    pub(crate) fn has(&self, name: &str) -> bool {
        self.file.is_some() && self.name.as_slice() == name.as_bytes()
    }

    // Takes a file that was opened under this name in the place of the one before.
    pub(crate) fn put(&mut self, name: &str, file: F) -> io::Result<()> {
        if name.len() > LONGEST_NAME {
            return Err(io::Error::from(ErrorKind::InvalidInput));
        }
        self.name.clear();
        self.name.extend_from_slice(name.as_bytes()).unwrap();
        self.file = Some(file);
        self.place = Some(0);
        Ok(())
    }

    // One read from a place of the file. Where it tells the file's end the file is closed, since what is opened where the standard
    // input is closed stands in its place.
    pub(crate) fn read_at(&mut self, at: u64, room: &mut [u8], buf: &mut [u8]) -> io::Result<usize>
        ensures bound { ReadsAtMost result buf.new }
        ensures kept { OnErr result (buf.new ≡ buf.old) }
    {
        let Some(file) = &mut self.file else {
            return Err(io::Error::from(ErrorKind::NotFound));
        };
        if self.place != Some(at) {
            self.place = None;
            file.seek(SeekFrom::Start(at))?;
        }
        self.place = None;
        let count = read_by(file, room, buf)?;
        self.place = at.checked_add(count as u64);
        if count == 0 && !buf.is_empty() {
            self.file = None;
        }
        Ok(count)
    }
}
