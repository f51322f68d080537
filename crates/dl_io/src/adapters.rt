//! The real outside. What a reader gives, a writer takes and a file holds is trusted.
ghost use Rattle.std.specs.Prelude.{◌≡◌, ◌≤◌, ◌<◌, ◌⊎◌, length, Ok, IfOk, OnErr, None, if◌then◌else◌};
ghost use Rattle.std.specs.Result.{is_err};
ghost use Rattle.std.specs.Io.{ReadsAtMost, WritesAtMost};
ghost use Rattle.dl_io.specs.Outside.{HasCause, Rose, raised};

use crate::{Failed, Shelf, Sink, Source};
use std::fs::OpenFile;
use std::io::{Read, Seek, SeekFrom, Write};
use std::marker::Model;
use std::rt::Files;

// The most bytes that one call asks of the system.
const MOST_AT_ONCE: usize = 65_536;

/// A source over a reader of std, as a file or the standard input.
///
/// It tells nothing of the bytes to come: that the reader gives the right ones is trusted. It counts
/// one fault at each `Err` that it answers. It reads at most 65,536 bytes at a time, into an array of
/// its own first, so that a failed read leaves the lent buffer.
#[derive(Drop)]
pub struct StdSource<R> {
    reader: R,
    faults: u64,
    piece: [u8; MOST_AT_ONCE],
}

impl<R> Model for StdSource<R> {
    ghost use Rattle.std.specs.Prelude.{ℕ};

    ghost Value = { ℕ };

    ghost view = { λ s. s.faults };
}

impl<R: Read> StdSource<R> {
    /// Reads from the reader. Takes no memory.
    pub fn new(reader: R) -> Self
        ensures { result ≡ 0 }
    {
        StdSource {
            reader,
            faults: 0,
            piece: [0; MOST_AT_ONCE],
        }
    }
}

impl<R: Read> Source for StdSource<R> {
    ghost left = { λ _. None };

    ghost faults = { λ s. s };

    fn read(&mut self, buf: &mut [u8]) -> Result<usize, Failed>
        ensures bound { ReadsAtMost result buf.new }
        ensures cause { HasCause self.old self.new result }
        ensures kept { OnErr result (buf.new ≡ buf.old) }
        ensures count { self.new ≡ (if is_err result then raised self.old else self.old) }
    {
        let size = buf.len().min(MOST_AT_ONCE);
        let piece = &mut self.piece[..];
        match self.reader.read(&mut piece[..size]) {
            Ok(count) => {
                buf[..count].copy_from_slice(&self.piece[..count]);
                Ok(count)
            }
            Err(_) => {
                self.faults = self.faults.saturating_add(1);
                Err(Failed)
            }
        }
    }

    fn faults(&self) -> u64 {
        self.faults
    }
}

/// A sink over a writer of std, as a file or the standard output.
///
/// It tells nothing of the bytes taken: that the writer keeps them is trusted. It counts one fault at
/// each `Err` that it answers, and at each write that answers 0 of a piece that isn't empty.
#[derive(Drop)]
pub struct StdSink<W> {
    writer: W,
    faults: u64,
}

impl<W> Model for StdSink<W> {
    ghost use Rattle.std.specs.Prelude.{ℕ};

    ghost Value = { ℕ };

    ghost view = { λ s. s.faults };
}

impl<W: Write> StdSink<W> {
    /// Writes to the writer. Takes no memory.
    pub fn new(writer: W) -> Self
        ensures { result ≡ 0 }
    {
        StdSink { writer, faults: 0 }
    }
}

impl<W: Write> Sink for StdSink<W> {
    ghost held = { λ _. None };

    ghost faults = { λ s. s };

    fn write(&mut self, buf: &[u8]) -> Result<usize, Failed>
        ensures bound { WritesAtMost result buf.now }
        ensures cause { HasCause self.old self.new result }
        ensures stuck { result ≡ Ok 0 → 0 < length buf.now → Rose self.old self.new }
        ensures err { OnErr result (self.new ≡ raised self.old) }
        ensures none { result ≡ Ok 0 → 0 < length buf.now → self.new ≡ raised self.old }
        ensures ok { IfOk result (λ count. (0 < count) ⊎ (length buf.now ≡ 0) → self.new ≡ self.old) }
    {
        match self.writer.write(buf) {
            Ok(0) if !buf.is_empty() => {
                self.faults = self.faults.saturating_add(1);
                Ok(0)
            }
            Ok(count) => Ok(count),
            Err(_) => {
                self.faults = self.faults.saturating_add(1);
                Err(Failed)
            }
        }
    }

    fn faults(&self) -> u64 {
        self.faults
    }
}

/// The files of the folder that the program runs in: each fetch opens the file of the given name.
///
/// It tells nothing of the files: that they hold the right bytes is trusted. It counts one fault at
/// each `Err` that it answers. It fetches at most 65,536 bytes at a time, into an array of its own
/// first, so that a failed fetch leaves the lent buffer.
#[derive(Drop)]
pub struct DirShelf<R> {
    rt: R,
    faults: u64,
    piece: [u8; MOST_AT_ONCE],
}

impl<R> Model for DirShelf<R> {
    ghost use Rattle.std.specs.Prelude.{ℕ};

    ghost Value = { ℕ };

    ghost view = { λ s. s.faults };
}

impl<R: Files> DirShelf<R> {
    /// Opens files through the runtime. Takes no memory.
    pub fn new(rt: R) -> Self
        ensures { result ≡ 0 }
    {
        DirShelf {
            rt,
            faults: 0,
            piece: [0; MOST_AT_ONCE],
        }
    }
}

impl<R: Files> Shelf for DirShelf<R> {
    ghost files = { λ _. None };

    ghost faults = { λ s. s };

    fn fetch(&mut self, name: &str, at: u64, buf: &mut [u8]) -> Result<usize, Failed>
        ensures bound { ReadsAtMost result buf.new }
        ensures later { self.old ≤ self.new }
        ensures failed { OnErr result (Rose self.old self.new ⊎ ⊥) }
        ensures kept { OnErr result (buf.new ≡ buf.old) }
        ensures count { self.new ≡ (if is_err result then raised self.old else self.old) }
    {
        let size = buf.len().min(MOST_AT_ONCE);
        let piece = &mut self.piece[..];
        match fetch(&self.rt, name, at, &mut piece[..size]) {
            Ok(count) => {
                buf[..count].copy_from_slice(&self.piece[..count]);
                Ok(count)
            }
            Err(_) => {
                self.faults = self.faults.saturating_add(1);
                Err(Failed)
            }
        }
    }

    fn faults(&self) -> u64 {
        self.faults
    }
}

fn fetch<R: Files>(rt: &R, name: &str, at: u64, buf: &mut [u8]) -> std::io::Result<usize>
    ensures { ReadsAtMost result buf.new }
{
    let mut file = std::fs::open(rt, name)?;
    file.seek(SeekFrom::Start(at))?;
    file.read(buf)
}
