//! Sources, a sink and a shelf in memory, whose failing calls are listed.
ghost use Rattle.std.specs.Prelude.{◌≡◌, ◌⊎◌, ◌↔◌, ◌+◌, ◌-◌, ◌<◌, ◌≤◌, [], length, min, replicate, Some, Ok, IsErr, IfOk, OnErr};
ghost use Rattle.std.specs.Result.{is_err};
ghost use Rattle.std.specs.Io.{ReadsAtMost, WritesAtMost};
ghost use Rattle.std.specs.Io.KnownBytes.{ReadConsumes, WriteAppends};
ghost use Rattle.dl_io.specs.Outside.{HasCause, Rose, IsListed, is_listed, counted, fresh};

use crate::{Bytes, Failed, Sink, Source};
use std::marker::Model;

// The numbers of the calls that are to fail, and the counts of calls and faults so far.
#[derive(Drop)]
pub(crate) struct Fails {
    listed: Bytes,
    calls: u64,
    faults: u64,
}

impl Model for Fails {
    ghost use Rattle.dl_io.specs.Outside.{Plan};

    ghost Value = { Plan };

    ghost view = { λ f. record { fails = f.listed.items; calls = f.calls; faults = f.faults } };
}

impl Fails {
    pub(crate) fn new(listed: Bytes) -> Self
        ensures { result ≡ fresh listed.items }
    {
        Fails {
            listed,
            calls: 0,
            faults: 0,
        }
    }

    // Whether the call that comes is listed.
    pub(crate) fn is_next(&self) -> bool
        ensures { result ≡ is_listed self.now }
    {
        let next = self.calls;
        self.listed
            .as_slice()
            .iter()
            .any(|call| u64::from(*call) == next)
    }

    // One more call, with a fault or without.
    pub(crate) fn count(&mut self, fault: bool)
        ensures plan { self.new ≡ counted self.old fault }
        ensures later { self.old.faults ≤ self.new.faults }
    {
        self.calls = self.calls.saturating_add(1);
        if fault {
            self.faults = self.faults.saturating_add(1);
        }
    }

    pub(crate) fn faults(&self) -> u64
        ensures { result ≡ self.now.faults }
    {
        self.faults
    }
}

/// A source that gives the bytes of a list, but fails at the reads that are listed.
#[derive(Drop)]
pub struct MemSource {
    bytes: Bytes,
    taken: usize,
    fails: Fails,
}

impl Model for MemSource {
    ghost use Rattle.std.specs.Prelude.{◌≤◌, length, drop};
    ghost use Rattle.dl_io.specs.Outside.{Feed};

    ghost Value = { Feed };

    ghost view = { λ s. record { left = drop s.taken s.bytes.items; plan = s.fails } };

    ghost invariant = { λ s. s.taken ≤ length s.bytes.items };
}

impl MemSource {
    /// Gives the bytes. The bytes of `fails` are the numbers of the reads that are to fail, of which
    /// the first is 0. Takes no memory.
    pub fn new(bytes: Bytes, fails: Bytes) -> Self
        ensures { result ≡ record { left = bytes.items; plan = fresh fails.items } }
    {
        MemSource {
            bytes,
            taken: 0,
            fails: Fails::new(fails),
        }
    }
}

impl Source for MemSource {
    ghost left = { λ s. Some s.left };

    ghost faults = { λ s. s.plan.faults };

    fn read(&mut self, buf: &mut [u8]) -> Result<usize, Failed>
        ensures bound { ReadsAtMost result buf.new }
        ensures bytes { ReadConsumes (Some self.old.left) (Some self.new.left) result buf.new }
        ensures cause { HasCause self.old.plan.faults self.new.plan.faults result }
        ensures kept { OnErr result (buf.new ≡ buf.old) }

        // It fails exactly where it is listed, and else gives as much as there is and as fits.
        ensures listed { IsErr result ↔ IsListed self.old.plan }
        ensures count { IfOk result (λ count. count ≡ min (length self.old.left) (length buf.old)) }
        ensures plan { self.new.plan ≡ counted self.old.plan (is_err result) }
    {
        let fails = self.fails.is_next();
        self.fails.count(fails);
        if fails {
            return Err(Failed);
        }
        let left = &self.bytes.as_slice()[self.taken..];
        let count = left.len().min(buf.len());
        buf[..count].copy_from_slice(&left[..count]);
        self.taken += count;
        Ok(count)
    }

    fn faults(&self) -> u64 {
        self.fails.faults()
    }
}

/// A source that gives one byte so many times, and never fails.
#[derive(Drop)]
pub struct RepeatSource {
    byte: u8,
    count: u64,
}

impl Model for RepeatSource {
    ghost use Rattle.dl_io.specs.Outside.{Supply};

    ghost Value = { Supply };

    ghost view = { λ s. record { byte = s.byte; count = s.count } };
}

impl RepeatSource {
    /// Gives `count` bytes `byte`. Takes no memory.
    pub fn new(byte: u8, count: u64) -> Self
        ensures { result ≡ record { byte = byte; count = count } }
    {
        RepeatSource { byte, count }
    }
}

impl Source for RepeatSource {
    ghost left = { λ s. Some (replicate s.count s.byte) };

    ghost faults = { λ _. 0 };

    fn read(&mut self, buf: &mut [u8]) -> Result<usize, Failed>
        ensures bound { ReadsAtMost result buf.new }
        ensures bytes { ReadConsumes (Some (replicate self.old.count self.old.byte)) (Some (replicate self.new.count self.new.byte)) result buf.new }
        ensures cause { HasCause 0 0 result }

        // It gives as much as there is and as fits.
        ensures count { result ≡ Ok (min (length buf.old) self.old.count) }
        ensures after { self.new ≡ record { byte = self.old.byte; count = self.old.count - length buf.old } }
    {
        let count = (buf.len() as u64).min(self.count);
        buf[..count as usize].fill(self.byte);
        self.count -= count;
        Ok(count as usize)
    }

    fn faults(&self) -> u64 {
        0
    }
}

/// A sink that keeps what it is given, as far as its room goes, but fails at the writes that are listed.
#[derive(Drop)]
pub struct MemSink {
    held: Bytes,
    fails: Fails,
}

impl Model for MemSink {
    ghost use Rattle.dl_io.specs.Outside.{Tray};

    ghost Value = { Tray };

    ghost view = { λ s. record { held = s.held.items; room = s.held.room; plan = s.fails } };
}

impl MemSink {
    /// Keeps bytes in `held`, whose reserved room is the sink's room. The bytes of `fails` are the
    /// numbers of the writes that are to fail, of which the first is 0. Takes no memory.
    pub fn new(held: Bytes, fails: Bytes) -> Self
        requires { held.items ≡ [] }
        ensures { result ≡ record { held = []; room = held.room; plan = fresh fails.items } }
    {
        MemSink {
            held,
            fails: Fails::new(fails),
        }
    }

    /// What it was given so far. Takes no memory.
    pub fn held(&self) -> &[u8]
        ensures { result.now ≡ self.now.held }
    {
        self.held.as_slice()
    }
}

impl Sink for MemSink {
    ghost held = { λ s. Some s.held };

    ghost faults = { λ s. s.plan.faults };

    fn write(&mut self, buf: &[u8]) -> Result<usize, Failed>
        ensures bound { WritesAtMost result buf.now }
        ensures bytes { WriteAppends (Some self.old.held) (Some self.new.held) result buf.now }
        ensures cause { HasCause self.old.plan.faults self.new.plan.faults result }
        ensures stuck { result ≡ Ok 0 → 0 < length buf.now → Rose self.old.plan.faults self.new.plan.faults }

        // It fails exactly where it is listed or has no room for any byte of the piece, and else takes
        // as much as there is and as the room allows.
        ensures listed { IsErr result ↔ (IsListed self.old.plan ⊎ ((self.old.room ≡ 0) × (0 < length buf.now))) }
        ensures count { IfOk result (λ count. (count ≡ min (length buf.now) self.old.room) × (self.new.room + count ≡ self.old.room)) }
        ensures kept { OnErr result (self.new.room ≡ self.old.room) }
        ensures plan { self.new.plan ≡ counted self.old.plan (is_err result) }
    {
        let room = self.held.spare();
        let fails = self.fails.is_next() || (room == 0 && !buf.is_empty());
        self.fails.count(fails);
        if fails {
            return Err(Failed);
        }
        let count = room.min(buf.len());
        self.held.extend_reserved(&buf[..count]);
        Ok(count)
    }

    fn faults(&self) -> u64 {
        self.fails.faults()
    }
}
