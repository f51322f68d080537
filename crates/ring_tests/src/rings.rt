//! Rings whose ends one thread moves by steps, and the image of a plain ring.
ghost use Rattle.std.specs.Prelude.{◌≡◌, []};
ghost use Rattle.rtt_ring.specs.PlainView.{up_of};

use crate::blocks::{put_found, put_read, put_unread};
use crate::rows::Kind;
use crate::sizes::put_unlike;
use crate::words::put_digits_or_nothing;
use dl_io::Bytes;
use rtt_control::Descriptor;
use rtt_ring::{
    Channel, DownEnd, IMAGE_BASE, PlainRing, QueueRing, RingKind, Settled, UpEnd, WordRing,
};
use std::alloc::Global;
use std::fmt::Write;
use std::test::Fail;
use test_rows::{bytes_of, each_line, expect, parted, put_str};

// What an upper end and then a lower end found: the room, and the bytes before and behind the publishing.
struct Found {
    room: u32,
    before: u32,
    behind: u32,
}

// A ring that steps move.
trait Stepped {
    // Looks, sends as many of the first bytes as fit, and looks at the lower end before and behind the publishing.
    fn send(&mut self, bytes: &[u8]) -> Found;

    fn take(&mut self, buf: &mut [u8]) -> usize;

    fn looks(&self) -> u64;
}

/// A plain ring with nothing staged.
#[derive(Drop)]
pub struct Plain {
    pub ring: PlainRing,
    ghost published: { (up_of ring).staged ≡ [] },
}

impl Stepped for Plain {
    fn send(&mut self, bytes: &[u8]) -> Found {
        let room = UpEnd::look(&mut self.ring);
        let count = bytes.len().min(room as usize);
        self.ring.put(&bytes[..count]);
        let before = DownEnd::look(&mut self.ring);
        self.ring.publish();
        let behind = DownEnd::look(&mut self.ring);
        Found {
            room,
            before,
            behind,
        }
    }

    fn take(&mut self, buf: &mut [u8]) -> usize {
        self.ring.take(buf)
    }

    fn looks(&self) -> u64 {
        UpEnd::looks(&self.ring)
    }
}

/// The two ends of a ring, with nothing staged.
#[derive(Drop)]
pub struct Ends<U: UpEnd, D: DownEnd> {
    pub up: U,
    pub down: D,
    ghost published: { (U.view up).staged ≡ [] },
    ghost pair: { (U.view up).split ≡ (D.view down).split },
}

impl<U: UpEnd, D: DownEnd> Stepped for Ends<U, D> {
    fn send(&mut self, bytes: &[u8]) -> Found {
        let room = self.up.look();
        let count = bytes.len().min(room as usize);
        self.up.put(&bytes[..count]);
        let before = self.down.look();
        self.up.publish();
        let behind = self.down.look();
        Found {
            room,
            before,
            behind,
        }
    }

    fn take(&mut self, buf: &mut [u8]) -> usize {
        self.down.take(buf)
    }

    fn looks(&self) -> u64 {
        self.up.looks()
    }
}

fn put_sent<S: Stepped>(ring: &mut S, bytes: &[u8], out: &mut String) -> Result<(), Fail> {
    let Found {
        room,
        before,
        behind,
    } = ring.send(bytes);
    Ok(write!(out, "room {room} found {before} {behind}")?)
}

fn put_step<S: Stepped>(
    alloc: Global,
    ring: &mut S,
    step: &str,
    out: &mut String,
) -> Result<(), Fail> {
    let (what, rest) = parted(step, ' ');
    if what == "send" {
        return put_sent(ring, &bytes_of(alloc, rest)?, out);
    }
    let mut buf = [0; 20];
    let len = what.parse::<usize>()?.min(20);
    let count = ring.take(&mut buf[..len]);
    put_digits_or_nothing(&buf[..count.min(20)], out)
}

// Moves a ring, and puts the answer to each step and how often the upper end has looked.
fn put_steps<S: Stepped>(
    alloc: Global,
    ring: &mut S,
    steps: &str,
    out: &mut String,
) -> Result<(), Fail> {
    for one in steps.split('|') {
        put_step(alloc, ring, one, out)?;
        put_str(out, "; ")?;
    }
    Ok(write!(out, "{} looks", ring.looks())?)
}

// Puts behind the answers what was sent, taken and left.
fn put_account(
    settled: &Settled,
    kind: RingKind,
    rest: &[u8],
    out: &mut String,
) -> Result<(), Fail> {
    if settled.ring() != kind {
        return Err(Fail::new("another ring"));
    }
    let (sent, got) = (settled.sent_len(), settled.got_len());
    write!(out, "; sent {sent} got {got} rest ")?;
    put_digits_or_nothing(rest, out)
}

pub fn plain_of(alloc: Global, size: u32) -> Result<Plain, Fail> {
    match PlainRing::split(alloc, size) {
        Ok(ring) => Ok(Plain { ring }),
        Err(_) => Err(Fail::new("no ring")),
    }
}

fn settle_plain(alloc: Global, plain: Plain, out: &mut String) -> Result<(), Fail> {
    let Plain { ring } = plain;
    let mut rest = Bytes::new(alloc);
    let settled = ring.settle(&mut rest)?;
    put_account(&settled, RingKind::Plain, rest.as_slice(), out)
}

fn put_plain(alloc: Global, size: u32, row: &str, out: &mut String) -> Result<(), Fail> {
    let mut plain = plain_of(alloc, size)?;
    put_steps(alloc, &mut plain, row, out)?;
    settle_plain(alloc, plain, out)
}

pub fn ends_of<C: Channel>(alloc: Global, size: u32) -> Result<Ends<C::Up, C::Down>, Fail> {
    match C::split(alloc, size) {
        Ok((up, down)) => Ok(Ends { up, down }),
        Err(_) => Err(Fail::new("no ring")),
    }
}

fn settle_ends<C: Channel>(
    alloc: Global,
    ends: Ends<C::Up, C::Down>,
    out: &mut String,
) -> Result<(), Fail> {
    let Ends { up, down } = ends;
    let mut rest = Bytes::new(alloc);
    let settled = C::settle(up, down, &mut rest)?;
    put_account(&settled, C::KIND, rest.as_slice(), out)
}

fn put_ends<C: Channel>(alloc: Global, size: u32, row: &str, out: &mut String) -> Result<(), Fail> {
    let mut ends = ends_of::<C>(alloc, size)?;
    put_steps(alloc, &mut ends, row, out)?;
    settle_ends::<C>(alloc, ends, out)
}

fn put_unlike_ends<C: Channel>(
    alloc: Global,
    size: u32,
    row: &str,
    out: &mut String,
) -> Result<(), Fail> {
    let mut other = String::new(alloc);
    put_ends::<C>(alloc, size, row, &mut other)?;
    put_unlike(other.as_str(), out)
}

// The size of a ring and its steps: bytes are sent, or so many taken. Then how often the upper end looked, how many bytes
// were sent and taken, and the rest.
const STEPS: &str = "\
16|send 01 02 03 04 05 06 07 08 09 0a 0b 0c 0d 0e 0f|send 15 16 17 18 19 1a 1b 1c 1d 1e|10|send 15 16 17 18 19 1a 1b 1c 1d 1e|20 \
= room 15 found 0 15; room 0 found 15 15; 01 02 03 04 05 06 07 08 09 0a; room 10 found 5 15; 0b 0c 0d 0e 0f 15 16 17 18 19 1a 1b 1c 1d 1e; \
3 looks; sent 25 got 25 rest nothing
16|send 01 02 03 04 05 06 07 08 09 0a 0b 0c 0d 0e 0f|10|send 15 16 17 18 19 1a 1b 1c 1d 1e \
= room 15 found 0 15; 01 02 03 04 05 06 07 08 09 0a; room 10 found 5 15; \
2 looks; sent 25 got 10 rest 0b 0c 0d 0e 0f 15 16 17 18 19 1a 1b 1c 1d 1e
17|send 15 16 17 18 19 1a 1b 1c 1d 1e|16|send 1f 20 21 22 23 24 25 26 27 28 29 2a 2b 2c|16 \
= room 16 found 0 10; 15 16 17 18 19 1a 1b 1c 1d 1e; room 16 found 0 14; 1f 20 21 22 23 24 25 26 27 28 29 2a 2b 2c; \
2 looks; sent 24 got 24 rest nothing";

pub fn put_rings(alloc: Global, row: &str, out: &mut String) -> Result<(), Fail> {
    let Some((size, row)) = row.split_once('|') else {
        return Err(Fail::new("no steps"));
    };
    let size = size.parse::<u32>()?;
    put_plain(alloc, size, row, out)?;
    put_unlike_ends::<QueueRing>(alloc, size, row, out)?;
    put_unlike_ends::<WordRing>(alloc, size, row, out)
}

#[test]
fn bytes_go_round_the_end_of_each_ring(rt: HostRuntime) -> Result<(), Fail> {
    each_line(rt.alloc(), STEPS, 3, &Kind::Rings)
}

// The one descriptor of the image of a plain ring in which 15 bytes wait round the end of its buffer.
const TURNED: Descriptor = Descriptor {
    name: 0,
    start: 0x2000_0030,
    size: 16,
    wr: 9,
    rd: 10,
    flags: 0,
};

fn put_image(alloc: Global, image: &[u8], out: &mut String) -> Result<(), Fail> {
    put_found(image, out)?;
    put_read(alloc, image, 0, out)?;
    put_str(out, "; ")?;
    put_unread(alloc, image, IMAGE_BASE, &TURNED, out)
}

fn turn(alloc: Global, plain: &mut Plain) -> Result<(), Fail> {
    put_steps(
        alloc,
        plain,
        "send 01 02 03 04 05 06 07 08 09 0a 0b 0c 0d 0e 0f|10|send 15 16 17 18 19 1a 1b 1c 1d 1e",
        &mut String::new(alloc),
    )
}

fn put_turned_image(alloc: Global, out: &mut String) -> Result<(), Fail> {
    let mut plain = plain_of(alloc, 16)?;
    turn(alloc, &mut plain)?;
    put_image(alloc, plain.ring.image(), out)
}

#[test]
fn the_image_tells_what_waits(rt: HostRuntime) -> Result<(), Fail> {
    let mut told = String::new(rt.alloc());
    put_turned_image(rt.alloc(), &mut told)?;
    expect(
        told.as_str(),
        "found 0; up 0 20000030 10 9 a 0; 0b 0c 0d 0e 0f 15 16 17 18 19 1a 1b 1c 1d 1e",
    )
}
