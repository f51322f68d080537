//! Frames through a plain ring of 16 bytes.
ghost use Rattle.std.specs.Prelude.{⊤};

use crate::rings::{Plain, plain_of};
use crate::rows::Kind;
use crate::words::put_digits_or_nothing;
use rtt_modes::{Both, Fate, Relief, block, skip, trim};
use rtt_ring::{DownEnd, UpEnd};
use std::alloc::Global;
use std::fmt::Write;
use std::test::Fail;
use test_rows::{bytes_of, each_line, expect, parted, put_str};

fn put_fate(fate: Fate, out: &mut String) -> Result<(), Fail> {
    match fate {
        Fate::Whole => put_str(out, "whole"),
        Fate::Dropped { need, room } => Ok(write!(out, "dropped {need} {room}")?),
        Fate::Cut { need, room } => Ok(write!(out, "cut {need} {room}")?),
    }
}

// Sends a frame by a mode.
fn send(plain: &mut Plain, mode: &str, frame: &[u8]) -> Option<Fate> {
    if frame.is_empty() || frame.len() > 16 {
        return None;
    }
    match mode {
        "skip" => Some(skip(&mut plain.ring, frame)),
        "trim" => Some(trim(&mut plain.ring, frame)),
        _ => None,
    }
}

// Puts how often the upper end looked, and the bytes that wait.
fn put_end(plain: &mut Plain, out: &mut String) -> Result<(), Fail> {
    let mut buf = [0; 16];
    write!(out, "{} looks; ", UpEnd::looks(&plain.ring))?;
    let count = plain.ring.take(&mut buf);
    put_digits_or_nothing(&buf[..count.min(16)], out)
}

// Frames, each with its mode, and what became of them.
const FRAMES: &str = "\
skip 01 02 03 04 05 06 07 08 09 0a|skip 0b 0c 0d 0e 0f 10 = whole; dropped 6 5; 2 looks; 01 02 03 04 05 06 07 08 09 0a
trim 01 02 03 04 05 06 07 08 09 0a|trim 0b 0c 0d 0e 0f 10|trim 0b 0c 0d 0e 0f 10 \
= whole; cut 6 5; cut 6 0; 3 looks; 01 02 03 04 05 06 07 08 09 0a 0b 0c 0d 0e 0f";

fn put_sent(plain: &mut Plain, mode: &str, frame: &[u8], out: &mut String) -> Result<(), Fail> {
    match send(plain, mode, frame) {
        Some(fate) => put_fate(fate, out),
        None => Err(Fail::new("no frame")),
    }
}

fn put_step(alloc: Global, plain: &mut Plain, step: &str, out: &mut String) -> Result<(), Fail> {
    let (mode, digits) = parted(step, ' ');
    put_sent(plain, mode, &bytes_of(alloc, digits)?, out)
}

fn put_steps(alloc: Global, plain: &mut Plain, steps: &str, out: &mut String) -> Result<(), Fail> {
    for one in steps.split('|') {
        put_step(alloc, plain, one, out)?;
        put_str(out, "; ")?;
    }
    put_end(plain, out)
}

pub fn put_frames(alloc: Global, steps: &str, out: &mut String) -> Result<(), Fail> {
    put_steps(alloc, &mut plain_of(alloc, 16)?, steps, out)
}

#[test]
fn skip_drops_and_trim_cuts_what_does_not_fit(rt: HostRuntime) -> Result<(), Fail> {
    each_line(rt.alloc(), FRAMES, 2, &Kind::Frames)
}

// Counts how often it eased.
#[derive(Drop)]
struct Counted {
    eases: u32,
}

impl Relief for Counted {
    ghost kept = { λ _. ⊤ };

    fn ease(&mut self) {
        self.eases = self.eases.saturating_add(1);
    }
}

#[test]
fn block_sends_a_frame_that_fits_without_an_ease(rt: HostRuntime) -> Result<(), Fail> {
    let mut plain = plain_of(rt.alloc(), 16)?;
    let mut relief = Counted { eases: 0 };
    block(
        &rt,
        &mut plain.ring,
        &[1, 2, 3, 4, 5, 6, 7, 8, 9, 10],
        &mut relief,
    );
    assert_eq!(rt; relief.eases, 0);
    let mut told = String::new(rt.alloc());
    put_end(&mut plain, &mut told)?;
    expect(told.as_str(), "1 looks; 01 02 03 04 05 06 07 08 09 0a")
}

#[test]
fn two_reliefs_ease_as_one(rt: HostRuntime) -> Result<(), Fail> {
    let mut both = Both {
        first: Counted { eases: 0 },
        second: Counted { eases: 5 },
    };
    both.ease();
    assert_eq!(rt; both.first.eases, 1);
    assert_eq!(rt; both.second.eases, 6);
    Ok(())
}
