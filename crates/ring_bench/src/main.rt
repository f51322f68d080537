//! Sends frames through a word ring and through a queue ring, each from one thread to another, and tells what went through:
//! `ring_bench SIZE FRAME COUNT ROUNDS [timed]`.
//!
//! Each round tries both rings, and prints a line for each: its name, its size, the bytes of a frame and all bytes that went
//! through. With `timed` behind it, there stands also how many nanoseconds it took, from the making of the ring to its
//! settling.
//!
//! The rings are those of docs/PERFORMANCE.md, "The rings". So `16 3 20 2` sends 20 frames of 3 bytes, which are 60, through both rings in
//! each of two rounds (its stored run).
#![tactic(auto)]

mod passage;
mod plan;

use crate::passage::pass;
use crate::plan::{Plan, plan_of};
use rtt_ring::{Channel, QueueRing, RingFault, WordRing};
use std::process::ExitCode;
use std::rt::Clock;
use std::sync::Wait;
use std::thread::Threads;
use std::time::Instant;
use std::{env, io};

// Tells what went through a ring.
fn tell<R: Print>(rt: &R, ring: &str, plan: &Plan, bytes: u64, time: u128) -> io::Result<()> {
    let (size, frame) = (plan.size, plan.frame);
    if plan.timed {
        println!(rt; "{ring} {size} {frame} {bytes} {time}")
    } else {
        println!(rt; "{ring} {size} {frame} {bytes}")
    }
}

// One round with one ring.
fn try_ring<C: Channel, R: Threads + Wait + Sync + Clock + Print + AllocGlobal>(
    rt: &R,
    ring: &str,
    plan: &Plan,
) -> io::Result<()> {
    let frame = Vec::from_elem(rt.alloc(), 7, plan.frame)?;
    let begin = Instant::now(rt)?;
    let Ok(settled) = pass::<C, R>(
        rt,
        rt.alloc(),
        plan.size,
        frame.as_slice(),
        u64::from(plan.count),
    ) else {
        return Err(io::Error::from(io::ErrorKind::OutOfMemory));
    };
    let time = begin.elapsed(rt)?.as_nanos();
    tell(rt, ring, plan, settled.got_len(), time)
}

fn main(rt: HostRuntime) -> io::Result<ExitCode> {
    let mut words = Vec::new(rt.alloc());
    for word in env::args(&rt)? {
        words.push(word)?;
    }
    let Some(plan) = plan_of(words.as_slice()) else {
        eprintln!(rt; "ring_bench SIZE FRAME COUNT ROUNDS [timed]")?;
        return Ok(ExitCode::from(2));
    };
    for _ in 0..plan.rounds {
        try_ring::<WordRing, _>(&rt, "word", &plan)?;
        try_ring::<QueueRing, _>(&rt, "queue", &plan)?;
    }
    Ok(ExitCode::from(0))
}
