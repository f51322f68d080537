//! The run of a script by threads.
ghost use Rattle.std.specs.Prelude.{◌≡◌, ◌≤◌, ◌+◌, ◌*◌, IfOk};
ghost use Rattle.defmt_frames.specs.Frames.{pace_of};
ghost use Rattle.defmt_run.specs.Making.{IsWordRun, IsWordSteered, IsWordTalk};
ghost use Rattle.defmt_run.specs.Told.{GatesRun};

use defmt_hooks::{Clock, Stamp};
use defmt_print::stamps;
use defmt_script::Script;
use defmt_steer::{SteeredRun, run_steered};
use defmt_talk::{Talk, run_terminals};
use defmt_writers::{Gate, Run, run_script};
use dl_io::Memory;
use rtt_ring::WordRing;
use std::alloc::Global;
use std::sync::Wait;
use std::thread::Threads;

// A clock that counts from a base by a step.
#[derive(Drop)]
struct Counter {
    base: u64,
    step: u64,
}

impl Clock for Counter {
    ghost ready = { λ c t.
        (c.base ≤ 281474976710656) × (c.step ≤ 281474976710656) × (t ≤ 4096) };

    ghost gives = { λ c t stamp. stamp ≡ c.base + c.step * t };

    fn tick(&self, t: u32) -> u64 {
        self.base + self.step * u64::from(t)
    }
}

// A clock that counts by a script's stamps.
fn stamp_of(script: &Script) -> Stamp<Counter>
    ensures { result ≡ pace_of script.now.settings.stamp }
{
    let (base, step) = stamps(script);
    Stamp::new(base, step, Counter { base, step })
}

/// Runs a script over a word ring: a thread for each writer that has statements, and a reader. It may wait.
pub fn log<G: Gate + Sync, R: Threads + Wait + Sync>(
    rt: &R,
    alloc: Global,
    script: Script,
    gate: &G,
) -> Result<Run, Memory>
    ensures script { IfOk result (λ r. r.script ≡ script) }
    ensures run { IfOk result (λ r. IsWordRun r) }
    ensures gate { IfOk result (λ r. GatesRun (G.passed gate.now) (G.told gate.now)
        script r.captured.items) }
{
    let stamp = stamp_of(&script);
    run_script::<WordRing, Counter, G, R>(rt, alloc, script, stamp, gate)
}

/// Runs a script and its texts for terminals over two word rings: a thread for each writer that has statements or texts, and a
/// reader of both. It may wait.
pub fn speak<G: Gate + Sync, R: Threads + Wait + Sync>(
    rt: &R,
    alloc: Global,
    script: Script,
    gate: &G,
) -> Result<(Run, Talk), Memory>
    ensures script { IfOk result (λ r. r.0.script ≡ script) }
    ensures run { IfOk result (λ r. IsWordRun r.0) }
    ensures talk { IfOk result (λ r. IsWordTalk r.0 r.1) }
    ensures gate { IfOk result (λ r. GatesRun (G.passed gate.now) (G.told gate.now)
        script r.0.captured.items) }
{
    let stamp = stamp_of(&script);
    run_terminals::<WordRing, Counter, G, R>(rt, alloc, script, stamp, gate)
}

/// Runs a script under its orders over two word rings: a thread for each writer that has statements, and a host that reads and
/// sends the orders. It may wait.
pub fn steer<G: Gate + Sync, R: Threads + Wait + Sync>(
    rt: &R,
    alloc: Global,
    script: Script,
    gate: &G,
) -> Result<SteeredRun, Memory>
    ensures script { IfOk result (λ r. r.script ≡ script) }
    ensures run { IfOk result (λ r. IsWordSteered r) }
    ensures gate { IfOk result (λ r. GatesRun (G.passed gate.now) (G.told gate.now)
        script r.captured.items) }
{
    let stamp = stamp_of(&script);
    run_steered::<WordRing, Counter, G, R>(rt, alloc, script, stamp, gate)
}
