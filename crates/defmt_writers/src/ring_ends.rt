//! The ends of a run's ring: how they are made, and how they settle.
ghost use Rattle.std.specs.Prelude.{◌≡◌, ◌≤◌, ◌++◌, [], IfOk, length};
ghost use Rattle.defmt_logger.specs.Kept.{TellsIn};
ghost use Rattle.defmt_writers.specs.Runs.{HoldsStreams, ModeFits};
ghost use Rattle.rtt_ring.specs.Views.{new_down, new_up};

use defmt_frames::FRAME_SIZE;
use defmt_script::{Script, WRITERS};
use dl_io::{Bytes, Memory};
use rtt_ring::{Channel, RingFault, Settled};
use rzcobs_core::canonical_size;
use std::alloc::Global;

/// The two ends of a new ring, and the room for what its reader takes.
#[derive(Drop)]
pub struct RingEnds<U, D> {
    /// The upper end.
    pub up: U,
    /// The lower end.
    pub down: D,
    /// What was taken at the lower end.
    pub captured: Bytes,
}

/// A ring that was settled.
#[derive(Drop)]
pub struct SettledRing {
    /// The account of the ring.
    pub settled: Settled,
    /// The bytes that were sent and not taken.
    pub rest: Bytes,
}

/// No bytes, with room for so many.
///
/// # Errors
/// `Memory` where there is none.
pub fn empty_capture(alloc: Global, room: usize) -> Result<Bytes, Memory>
    ensures items { IfOk result (λ captured. captured.items ≡ []) }
    ensures room { IfOk result (λ captured. captured.room ≡ room) }
{
    let mut captured = Bytes::new(alloc);
    captured.reserve(room)?;
    Ok(captured)
}

/// The two ends of a new ring of so many bytes, from 16 to 65,536.
///
/// # Errors
/// `Memory` where there is none.
pub fn split_ring<H: Channel>(alloc: Global, size: u32) -> Result<(H::Up, H::Down), Memory>
    requires { (16 ≤ size) × (size ≤ 65536) }
    ensures up { IfOk result (λ e. H.Up.view e.0 ≡ new_up (H.Up.view e.0).split size H.tells) }
    ensures down { IfOk result (λ e. H.Down.view e.1 ≡ new_down (H.Up.view e.0).split size) }
{
    match H::split(alloc, size) {
        Ok(ends) => Ok(ends),
        Err(RingFault::Memory) => Err(Memory),
        Err(RingFault::Size) => unreachable!(),
    }
}

/// The two ends of a new ring of so many bytes, from 16 to 65,536, and a capture with nothing in it and room for `room` bytes.
///
/// # Errors
/// `Memory` where there is none.
pub fn new_ends<H: Channel>(
    alloc: Global,
    size: u32,
    room: usize,
) -> Result<RingEnds<H::Up, H::Down>, Memory>
    requires { (16 ≤ size) × (size ≤ 65536) }
    ensures up { IfOk result (λ e. H.Up.view e.up ≡ new_up (H.Up.view e.up).split size H.tells) }
    ensures down { IfOk result (λ e. H.Down.view e.down ≡ new_down (H.Up.view e.up).split size) }
    ensures captured { IfOk result (λ e. e.captured.items ≡ []) }
    ensures room { IfOk result (λ e. e.captured.room ≡ room) }
{
    let captured = empty_capture(alloc, room)?;
    let (up, down) = split_ring::<H>(alloc, size)?;
    Ok(RingEnds { up, down, captured })
}

// How many bytes are enough for the stream of any tape of the script, and for that of any turns: as many as the largest frames of
// all its statements have.
#[tactic(auto, using(crate::proofs::Capture::count_next))]
fn frames_size(script: &Script) -> usize
    ensures { HoldsStreams script.now result }
{
    script.lawful();
    canonical_size();
    let mut count = 0;
    for writer in 0..WRITERS {
        count += script.count(writer);
    }
    count as usize * FRAME_SIZE
}

/// The two ends of a new ring of the script's size, and a capture with nothing in it that has room for all that the script's
/// statements may send.
///
/// # Errors
/// `Memory` where there is none.
pub fn prepare<H: Channel>(
    alloc: Global,
    script: &Script,
) -> Result<RingEnds<H::Up, H::Down>, Memory>
    requires { ModeFits script.now.settings.mode H.tells }
    ensures up { IfOk result (λ e. H.Up.view e.up
        ≡ new_up (H.Up.view e.up).split script.now.settings.ring (H.Up.view e.up).tells) }
    ensures told { IfOk result (λ e. TellsIn script.now.settings.mode (H.Up.view e.up)) }
    ensures tells { IfOk result (λ e. (H.Up.view e.up).tells ≡ H.tells) }
    ensures down { IfOk result (λ e. H.Down.view e.down
        ≡ new_down (H.Up.view e.up).split script.now.settings.ring) }
    ensures captured { IfOk result (λ e. e.captured.items ≡ []) }
    ensures room { IfOk result (λ e. HoldsStreams script.now e.captured.room) }
{
    script.lawful();
    let ends = new_ends::<H>(alloc, script.ring(), frames_size(script))?;
    Ok(ends)
}

/// Settles a ring.
///
/// # Errors
/// `Memory` where there is none. Both ends are then given up.
pub fn settle<H: Channel>(alloc: Global, up: H::Up, down: H::Down) -> Result<SettledRing, Memory>
    requires pair { (H.Up.view up).split ≡ (H.Down.view down).split }
    requires staged { (H.Up.view up).staged ≡ [] }
    ensures account { IfOk result (λ a. (a.settled.sent ≡ (H.Up.view up).sent)
        × (a.settled.got ≡ (H.Down.view down).got) × (a.settled.ring ≡ H.KIND)) }
    ensures split { IfOk result (λ a. a.settled.split ≡ (H.Up.view up).split) }
    ensures rest { IfOk result (λ a. (a.settled.sent ≡ a.settled.got ++ a.rest.items)
        × ((H.Up.view up).freed ≤ length a.settled.got)) }
{
    let mut rest = Bytes::new(alloc);
    let settled = H::settle(up, down, &mut rest)?;
    Ok(SettledRing { settled, rest })
}
