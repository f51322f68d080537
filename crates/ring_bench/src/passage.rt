//! Frames that go through a ring, from one thread to another.
ghost use Rattle.std.specs.Prelude.{◌≡◌, ◌⊎◌, ◌↔◌, ◌+◌, ◌*◌, ◌^◌, ◌<◌, [], ◌++◌, length, Err, IfOk};
ghost use Rattle.rtt_ring.specs.Views.{UpKept};
ghost use Rattle.rtt_ring.specs.declared.ends.RingFault.TheVariants.{Size};
ghost use Rattle.ring_bench.specs.Frames.{frames};

use dl_io::Bytes;
use rtt_modes::{Relief, block};
use rtt_ring::{Channel, DownEnd, RingFault, Settled, UpEnd};
use std::alloc::Global;
use std::sync::Wait;
use std::thread;
use std::thread::Threads;

// The most bytes that one take asks for.
const PIECE: usize = 4096;

// Lets other threads run.
#[derive(Clone, Copy)]
struct Yields;

impl Relief for Yields {
    ghost kept = { λ _. Unit {0} };

    fn ease(&mut self) {
        thread::yield_now()
    }
}

// Sends so many frames, and answers the end.
fn send_all<W: Wait, U: UpEnd + Drop>(rt: &W, up: U, frame: &[u8], count: u64) -> U
    requires frame { (0 < length frame.now) × (length frame.now < 2 ^ 32) }
    requires staged { (U.view up).staged ≡ [] }
    ensures sent { (U.view result).sent ≡ (U.view up).sent ++ frames count frame.now }
    ensures kept { UpKept (U.view up) (U.view result) }
{
    let mut up = up;
    let mut done = 0;
    while done < count {
        block(rt, &mut up, frame, &mut Yields);
        done += 1;
    }
    up
}

// Takes so many bytes, each time into the same buffer, and answers the end.
fn take_all<W: Wait, D: DownEnd + Drop>(rt: &W, down: D, buffer: &mut [u8], total: u64) -> D
    ensures got { length (D.view result).got ≡ length (D.view down).got + total }
    ensures split { (D.view result).split ≡ (D.view down).split }
{
    let mut down = down;
    let mut left = total;
    for _ in rt.forever() {
        if left == 0 {
            return down;
        }
        let most = left.min(buffer.len() as u64) as usize;
        let count = down.take(&mut buffer[..most]);
        if count == 0 {
            thread::yield_now();
        }
        left -= count as u64;
    }
    unreachable!()
}

/// Sends so many frames through a new ring of `size` bytes, from one thread to another, and settles the ring.
/// All that was sent was taken then.
pub fn pass<C: Channel, R: Threads + Wait + Sync>(
    rt: &R,
    alloc: Global,
    size: u32,
    frame: &[u8],
    count: u64,
) -> Result<Settled, RingFault>
    requires frame { (0 < length frame.now) × (length frame.now < 2 ^ 32) }
    requires total { count * length frame.now < 2 ^ 64 }
    ensures sent { IfOk result (λ s. s.sent ≡ frames count frame.now) }
    ensures got { IfOk result (λ s. s.got ≡ s.sent) }
    ensures ring { IfOk result (λ s. s.ring ≡ C.KIND) }
    ensures refused { ((size < 16) ⊎ (65536 < size)) ↔ (result ≡ Err Size) }
{
    let (up, down) = C::split(alloc, size)?;
    let mut buffer = Vec::from_elem(alloc, 0, PIECE)?;
    let piece = buffer.as_mut_slice();
    let total = count * frame.len() as u64;
    let (up, down) = thread::join(
        rt,
        || send_all(rt, up, frame, count),
        || take_all(rt, down, piece, total),
    );
    let mut rest = Bytes::new(alloc);
    match C::settle(up, down, &mut rest) {
        Ok(settled) => Ok(settled),
        Err(_) => Err(RingFault::Memory),
    }
}
