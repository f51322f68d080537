//! Threads that hear blocks, and what came back from them.
ghost use Rattle.defmt_blocks.specs.Blocks.{SaysAs};
ghost use Rattle.defmt_decode.specs.Event.{tells};

use crate::cuts::Cuts;
use crate::sent::{Kin, Sent};
use crossbeam_channel::{Receiver, SendError, Sender};
use defmt_decode::PlannedTable;
use defmt_recording::Styled;
use dl_io::Memory;
use std::alloc::Global;
use std::sync::Wait;
use std::sync::atomic::{AtomicU64, Ordering};
use std::thread::yield_now;

/// Where the threads take blocks from, and where they put them.
#[derive(Drop)]
pub(crate) struct There<'a, G: Kin> {
    pub(crate) from: Receiver<Sent<'a, G>>,
    pub(crate) to: Sender<Sent<'a, G>>,
}

/// The other ends.
#[derive(Drop)]
pub(crate) struct Ends<'a, G: Kin> {
    pub(crate) to: Sender<Sent<'a, G>>,
    pub(crate) from: Receiver<Sent<'a, G>>,
}

// So often the first thread is waited for.
const TURNS: u32 = 10_000;

/// Waits until a thread has begun, but not for long, since there may be none.
pub(crate) fn wait_for_one(begun: &AtomicU64) {
    for _ in 0..TURNS {
        if begun.load(Ordering::SeqCst) > 0 {
            return;
        }
        yield_now();
    }
}

/// What a thread does beside the one that reads and writes.
pub(crate) trait Beside {
    /// Hears the blocks that come, cut so, until no more can.
    fn hear_all<R: Wait>(&self, rt: &R, cuts: &Cuts, begun: &AtomicU64);
}

impl<'a, G: Kin> Beside for There<'a, G> {
    fn hear_all<R: Wait>(&self, rt: &R, cuts: &Cuts, begun: &AtomicU64) {
        begun.fetch_add(1, Ordering::SeqCst);
        'blocks: for mut sent in self.from.iter(rt) {
            sent.hear(cuts);
            if self.to.send(rt, sent).is_err() {
                break 'blocks;
            }
        }
    }
}

/// Sends blocks to the threads, and takes the sides back in the order of their blocks.
#[derive(Drop)]
pub(crate) struct Pool<'a, 'r, G: Kin, R> {
    rt: &'r R,
    ends: Ends<'a, G>,
    begun: &'r AtomicU64,
    idle: Vec<Sent<'a, G>>,
    early: Vec<Sent<'a, G>>,
    out: u64,
    sent: u64,
    turn: u64,
}

impl<'a, 'r, G: Kin, R: Wait> Pool<'a, 'r, G, R> {
    /// So many sides of a table, which print as this reporter.
    pub(crate) fn new(
        rt: &'r R,
        alloc: Global,
        ends: Ends<'a, G>,
        begun: &'r AtomicU64,
        count: usize,
        table: &'a PlannedTable,
        reporter: &Styled<'a>,
    ) -> Result<Self, Memory>
        requires { SaysAs G.says reporter.now.look (tells table.now) }
    {
        let mut idle = Vec::with_capacity(alloc, count)?;
        'sides: for _ in 0..count {
            idle.push(Sent::new(alloc, table, reporter))?;
        }
        Ok(Pool {
            rt,
            ends,
            begun,
            idle,
            early: Vec::with_capacity(alloc, count)?,
            out: 0,
            sent: 0,
            turn: 0,
        })
    }

    /// Sends the next block, if there is a side for it.
    pub(crate) fn send(&mut self, bytes: &[u8]) {
        let number = self.sent;
        self.sent = number.saturating_add(1);
        if let Some(mut side) = self.idle.pop() {
            if side.take(bytes, number) {
                self.hand_on(side);
            } else {
                self.give_back(side);
            }
        }
    }

    fn hand_on(&mut self, side: Sent<'a, G>) {
        match self.ends.to.send(self.rt, side) {
            Ok(()) => self.out = self.out.saturating_add(1),
            Err(SendError::Disconnected(side) | SendError::OutOfMemory(side)) => {
                self.give_back(side)
            }
        }
    }

    /// A side that isn't needed any more.
    pub(crate) fn give_back(&mut self, side: Sent<'a, G>) {
        let _ = self.idle.push(side);
    }

    /// The side that has the next block, once a thread has heard it. None where no thread has begun, or nobody has this block.
    pub(crate) fn next(&mut self) -> Option<Sent<'a, G>> {
        let number = self.turn;
        self.turn = number.saturating_add(1);
        if self.begun.load(Ordering::SeqCst) == 0 {
            return None;
        }
        for _ in self.rt.forever() {
            if let Some(side) = self.early_one(number) {
                return Some(side);
            }
            if self.out == 0 {
                return None;
            }
            self.receive(number);
        }
        None
    }

    // Waits for any side. One of an earlier block comes too late.
    fn receive(&mut self, number: u64) {
        let Ok(side) = self.ends.from.recv(self.rt) else {
            self.out = 0;
            return;
        };
        self.out = self.out.saturating_sub(1);
        if side.number < number {
            self.give_back(side);
        } else {
            let _ = self.early.push(side);
        }
    }

    // The side with this block among those that came.
    fn early_one(&mut self, number: u64) -> Option<Sent<'a, G>> {
        let at = self.early.iter().position(|side| side.number == number)?;
        if at < self.early.len() {
            return Some(self.early.swap_remove(at));
        }
        None
    }
}
