//! A reader of a ring.
ghost use Rattle.std.specs.Prelude.{◌≡◌, ◌⊎◌, ℕ, ◌+◌, ◌<◌, ◌≤◌, true, List, [], length};
ghost use Rattle.defmt_writers.specs.Takes.{Takes};
ghost use Rattle.rtt_ring.specs.Views.{UpKept};
ghost use Rattle.writer_threads.specs.Passing.{Means, ToldAll, WasPassed, WasTold};

use crate::serving::serve;
use dl_io::Bytes;
use rtt_modes::Relief;
use rtt_ring::{DownEnd, UpEnd};
use shared_work::{Eight, Names, Pens, Quota, Shared, Work, pens};
use std::marker::{Brand, PhantomData};
use std::sync::Wait;
use writer_threads::{Gate, Yields, finish};

// The most bytes that one take moves.
const PIECE: usize = 256;

// Takes bytes that are there, as far as the capture has room for them, and tells the gate. Answers how many.
pub(crate) fn take<D: DownEnd, G: Gate>(down: &mut D, capture: &mut Bytes, gate: &G) -> usize
    requires got { (D.view down.old).got ≡ capture.old.items }
    ensures split { (D.view down.new).split ≡ (D.view down.old).split }
    ensures got { (D.view down.new).got ≡ capture.new.items }
    ensures room { capture.new.room + result ≡ capture.old.room }
    ensures takes { Takes (D.view down.old) (D.view down.new) capture.old capture.new result }
    ensures few { result ≤ 256 }
    ensures told { 0 < result → G.told gate.now (length capture.new.items) }
{
    let mut buffer = [0; PIECE];
    let size = capture.spare().min(PIECE);
    let piece = &mut buffer[..size];
    let count = down.take(piece);
    capture.extend_reserved(&piece[..count]);
    if count > 0 {
        gate.took(capture.len() as u64);
    }
    count
}

// Takes until nothing is there, or there is no room, and tells the gate of each take that took something.
pub(crate) fn take_all<D: DownEnd, G: Gate>(down: &mut D, capture: &mut Bytes, gate: &G)
    requires got { (D.view down.old).got ≡ capture.old.items }
    ensures split { (D.view down.new).split ≡ (D.view down.old).split }
    ensures got { (D.view down.new).got ≡ capture.new.items }
    ensures takes { Takes (D.view down.old) (D.view down.new) capture.old capture.new 0 }
    ensures told { ToldAll (G.told gate.now) (length capture.old.items) (length capture.new.items) }
{
    while take(down, capture, gate) > 0 {}
}

/// From which split of a ring a reader's end comes, and what its gate shows where it is asked and told. Whoever makes a reader picks
/// the three.
pub trait FromSplit {
    /// The name of the split.
    ghost split: { List ℕ };

    /// A writer was let pass at a place.
    ghost passed: { ℕ → ℕ → Type 0 };

    /// So many bytes were told.
    ghost told: { ℕ → Type 0 };
}

impl FromSplit for Brand {
    ghost split = { [] };

    ghost passed = { λ _ _. Unit {0} };

    ghost told = { λ _. Unit {0} };
}

/// The lower end of a ring with what was captured of it, and the gate that was told of each take of these bytes.
#[derive(Drop)]
pub struct Reader<'g, N: FromSplit, D: DownEnd, G: Gate> {
    /// The end.
    pub down: D,
    /// What was captured of it.
    pub captured: Bytes,
    /// The gate.
    pub gate: &'g G,
    /// Which split.
    pub of: PhantomData<N>,
    ghost split: { (D.view down).split ≡ N.split },
    ghost got: { (D.view down).got ≡ captured.items },
    ghost lets: { (writer : ℕ) → Means (G.passed gate.now writer) (N.passed writer) },
    ghost means: { Means (G.told gate.now) N.told },
    pub ghost told: { WasTold N.told 0 (length captured.items) },
}

impl<'g, N: FromSplit, D: DownEnd, G: Gate> Reader<'g, N, D, G> {
    /// Takes until nothing is there, or there is no room. What was captured before stays in front. The gate is told the total of
    /// each take that took something, which takes at most 256 bytes.
    pub fn take_all(&mut self)
        ensures takes { Takes (D.view self.old.down) (D.view self.new.down)
            self.old.captured self.new.captured 0 }
        ensures told { ToldAll (G.told self.old.gate.now)
            (length self.old.captured.items) (length self.new.captured.items) }
    {
        take_all(&mut self.down, &mut self.captured, self.gate)
    }

    /// Takes until the upper end of the ring, at which nothing is staged, finds all released that was sent, or there is no room.
    /// What was captured before stays in front. The call waits for writers at the upper end, so there should be none.
    pub fn take_rest<U: UpEnd, W: Wait>(&mut self, rt: &W, up: &mut U)
        requires { (U.view up.old).staged ≡ [] }
        ensures takes { Takes (D.view self.old.down) (D.view self.new.down)
            self.old.captured self.new.captured 0 }
        ensures sent { (U.view up.new).sent ≡ (U.view up.old).sent }
        ensures kept { UpKept (U.view up.old) (U.view up.new) }
        ensures taken { (U.view up.old).tells ≡ true
            → ((U.view up.new).freed ≡ length (U.view up.new).sent) ⊎ (self.new.captured.room ≡ 0) }
        ensures told { WasTold N.told 0 (length self.new.captured.items) }
    {
        for _ in rt.forever() {
            self.take_all();
            let room = up.look();
            let size = up.size();
            if room + 1 == size || self.captured.spare() == 0 {
                return;
            }
        }
        unreachable!()
    }

    /// Does the steps that the pens have left, on the calling thread, and asks the gate before each. Where a step waits, bytes that are
    /// there are taken; and behind each pen's last step all that is there, as far as there is room.
    pub fn serve<E: Names, Q: Quota, T: Work<Q>, W: Wait>(
        &mut self,
        rt: &W,
        shared: &Shared<Eight<E>, Q, T>,
        pens: &mut Pens<E, Q>,
    )
        ensures takes { Takes (D.view self.old.down) (D.view self.new.down)
            self.old.captured self.new.captured 0 }
        ensures p0 { pens.new.p0.place ≡ pens.new.p0.total }
        ensures p1 { pens.new.p1.place ≡ pens.new.p1.total }
        ensures p2 { pens.new.p2.place ≡ pens.new.p2.total }
        ensures p3 { pens.new.p3.place ≡ pens.new.p3.total }
        ensures p4 { pens.new.p4.place ≡ pens.new.p4.total }
        ensures p5 { pens.new.p5.place ≡ pens.new.p5.total }
        ensures p6 { pens.new.p6.place ≡ pens.new.p6.total }
        ensures p7 { pens.new.p7.place ≡ pens.new.p7.total }
        ensures asked0 { WasPassed (N.passed 0) pens.old.p0.place pens.new.p0.place }
        ensures asked1 { WasPassed (N.passed 1) pens.old.p1.place pens.new.p1.place }
        ensures asked2 { WasPassed (N.passed 2) pens.old.p2.place pens.new.p2.place }
        ensures asked3 { WasPassed (N.passed 3) pens.old.p3.place pens.new.p3.place }
        ensures asked4 { WasPassed (N.passed 4) pens.old.p4.place pens.new.p4.place }
        ensures asked5 { WasPassed (N.passed 5) pens.old.p5.place pens.new.p5.place }
        ensures asked6 { WasPassed (N.passed 6) pens.old.p6.place pens.new.p6.place }
        ensures asked7 { WasPassed (N.passed 7) pens.old.p7.place pens.new.p7.place }
        ensures told { WasTold N.told 0 (length self.new.captured.items) }
    {
        let Reader {
            down,
            captured,
            gate,
            ..
        } = self;
        let pens!(p0, p1, p2, p3, p4, p5, p6, p7) = pens;
        serve(rt, shared, p0, down, captured, *gate);
        serve(rt, shared, p1, down, captured, *gate);
        serve(rt, shared, p2, down, captured, *gate);
        serve(rt, shared, p3, down, captured, *gate);
        serve(rt, shared, p4, down, captured, *gate);
        serve(rt, shared, p5, down, captured, *gate);
        serve(rt, shared, p6, down, captured, *gate);
        serve(rt, shared, p7, down, captured, *gate);
    }

    // Does the steps that the pens have left, on the calling thread, and asks the gate before each. It takes nothing.
    pub(crate) fn finish<E: Names, Q: Quota, T: Work<Q>, W: Wait>(
        &self,
        rt: &W,
        shared: &Shared<Eight<E>, Q, T>,
        pens: &mut Pens<E, Q>,
    )
        ensures p0 { pens.new.p0.place ≡ pens.new.p0.total }
        ensures p1 { pens.new.p1.place ≡ pens.new.p1.total }
        ensures p2 { pens.new.p2.place ≡ pens.new.p2.total }
        ensures p3 { pens.new.p3.place ≡ pens.new.p3.total }
        ensures p4 { pens.new.p4.place ≡ pens.new.p4.total }
        ensures p5 { pens.new.p5.place ≡ pens.new.p5.total }
        ensures p6 { pens.new.p6.place ≡ pens.new.p6.total }
        ensures p7 { pens.new.p7.place ≡ pens.new.p7.total }
        ensures asked0 { WasPassed (N.passed 0) pens.old.p0.place pens.new.p0.place }
        ensures asked1 { WasPassed (N.passed 1) pens.old.p1.place pens.new.p1.place }
        ensures asked2 { WasPassed (N.passed 2) pens.old.p2.place pens.new.p2.place }
        ensures asked3 { WasPassed (N.passed 3) pens.old.p3.place pens.new.p3.place }
        ensures asked4 { WasPassed (N.passed 4) pens.old.p4.place pens.new.p4.place }
        ensures asked5 { WasPassed (N.passed 5) pens.old.p5.place pens.new.p5.place }
        ensures asked6 { WasPassed (N.passed 6) pens.old.p6.place pens.new.p6.place }
        ensures asked7 { WasPassed (N.passed 7) pens.old.p7.place pens.new.p7.place }
    {
        finish(rt, shared, pens, self.gate, &mut Yields)
    }

    /// The end and what was captured of it, as they are.
    pub fn into_parts(self) -> (D, Bytes)
        ensures down { result.0 ≡ self.entry.down }
        ensures split { (D.view result.0).split ≡ N.split }
        ensures got { (D.view result.0).got ≡ result.1.items }
        ensures captured { result.1 ≡ self.entry.captured }
    {
        let Reader { down, captured, .. } = self;
        (down, captured)
    }
}

impl<'g, N: FromSplit, D: DownEnd, G: Gate> Relief for Reader<'g, N, D, G> {
    ghost kept = { λ _. Unit {0} };

    fn ease(&mut self)
        ensures { Takes (D.view self.old.down) (D.view self.new.down)
            self.old.captured self.new.captured 1 }
    {
        take(&mut self.down, &mut self.captured, self.gate);
    }
}
