//! The reader of a run.
ghost use Rattle.std.specs.Prelude.{◌≡◌, ◌⊎◌, ℕ, ◌+◌, true, false, [], length};
ghost use Rattle.defmt_writers.specs.Runs.{HoldsTapes};
ghost use Rattle.defmt_writers.specs.Takes.{Takes};
ghost use Rattle.rtt_ring.specs.Views.{UpKept};
ghost use Rattle.writer_threads.specs.Passing.{Means, WasPassed, WasTold};

use crate::reader::{FromSplit, Reader};
use defmt_logger::Naming;
use dl_io::Bytes;
use rtt_modes::Relief;
use rtt_ring::{DownEnd, UpEnd};
use shared_work::{Eight, Names, Pens, Quota, Shared, Work};
use std::marker::PhantomData;
use std::sync::Wait;
use writer_threads::Gate;

/// A reader that is late where the script says so, and then takes nothing. It has room for what the script's statements send.
#[derive(Drop)]
pub struct Drain<'g, N: FromSplit, K: Naming, D: DownEnd, G: Gate> {
    /// The reader.
    pub reader: Reader<'g, N, D, G>,
    /// Whether it is late.
    pub late: bool,
    pub(crate) of: PhantomData<K>,
    ghost late_is: { late ≡ K.script.settings.late },
    ghost idle: { late ≡ true → reader.captured.items ≡ [] },
    ghost holds: { HoldsTapes K.script (reader.captured.room + length reader.captured.items) },
}

impl<'g, N: FromSplit, K: Naming, D: DownEnd, G: Gate> Drain<'g, N, K, D, G> {
    /// A reader that has taken nothing yet, and is late where the script is.
    pub fn new(late: bool, down: D, captured: Bytes, gate: &'g G) -> Self
        requires late { late ≡ K.script.settings.late }
        requires split { (D.view down).split ≡ N.split }
        requires got { ((D.view down).got ≡ []) × (captured.items ≡ []) }
        requires room { HoldsTapes K.script captured.room }
        requires lets { (writer : ℕ) → Means (G.passed gate.now writer) (N.passed writer) }
        requires means { Means (G.told gate.now) N.told }
        ensures late { result.late ≡ late }
        ensures down { result.reader.down ≡ down }
        ensures captured { result.reader.captured ≡ captured }
    {
        let reader = Reader {
            down,
            captured,
            gate,
            of: PhantomData,
        };
        Drain {
            reader,
            late,
            of: PhantomData,
        }
    }

    /// Does the steps that the pens have left, on the calling thread, and asks the gate before each. A reader that isn't late takes while a step waits, and all that
    /// is there behind each pen's last. A late one takes nothing.
    pub fn serve<E: Names, Q: Quota, T: Work<Q>, W: Wait>(
        &mut self,
        rt: &W,
        shared: &Shared<Eight<E>, Q, T>,
        pens: &mut Pens<E, Q>,
    )
        ensures in_time { self.old.late ≡ false → Takes (D.view self.old.reader.down)
            (D.view self.new.reader.down) self.old.reader.captured self.new.reader.captured 0 }
        ensures late { self.old.late ≡ true → self.new ≡ self.old }
        ensures p0 { pens.new.p0.place ≡ pens.new.p0.total }
        ensures p1 { pens.new.p1.place ≡ pens.new.p1.total }
        ensures p2 { pens.new.p2.place ≡ pens.new.p2.total }
        ensures p3 { pens.new.p3.place ≡ pens.new.p3.total }
        ensures p4 { pens.new.p4.place ≡ pens.new.p4.total }
        ensures p5 { pens.new.p5.place ≡ pens.new.p5.total }
        ensures p6 { pens.new.p6.place ≡ pens.new.p6.total }
        ensures p7 { pens.new.p7.place ≡ pens.new.p7.total }
        ensures asked0 { WasPassed (N.passed 0) pens.old.p0.place pens.new.p0.place }
        ensures asked1 { WasPassed (N.passed 1) pens.old.p1.place pens.new.p1.place }
        ensures asked2 { WasPassed (N.passed 2) pens.old.p2.place pens.new.p2.place }
        ensures asked3 { WasPassed (N.passed 3) pens.old.p3.place pens.new.p3.place }
        ensures asked4 { WasPassed (N.passed 4) pens.old.p4.place pens.new.p4.place }
        ensures asked5 { WasPassed (N.passed 5) pens.old.p5.place pens.new.p5.place }
        ensures asked6 { WasPassed (N.passed 6) pens.old.p6.place pens.new.p6.place }
        ensures asked7 { WasPassed (N.passed 7) pens.old.p7.place pens.new.p7.place }
        ensures told { WasTold N.told 0 (length self.new.reader.captured.items) }
    {
        if self.late {
            self.reader.finish(rt, shared, pens);
        } else {
            self.reader.serve(rt, shared, pens);
        }
    }

    /// Takes until the upper end of the ring finds all released that was sent, or there is no room. A late reader takes nothing.
    pub fn take_rest<U: UpEnd, W: Wait>(&mut self, rt: &W, up: &mut U)
        requires { (U.view up.old).staged ≡ [] }
        ensures in_time { self.old.late ≡ false → Takes (D.view self.old.reader.down)
            (D.view self.new.reader.down) self.old.reader.captured self.new.reader.captured 0 }
        ensures late { self.old.late ≡ true → self.new ≡ self.old }
        ensures same { self.new.late ≡ self.old.late }
        ensures sent { (U.view up.new).sent ≡ (U.view up.old).sent }
        ensures kept { UpKept (U.view up.old) (U.view up.new) }
        ensures taken { self.old.late ≡ false → (U.view up.old).tells ≡ true
            → ((U.view up.new).freed ≡ length (U.view up.new).sent)
            ⊎ (self.new.reader.captured.room ≡ 0) }
        ensures told { WasTold N.told 0 (length self.new.reader.captured.items) }
    {
        if !self.late {
            self.reader.take_rest(rt, up);
        }
    }
}

impl<'g, N: FromSplit, K: Naming, D: DownEnd, G: Gate> Relief for Drain<'g, N, K, D, G> {
    ghost kept = { λ _. Unit {0} };

    fn ease(&mut self) {
        if !self.late {
            self.reader.ease();
        }
    }
}
