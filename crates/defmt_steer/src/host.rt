//! The host of a run under orders.
ghost use Rattle.std.specs.Prelude.{◌≡◌, ◌⊎◌, ℕ, ◌+◌, ◌<◌, ◌≤◌, true, [], ◌++◌, length, min, take};
ghost use Rattle.std.specs.Coded.{Coded-set};
ghost use Rattle.defmt_steer.specs.Steers.{Counts, coded_plan, due, whole_frames};
ghost use Rattle.defmt_writers.specs.Takes.{Takes};
ghost use Rattle.rtt_down.specs.Orders.{order_of, orders_joined};
ghost use Rattle.rtt_ring.specs.Views.{UpKept, new_up};
ghost use Rattle.writer_threads.specs.Passing.{Means, WasTold};

use crate::counting::FrameCount;
use defmt_hooks::Level;
use dl_io::Bytes;
use rtt_down::order_bytes;
use rtt_modes::{Relief, skip};
use rtt_ring::{DownEnd, UpEnd};
use std::marker::{Brand, PhantomData};
use std::sync::Wait;
use writer_threads::Gate;

// The most bytes that one take moves.
const PIECE: usize = 256;

// Takes bytes into the buffer, which has all the room that one take asks for, captures them, and counts the frames that are whole
// now.
fn take_counted<D: DownEnd>(
    down: &mut D,
    capture: &mut Bytes,
    count: &mut FrameCount,
    buffer: &mut [u8],
) -> usize
    requires room { length buffer.old ≡ min capture.old.room 256 }
    requires got { (D.view down.old).got ≡ capture.old.items }
    requires counts { Counts count.old.frames count.old.zeros count.old.begun capture.old.items }
    ensures split { (D.view down.new).split ≡ (D.view down.old).split }
    ensures got { (D.view down.new).got ≡ capture.new.items }
    ensures counts { Counts count.new.frames count.new.zeros count.new.begun capture.new.items }
    ensures more { count.old.frames ≤ count.new.frames }
    ensures room { capture.new.room + result ≡ capture.old.room }
    ensures few { result ≤ 256 }
    ensures takes { Takes (D.view down.old) (D.view down.new) capture.old capture.new result }
{
    let size = down.take(buffer);
    capture.extend_reserved(&buffer[..size]);
    let _total = capture.len();
    count.hear_all(&buffer[..size]);
    size
}

// Tells the gate what was captured, where a take took something.
fn tell<G: Gate>(gate: &G, taken: usize, capture: &Bytes)
    ensures { 0 < taken → G.told gate.now (length capture.now.items) }
{
    if taken > 0 {
        gate.took(capture.len() as u64);
    }
}

// Sends an order. While so few bytes were sent there is room for it.
fn send_order<U: UpEnd>(up: &mut U, level: Level)
    requires staged { (U.view up.old).staged ≡ [] }
    requires ring { ((U.view up.old).tells ≡ true) × ((U.view up.old).size ≡ 256) }
    requires few { length (U.view up.old).sent ≤ 189 }
    ensures sent { (U.view up.new).sent ≡ (U.view up.old).sent ++ order_of level }
    ensures kept { UpKept (U.view up.old) (U.view up.new) }
{
    skip(up, &order_bytes(level));
}

// Sends the orders that are due of those that weren't sent, each behind the one in front of it, and answers how many were sent in
// all.
fn send_due<U: UpEnd>(up: &mut U, orders: &[(u32, Level)], next: usize, frames: u64) -> usize
    requires few { length orders.now ≤ 64 }
    requires next { next ≤ length (due orders.now frames) }
    requires sent { (U.view up.old).sent ≡ orders_joined (take next (due orders.now frames)) }
    requires staged { (U.view up.old).staged ≡ [] }
    requires ring { ((U.view up.old).tells ≡ true) × ((U.view up.old).size ≡ 256) }
    ensures count { result ≡ length (due orders.now frames) }
    ensures sent { (U.view up.new).sent ≡ orders_joined (due orders.now frames) }
    ensures kept { UpKept (U.view up.old) (U.view up.new) }
{
    let mut sent = next;
    while sent < orders.len() {
        let (number, level) = orders[sent];
        if u64::from(number) > frames {
            return sent;
        }
        send_order(up, level);
        sent += 1;
    }
    sent
}

// From which splits of two rings a host's ends come, how many bytes it can capture, which orders it sends, and what its gate shows
// where it is told a total.
pub(crate) trait Hosting {
    ghost use Rattle.std.specs.Prelude.{ℕ, List};
    ghost use Rattle.defmt_steer.specs.Steers.{Plan};

    // The name of the split of the ring that frames come up.
    ghost up: { List ℕ };

    // The name of the split of the ring that orders go down.
    ghost down: { List ℕ };

    // For how many bytes there is room, those that were captured among them.
    ghost room: { ℕ };

    // The orders.
    ghost plan: { Plan };

    // So many bytes were told.
    ghost told: { ℕ → Type 0 };
}

impl Hosting for Brand {
    ghost use Rattle.std.specs.Prelude.{[]};

    ghost up = { [] };

    ghost down = { [] };

    ghost room = { 0 };

    ghost plan = { [] };

    ghost told = { λ _. Unit {0} };
}

// The lower end of the ring of frames with what was captured of it, and the upper end of the ring of orders. All orders that
// are due were sent, and the gate was told of each take.
#[derive(Drop)]
pub(crate) struct OrderSender<'g, N: Hosting, U: UpEnd, D: DownEnd, G: Gate> {
    pub(crate) reads: D,
    pub(crate) captured: Bytes,
    pub(crate) count: FrameCount,
    pub(crate) sends: U,
    pub(crate) orders: Vec<(u32, Level)>,
    pub(crate) next: usize,
    pub(crate) gate: &'g G,
    pub(crate) of: PhantomData<N>,
    ghost split: { (D.view reads).split ≡ N.up },
    ghost got: { (D.view reads).got ≡ captured.items },
    ghost room: { captured.room + length captured.items ≡ N.room },
    ghost counts: { Counts count.frames count.zeros count.begun captured.items },
    ghost order_split: { (U.view sends).split ≡ N.down },
    ghost ring: { ((U.view sends).tells ≡ true) × ((U.view sends).size ≡ 256) },
    ghost staged: { (U.view sends).staged ≡ [] },
    ghost plan: { orders.items ≡ N.plan } by { Coded-set coded_plan _ _ },
    ghost few: { length orders.items ≤ 64 },
    ghost next_is: { next ≡ length (due orders.items count.frames) },
    ghost sent: { (U.view sends).sent ≡ orders_joined (due orders.items count.frames) },
    ghost means: { Means (G.told gate.now) N.told },
    ghost told: { WasTold N.told 0 (length captured.items) },
}

// A sender that has taken nothing yet, and has sent the orders that are due at first.
#[tactic(auto, using(crate::proofs::Hosted::host_untold))]
pub(crate) fn order_sender<'g, N: Hosting, U: UpEnd, D: DownEnd, G: Gate>(
    reads: D,
    captured: Bytes,
    mut sends: U,
    orders: Vec<(u32, Level)>,
    gate: &'g G,
) -> OrderSender<'g, N, U, D, G>
    requires reads { ((D.view reads).split ≡ N.up) × ((D.view reads).got ≡ []) }
    requires captured { (captured.items ≡ []) × (captured.room ≡ N.room) }
    requires sends { U.view sends ≡ new_up N.down 256 true }
    requires orders { (orders.items ≡ N.plan) × (length orders.items ≤ 64) }
    requires means { Means (G.told gate.now) N.told }
    ensures early { (U.view result.sends).sent ≡ orders_joined (due N.plan 0) }
{
    let next = send_due(&mut sends, &orders, 0, 0);
    OrderSender {
        reads,
        captured,
        count: FrameCount::new(),
        sends,
        orders,
        next,
        gate,
        of: PhantomData,
    }
}

// The ends that a host had, and what it captured.
#[derive(Drop)]
pub(crate) struct HostEnds<U, D> {
    pub(crate) reads: D,
    pub(crate) captured: Bytes,
    pub(crate) sends: U,
}

impl<'g, N: Hosting, U: UpEnd, D: DownEnd, G: Gate> OrderSender<'g, N, U, D, G> {
    // Takes bytes that are there, as far as there is room for them, tells the gate, and sends the orders that are due now. Answers
    // how many bytes it took.
    fn take(&mut self) -> usize
        ensures room { self.new.captured.room + result ≡ self.old.captured.room }
        ensures takes { Takes (D.view self.old.reads) (D.view self.new.reads)
            self.old.captured self.new.captured result }
    {
        let mut buffer = [0; PIECE];
        let size = self.captured.spare().min(PIECE);
        let taken = take_counted(
            &mut self.reads,
            &mut self.captured,
            &mut self.count,
            &mut buffer[..size],
        );
        tell(self.gate, taken, &self.captured);
        self.next = send_due(&mut self.sends, &self.orders, self.next, self.count.frames);
        taken
    }

    // Takes until nothing is there, or there is no room.
    fn take_all(&mut self)
        ensures { Takes (D.view self.old.reads) (D.view self.new.reads)
            self.old.captured self.new.captured 0 }
    {
        while self.take() > 0 {}
    }

    // Takes until the upper end of the ring of frames finds all released that was sent, or there is no room.
    pub(crate) fn take_rest<V: UpEnd, W: Wait>(&mut self, rt: &W, up: &mut V)
        requires up { ((V.view up.old).staged ≡ []) × ((V.view up.old).tells ≡ true) }
        ensures takes { Takes (D.view self.old.reads) (D.view self.new.reads)
            self.old.captured self.new.captured 0 }
        ensures sent { (V.view up.new).sent ≡ (V.view up.old).sent }
        ensures kept { UpKept (V.view up.old) (V.view up.new) }
        ensures rest { ((V.view up.new).freed ≡ length (V.view up.new).sent)
            ⊎ (self.new.captured.room ≡ 0) }
    {
        for _ in rt.forever() {
            self.take_all();
            let room = up.look();
            let size = up.size();
            if room + 1 == size || self.captured.spare() == 0 {
                return;
            }
        }
        unreachable!()
    }

    // The ends of both rings, and what was captured.
    pub(crate) fn into_parts(self) -> HostEnds<U, D>
        ensures split { (D.view result.reads).split ≡ N.up }
        ensures order_split { (U.view result.sends).split ≡ N.down }
        ensures got { (D.view result.reads).got ≡ result.captured.items }
        ensures captured { result.captured ≡ self.entry.captured }
        ensures room { result.captured.room + length result.captured.items ≡ N.room }
        ensures staged { (U.view result.sends).staged ≡ [] }
        ensures sent { (U.view result.sends).sent
            ≡ orders_joined (due N.plan (whole_frames result.captured.items)) }
        ensures told { WasTold N.told 0 (length result.captured.items) }
    {
        let OrderSender {
            reads,
            captured,
            count: _,
            sends,
            orders: _,
            next: _,
            gate: _,
            of: _,
        } = self;
        HostEnds {
            reads,
            captured,
            sends,
        }
    }
}

impl<'g, N: Hosting, U: UpEnd, D: DownEnd, G: Gate> Relief for OrderSender<'g, N, U, D, G> {
    ghost kept = { λ _. Unit {0} };

    // It looks once, and takes some bytes where any are there and there is room.
    fn ease(&mut self)
        ensures { (count : ℕ) × (self.new.captured.room + count ≡ self.old.captured.room)
            × Takes (D.view self.old.reads) (D.view self.new.reads)
            self.old.captured self.new.captured count }
    {
        self.take();
    }
}
