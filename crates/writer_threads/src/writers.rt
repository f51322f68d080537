//! What the writers log.
ghost use Rattle.std.specs.Prelude.{◌≡◌, ◌≤◌, ◌<◌, ◌+◌, false};
ghost use Rattle.writer_threads.specs.Passing.{PassedAll};

use crate::gate::Gate;
use rtt_modes::Relief;
use shared_work::{Books, Eight, HasBook, Names, Pen, Pens, Quota, Shared, Work, pens};
use std::sync::Wait;
use std::sync::atomic::{AtomicU64, Ordering};
use std::sync::ledger::Ledger;
use std::thread;

// How many writers there are.
const WRITERS: u64 = 8;

/// Waits until other threads had their turn.
#[derive(Clone, Copy)]
pub struct Yields;

impl Relief for Yields {
    ghost kept = { λ _. Unit {0} };

    fn ease(&mut self) {
        thread::yield_now()
    }
}

/// Asks the gate, and then does the pen's next step, of which there is one. That the gate was asked at this place is a clause, that
/// it was asked before the step isn't; so it is of all that log here.
pub fn log_next<
    B: Books,
    Q: Quota,
    T: Work<Q>,
    S: HasBook<B, L>,
    L: Ledger,
    G: Gate,
    R: Relief,
    W: Wait,
>(rt: &W, shared: &Shared<B, Q, T>, pen: &mut Pen<S, L, Q>, gate: &G, relief: &mut R)
    requires more { pen.old.place < pen.old.total }
    requires relief { R.kept relief.old }
    ensures place { pen.new.place ≡ pen.old.place + 1 }
    ensures asked { G.passed gate.now S.NUMBER pen.old.place }
    ensures relief { R.kept relief.new }
{
    gate.pass(pen.writer(), pen.place());
    shared.step(rt, pen, relief);
}

/// Logs all that the pen has left: does its steps, and asks the gate before each.
pub fn log_all<
    B: Books,
    Q: Quota,
    T: Work<Q>,
    S: HasBook<B, L>,
    L: Ledger,
    G: Gate,
    R: Relief,
    W: Wait,
>(rt: &W, shared: &Shared<B, Q, T>, pen: &mut Pen<S, L, Q>, gate: &G, relief: &mut R)
    requires { R.kept relief.old }
    ensures place { pen.new.place ≡ pen.new.total }
    ensures asked { PassedAll (G.passed gate.now S.NUMBER) pen.old.place pen.new.place }
    ensures relief { R.kept relief.new }
{
    log_until(rt, shared, pen, pen.total(), gate, relief)
}

/// Logs what the pen has left until so many of its steps are done, and asks the gate before each. Where as many were done
/// before, or more, it does none.
pub fn log_until<
    B: Books,
    Q: Quota,
    T: Work<Q>,
    S: HasBook<B, L>,
    L: Ledger,
    G: Gate,
    R: Relief,
    W: Wait,
>(rt: &W, shared: &Shared<B, Q, T>, pen: &mut Pen<S, L, Q>, count: u32, gate: &G, relief: &mut R)
    requires { R.kept relief.old }
    ensures until { pen.new.place < pen.new.total → count ≤ pen.new.place }
    ensures no_further { pen.old.place < pen.new.place → pen.new.place ≤ count }
    ensures forth { pen.old.place ≤ pen.new.place }
    ensures asked { PassedAll (G.passed gate.now S.NUMBER) pen.old.place pen.new.place }
    ensures relief { R.kept relief.new }
{
    while pen.place() < pen.total() && pen.place() < count {
        log_next(rt, shared, pen, gate, relief);
    }
}

/// Does the steps that the pens have left, and asks the gate before each.
pub fn finish<E: Names, Q: Quota, T: Work<Q>, G: Gate, R: Relief, W: Wait>(
    rt: &W,
    shared: &Shared<Eight<E>, Q, T>,
    pens: &mut Pens<E, Q>,
    gate: &G,
    relief: &mut R,
)
    requires { R.kept relief.old }
    ensures p0 { pens.new.p0.place ≡ pens.new.p0.total }
    ensures p1 { pens.new.p1.place ≡ pens.new.p1.total }
    ensures p2 { pens.new.p2.place ≡ pens.new.p2.total }
    ensures p3 { pens.new.p3.place ≡ pens.new.p3.total }
    ensures p4 { pens.new.p4.place ≡ pens.new.p4.total }
    ensures p5 { pens.new.p5.place ≡ pens.new.p5.total }
    ensures p6 { pens.new.p6.place ≡ pens.new.p6.total }
    ensures p7 { pens.new.p7.place ≡ pens.new.p7.total }
    ensures asked0 { PassedAll (G.passed gate.now 0) pens.old.p0.place pens.new.p0.place }
    ensures asked1 { PassedAll (G.passed gate.now 1) pens.old.p1.place pens.new.p1.place }
    ensures asked2 { PassedAll (G.passed gate.now 2) pens.old.p2.place pens.new.p2.place }
    ensures asked3 { PassedAll (G.passed gate.now 3) pens.old.p3.place pens.new.p3.place }
    ensures asked4 { PassedAll (G.passed gate.now 4) pens.old.p4.place pens.new.p4.place }
    ensures asked5 { PassedAll (G.passed gate.now 5) pens.old.p5.place pens.new.p5.place }
    ensures asked6 { PassedAll (G.passed gate.now 6) pens.old.p6.place pens.new.p6.place }
    ensures asked7 { PassedAll (G.passed gate.now 7) pens.old.p7.place pens.new.p7.place }
    ensures relief { R.kept relief.new }
{
    let pens!(p0, p1, p2, p3, p4, p5, p6, p7) = pens;
    log_all(rt, shared, p0, gate, relief);
    log_all(rt, shared, p1, gate, relief);
    log_all(rt, shared, p2, gate, relief);
    log_all(rt, shared, p3, gate, relief);
    log_all(rt, shared, p4, gate, relief);
    log_all(rt, shared, p5, gate, relief);
    log_all(rt, shared, p6, gate, relief);
    log_all(rt, shared, p7, gate, relief);
}

/// Eases until all writers have ended, or waits for nothing where it isn't to ease: then the relief comes back as it was.
pub fn ease_on<R: Relief, W: Wait>(rt: &W, ended: &AtomicU64, eases: bool, mut relief: R) -> R
    requires { R.kept relief }
    ensures kept { R.kept result }
    ensures same { eases ≡ false → result ≡ relief }
{
    for _ in rt.forever() {
        if !eases || ended.load(Ordering::SeqCst) >= WRITERS {
            break;
        }
        relief.ease();
        thread::yield_now();
    }
    relief
}
