//! The writers' threads.
ghost use Rattle.std.specs.Prelude.{◌≡◌, ℕ, false};
ghost use Rattle.writer_threads.specs.Passing.{Means, WasPassed};

use crate::asked::{AskedPen, AskedPens, Lending, give_all_back, lend_all};
use crate::gate::Gate;
use crate::writers::{Yields, ease_on, log_all};
use rtt_modes::Relief;
use shared_work::{Books, Eight, HasBook, Names, Pens, Quota, Shared, Work};
use std::marker::{Brand, PhantomData};
use std::sync::Wait;
use std::sync::atomic::{AtomicU64, Ordering};
use std::sync::ledger::Ledger;
use std::thread;
use std::thread::{Scope, Threads};

// One writer's thread.
fn run_one<
    N: Lending,
    B: Books,
    Q: Quota,
    T: Work<Q>,
    S: HasBook<B, L>,
    L: Ledger,
    G: Gate,
    W: Wait,
>(rt: &W, shared: &Shared<B, Q, T>, lent: &mut AskedPen<N, S, L, Q>, gate: &G, ended: &AtomicU64)
    requires { Means (G.passed gate.now S.NUMBER) (N.passed S.NUMBER) }
{
    log_all(rt, shared, &mut lent.pen, gate, &mut Yields);
    ended.fetch_add(1, Ordering::SeqCst);
}

// Starts a writer's thread, which borrows the writer's pen. A writer that has no steps has ended, and so has one whose thread
// can't be started.
fn start<
    's,
    A,
    N: Lending + Send,
    B: Books + Send,
    Q: Quota + Send,
    T: Work<Q> + Send,
    S: HasBook<B, L> + Send,
    L: Ledger + Send,
    G: Gate + Sync,
    W: Wait + Sync,
>(
    scope: &Scope<'s, A>,
    rt: &'s W,
    shared: &'s Shared<B, Q, T>,
    lent: &'s mut AskedPen<N, S, L, Q>,
    gate: &'s G,
    ended: &'s AtomicU64,
)
    requires { Means (G.passed gate.now S.NUMBER) (N.passed S.NUMBER) }
{
    let has_ended = lent.pen.total() == 0
        || scope
            .spawn(
                move ||
                    requires { Means (G.passed gate.now S.NUMBER) (N.passed S.NUMBER) }
                { run_one(rt, shared, lent, gate, ended) },
            )
            .is_err();
    if has_ended {
        ended.fetch_add(1, Ordering::SeqCst);
    }
}

// Starts the threads of all writers, and lends each its pen.
fn start_all<
    's,
    A,
    N: Lending + Send,
    E: Names + Send,
    Q: Quota + Send,
    T: Work<Q> + Send,
    G: Gate + Sync,
    W: Wait + Sync,
>(
    scope: &Scope<'s, A>,
    rt: &'s W,
    shared: &'s Shared<Eight<E>, Q, T>,
    lent: &'s mut AskedPens<N, E, Q>,
    _: &'s PhantomData<N>,
    gate: &'s G,
    ended: &'s AtomicU64,
)
    requires { (writer : ℕ) → Means (G.passed gate.now writer) (N.passed writer) }
{
    let AskedPens {
        p0,
        p1,
        p2,
        p3,
        p4,
        p5,
        p6,
        p7,
    } = lent;
    start(scope, rt, shared, p0, gate, ended);
    start(scope, rt, shared, p1, gate, ended);
    start(scope, rt, shared, p2, gate, ended);
    start(scope, rt, shared, p3, gate, ended);
    start(scope, rt, shared, p4, gate, ended);
    start(scope, rt, shared, p5, gate, ended);
    start(scope, rt, shared, p6, gate, ended);
    start(scope, rt, shared, p7, gate, ended);
}

// Starts a thread for each writer that has steps, and waits until all have ended. That the closure may take the lent pens, another
// reference that it takes has to name their lending.
fn run_lent<
    N: Lending + Send,
    E: Names + Send,
    Q: Quota + Send,
    T: Work<Q> + Send,
    G: Gate + Sync,
    R: Relief + Drop,
    W: Threads + Wait + Sync,
>(
    rt: &W,
    shared: &Shared<Eight<E>, Q, T>,
    lent: &mut AskedPens<N, E, Q>,
    of: &PhantomData<N>,
    gate: &G,
    eases: bool,
    relief: R,
) -> R
    requires means { (writer : ℕ) → Means (G.passed gate.now writer) (N.passed writer) }
    requires relief { R.kept relief }
    ensures kept { R.kept result }
    ensures same { eases ≡ false → result ≡ relief }
{
    let count = AtomicU64::new(0);
    let ended = &count;
    thread::scope(
        thread::scope_env(),
        rt,
        move |scope| -> R
            requires means { (writer : ℕ) → Means (G.passed gate.now writer) (N.passed writer) }
            requires relief { R.kept relief }
            ensures kept { R.kept result }
            ensures same { eases ≡ false → result ≡ relief }
        {
            start_all(scope, rt, shared, lent, of, gate, ended);
            ease_on(rt, ended, eases, relief)
        },
    )
}

// Lends the pens to threads, and takes them back.
fn run_named<
    N: Lending + Send,
    E: Names + Send,
    Q: Quota + Send,
    T: Work<Q> + Send,
    G: Gate + Sync,
    R: Relief + Drop,
    W: Threads + Wait + Sync,
>(
    rt: &W,
    shared: &Shared<Eight<E>, Q, T>,
    pens: Pens<E, Q>,
    gate: &G,
    eases: bool,
    relief: R,
) -> (Pens<E, Q>, R)
    requires p0 { N.from 0 ≡ pens.p0.place }
    requires p1 { N.from 1 ≡ pens.p1.place }
    requires p2 { N.from 2 ≡ pens.p2.place }
    requires p3 { N.from 3 ≡ pens.p3.place }
    requires p4 { N.from 4 ≡ pens.p4.place }
    requires p5 { N.from 5 ≡ pens.p5.place }
    requires p6 { N.from 6 ≡ pens.p6.place }
    requires p7 { N.from 7 ≡ pens.p7.place }
    requires means { (writer : ℕ) → Means (G.passed gate.now writer) (N.passed writer) }
    requires relief { R.kept relief }
    ensures asked0 { WasPassed (N.passed 0) (N.from 0) result.0.p0.place }
    ensures asked1 { WasPassed (N.passed 1) (N.from 1) result.0.p1.place }
    ensures asked2 { WasPassed (N.passed 2) (N.from 2) result.0.p2.place }
    ensures asked3 { WasPassed (N.passed 3) (N.from 3) result.0.p3.place }
    ensures asked4 { WasPassed (N.passed 4) (N.from 4) result.0.p4.place }
    ensures asked5 { WasPassed (N.passed 5) (N.from 5) result.0.p5.place }
    ensures asked6 { WasPassed (N.passed 6) (N.from 6) result.0.p6.place }
    ensures asked7 { WasPassed (N.passed 7) (N.from 7) result.0.p7.place }
    ensures kept { R.kept result.1 }
    ensures same { eases ≡ false → result.1 ≡ relief }
{
    let mut lent = lend_all::<N, E, Q>(pens);
    let relief = run_lent(rt, shared, &mut lent, &PhantomData, gate, eases, relief);
    (give_all_back(lent), relief)
}

/// Starts a thread for each writer that has steps, lends it its pen, and waits until all have ended. Meanwhile it eases again and
/// again, or sleeps where it isn't to ease: then the relief comes back as it was. The pens come back too, and the gate was asked at
/// each place that was logged.
pub fn run_threads<
    E: Names + Send,
    Q: Quota + Send,
    T: Work<Q> + Send,
    G: Gate + Sync,
    R: Relief + Drop,
    W: Threads + Wait + Sync,
>(
    rt: &W,
    shared: &Shared<Eight<E>, Q, T>,
    pens: Pens<E, Q>,
    gate: &G,
    eases: bool,
    relief: R,
) -> (Pens<E, Q>, R)
    requires { R.kept relief }
    ensures asked0 { WasPassed (G.passed gate.now 0) pens.p0.place result.0.p0.place }
    ensures asked1 { WasPassed (G.passed gate.now 1) pens.p1.place result.0.p1.place }
    ensures asked2 { WasPassed (G.passed gate.now 2) pens.p2.place result.0.p2.place }
    ensures asked3 { WasPassed (G.passed gate.now 3) pens.p3.place result.0.p3.place }
    ensures asked4 { WasPassed (G.passed gate.now 4) pens.p4.place result.0.p4.place }
    ensures asked5 { WasPassed (G.passed gate.now 5) pens.p5.place result.0.p5.place }
    ensures asked6 { WasPassed (G.passed gate.now 6) pens.p6.place result.0.p6.place }
    ensures asked7 { WasPassed (G.passed gate.now 7) pens.p7.place result.0.p7.place }
    ensures kept { R.kept result.1 }
    ensures same { eases ≡ false → result.1 ≡ relief }
{
    run_named::<Brand, E, Q, T, G, R, W>(rt, shared, pens, gate, eases, relief)
}
