//! The threads of writers that log statements and say texts.
ghost use Rattle.std.specs.Prelude.{◌≡◌, ℕ};
ghost use Rattle.writer_threads.specs.Passing.{Means, WasPassed};

use crate::lent::{AllLent, Lent, give_all_back, lend_all};
use crate::steps::Stage;
use crate::talking::talk;
use rtt_modes::Relief;
use shared_work::{Books, Eight, HasBook, Names, Pens, Quota, Work};
use std::marker::{Brand, PhantomData};
use std::sync::Wait;
use std::sync::atomic::{AtomicU64, Ordering};
use std::sync::ledger::Ledger;
use std::thread;
use std::thread::{Scope, Threads};
use writer_threads::{Gate, Lending, Yields, ease_on};

// One writer's thread.
fn run_one<
    N: Lending,
    B: Books,
    Q: Quota,
    T: Work<Q>,
    S: HasBook<B, L>,
    L: Ledger,
    C: Books,
    P: Quota,
    X: Work<P>,
    V: HasBook<C, M>,
    M: Ledger,
    G: Gate,
    W: Wait,
>(
    rt: &W,
    stage: &Stage<'_, B, Q, T, C, P, X>,
    lent: &mut Lent<N, S, L, Q, V, M, P>,
    gate: &G,
    ended: &AtomicU64,
)
    requires same { S.NUMBER ≡ V.NUMBER }
    requires means { Means (G.passed gate.now S.NUMBER) (N.passed S.NUMBER) }
{
    talk(rt, stage, &mut lent.pen, &mut lent.voice, gate, &mut Yields);
    ended.fetch_add(1, Ordering::SeqCst);
}

// Starts a writer's thread, which borrows the writer's pen and voice. A writer that has no steps of either has ended, and so has
// one whose thread can't be started.
fn start<
    's,
    A,
    N: Lending + Send,
    B: Books + Send,
    Q: Quota + Send,
    T: Work<Q> + Send,
    S: HasBook<B, L> + Send,
    L: Ledger + Send,
    C: Books + Send,
    P: Quota + Send,
    X: Work<P> + Send,
    V: HasBook<C, M> + Send,
    M: Ledger + Send,
    G: Gate + Sync,
    W: Wait + Sync,
>(
    scope: &Scope<'s, A>,
    rt: &'s W,
    stage: &'s Stage<'s, B, Q, T, C, P, X>,
    lent: &'s mut Lent<N, S, L, Q, V, M, P>,
    gate: &'s G,
    ended: &'s AtomicU64,
)
    requires same { S.NUMBER ≡ V.NUMBER }
    requires means { Means (G.passed gate.now S.NUMBER) (N.passed S.NUMBER) }
{
    let has_ended = lent.pen.total() == 0 && lent.voice.total() == 0
        || scope
            .spawn(
                move ||
                    requires same { S.NUMBER ≡ V.NUMBER }
                    requires means { Means (G.passed gate.now S.NUMBER) (N.passed S.NUMBER) }
                { run_one(rt, stage, lent, gate, ended) },
            )
            .is_err();
    if has_ended {
        ended.fetch_add(1, Ordering::SeqCst);
    }
}

// Starts the threads of all writers, and lends each its pen and its voice.
fn start_all<
    's,
    A,
    N: Lending + Send,
    E: Names + Send,
    Q: Quota + Send,
    T: Work<Q> + Send,
    F: Names + Send,
    P: Quota + Send,
    X: Work<P> + Send,
    G: Gate + Sync,
    W: Wait + Sync,
>(
    scope: &Scope<'s, A>,
    rt: &'s W,
    stage: &'s Stage<'s, Eight<E>, Q, T, Eight<F>, P, X>,
    lent: &'s mut AllLent<N, E, Q, F, P>,
    _: &'s PhantomData<N>,
    gate: &'s G,
    ended: &'s AtomicU64,
)
    requires { (writer : ℕ) → Means (G.passed gate.now writer) (N.passed writer) }
{
    let AllLent {
        l0,
        l1,
        l2,
        l3,
        l4,
        l5,
        l6,
        l7,
    } = lent;
    start(scope, rt, stage, l0, gate, ended);
    start(scope, rt, stage, l1, gate, ended);
    start(scope, rt, stage, l2, gate, ended);
    start(scope, rt, stage, l3, gate, ended);
    start(scope, rt, stage, l4, gate, ended);
    start(scope, rt, stage, l5, gate, ended);
    start(scope, rt, stage, l6, gate, ended);
    start(scope, rt, stage, l7, gate, ended);
}

// Starts a thread for each writer that has steps, and waits until all have ended. That the closure may take the lent pens, another
// reference that it takes has to name their lending. Meanwhile it eases again and again.
fn run_lent<
    N: Lending + Send,
    E: Names + Send,
    Q: Quota + Send,
    T: Work<Q> + Send,
    F: Names + Send,
    P: Quota + Send,
    X: Work<P> + Send,
    G: Gate + Sync,
    R: Relief + Drop,
    W: Threads + Wait + Sync,
>(
    rt: &W,
    stage: &Stage<'_, Eight<E>, Q, T, Eight<F>, P, X>,
    lent: &mut AllLent<N, E, Q, F, P>,
    of: &PhantomData<N>,
    gate: &G,
    relief: R,
) -> R
    requires means { (writer : ℕ) → Means (G.passed gate.now writer) (N.passed writer) }
    requires relief { R.kept relief }
    ensures { R.kept result }
{
    let count = AtomicU64::new(0);
    let ended = &count;
    thread::scope(
        thread::scope_env(),
        rt,
        move |scope| -> R
            requires means { (writer : ℕ) → Means (G.passed gate.now writer) (N.passed writer) }
            requires relief { R.kept relief }
            ensures { R.kept result }
        {
            start_all(scope, rt, stage, lent, of, gate, ended);
            ease_on(rt, ended, true, relief)
        },
    )
}

// Lends the pens and voices to threads, and takes them back.
fn run_named<
    N: Lending + Send,
    E: Names + Send,
    Q: Quota + Send,
    T: Work<Q> + Send,
    F: Names + Send,
    P: Quota + Send,
    X: Work<P> + Send,
    G: Gate + Sync,
    R: Relief + Drop,
    W: Threads + Wait + Sync,
>(
    rt: &W,
    stage: &Stage<'_, Eight<E>, Q, T, Eight<F>, P, X>,
    pens: Pens<E, Q>,
    voices: Pens<F, P>,
    gate: &G,
    relief: R,
) -> (Pens<E, Q>, Pens<F, P>, R)
    requires p0 { N.from 0 ≡ pens.p0.place }
    requires p1 { N.from 1 ≡ pens.p1.place }
    requires p2 { N.from 2 ≡ pens.p2.place }
    requires p3 { N.from 3 ≡ pens.p3.place }
    requires p4 { N.from 4 ≡ pens.p4.place }
    requires p5 { N.from 5 ≡ pens.p5.place }
    requires p6 { N.from 6 ≡ pens.p6.place }
    requires p7 { N.from 7 ≡ pens.p7.place }
    requires means { (writer : ℕ) → Means (G.passed gate.now writer) (N.passed writer) }
    requires relief { R.kept relief }
    ensures asked0 { WasPassed (N.passed 0) (N.from 0) result.0.p0.place }
    ensures asked1 { WasPassed (N.passed 1) (N.from 1) result.0.p1.place }
    ensures asked2 { WasPassed (N.passed 2) (N.from 2) result.0.p2.place }
    ensures asked3 { WasPassed (N.passed 3) (N.from 3) result.0.p3.place }
    ensures asked4 { WasPassed (N.passed 4) (N.from 4) result.0.p4.place }
    ensures asked5 { WasPassed (N.passed 5) (N.from 5) result.0.p5.place }
    ensures asked6 { WasPassed (N.passed 6) (N.from 6) result.0.p6.place }
    ensures asked7 { WasPassed (N.passed 7) (N.from 7) result.0.p7.place }
    ensures relief { R.kept result.2 }
{
    let mut lent = lend_all::<N, E, Q, F, P>(pens, voices);
    let relief = run_lent(rt, stage, &mut lent, &PhantomData, gate, relief);
    let (pens, voices) = give_all_back(lent);
    (pens, voices, relief)
}

// Starts a thread for each writer that has steps, lends it its pen and its voice, and waits until all have ended. Meanwhile it
// eases again and again. The pens and voices come back, and the gate was asked at each place that was logged.
pub(crate) fn run_threads<
    E: Names + Send,
    Q: Quota + Send,
    T: Work<Q> + Send,
    F: Names + Send,
    P: Quota + Send,
    X: Work<P> + Send,
    G: Gate + Sync,
    R: Relief + Drop,
    W: Threads + Wait + Sync,
>(
    rt: &W,
    stage: &Stage<'_, Eight<E>, Q, T, Eight<F>, P, X>,
    pens: Pens<E, Q>,
    voices: Pens<F, P>,
    gate: &G,
    relief: R,
) -> (Pens<E, Q>, Pens<F, P>, R)
    requires { R.kept relief }
    ensures asked0 { WasPassed (G.passed gate.now 0) pens.p0.place result.0.p0.place }
    ensures asked1 { WasPassed (G.passed gate.now 1) pens.p1.place result.0.p1.place }
    ensures asked2 { WasPassed (G.passed gate.now 2) pens.p2.place result.0.p2.place }
    ensures asked3 { WasPassed (G.passed gate.now 3) pens.p3.place result.0.p3.place }
    ensures asked4 { WasPassed (G.passed gate.now 4) pens.p4.place result.0.p4.place }
    ensures asked5 { WasPassed (G.passed gate.now 5) pens.p5.place result.0.p5.place }
    ensures asked6 { WasPassed (G.passed gate.now 6) pens.p6.place result.0.p6.place }
    ensures asked7 { WasPassed (G.passed gate.now 7) pens.p7.place result.0.p7.place }
    ensures relief { R.kept result.2 }
{
    run_named::<Brand, E, Q, T, F, P, X, G, R, W>(rt, stage, pens, voices, gate, relief)
}
