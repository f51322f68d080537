//! All that writers log and say: by their threads, and what is left after them.
ghost use Rattle.std.specs.Prelude.{◌≡◌};
ghost use Rattle.writer_threads.specs.Passing.{PassedAll, WasPassed};

use crate::steps::Stage;
use crate::talking::talk;
use crate::threads::run_threads;
use rtt_modes::Relief;
use shared_work::{Eight, Names, Pens, Quota, Work, pens};
use std::sync::Wait;
use std::thread::Threads;
use writer_threads::Gate;

// Does the steps that the pens and voices have left.
fn finish<
    E: Names,
    Q: Quota,
    T: Work<Q>,
    F: Names,
    P: Quota,
    X: Work<P>,
    G: Gate,
    R: Relief,
    W: Wait,
>(
    rt: &W,
    stage: &Stage<'_, Eight<E>, Q, T, Eight<F>, P, X>,
    pens: &mut Pens<E, Q>,
    voices: &mut Pens<F, P>,
    gate: &G,
    relief: &mut R,
)
    requires { R.kept relief.old }
    ensures p0 { pens.new.p0.place ≡ pens.new.p0.total }
    ensures p1 { pens.new.p1.place ≡ pens.new.p1.total }
    ensures p2 { pens.new.p2.place ≡ pens.new.p2.total }
    ensures p3 { pens.new.p3.place ≡ pens.new.p3.total }
    ensures p4 { pens.new.p4.place ≡ pens.new.p4.total }
    ensures p5 { pens.new.p5.place ≡ pens.new.p5.total }
    ensures p6 { pens.new.p6.place ≡ pens.new.p6.total }
    ensures p7 { pens.new.p7.place ≡ pens.new.p7.total }
    ensures v0 { voices.new.p0.place ≡ voices.new.p0.total }
    ensures v1 { voices.new.p1.place ≡ voices.new.p1.total }
    ensures v2 { voices.new.p2.place ≡ voices.new.p2.total }
    ensures v3 { voices.new.p3.place ≡ voices.new.p3.total }
    ensures v4 { voices.new.p4.place ≡ voices.new.p4.total }
    ensures v5 { voices.new.p5.place ≡ voices.new.p5.total }
    ensures v6 { voices.new.p6.place ≡ voices.new.p6.total }
    ensures v7 { voices.new.p7.place ≡ voices.new.p7.total }
    ensures asked0 { PassedAll (G.passed gate.now 0) pens.old.p0.place pens.new.p0.place }
    ensures asked1 { PassedAll (G.passed gate.now 1) pens.old.p1.place pens.new.p1.place }
    ensures asked2 { PassedAll (G.passed gate.now 2) pens.old.p2.place pens.new.p2.place }
    ensures asked3 { PassedAll (G.passed gate.now 3) pens.old.p3.place pens.new.p3.place }
    ensures asked4 { PassedAll (G.passed gate.now 4) pens.old.p4.place pens.new.p4.place }
    ensures asked5 { PassedAll (G.passed gate.now 5) pens.old.p5.place pens.new.p5.place }
    ensures asked6 { PassedAll (G.passed gate.now 6) pens.old.p6.place pens.new.p6.place }
    ensures asked7 { PassedAll (G.passed gate.now 7) pens.old.p7.place pens.new.p7.place }
    ensures relief { R.kept relief.new }
{
    let pens!(p0, p1, p2, p3, p4, p5, p6, p7) = pens;
    let pens!(v0, v1, v2, v3, v4, v5, v6, v7) = voices;
    talk(rt, stage, p0, v0, gate, relief);
    talk(rt, stage, p1, v1, gate, relief);
    talk(rt, stage, p2, v2, gate, relief);
    talk(rt, stage, p3, v3, gate, relief);
    talk(rt, stage, p4, v4, gate, relief);
    talk(rt, stage, p5, v5, gate, relief);
    talk(rt, stage, p6, v6, gate, relief);
    talk(rt, stage, p7, v7, gate, relief);
}

/// Does all steps of the pens and voices: those of each writer on a thread of its own, and what is left on this one. The calling
/// thread eases until all threads have ended. The pens and voices come back. The gate was asked at the place of each statement.
pub fn run_all<
    E: Names + Send,
    Q: Quota + Send,
    T: Work<Q> + Send,
    F: Names + Send,
    P: Quota + Send,
    X: Work<P> + Send,
    G: Gate + Sync,
    R: Relief + Drop,
    W: Threads + Wait + Sync,
>(
    rt: &W,
    stage: &Stage<'_, Eight<E>, Q, T, Eight<F>, P, X>,
    pens: Pens<E, Q>,
    voices: Pens<F, P>,
    gate: &G,
    relief: R,
) -> (Pens<E, Q>, Pens<F, P>, R)
    requires { R.kept relief }
    ensures p0 { result.0.p0.place ≡ result.0.p0.total }
    ensures p1 { result.0.p1.place ≡ result.0.p1.total }
    ensures p2 { result.0.p2.place ≡ result.0.p2.total }
    ensures p3 { result.0.p3.place ≡ result.0.p3.total }
    ensures p4 { result.0.p4.place ≡ result.0.p4.total }
    ensures p5 { result.0.p5.place ≡ result.0.p5.total }
    ensures p6 { result.0.p6.place ≡ result.0.p6.total }
    ensures p7 { result.0.p7.place ≡ result.0.p7.total }
    ensures v0 { result.1.p0.place ≡ result.1.p0.total }
    ensures v1 { result.1.p1.place ≡ result.1.p1.total }
    ensures v2 { result.1.p2.place ≡ result.1.p2.total }
    ensures v3 { result.1.p3.place ≡ result.1.p3.total }
    ensures v4 { result.1.p4.place ≡ result.1.p4.total }
    ensures v5 { result.1.p5.place ≡ result.1.p5.total }
    ensures v6 { result.1.p6.place ≡ result.1.p6.total }
    ensures v7 { result.1.p7.place ≡ result.1.p7.total }
    ensures asked0 { WasPassed (G.passed gate.now 0) pens.p0.place result.0.p0.place }
    ensures asked1 { WasPassed (G.passed gate.now 1) pens.p1.place result.0.p1.place }
    ensures asked2 { WasPassed (G.passed gate.now 2) pens.p2.place result.0.p2.place }
    ensures asked3 { WasPassed (G.passed gate.now 3) pens.p3.place result.0.p3.place }
    ensures asked4 { WasPassed (G.passed gate.now 4) pens.p4.place result.0.p4.place }
    ensures asked5 { WasPassed (G.passed gate.now 5) pens.p5.place result.0.p5.place }
    ensures asked6 { WasPassed (G.passed gate.now 6) pens.p6.place result.0.p6.place }
    ensures asked7 { WasPassed (G.passed gate.now 7) pens.p7.place result.0.p7.place }
    ensures relief { R.kept result.2 }
{
    let (mut pens, mut voices, mut relief) = run_threads(rt, stage, pens, voices, gate, relief);
    finish(rt, stage, &mut pens, &mut voices, gate, &mut relief);
    (pens, voices, relief)
}
