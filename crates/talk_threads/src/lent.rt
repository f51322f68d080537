//! Pens and voices that are lent to threads.
ghost use Rattle.std.specs.Prelude.{◌≡◌, ℕ};
ghost use Rattle.writer_threads.specs.Passing.{WasPassed};

use shared_work::{
    LedgerOf, Names, Pen, Pens, Quota, W0, W1, W2, W3, W4, W5, W6, W7, Writer, pens,
};
use std::marker::PhantomData;
use std::sync::ledger::Ledger;
use writer_threads::Lending;

// The pen and the voice of a writer, of which is known that the gate was asked at each place that was logged since they were lent.
#[derive(Drop)]
pub(crate) struct Lent<N: Lending, S: Writer, L: Ledger, Q: Quota, V: Writer, M: Ledger, P: Quota> {
    pub(crate) pen: Pen<S, L, Q>,
    pub(crate) voice: Pen<V, M, P>,
    pub(crate) of: PhantomData<N>,
    ghost asked: { WasPassed (N.passed S.NUMBER) (N.from S.NUMBER) pen.place },
}

// A pen at its named place, and a voice.
#[tactic(auto, using(crate::proofs::Asked::passed_none))]
fn lend<N: Lending, S: Writer, L: Ledger, Q: Quota, V: Writer, M: Ledger, P: Quota>(
    pen: Pen<S, L, Q>,
    voice: Pen<V, M, P>,
) -> Lent<N, S, L, Q, V, M, P>
    requires { N.from S.NUMBER ≡ pen.place }
{
    Lent {
        pen,
        voice,
        of: PhantomData,
    }
}

// The pen and the voice, as they are.
fn give_back<N: Lending, S: Writer, L: Ledger, Q: Quota, V: Writer, M: Ledger, P: Quota>(
    lent: Lent<N, S, L, Q, V, M, P>,
) -> (Pen<S, L, Q>, Pen<V, M, P>)
    ensures { WasPassed (N.passed S.NUMBER) (N.from S.NUMBER) result.0.place }
{
    let Lent { pen, voice, .. } = lent;
    (pen, voice)
}

// Those of the writers 0 to 7.
#[derive(Drop)]
pub(crate) struct AllLent<N: Lending, E: Names, Q: Quota, F: Names, P: Quota> {
    pub(crate) l0: Lent<N, W0, LedgerOf<W0, E>, Q, W0, LedgerOf<W0, F>, P>,
    pub(crate) l1: Lent<N, W1, LedgerOf<W1, E>, Q, W1, LedgerOf<W1, F>, P>,
    pub(crate) l2: Lent<N, W2, LedgerOf<W2, E>, Q, W2, LedgerOf<W2, F>, P>,
    pub(crate) l3: Lent<N, W3, LedgerOf<W3, E>, Q, W3, LedgerOf<W3, F>, P>,
    pub(crate) l4: Lent<N, W4, LedgerOf<W4, E>, Q, W4, LedgerOf<W4, F>, P>,
    pub(crate) l5: Lent<N, W5, LedgerOf<W5, E>, Q, W5, LedgerOf<W5, F>, P>,
    pub(crate) l6: Lent<N, W6, LedgerOf<W6, E>, Q, W6, LedgerOf<W6, F>, P>,
    pub(crate) l7: Lent<N, W7, LedgerOf<W7, E>, Q, W7, LedgerOf<W7, F>, P>,
}

// Pens at their named places, and voices.
pub(crate) fn lend_all<N: Lending, E: Names, Q: Quota, F: Names, P: Quota>(
    pens: Pens<E, Q>,
    voices: Pens<F, P>,
) -> AllLent<N, E, Q, F, P>
    requires p0 { N.from 0 ≡ pens.p0.place }
    requires p1 { N.from 1 ≡ pens.p1.place }
    requires p2 { N.from 2 ≡ pens.p2.place }
    requires p3 { N.from 3 ≡ pens.p3.place }
    requires p4 { N.from 4 ≡ pens.p4.place }
    requires p5 { N.from 5 ≡ pens.p5.place }
    requires p6 { N.from 6 ≡ pens.p6.place }
    requires p7 { N.from 7 ≡ pens.p7.place }
{
    let pens!(p0, p1, p2, p3, p4, p5, p6, p7) = pens;
    let pens!(v0, v1, v2, v3, v4, v5, v6, v7) = voices;
    AllLent {
        l0: lend(p0, v0),
        l1: lend(p1, v1),
        l2: lend(p2, v2),
        l3: lend(p3, v3),
        l4: lend(p4, v4),
        l5: lend(p5, v5),
        l6: lend(p6, v6),
        l7: lend(p7, v7),
    }
}

// The pens and the voices, as they are.
pub(crate) fn give_all_back<N: Lending, E: Names, Q: Quota, F: Names, P: Quota>(
    lent: AllLent<N, E, Q, F, P>,
) -> (Pens<E, Q>, Pens<F, P>)
    ensures asked0 { WasPassed (N.passed 0) (N.from 0) result.0.p0.place }
    ensures asked1 { WasPassed (N.passed 1) (N.from 1) result.0.p1.place }
    ensures asked2 { WasPassed (N.passed 2) (N.from 2) result.0.p2.place }
    ensures asked3 { WasPassed (N.passed 3) (N.from 3) result.0.p3.place }
    ensures asked4 { WasPassed (N.passed 4) (N.from 4) result.0.p4.place }
    ensures asked5 { WasPassed (N.passed 5) (N.from 5) result.0.p5.place }
    ensures asked6 { WasPassed (N.passed 6) (N.from 6) result.0.p6.place }
    ensures asked7 { WasPassed (N.passed 7) (N.from 7) result.0.p7.place }
{
    let AllLent {
        l0,
        l1,
        l2,
        l3,
        l4,
        l5,
        l6,
        l7,
    } = lent;
    let (p0, v0) = give_back(l0);
    let (p1, v1) = give_back(l1);
    let (p2, v2) = give_back(l2);
    let (p3, v3) = give_back(l3);
    let (p4, v4) = give_back(l4);
    let (p5, v5) = give_back(l5);
    let (p6, v6) = give_back(l6);
    let (p7, v7) = give_back(l7);
    (
        pens!(p0, p1, p2, p3, p4, p5, p6, p7),
        pens!(v0, v1, v2, v3, v4, v5, v6, v7),
    )
}
