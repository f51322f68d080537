//! Pens that are lent to threads.
ghost use Rattle.std.specs.Prelude.{◌≡◌, ℕ};
ghost use Rattle.writer_threads.specs.Passing.{WasPassed};

use shared_work::{
    LedgerOf, Names, Pen, Pens, Quota, W0, W1, W2, W3, W4, W5, W6, W7, Writer, pens,
};
use std::marker::{Brand, PhantomData};
use std::sync::ledger::Ledger;

/// At which places pens were lent, and what their gate shows where it lets a writer pass. Whoever lends them picks both.
pub trait Lending {
    /// By the writer's number, the place of its pen.
    ghost from: { ℕ → ℕ };

    /// A writer was let pass at a place.
    ghost passed: { ℕ → ℕ → Type 0 };
}

impl Lending for Brand {
    ghost from = { λ _. 0 };

    ghost passed = { λ _ _. Unit {0} };
}

// A pen of which is known that its gate was asked at each place that was logged since it was lent. So it is of one that comes back
// from a thread too: its type tells it.
#[derive(Drop)]
pub(crate) struct AskedPen<N: Lending, S: Writer, L: Ledger, Q: Quota> {
    pub(crate) pen: Pen<S, L, Q>,
    pub(crate) of: PhantomData<N>,
    ghost asked: { WasPassed (N.passed S.NUMBER) (N.from S.NUMBER) pen.place },
}

// A pen at its named place.
#[tactic(auto, using(crate::proofs::Passed::passed_none))]
fn lend<N: Lending, S: Writer, L: Ledger, Q: Quota>(pen: Pen<S, L, Q>) -> AskedPen<N, S, L, Q>
    requires { N.from S.NUMBER ≡ pen.place }
{
    AskedPen {
        pen,
        of: PhantomData,
    }
}

// The pen, as it is.
fn give_back<N: Lending, S: Writer, L: Ledger, Q: Quota>(lent: AskedPen<N, S, L, Q>) -> Pen<S, L, Q>
    ensures { WasPassed (N.passed S.NUMBER) (N.from S.NUMBER) result.place }
{
    let AskedPen { pen, .. } = lent;
    pen
}

// The pens of the writers 0 to 7.
#[derive(Drop)]
pub(crate) struct AskedPens<N: Lending, E: Names, Q: Quota> {
    pub(crate) p0: AskedPen<N, W0, LedgerOf<W0, E>, Q>,
    pub(crate) p1: AskedPen<N, W1, LedgerOf<W1, E>, Q>,
    pub(crate) p2: AskedPen<N, W2, LedgerOf<W2, E>, Q>,
    pub(crate) p3: AskedPen<N, W3, LedgerOf<W3, E>, Q>,
    pub(crate) p4: AskedPen<N, W4, LedgerOf<W4, E>, Q>,
    pub(crate) p5: AskedPen<N, W5, LedgerOf<W5, E>, Q>,
    pub(crate) p6: AskedPen<N, W6, LedgerOf<W6, E>, Q>,
    pub(crate) p7: AskedPen<N, W7, LedgerOf<W7, E>, Q>,
}

// Pens at their named places.
pub(crate) fn lend_all<N: Lending, E: Names, Q: Quota>(pens: Pens<E, Q>) -> AskedPens<N, E, Q>
    requires p0 { N.from 0 ≡ pens.p0.place }
    requires p1 { N.from 1 ≡ pens.p1.place }
    requires p2 { N.from 2 ≡ pens.p2.place }
    requires p3 { N.from 3 ≡ pens.p3.place }
    requires p4 { N.from 4 ≡ pens.p4.place }
    requires p5 { N.from 5 ≡ pens.p5.place }
    requires p6 { N.from 6 ≡ pens.p6.place }
    requires p7 { N.from 7 ≡ pens.p7.place }
{
    let pens!(p0, p1, p2, p3, p4, p5, p6, p7) = pens;
    AskedPens {
        p0: lend(p0),
        p1: lend(p1),
        p2: lend(p2),
        p3: lend(p3),
        p4: lend(p4),
        p5: lend(p5),
        p6: lend(p6),
        p7: lend(p7),
    }
}

// The pens, as they are.
pub(crate) fn give_all_back<N: Lending, E: Names, Q: Quota>(lent: AskedPens<N, E, Q>) -> Pens<E, Q>
    ensures asked0 { WasPassed (N.passed 0) (N.from 0) result.p0.place }
    ensures asked1 { WasPassed (N.passed 1) (N.from 1) result.p1.place }
    ensures asked2 { WasPassed (N.passed 2) (N.from 2) result.p2.place }
    ensures asked3 { WasPassed (N.passed 3) (N.from 3) result.p3.place }
    ensures asked4 { WasPassed (N.passed 4) (N.from 4) result.p4.place }
    ensures asked5 { WasPassed (N.passed 5) (N.from 5) result.p5.place }
    ensures asked6 { WasPassed (N.passed 6) (N.from 6) result.p6.place }
    ensures asked7 { WasPassed (N.passed 7) (N.from 7) result.p7.place }
{
    let AskedPens {
        p0,
        p1,
        p2,
        p3,
        p4,
        p5,
        p6,
        p7,
    } = lent;
    Pens {
        p0: give_back(p0),
        p1: give_back(p1),
        p2: give_back(p2),
        p3: give_back(p3),
        p4: give_back(p4),
        p5: give_back(p5),
        p6: give_back(p6),
        p7: give_back(p7),
    }
}
