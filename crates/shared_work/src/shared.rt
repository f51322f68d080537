//! A work behind a lock.
ghost use Rattle.std.specs.Prelude.{◌≡◌, ℕ, ◌+◌, ◌<◌, [], ◌∷◌, slice_index_or};
ghost use Rattle.shared_work.specs.Names.{AreNamed};

use crate::books::{Books, Eight, HasBook, Names};
use crate::pen::{Blanks, Pen, Pens};
use crate::pens;
use crate::work::{Quota, Work};
use rtt_modes::Relief;
use std::marker::PhantomData;
use std::sync::ledger::Ledger;
use std::sync::{Mutex, Wait};

// A struct of eight fields, by their names, as a pattern or as a value.
macro_rules! eight {
    ($name:ident: $($field:ident),+) => { $name { $($field),+ } };
}

// A work and the writers' books, which count their steps.
#[derive(Drop)]
struct Locked<B: Books, Q: Quota, T: Work<Q>> {
    work: T,
    books: B,
    of: PhantomData<Q>,
    ghost counted: { (w : ℕ) → slice_index_or (B.totals books) w 0 ≡ T.done work w },
}

impl<B: Books, Q: Quota, T: Work<Q>> Locked<B, Q, T> {
    // Does the pen's next step.
    fn step<S: HasBook<B, L>, L: Ledger, R: Relief, W: Wait>(
        &mut self,
        rt: &W,
        pen: &mut Pen<S, L, Q>,
        relief: &mut R,
    )
        requires place { pen.old.place < pen.old.total }
        requires relief { R.kept relief.old }
        ensures total { pen.new.total ≡ pen.old.total }
        ensures place { pen.new.place ≡ pen.old.place + 1 }
        ensures relief { R.kept relief.new }
    {
        let Locked { work, books, of: _ } = self;
        let Pen {
            place,
            total,
            share,
            of: _,
        } = pen;
        S::count(books, share, 1);
        prove!(*place < *total);
        work.step(rt, S::NUMBER, relief);
        *place += 1;
    }
}

/// A work that threads share. Each does the steps of its own pen.
#[derive(Drop)]
pub struct Shared<B: Books, Q: Quota, T: Work<Q>> {
    lock: Mutex<Locked<B, Q, T>>,
}

impl<B: Books, Q: Quota, T: Work<Q>> Shared<B, Q, T> {
    /// Acquires the work, does the pen's next step, of which there is one, and releases the work. It may wait for the lock, and
    /// as long as the step does. Takes no memory of its own.
    pub fn step<S: HasBook<B, L>, L: Ledger, R: Relief, W: Wait>(
        &self,
        rt: &W,
        pen: &mut Pen<S, L, Q>,
        relief: &mut R,
    )
        requires place { pen.old.place < pen.old.total }
        requires relief { R.kept relief.old }
        ensures total { pen.new.total ≡ pen.old.total }
        ensures place { pen.new.place ≡ pen.old.place + 1 }
        ensures relief { R.kept relief.new }
    {
        self.lock.lock(rt).step(rt, pen, relief)
    }
}

impl<E: Names, Q: Quota, T: Work<Q>> Shared<Eight<E>, Q, T> {
    /// The work behind a lock, and the pens of the writers 0 to 7, each at place 0. No step was done of the work, `totals` says
    /// how many each writer has, and each blank is of its writer's ledger. Takes no memory.
    pub fn start(blanks: Blanks, totals: [u32; 8], work: T) -> (Self, Pens<E, Q>)
        requires fresh { (w : ℕ) → T.done work w ≡ 0 }
        requires totals { totals ≡ Q.quota 0 ∷ Q.quota 1 ∷ Q.quota 2 ∷ Q.quota 3 ∷ Q.quota 4 ∷ Q.quota 5 ∷ Q.quota 6 ∷ Q.quota 7 ∷ [] }
        requires names { AreNamed blanks E.names }
        ensures p0 { result.1.p0.place ≡ 0 }
        ensures p1 { result.1.p1.place ≡ 0 }
        ensures p2 { result.1.p2.place ≡ 0 }
        ensures p3 { result.1.p3.place ≡ 0 }
        ensures p4 { result.1.p4.place ≡ 0 }
        ensures p5 { result.1.p5.place ≡ 0 }
        ensures p6 { result.1.p6.place ≡ 0 }
        ensures p7 { result.1.p7.place ≡ 0 }
    {
        let eight!(Blanks: b0, b1, b2, b3, b4, b5, b6, b7) = blanks;
        let [t0, t1, t2, t3, t4, t5, t6, t7] = totals;
        let (b0, p0) = Pen::open(b0, t0);
        let (b1, p1) = Pen::open(b1, t1);
        let (b2, p2) = Pen::open(b2, t2);
        let (b3, p3) = Pen::open(b3, t3);
        let (b4, p4) = Pen::open(b4, t4);
        let (b5, p5) = Pen::open(b5, t5);
        let (b6, p6) = Pen::open(b6, t6);
        let (b7, p7) = Pen::open(b7, t7);
        let books = eight!(Eight: b0, b1, b2, b3, b4, b5, b6, b7);
        let locked = Locked {
            work,
            books,
            of: PhantomData,
        };
        let lock = Mutex::new(locked);
        (Shared { lock }, pens!(p0, p1, p2, p3, p4, p5, p6, p7))
    }

    /// The work, once all eight pens are back. Each writer has done as many steps as its pen's place. Takes no memory.
    pub fn close(self, pens: Pens<E, Q>) -> T
        ensures p0 { T.done result 0 ≡ pens.p0.place }
        ensures p1 { T.done result 1 ≡ pens.p1.place }
        ensures p2 { T.done result 2 ≡ pens.p2.place }
        ensures p3 { T.done result 3 ≡ pens.p3.place }
        ensures p4 { T.done result 4 ≡ pens.p4.place }
        ensures p5 { T.done result 5 ≡ pens.p5.place }
        ensures p6 { T.done result 6 ≡ pens.p6.place }
        ensures p7 { T.done result 7 ≡ pens.p7.place }
    {
        let Locked { work, books, of: _ } = self.lock.into_inner();
        let eight!(Eight: b0, b1, b2, b3, b4, b5, b6, b7) = books;
        let pens!(p0, p1, p2, p3, p4, p5, p6, p7) = pens;
        p0.audit(b0);
        p1.audit(b1);
        p2.audit(b2);
        p3.audit(b3);
        p4.audit(b4);
        p5.audit(b5);
        p6.audit(b6);
        p7.audit(b7);
        work
    }
}
