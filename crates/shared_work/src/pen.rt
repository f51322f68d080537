//! Pens.
ghost use Rattle.std.specs.Prelude.{◌≡◌, ◌≤◌};

use crate::books::{LedgerOf, Names, W0, W1, W2, W3, W4, W5, W6, W7, Writer};
use crate::work::Quota;
use std::marker::PhantomData;
use std::sync::ledger::{Blank, Book, Ledger, Share};

/// The leave of one writer to do its steps. A pen that was lent to a thread is still a pen of the same writer.
///
/// Its share of the writer's ledger has counted as many steps as its place tells. The share is this crate's alone, so nobody else
/// can set the place or the total to another number.
#[derive(Drop)]
pub struct Pen<S: Writer, L: Ledger, Q: Quota> {
    /// How many steps the pen has done, which is the place of the next.
    pub place: u32,
    /// How many steps the writer has.
    pub total: u32,
    pub(crate) share: Share<L>,
    pub(crate) of: PhantomData<(S, Q)>,
    pub ghost placed: { share.amount ≡ place },
    pub ghost all: { total ≡ Q.quota S.NUMBER },
    pub ghost within: { place ≤ total },
    pub ghost whole: { share.parts ≡ 1 },
}

impl<S: Writer, L: Ledger, Q: Quota> Pen<S, L, Q> {
    // The book and the pen of a new ledger.
    pub(crate) fn open(blank: Blank, total: u32) -> (Book<L>, Pen<S, L, Q>)
        requires total { total ≡ Q.quota S.NUMBER }
        requires blank { (blank.name ≡ L.name) × (blank.parts ≡ L.parts) × (blank.parts ≡ 1) }
        ensures total { result.0.total ≡ 0 }
        ensures place { result.1.place ≡ 0 }
    {
        let (book, share) = blank.open::<L>();
        let pen = Pen {
            place: 0,
            total,
            share,
            of: PhantomData,
        };
        (book, pen)
    }

    // Tells that a pen's place is what the book of its ledger has counted, and gives both up.
    pub(crate) fn audit(self, book: Book<L>)
        requires { L.parts ≡ 1 }
        ensures { book.total ≡ self.place }
    {
        let mut book = book;
        let Pen { mut share, .. } = self;
        book.audit(&mut share);
    }

    /// The number of the pen's writer, from 0 to 7. Takes no memory.
    pub fn writer(&self) -> u8
        ensures { result ≡ S.NUMBER }
    {
        S::NUMBER
    }

    /// How many steps the pen has done, which is the place of the next. Takes no memory.
    pub fn place(&self) -> u32
        ensures { result ≡ self.now.place }
    {
        self.place
    }

    /// How many steps the writer has, those that were done among them. Takes no memory.
    pub fn total(&self) -> u32
        ensures { result ≡ self.now.total }
    {
        self.total
    }
}

/// Blanks of eight ledgers, each with one part, for the writers 0 to 7.
#[derive(Drop)]
pub struct Blanks {
    pub b0: Blank,
    pub b1: Blank,
    pub b2: Blank,
    pub b3: Blank,
    pub b4: Blank,
    pub b5: Blank,
    pub b6: Blank,
    pub b7: Blank,
    pub ghost one_part: { (b0.parts ≡ 1) × (b1.parts ≡ 1) × (b2.parts ≡ 1) × (b3.parts ≡ 1) × (b4.parts ≡ 1) × (b5.parts ≡ 1) × (b6.parts ≡ 1) × (b7.parts ≡ 1) },
}

impl Blanks {
    /// Blanks of eight new ledgers. Takes no memory.
    pub fn new() -> Blanks {
        Blanks {
            b0: Blank::new(1),
            b1: Blank::new(1),
            b2: Blank::new(1),
            b3: Blank::new(1),
            b4: Blank::new(1),
            b5: Blank::new(1),
            b6: Blank::new(1),
            b7: Blank::new(1),
        }
    }
}

/// The pens of the writers 0 to 7.
#[derive(Drop)]
pub struct Pens<E: Names, Q: Quota> {
    /// The pen of the writer 0.
    pub p0: Pen<W0, LedgerOf<W0, E>, Q>,
    /// The pen of the writer 1.
    pub p1: Pen<W1, LedgerOf<W1, E>, Q>,
    /// The pen of the writer 2.
    pub p2: Pen<W2, LedgerOf<W2, E>, Q>,
    /// The pen of the writer 3.
    pub p3: Pen<W3, LedgerOf<W3, E>, Q>,
    /// The pen of the writer 4.
    pub p4: Pen<W4, LedgerOf<W4, E>, Q>,
    /// The pen of the writer 5.
    pub p5: Pen<W5, LedgerOf<W5, E>, Q>,
    /// The pen of the writer 6.
    pub p6: Pen<W6, LedgerOf<W6, E>, Q>,
    /// The pen of the writer 7.
    pub p7: Pen<W7, LedgerOf<W7, E>, Q>,
}

/// The pens of the writers 0 to 7 by eight names, in the writers' order: `pens!(p0, p1, p2, p3, p4, p5, p6, p7)`. As a pattern it
/// takes [`Pens`] apart, also lent ones; as a value it puts them together.
#[macro_export]
macro_rules! pens {
    ($p0:ident, $p1:ident, $p2:ident, $p3:ident, $p4:ident, $p5:ident, $p6:ident, $p7:ident) => {
        $crate::Pens { p0: $p0, p1: $p1, p2: $p2, p3: $p3, p4: $p4, p5: $p5, p6: $p6, p7: $p7 }
    };
}
