//! The books of the writers, and the writers.
ghost use Rattle.std.specs.Prelude.{◌≡◌, ℕ, ◌+◌, ◌<◌, List, [], ◌∷◌, length, slice_index_or, slice_set};

use std::marker::{Brand, PhantomData};
use std::sync::ledger::{Book, Ledger, Share};

/// The books of all writers, in which each has counted its steps.
pub trait Books {
    /// The totals of the books, in the writers' order.
    ghost totals: { Self → List ℕ };
}

/// A writer.
pub trait Writer {
    /// Its number, from 0 to 7.
    ghost NUMBER: { ℕ };

    /// Its number, from 0 to 7.
    const NUMBER: u8;
}

/// A writer whose ledger `L`, of one part, has its book among the books `B`.
pub trait HasBook<B: Books, L: Ledger>: Writer {
    /// Counts so many steps more, in the writer's book and in its share, which had the same total.
    fn count(books: &mut B, share: &mut Share<L>, more: u64)
        requires whole { share.old.parts ≡ 1 }
        ensures same { share.old.amount ≡ slice_index_or (B.totals books.old) Self.NUMBER 0 }
        ensures totals { B.totals books.new ≡ slice_set (B.totals books.old) Self.NUMBER (slice_index_or (B.totals books.old) Self.NUMBER 0 + more) }
        ensures amount { share.new.amount ≡ share.old.amount + more }
        ensures parts { share.new.parts ≡ share.old.parts }
        ensures number { (Self.NUMBER < 8) × (length (B.totals books.old) ≡ 8) };
}

/// The names of eight ledgers. Whoever starts a work picks them.
pub trait Names {
    /// By the writer's number.
    ghost names: { ℕ → ℕ };
}

impl Names for Brand {
    ghost names = { λ _. 0 };
}

/// The ledger of a writer, by its name. It has one part.
#[derive(Drop)]
pub struct LedgerOf<S, E> {
    of: PhantomData<(S, E)>,
}

impl<S: Writer, E: Names> Ledger for LedgerOf<S, E> {
    ghost name = { E.names S.NUMBER };

    ghost parts = { 1 };
}

/// The writer with a number from 0 to 7.
#[derive(Drop)]
pub struct Numbered<const N: u8>;

impl<const N: u8> Writer for Numbered<N> {
    ghost NUMBER = { N };

    const NUMBER: u8 = N;
}

/// The writer 0.
pub type W0 = Numbered<0>;

/// The writer 1.
pub type W1 = Numbered<1>;

/// The writer 2.
pub type W2 = Numbered<2>;

/// The writer 3.
pub type W3 = Numbered<3>;

/// The writer 4.
pub type W4 = Numbered<4>;

/// The writer 5.
pub type W5 = Numbered<5>;

/// The writer 6.
pub type W6 = Numbered<6>;

/// The writer 7.
pub type W7 = Numbered<7>;

/// The books of eight writers, of ledgers with these names.
#[derive(Drop)]
pub struct Eight<E: Names> {
    /// The book of the writer 0.
    pub b0: Book<LedgerOf<W0, E>>,

    /// The book of the writer 1.
    pub b1: Book<LedgerOf<W1, E>>,

    /// The book of the writer 2.
    pub b2: Book<LedgerOf<W2, E>>,

    /// The book of the writer 3.
    pub b3: Book<LedgerOf<W3, E>>,

    /// The book of the writer 4.
    pub b4: Book<LedgerOf<W4, E>>,

    /// The book of the writer 5.
    pub b5: Book<LedgerOf<W5, E>>,

    /// The book of the writer 6.
    pub b6: Book<LedgerOf<W6, E>>,

    /// The book of the writer 7.
    pub b7: Book<LedgerOf<W7, E>>,
}

impl<E: Names> Books for Eight<E> {
    ghost totals = { λ b. b.b0.total ∷ b.b1.total ∷ b.b2.total ∷ b.b3.total ∷ b.b4.total ∷ b.b5.total ∷ b.b6.total ∷ b.b7.total ∷ [] };
}

// Counts so many steps more in a ledger of one part: in its book, and in the share that has the part.
fn count_in<L: Ledger>(book: &mut Book<L>, share: &mut Share<L>, more: u64)
    requires whole { (L.parts ≡ 1) × (share.old.parts ≡ 1) }
    ensures same { share.old.amount ≡ book.old.total }
    ensures total { book.new.total ≡ book.old.total + more }
    ensures amount { share.new.amount ≡ share.old.amount + more }
    ensures parts { share.new.parts ≡ share.old.parts }
{
    book.audit(share);
    book.add(share, more)
}

impl<E: Names> HasBook<Eight<E>, LedgerOf<W0, E>> for W0 {
    fn count(books: &mut Eight<E>, share: &mut Share<LedgerOf<W0, E>>, more: u64) {
        count_in(&mut books.b0, share, more)
    }
}

impl<E: Names> HasBook<Eight<E>, LedgerOf<W1, E>> for W1 {
    fn count(books: &mut Eight<E>, share: &mut Share<LedgerOf<W1, E>>, more: u64) {
        count_in(&mut books.b1, share, more)
    }
}

impl<E: Names> HasBook<Eight<E>, LedgerOf<W2, E>> for W2 {
    fn count(books: &mut Eight<E>, share: &mut Share<LedgerOf<W2, E>>, more: u64) {
        count_in(&mut books.b2, share, more)
    }
}

impl<E: Names> HasBook<Eight<E>, LedgerOf<W3, E>> for W3 {
    fn count(books: &mut Eight<E>, share: &mut Share<LedgerOf<W3, E>>, more: u64) {
        count_in(&mut books.b3, share, more)
    }
}

impl<E: Names> HasBook<Eight<E>, LedgerOf<W4, E>> for W4 {
    fn count(books: &mut Eight<E>, share: &mut Share<LedgerOf<W4, E>>, more: u64) {
        count_in(&mut books.b4, share, more)
    }
}

impl<E: Names> HasBook<Eight<E>, LedgerOf<W5, E>> for W5 {
    fn count(books: &mut Eight<E>, share: &mut Share<LedgerOf<W5, E>>, more: u64) {
        count_in(&mut books.b5, share, more)
    }
}

impl<E: Names> HasBook<Eight<E>, LedgerOf<W6, E>> for W6 {
    fn count(books: &mut Eight<E>, share: &mut Share<LedgerOf<W6, E>>, more: u64) {
        count_in(&mut books.b6, share, more)
    }
}

impl<E: Names> HasBook<Eight<E>, LedgerOf<W7, E>> for W7 {
    fn count(books: &mut Eight<E>, share: &mut Share<LedgerOf<W7, E>>, more: u64) {
        count_in(&mut books.b7, share, more)
    }
}
