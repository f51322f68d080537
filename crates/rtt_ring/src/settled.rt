//! What was sent and taken, once the two ends of a ring came together.
ghost use Rattle.std.specs.Prelude.{◌≡◌, length};
ghost use Rattle.rtt_ring.specs.Account.{capped, Account};

use boxcar::tag::Tag;
use std::marker::Model;

/// Which ring it is.
#[derive(Clone, Copy, PartialEq, Eq, Debug)]
pub enum RingKind {
    /// One owner, over a memory image.
    Plain,
    /// Two ends over a queue.
    Queue,
    /// Two ends over a table of atomic words.
    Word,
}

/// The account of a ring that was settled. Contracts see the name of its split, all bytes that were sent, all that were
/// taken, and the ring's kind. Only the settling of a ring makes one.
#[derive(Drop)]
pub struct Settled {
    // The three lists take no bytes: contracts alone read them.
    split: Tag,
    sent: Tag,
    got: Tag,
    sent_len: u64,
    got_len: u64,
    ring: RingKind,
}

impl Model for Settled {
    ghost Value = { Account };

    ghost view = { λ s. record { split = s.split.numbers; sent = s.sent.numbers; got = s.got.numbers; ring = s.ring } };

    ghost invariant = { λ s. (s.sent_len ≡ capped (length s.sent.numbers)) × (s.got_len ≡ capped (length s.got.numbers)) };
}

impl Settled {
    pub(crate) fn new(
        split: Tag,
        sent: Tag,
        got: Tag,
        sent_len: u64,
        got_len: u64,
        ring: RingKind,
    ) -> Settled
        requires { (sent_len ≡ capped (length sent.numbers)) × (got_len ≡ capped (length got.numbers)) }
        ensures account { (result.sent ≡ sent.numbers) × (result.got ≡ got.numbers) × (result.ring ≡ ring) }
        ensures split { result.split ≡ split.numbers }
    {
        Settled {
            split,
            sent,
            got,
            sent_len,
            got_len,
            ring,
        }
    }

    /// How many bytes were sent. The number stands still at the type's end.
    pub fn sent_len(&self) -> u64
        ensures { result ≡ capped (length self.now.sent) }
    {
        self.sent_len
    }

    /// How many bytes were taken. The number stands still at the type's end.
    pub fn got_len(&self) -> u64
        ensures { result ≡ capped (length self.now.got) }
    {
        self.got_len
    }

    /// Which ring it was.
    pub fn ring(&self) -> RingKind
        ensures { result ≡ self.now.ring }
    {
        self.ring
    }
}
