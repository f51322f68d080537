//! The two ends of a ring, and a ring whose ends part.
use crate::settled::{RingKind, Settled};
use dl_io::{Bytes, Memory};
use std::alloc::{AllocError, Global};

/// Why no ring was made.
#[derive(Clone, Copy, Debug)]
pub enum RingFault {
    /// The size isn't from 16 to 65,536.
    Size,
    /// There was no memory for the ring.
    Memory,
}

impl From<AllocError> for RingFault {
    ghost use Rattle.std.specs.Prelude.{◌≡◌};
    ghost use Rattle.rtt_ring.specs.declared.ends.RingFault.TheVariants.{Memory as OutOfMemory};

    ghost from_gives = { λ _ e. e ≡ OutOfMemory };

    fn from(_: AllocError) -> Self {
        RingFault::Memory
    }
}

/// The upper end of a ring, which the writer has. No call takes memory or waits.
pub trait UpEnd {
    ghost use Rattle.std.specs.Prelude.{◌≡◌, ◌-◌, ◌^◌, ◌≤◌, min, [], length};
    ghost use Rattle.rtt_ring.specs.Views.{Up, IsBounded, Looked, put_up, published};

    /// What contracts see of the end.
    ghost view: { Self → Up };

    /// The ring's size in bytes. At most one byte fewer waits in it.
    fn size(&self) -> u32
        ensures size { result ≡ (view self.now).size }
        ensures bounded { IsBounded (view self.now) };

    /// How many looks this end has made. The number stands still at the type's end.
    fn looks(&self) -> u64
        ensures { result ≡ min (view self.now).looks (2 ^ 64 - 1) };

    /// Looks how many bytes the reader has released, and answers how many bytes may be put.
    fn look(&mut self) -> u32
        requires { (view self.old).staged ≡ [] }
        ensures looked { Looked (view self.old) (view self.new) }
        ensures room { result ≡ (view self.new).room };

    /// Puts bytes behind those that are staged. The reader can't find them yet.
    fn put(&mut self, bytes: &[u8])
        requires { length bytes.now ≤ (view self.old).room }
        ensures { view self.new ≡ put_up (view self.old) bytes.now };

    /// Publishes all bytes that are staged.
    fn publish(&mut self)
        ensures { view self.new ≡ published (view self.old) };
}

/// The lower end of a ring, which the reader has. No call takes memory or waits.
pub trait DownEnd {
    ghost use Rattle.std.specs.Prelude.{◌≡◌, ◌-◌, ◌+◌, min, Bool, true, List, [], length, take, drop};
    ghost use Rattle.rtt_words.specs.History.{IsLoaded};
    ghost use Rattle.rtt_words.specs.declared.view.Access.{Access};
    ghost use Rattle.rtt_ring.specs.Views.{Down, Took};

    /// What contracts see of the end.
    ghost view: { Self → Down };

    /// Whether the end tells when the writer published.
    ghost tells: { Bool };

    /// Where it tells that: each publishing of the writer and each look of this end, in the order in which they were made,
    /// up to the last look.
    ghost seen: { Self → List Access };

    /// Looks, and answers how many bytes beyond those taken are published.
    fn look(&mut self) -> u32
        ensures looked { Took (view self.old) (view self.new) [] }
        ensures found { result + length (view self.old).got ≡ (view self.new).found }
        ensures load { tells ≡ true → IsLoaded (seen self.old) (view self.new).found (seen self.new) };

    /// Looks, takes as many bytes as it found and as fit into `buf`, releases them and answers their number. What lies
    /// behind them in `buf` is as before.
    fn take(&mut self, buf: &mut [u8]) -> usize
        ensures took { Took (view self.old) (view self.new) (take result buf.new) }
        ensures count { result ≡ min ((view self.new).found - length (view self.old).got) (length buf.old) }
        ensures behind { drop result buf.new ≡ drop result buf.old }
        ensures load { tells ≡ true → IsLoaded (seen self.old) (view self.new).found (seen self.new) };
}

/// A ring whose two ends can go to two threads.
pub trait Channel {
    ghost use Rattle.std.specs.Prelude.{◌≡◌, ◌⊎◌, ◌↔◌, ℕ, ◌<◌, ◌≤◌, Bool, List, [], ◌++◌, length, Err, IfOk, IfErr};
    ghost use Rattle.rtt_ring.specs.Views.{new_down, new_up};
    ghost use Rattle.rtt_ring.specs.declared.settled.RingKind.{RingKind};
    ghost use Rattle.rtt_ring.specs.declared.ends.RingFault.TheVariants.{Size};

    /// The upper end.
    type Up: UpEnd + Drop + Send;

    /// The lower end.
    type Down: DownEnd + Drop + Send;

    /// Which ring it is.
    const KIND: RingKind;

    ghost KIND: { RingKind };

    /// Whether the upper end tells how many bytes the reader has released.
    ghost tells: { Bool };

    /// The two ends of a new ring of `size` bytes, from 16 to 65,536.
    fn split(alloc: Global, size: u32) -> Result<(Self::Up, Self::Down), RingFault>
        ensures pair { IfOk result (λ e. (Self.Up.view e.0).split ≡ (Self.Down.view e.1).split) }
        ensures up { IfOk result (λ e. Self.Up.view e.0 ≡ new_up (Self.Up.view e.0).split size tells) }
        ensures down { IfOk result (λ e. Self.Down.view e.1 ≡ new_down (Self.Down.view e.1).split size) }
        ensures refused { ((size < 16) ⊎ (65536 < size)) ↔ (result ≡ Err Size) };

    /// Brings the two ends of one ring together, and puts the bytes that were sent and not taken into `rest`.
    /// Where there is no memory for these bytes both ends are gone, and `rest` holds the first of them.
    fn settle(up: Self::Up, down: Self::Down, rest: &mut Bytes) -> Result<Settled, Memory>
        requires pair { (Self.Up.view up).split ≡ (Self.Down.view down).split }
        requires empty { ((Self.Up.view up).staged ≡ []) × (rest.old.items ≡ []) }
        ensures account { IfOk result (λ s. (s.sent ≡ (Self.Up.view up).sent) × (s.got ≡ (Self.Down.view down).got) × (s.ring ≡ KIND)) }
        ensures split { IfOk result (λ s. s.split ≡ (Self.Up.view up).split) }
        ensures rest { IfOk result (λ s. (s.sent ≡ s.got ++ rest.new.items) × ((Self.Up.view up).freed ≤ length s.got)) }
        ensures memory { IfErr result (λ _. (more : List ℕ) × ((Self.Up.view up).sent ≡ ((Self.Down.view down).got ++ rest.new.items) ++ more)) };
}
