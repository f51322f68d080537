//! A ring of one owner, over a memory image with a control block.
ghost use Rattle.rtt_ring.specs.JournalView.{traffic_of};
ghost use Rattle.rtt_ring.specs.Plain.{IsPlain};

use crate::ends::{DownEnd, RingFault, UpEnd};
use crate::image::{BUFFER, fresh_image, mark, store};
use crate::journal::Journal;
use crate::settled::{RingKind, Settled};
use boxcar::tag::{Names, Tag};
use dl_io::{Bytes, Memory};
use std::alloc::Global;

/// Both ends of a ring in one value, as a ring is that one thread writes and reads. Its bytes lie in a memory image
/// behind an RTT control block, as in a device's memory. No call but `split` and `settle` takes memory.
#[derive(Drop)]
pub struct PlainRing {
    image: Vec<u8>,
    size: u32,
    // The place of the oldest byte that waits: RdOff.
    rd: u32,
    // How many bytes wait, and how many are put behind them and not published.
    waiting: u32,
    staged: u32,
    room: u32,
    looks: u64,
    got_len: u64,
    // What went through the ring. Contracts alone read it.
    journal: Journal,
    ghost kept: { IsPlain image.items size rd waiting staged room looks got_len (traffic_of journal) },
}

// The name of the split.
struct Split;

impl Names<PlainRing> for Split {
    ghost use Rattle.rtt_ring.specs.PlainView.{up_of};

    ghost numbers = { λ r. (up_of r).split };
}

// All that was sent.
struct Sent;

impl Names<PlainRing> for Sent {
    ghost use Rattle.rtt_ring.specs.PlainView.{up_of};

    ghost numbers = { λ r. (up_of r).sent };
}

// All that was taken.
struct Got;

impl Names<PlainRing> for Got {
    ghost use Rattle.rtt_ring.specs.PlainView.{down_of};

    ghost numbers = { λ r. (down_of r).got };
}

impl PlainRing {
    ghost use Rattle.std.specs.Prelude.{◌≡◌, ◌⊎◌, ◌↔◌, ℕ, ◌+◌, ◌%◌, ◌<◌, ◌≤◌, true, List, [], ◌∷◌, ◌++◌, length, drop, Ok, Err, IfOk, IfErr};
    ghost use Rattle.rtt_ring.specs.PlainView.{up_of, down_of};
    ghost use Rattle.rtt_ring.specs.Image.{base, part, plain_descriptor};
    ghost use Rattle.rtt_control.specs.Layout.{waiting};
    ghost use Rattle.rtt_control.specs.Control.{block_at};
    ghost use Rattle.rtt_ring.specs.declared.ends.RingFault.TheVariants.{Size};
    ghost use Rattle.rtt_ring.specs.declared.settled.RingKind.TheVariants.{Plain};
    ghost use Rattle.rtt_ring.specs.Views.{new_up, new_down};

    /// A new ring of `size` bytes, from 16 to 65,536.
    pub fn split(alloc: Global, size: u32) -> Result<PlainRing, RingFault>
        ensures up { IfOk result (λ r. up_of r ≡ new_up (up_of r).split size true) }
        ensures down { IfOk result (λ r. down_of r ≡ new_down (up_of r).split size) }
        ensures refused { ((size < 16) ⊎ (65536 < size)) ↔ (result ≡ Err Size) }
    {
        if size < 16 || size > 65536 {
            return Err(RingFault::Size);
        }
        let image = fresh_image(alloc, size)?;
        let journal = Journal::new(alloc)?;
        Ok(PlainRing {
            image,
            size,
            rd: 0,
            waiting: 0,
            staged: 0,
            room: 0,
            looks: 0,
            got_len: 0,
            journal,
        })
    }

    /// Ends the ring, and puts the bytes that were sent and not taken into `rest`. Where there is no memory for these
    /// bytes the ring is gone, and `rest` holds the first of them.
    pub fn settle(self, rest: &mut Bytes) -> Result<Settled, Memory>
        requires { ((up_of self).staged ≡ []) × (rest.old.items ≡ []) }
        ensures account { IfOk result (λ s. (s.sent ≡ (up_of self).sent) × (s.got ≡ (down_of self).got) × (s.ring ≡ Plain)) }
        ensures split { IfOk result (λ s. s.split ≡ (up_of self).split) }
        ensures rest { IfOk result (λ s. (s.sent ≡ s.got ++ rest.new.items) × ((up_of self).freed ≤ length s.got)) }
        ensures memory { IfErr result (λ _. (more : List ℕ) × ((up_of self).sent ≡ ((down_of self).got ++ rest.new.items) ++ more)) }
    {
        let (front, back) = self.runs(self.waiting);
        rest.extend_from_slice(front)?;
        rest.extend_from_slice(back)?;
        let split = Tag::of::<PlainRing, Split>(&self);
        let sent = Tag::of::<PlainRing, Sent>(&self);
        let got = Tag::of::<PlainRing, Got>(&self);
        let sent_len = self.got_len.saturating_add(u64::from(self.waiting));
        Ok(Settled::new(split, sent, got, sent_len, self.got_len, RingKind::Plain))
    }

    /// The image, at the target address [`IMAGE_BASE`](crate::IMAGE_BASE): the control block at place 0, with one
    /// up-descriptor and none down, and the buffer at place 48. The bytes that wait in it are those sent and not taken.
    pub fn image(&self) -> &[u8]
        ensures wide { length result.now ≡ 48 + (up_of self.now).size }
        ensures short { length result.now ≤ 65584 }
        ensures block { block_at result.now base 0 ≡ Ok (record { up = plain_descriptor (up_of self.now).size (length (up_of self.now).sent % (up_of self.now).size) (length (down_of self.now).got % (up_of self.now).size) ∷ []; down = [] }) }
        ensures waiting { waiting result.now base (plain_descriptor (up_of self.now).size (length (up_of self.now).sent % (up_of self.now).size) (length (down_of self.now).got % (up_of self.now).size)) ≡ drop (length (down_of self.now).got) (up_of self.now).sent }
    {
        &self.image
    }

    // The first bytes that wait, in two runs: up to the buffer's end, and from its front.
    fn runs(&self, count: u32) -> (&[u8], &[u8])
        requires { count ≤ self.now.waiting }
        ensures bytes { result.0.now ++ result.1.now ≡ part self.now.image.items self.now.size (length (traffic_of self.now.journal).got) count }
        ensures count { length result.0.now + length result.1.now ≡ count }
    {
        let first = count.min(self.size - self.rd) as usize;
        let buffer = &self.image[BUFFER..];
        let at = self.rd as usize;
        (&buffer[at..at + first], &buffer[..count as usize - first])
    }

    // Copies the first bytes that wait.
    fn copy_to(&self, out: &mut [u8])
        requires { length out.old ≤ self.now.waiting }
        ensures { out.new ≡ part self.now.image.items self.now.size (length (traffic_of self.now.journal).got) (length out.old) }
    {
        let (front, back) = self.runs(out.len() as u32);
        let first = front.len();
        out[..first].copy_from_slice(front);
        out[first..].copy_from_slice(back);
    }

    // Gives the places of the bytes back that were copied.
    fn release(&mut self, bytes: &[u8])
        requires fits { length bytes.now ≤ self.old.waiting }
        requires bytes { bytes.now ≡ part self.old.image.items self.old.size (length (traffic_of self.old.journal).got) (length bytes.now) }
        requires found { length (traffic_of self.old.journal).got + length bytes.now ≤ (traffic_of self.old.journal).found }
        ensures up { up_of self.new ≡ up_of self.old }
        ensures down { down_of self.new ≡ record (down_of self.old) { got = (down_of self.old).got ++ bytes.now } }
    {
        let count = bytes.len() as u32;
        let rd = (self.rd + count) % self.size;
        let waiting = self.waiting - count;
        mark(&mut self.image, self.size, (rd + waiting) % self.size, rd);
        self.rd = rd;
        self.waiting = waiting;
        self.got_len = self.got_len.saturating_add(u64::from(count));
        self.journal.take(bytes);
    }
}

impl UpEnd for PlainRing {
    ghost use Rattle.std.specs.Prelude.{◌≡◌, ◌-◌, ◌+◌, ◌≤◌, min, [], length};
    ghost use Rattle.rtt_ring.specs.Views.{Looked, put_up, published};
    ghost use Rattle.rtt_ring.specs.PlainView.{up_of, down_of};

    ghost view = { up_of };

    fn size(&self) -> u32 {
        self.size
    }

    fn looks(&self) -> u64 {
        self.looks
    }

    fn look(&mut self) -> u32
        requires { (up_of self.old).staged ≡ [] }
        ensures looked { Looked (up_of self.old) (up_of self.new) }
        ensures room { result ≡ (up_of self.new).room }
        ensures exact { result + length (up_of self.old).sent + 1 ≡ length (down_of self.old).got + (up_of self.old).size }
        ensures down { down_of self.new ≡ down_of self.old }
    {
        self.journal.look_up();
        self.looks = self.looks.saturating_add(1);
        self.room = self.size - 1 - self.waiting;
        self.room
    }

    fn put(&mut self, bytes: &[u8])
        requires { length bytes.now ≤ (up_of self.old).room }
        ensures up { up_of self.new ≡ put_up (up_of self.old) bytes.now }
        ensures down { down_of self.new ≡ down_of self.old }
    {
        let count = bytes.len() as u32;
        let at = (self.rd + (self.waiting + self.staged)) % self.size;
        store(&mut self.image, at as usize, bytes);
        self.journal.put(bytes);
        self.staged += count;
        self.room -= count;
    }

    fn publish(&mut self)
        ensures up { up_of self.new ≡ published (up_of self.old) }
        ensures down { down_of self.new ≡ down_of self.old }
    {
        let waiting = self.waiting + self.staged;
        mark(
            &mut self.image,
            self.size,
            (self.rd + waiting) % self.size,
            self.rd,
        );
        self.waiting = waiting;
        self.staged = 0;
        self.journal.publish();
    }
}

impl DownEnd for PlainRing {
    ghost use Rattle.std.specs.Prelude.{◌≡◌, ◌-◌, ◌+◌, min, false, [], length, take, drop};
    ghost use Rattle.rtt_ring.specs.Views.{Took};
    ghost use Rattle.rtt_ring.specs.PlainView.{up_of, down_of};

    ghost view = { down_of };

    ghost tells = { false };

    ghost seen = { λ _. [] };

    fn look(&mut self) -> u32
        ensures looked { Took (down_of self.old) (down_of self.new) [] }
        ensures found { result + length (down_of self.old).got ≡ (down_of self.new).found }
        ensures exact { result + length (down_of self.old).got ≡ length (up_of self.old).sent }
        ensures up { up_of self.new ≡ up_of self.old }
    {
        self.journal.look_down();
        self.waiting
    }

    fn take(&mut self, buf: &mut [u8]) -> usize
        ensures took { Took (down_of self.old) (down_of self.new) (take result buf.new) }
        ensures count { result ≡ min ((down_of self.new).found - length (down_of self.old).got) (length buf.old) }
        ensures behind { drop result buf.new ≡ drop result buf.old }
        ensures exact { (down_of self.new).found ≡ length (up_of self.old).sent }
        ensures bytes { take result buf.new ≡ take result (drop (length (down_of self.old).got) (up_of self.old).sent) }
        ensures up { up_of self.new ≡ up_of self.old }
    {
        self.journal.look_down();
        let count = (self.waiting as usize).min(buf.len());
        self.copy_to(&mut buf[..count]);
        self.release(&buf[..count]);
        count
    }
}
