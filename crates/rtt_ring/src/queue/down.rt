//! The lower end of a queue ring.
ghost use Rattle.std.specs.Prelude.{◌≡◌, ◌+◌, ◌≤◌, ◌++◌, length, slice_index};
ghost use Rattle.rtrb.specs.Ring.{received, known_items, consumer_capacity, SameConsumer};
ghost use Rattle.rtt_ring.specs.Account.{capped};

use crate::DownEnd;
use boxcar::tag::{Names, Tag};
use rtrb::Consumer;

/// The lower end of a queue ring, which the reader has.
#[derive(Drop)]
pub struct QueueDown {
    pub(crate) consumer: Consumer<u8>,
    pub(crate) size: u32,
    pub(crate) got_len: u64,
    // How many looks were made, and how many bytes the last one found published. Contracts alone read it.
    pub(crate) looked: Tag,
    ghost sized: { (consumer_capacity consumer + 1 ≡ size) × (size ≤ 65536) },
    ghost found: { (length (received consumer) ≤ slice_index looked.numbers 1) × (slice_index looked.numbers 1 ≤ length (received consumer) + length (known_items consumer)) },
    ghost counted: { got_len ≡ capped (length (received consumer)) },
}

// A look: what was noted before, and the queue's end that looked.
#[derive(Drop)]
struct Look<'a> {
    before: &'a Tag,
    consumer: &'a Consumer<u8>,
}

// One look more, and what it found.
struct Found;

impl Names<Look<'_>> for Found {
    ghost use Rattle.std.specs.Prelude.{slice_index, length, ◌+◌, ◌∷◌, []};
    ghost use Rattle.rtrb.specs.Ring.{received, known_items};

    ghost numbers = { λ look. (slice_index look.before.now.numbers 0 + 1) ∷ (length (received look.consumer.now) + length (known_items look.consumer.now)) ∷ [] };
}

// Fills the slice with the next bytes, all of which are known to be there.
fn pop_into(consumer: &mut Consumer<u8>, buf: &mut [u8])
    requires { length buf.old ≤ length (known_items consumer.old) }
    ensures same { SameConsumer consumer.old consumer.new }
    ensures received { received consumer.new ≡ received consumer.old ++ buf.new }
    ensures known { length (known_items consumer.old) ≤ length buf.old + length (known_items consumer.new) }
{
    consumer.pop_entire_slice(buf).unwrap();
}

impl DownEnd for QueueDown {
    ghost use Rattle.std.specs.Prelude.{false, []};
    ghost use Rattle.rtt_ring.specs.QueueEnds.{down_of};

    ghost view = { down_of };

    ghost tells = { false };

    ghost seen = { λ _. [] };

    fn look(&mut self) -> u32 {
        let found = self.consumer.slots() as u32;
        self.looked = Tag::of::<Look, Found>(&Look {
            before: &self.looked,
            consumer: &self.consumer,
        });
        found
    }

    fn take(&mut self, buf: &mut [u8]) -> usize {
        let count = buf.len().min(self.look() as usize);
        pop_into(&mut self.consumer, &mut buf[..count]);
        self.got_len = self.got_len.saturating_add(count as u64);
        count
    }
}
