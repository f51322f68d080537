//! The upper end of a queue ring.
ghost use Rattle.std.specs.Prelude.{◌≡◌, ◌+◌, ◌≤◌, [], ◌∷◌, length, slice_index, vec_capacity};
ghost use Rattle.rtrb.specs.Ring.{sent, known_free, producer_capacity};
ghost use Rattle.rtt_ring.specs.Account.{capped};

use crate::UpEnd;
use boxcar::tag::{Names, Tag};
use rtrb::Producer;

/// The upper end of a queue ring, which the writer has.
#[derive(Drop)]
pub struct QueueUp {
    pub(crate) producer: Producer<u8>,
    // The bytes that are put and not published.
    pub(crate) staged: Vec<u8>,
    pub(crate) size: u32,
    pub(crate) room: u32,
    pub(crate) looks: u64,
    pub(crate) sent_len: u64,
    // How many looks were made. Contracts alone read it, so it has no last number.
    pub(crate) looked: Tag,
    ghost sized: { (producer_capacity producer + 1 ≡ size) × (size ≤ 65536) },
    ghost fits: { (length staged.items + room ≤ known_free producer) × (known_free producer + 1 ≤ size) × (size ≤ vec_capacity staged + 1) },
    ghost least: { size ≤ length (sent producer) + known_free producer + 1 },
    ghost counted: { (sent_len ≡ capped (length (sent producer))) × (looks ≡ capped (slice_index looked.numbers 0)) },
}

// One look more.
struct OneMore;

impl Names<Tag> for OneMore {
    ghost use Rattle.std.specs.Prelude.{slice_index, ◌+◌, ◌∷◌, []};

    ghost numbers = { λ looked. (slice_index looked.numbers 0 + 1) ∷ [] };
}

impl UpEnd for QueueUp {
    ghost use Rattle.rtt_ring.specs.QueueEnds.{up_of};

    ghost view = { up_of };

    fn size(&self) -> u32 {
        self.size
    }

    fn looks(&self) -> u64 {
        self.looks
    }

    fn look(&mut self) -> u32 {
        self.room = self.producer.slots() as u32;
        self.looks = self.looks.saturating_add(1);
        self.looked = Tag::of::<Tag, OneMore>(&self.looked);
        self.room
    }

    fn put(&mut self, bytes: &[u8]) {
        self.staged.extend_from_slice(bytes).unwrap();
        self.room -= bytes.len() as u32;
    }

    fn publish(&mut self) {
        let count = self.staged.len() as u64;
        self.producer.push_entire_slice(&self.staged).unwrap();
        self.staged.clear();
        self.sent_len = self.sent_len.saturating_add(count);
    }
}
