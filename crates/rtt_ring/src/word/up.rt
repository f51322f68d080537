//! The upper end of a word ring.
ghost use Rattle.std.specs.Prelude.{◌≡◌, ◌+◌, ◌<◌, ◌≤◌, length, take};
ghost use Rattle.rtt_words.specs.WordRule.{put_bytes};
ghost use Rattle.rtt_words.specs.Told.{upper, upper_name};
ghost use Rattle.rtt_ring.specs.WordKept.{IsUp};

use crate::UpEnd;
use crate::word::places::{ahead, place_after};
use rtt_words::UpWords;

/// The upper end of a word ring, which the writer has.
#[derive(Drop)]
pub struct WordUp {
    pub(crate) words: UpWords,
    pub(crate) size: u32,
    // Where the next byte goes.
    pub(crate) at: u32,
    pub(crate) room: u32,
    pub(crate) looks: u64,
    // How many bytes were put.
    pub(crate) put_len: u64,
    ghost kept: { IsUp (upper words) size at room looks put_len },
}

impl WordUp {
    // Puts the first of these bytes, those that go into one word.
    fn put_some(&mut self, bytes: &[u8]) -> usize
        requires { (0 < length bytes.now) × (length bytes.now ≤ self.old.room) }
        ensures count { (0 < result) × (result ≤ length bytes.now) }
        ensures words { (upper_name self.new.words ≡ upper_name self.old.words) × (upper self.new.words ≡ put_bytes (upper self.old.words) (take result bytes.now)) }
        ensures rest { (self.new.size ≡ self.old.size) × (self.new.room + result ≡ self.old.room) }
    {
        let lane = self.at as usize % 8;
        let word = self.at as usize / 8;
        let flat = (8 - lane).min((self.size - self.at) as usize);
        let count = flat.min(bytes.len());
        let old = self.words.load_word(word);
        self.words.store_bytes(word, lane, old, &bytes[..count]);
        self.at = place_after(self.at, count as u32, self.size);
        self.room -= count as u32;
        self.put_len = self.put_len.saturating_add(count as u64);
        count
    }
}

impl UpEnd for WordUp {
    ghost use Rattle.rtt_words.specs.History.{IsStored};
    ghost use Rattle.rtt_ring.specs.Views.{published};
    ghost use Rattle.rtt_ring.specs.WordEnds.{published_of, up_of};

    ghost view = { up_of };

    fn size(&self) -> u32 {
        self.size
    }

    fn looks(&self) -> u64 {
        self.looks
    }

    fn look(&mut self) -> u32 {
        let at = self.words.load_rd_off() as u32;
        self.room = self.size - 1 - ahead(at, self.at, self.size);
        self.looks = self.looks.saturating_add(1);
        self.room
    }

    fn put(&mut self, bytes: &[u8]) {
        let mut done = 0;
        while done < bytes.len() {
            done += self.put_some(&bytes[done..]);
        }
    }

    fn publish(&mut self)
        ensures published { up_of self.new ≡ published (up_of self.old) }
        ensures store { IsStored (published_of self.old) (length (up_of self.new).sent) (published_of self.new) }
    {
        self.words.store_wr_off(self.at);
    }
}
