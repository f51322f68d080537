//! The lower end of a word ring.
ghost use Rattle.std.specs.Prelude.{◌≡◌, ◌+◌, ◌-◌, ◌<◌, ◌≤◌, [], ◌++◌, ℕ, List, length, take, drop};
ghost use Rattle.rtt_words.specs.WordRule.{took_bytes};
ghost use Rattle.rtt_words.specs.Told.{IsReleased, lower, lower_name};
ghost use Rattle.rtt_ring.specs.WordKept.{IsDown};

use crate::DownEnd;
use crate::word::lanes::copy_lanes;
use crate::word::places::{ahead, place_after};
use rtt_words::DownWords;

/// The lower end of a word ring, which the reader has.
#[derive(Drop)]
pub struct WordDown {
    pub(crate) words: DownWords,
    pub(crate) size: u32,
    // Where the next byte is.
    pub(crate) at: u32,
    pub(crate) got_len: u64,
    ghost kept: { IsDown (lower words) size at got_len },
}

impl WordDown {
    // Takes bytes of one word, and puts them at `from`, at most up to `to`.
    fn take_some(&mut self, buf: &mut [u8], from: usize, to: usize) -> usize
        requires buf { (from < to) × (to ≤ length buf.old) }
        requires found { length (lower self.old.words).got + (to - from) ≤ (lower self.old.words).found }
        ensures count { (0 < result) × (from + result ≤ to) }
        ensures words { (lower_name self.new.words ≡ lower_name self.old.words) × ((bs : List ℕ) × (length bs ≡ result) × (lower self.new.words ≡ took_bytes (lower self.old.words) bs) × (take (from + result) buf.new ≡ take from buf.old ++ bs)) }
        ensures behind { drop (from + result) buf.new ≡ drop (from + result) buf.old }
        ensures rest { self.new.size ≡ self.old.size }
    {
        let lane = self.at as usize % 8;
        let word = self.at as usize / 8;
        let flat = (8 - lane).min((self.size - self.at) as usize);
        let count = flat.min(to - from);
        let found = self.words.load_bytes(word, count);
        copy_lanes(found, lane, buf, from, count);
        self.at = place_after(self.at, count as u32, self.size);
        self.got_len = self.got_len.saturating_add(count as u64);
        count
    }

    // Releases all bytes taken.
    fn release(&mut self)
        ensures name { lower_name self.new.words ≡ lower_name self.old.words }
        ensures released { IsReleased (lower self.old.words) (lower self.new.words) }
        ensures rest { self.new.size ≡ self.old.size }
    {
        self.words.store_rd_off(self.at);
    }
}

impl DownEnd for WordDown {
    ghost use Rattle.std.specs.Prelude.{min, true};
    ghost use Rattle.rtt_ring.specs.Views.{Took};
    ghost use Rattle.rtt_ring.specs.WordEnds.{down_of, released_of, releases_of, seen_of};
    ghost use Rattle.rtt_words.specs.History.{IsLoaded, IsStored};

    ghost view = { down_of };

    ghost tells = { true };

    ghost seen = { seen_of };

    fn look(&mut self) -> u32
        ensures looked { Took (down_of self.old) (down_of self.new) [] }
        ensures found { result + length (down_of self.old).got ≡ (down_of self.new).found }
        ensures load { IsLoaded (seen_of self.old) (down_of self.new).found (seen_of self.new) }
        ensures released { (released_of self.new ≡ released_of self.old) × (releases_of self.new ≡ releases_of self.old) }
    {
        let at = self.words.load_wr_off() as u32;
        ahead(self.at, at, self.size)
    }

    fn take(&mut self, buf: &mut [u8]) -> usize
        ensures took { Took (down_of self.old) (down_of self.new) (take result buf.new) }
        ensures count { result ≡ min ((down_of self.new).found - length (down_of self.old).got) (length buf.old) }
        ensures behind { drop result buf.new ≡ drop result buf.old }
        ensures load { IsLoaded (seen_of self.old) (down_of self.new).found (seen_of self.new) }
        ensures released { 0 < result → released_of self.new ≡ length (down_of self.new).got }
        ensures store { 0 < result → IsStored (releases_of self.old) (length (down_of self.new).got) (releases_of self.new) }
        ensures idle { result ≡ 0 → (released_of self.new ≡ released_of self.old) × (releases_of self.new ≡ releases_of self.old) }
    {
        let count = buf.len().min(self.look() as usize);
        let mut done = 0;
        while done < count {
            done += self.take_some(buf, done, count);
        }
        if count > 0 {
            self.release();
        }
        count
    }
}
