//! The eight bytes of a word.
ghost use Rattle.std.specs.Prelude.{◌≡◌, ◌+◌, ◌≤◌, ◌++◌, length, take, drop};
ghost use Rattle.rtt_words.specs.WordRule.{lanes};

use dl_io::Bytes;

// Puts the bytes of a word, from the lane on, at the index `from`.
pub(crate) fn copy_lanes(word: u64, lane: usize, buf: &mut [u8], from: usize, count: usize)
    requires { (lane + count ≤ 8) × (from + count ≤ length buf.old) }
    ensures bytes { take (from + count) buf.new ≡ take from buf.old ++ take count (drop lane (lanes word)) }
    ensures behind { drop (from + count) buf.new ≡ drop (from + count) buf.old }
{
    let found = word.to_le_bytes();
    if count == 8 {
        buf[from..from + 8].copy_from_slice(&found);
        return;
    }
    for i in 0..count {
        buf[from + i] = found[lane + i];
    }
}

// Puts the bytes of a word, from the lane on, behind the others.
pub(crate) fn push_lanes(word: u64, lane: usize, count: usize, rest: &mut Bytes)
    requires { (lane + count ≤ 8) × (count ≤ rest.old.room) }
    ensures items { rest.new.items ≡ rest.old.items ++ take count (drop lane (lanes word)) }
    ensures room { rest.new.room + count ≡ rest.old.room }
{
    let found = word.to_le_bytes();
    rest.extend_reserved(&found[lane..lane + count]);
}
