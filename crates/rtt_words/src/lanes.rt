//! The eight bytes of a word.
ghost use Rattle.std.specs.Prelude.{◌≡◌, ◌+◌, ◌≤◌, length};
ghost use Rattle.rtt_words.specs.WordRule.{Mixes};

// The word with these bytes from the lane on.
pub(crate) fn with_lanes(old: u64, lane: usize, bytes: &[u8]) -> u64
    requires { lane + length bytes.now ≤ 8 }
    ensures { Mixes old result lane bytes.now }
{
    let mut lanes = old.to_le_bytes();
    if bytes.len() == 8 {
        lanes.copy_from_slice(bytes);
        return u64::from_le_bytes(lanes);
    }
    for i in 0..bytes.len() {
        lanes[lane + i] = bytes[i];
    }
    u64::from_le_bytes(lanes)
}
