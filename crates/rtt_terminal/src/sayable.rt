//! Which texts may be spoken.
ghost use Rattle.std.specs.Prelude.{◌≡◌, ◌↔◌, IsTrue};
ghost use Rattle.std.specs.List.{list_all};
ghost use Rattle.rtt_terminal.specs.Sayable.{is_plain, is_sayable};
ghost use Rattle.rtt_terminal.specs.Stream.{IsSayable};

// How many bytes a text that may be spoken has at most.
const SAYABLE_LIMIT: usize = 2000;

fn is_plain(byte: u8) -> bool
    ensures { result ≡ is_plain byte }
{
    byte >= 0x20 && byte != 0x7f
}

fn are_plain(bytes: &[u8]) -> bool
    ensures { result ≡ list_all is_plain bytes.now }
{
    bytes.iter().all(|byte| is_plain(*byte))
}

fn may_be_spoken(text: &str) -> bool
    ensures { result ≡ is_sayable text.now }
{
    text.len() <= SAYABLE_LIMIT && are_plain(text.as_bytes())
}

/// Whether a text may be spoken: it has at most 2,000 bytes, none below `20` and none `7f`. Takes no memory.
pub fn is_sayable(text: &str) -> bool
    ensures value { result ≡ is_sayable text.now }
    ensures sayable { IsTrue result ↔ IsSayable text.now }
{
    may_be_spoken(text)
}
