//! The ring over a table of words.
ghost use Rattle.std.specs.Prelude.{◌≡◌, ◌+◌, ◌%◌, ◌<◌, ◌≤◌, [], ◌++◌, length, IfOk, IfErr};
ghost use Rattle.rtt_words.specs.WordRule.{StartsWith, new_up, new_down};
ghost use Rattle.rtt_ring.specs.WordKept.{IsOneRun};
ghost use Rattle.rtt_words.specs.Told.{joined_lower, joined_upper, lower, lower_name, upper, upper_name};

mod down;
mod lanes;
mod places;
mod up;

use crate::word::lanes::push_lanes;
use crate::word::places::{ahead, place_after};
use crate::{Channel, RingFault, RingKind, Settled};
use boxcar::tag::{Names, Tag};
use dl_io::{Bytes, Memory};
pub use down::WordDown;
use rtt_words::JoinedWords;
use std::alloc::{AllocError, Global};
pub use up::WordUp;

/// The ring over a table of atomic words, for a writer and a reader on two threads. It is that of SEGGER RTT: the word
/// WrOff is the place where the writer puts its next byte, the word RdOff the place of the oldest byte that isn't
/// released, and the buffer lies in the words behind them, eight bytes in each, the first in the lowest bits. Equal offsets
/// mean an empty ring, so at most one byte fewer than the size waits.
///
/// # The rule
///
/// The upper end knows the bytes that it sent, those that are staged, and how many of them its last look found released.
/// The lower end knows the bytes that it got, how many its last look found published, and how many it has released.
/// Numbers of bytes are since the ring was made. These facts hold between any two steps, whatever the two threads do:
///
/// 1. What the upper end found released is at most what is released; this is at most what was got; this at most what the
///    lower end found published; and this at most what was sent. What was got is a front of what was sent.
/// 2. The bytes sent and staged, less those that the upper end found released, are at most the size less one.
/// 3. WrOff is the number of bytes sent, and RdOff that of bytes released, modulo the size.
/// 4. A byte that is sent or staged and not released stands at its number modulo the size. Place `p` is lane `p mod 8` of
///    data word `p / 8`.
/// 5. Either one seat knows both ends, or one knows the upper and another the lower end. No other seat knows anything.
/// 6. The data word that the upper end has loaded keeps its value until the upper end stores it.
/// 7. All accesses of an offset have one order. Each end knows them up to its own last one, and behind these come only the
///    other end's. What was stored last is the number of bytes sent, or released.
///
/// # The steps
///
/// Each call is made of atomic steps on one word, all of them sequentially consistent. They are the methods of
/// [`UpWords`](rtt_words::UpWords), [`DownWords`](rtt_words::DownWords) and [`JoinedWords`], which keep the table to
/// themselves: so there is no other step, and a look is a load of the other end's offset. A stretch is a run of neighbouring
/// bytes in one word; where bytes go round the buffer's end, one word can have two.
///
/// | Step | By | Made |
/// |---|---|---|
/// | load RdOff | the upper end | once by `look` |
/// | load a data word, then store it | the upper end | `put`: once each for each stretch |
/// | store WrOff | the upper end | once by `publish` |
/// | load WrOff | the lower end | once by `look` and by `take` |
/// | load a data word | the lower end | `take`: once for each stretch |
/// | store RdOff | the lower end | once by a `take` that took something |
/// | load a data word | both ends, joined | in `settle`: once, and once for each stretch of the rest |
/// | load a word, to part the ends or to join them | both ends | once by `split`, once by `settle` |
///
/// No call of an end waits or takes memory.
pub struct WordRing;

// The name of the split.
struct Split;

impl Names<WordUp> for Split {
    ghost use Rattle.rtt_ring.specs.WordEnds.{up_of};

    ghost numbers = { λ up. (up_of up).split };
}

// All that was sent.
struct Sent;

impl Names<WordUp> for Sent {
    ghost use Rattle.rtt_ring.specs.WordEnds.{up_of};

    ghost numbers = { λ up. (up_of up).sent };
}

// All that was taken.
struct Got;

impl Names<WordDown> for Got {
    ghost use Rattle.rtt_ring.specs.WordEnds.{down_of};

    ghost numbers = { λ down. (down_of down).got };
}

// The ends of a new ring.
fn make_ends(alloc: Global, size: u32) -> Result<(WordUp, WordDown), AllocError>
    requires { (16 ≤ size) × (size ≤ 65536) }
    ensures { IfOk result (λ e. (upper_name e.0.words ≡ lower_name e.1.words) × (e.0.size ≡ size) × (e.0.room ≡ 0) × (e.1.size ≡ size) × (upper e.0.words ≡ new_up size) × (lower e.1.words ≡ new_down size)) }
{
    let (upper, lower) = JoinedWords::split(alloc, size)?;
    let up = WordUp {
        words: upper,
        size,
        at: 0,
        room: 0,
        looks: 0,
        put_len: 0,
    };
    let down = WordDown {
        words: lower,
        size,
        at: 0,
        got_len: 0,
    };
    Ok((up, down))
}

// Loads the bytes that were sent and not taken. The first load tells how the two ends stand to each other.
fn read_rest(
    words: &mut JoinedWords,
    from: u32,
    to: u32,
    size: u32,
    rest: &mut Bytes,
) -> Result<(), Memory>
    requires places { (1 < size) × (size ≤ 65536) × (from ≡ length (joined_lower words.old).got % size) × (to ≡ length (joined_upper words.old).sent % size) }
    requires size { (joined_upper words.old).size ≡ size }
    requires rest { rest.old.items ≡ [] }
    ensures ok { IfOk result (λ _. ((joined_upper words.old).sent ≡ (joined_lower words.old).got ++ rest.new.items) × ((joined_upper words.old).freed ≤ length (joined_lower words.old).got) × IsOneRun (joined_upper words.old) (joined_lower words.old)) }
    ensures err { IfErr result (λ _. StartsWith (joined_upper words.old).sent ((joined_lower words.old).got ++ rest.new.items)) }
{
    words.load_rest(from as usize / 8);
    let wait = ahead(from, to, size);
    rest.reserve(wait as usize)?;
    let mut at = from;
    let mut done = 0;
    while done < wait {
        let lane = at % 8;
        let flat = (8 - lane).min(size - at);
        let count = flat.min(wait - done);
        let word = words.load_rest(at as usize / 8);
        push_lanes(word, lane as usize, count as usize, rest);
        at = place_after(at, count, size);
        done += count;
    }
    Ok(())
}

impl Channel for WordRing {
    ghost use Rattle.std.specs.Prelude.{true, ℕ, List};
    ghost use Rattle.rtt_ring.specs.WordEnds.{down_of, up_of};
    ghost use Rattle.rtt_ring.specs.declared.settled.RingKind.TheVariants.{Word};

    type Up = WordUp;

    type Down = WordDown;

    const KIND: RingKind = RingKind::Word;

    ghost KIND = { Word };

    ghost tells = { true };

    fn split(alloc: Global, size: u32) -> Result<(WordUp, WordDown), RingFault> {
        if size < 16 || size > 65536 {
            return Err(RingFault::Size);
        }
        let ends = make_ends(alloc, size)?;
        Ok(ends)
    }

    fn settle(up: WordUp, down: WordDown, rest: &mut Bytes) -> Result<Settled, Memory>
        requires pair { (up_of up).split ≡ (down_of down).split }
        requires empty { ((up_of up).staged ≡ []) × (rest.old.items ≡ []) }
        ensures account { IfOk result (λ s. (s.sent ≡ (up_of up).sent) × (s.got ≡ (down_of down).got) × (s.ring ≡ Word)) }
        ensures split { IfOk result (λ s. s.split ≡ (up_of up).split) }
        ensures rest { IfOk result (λ s. (s.sent ≡ s.got ++ rest.new.items) × ((up_of up).freed ≤ length s.got)) }
        ensures memory { IfErr result (λ _. (more : List ℕ) × ((up_of up).sent ≡ ((down_of down).got ++ rest.new.items) ++ more)) }
        ensures run { IfOk result (λ _. IsOneRun (upper up.words) (lower down.words)) }
    {
        let split = Tag::of::<WordUp, Split>(&up);
        let sent = Tag::of::<WordUp, Sent>(&up);
        let got = Tag::of::<WordDown, Got>(&down);
        let WordUp {
            words: upper,
            size,
            at: to,
            room: _,
            looks: _,
            put_len: sent_len,
        } = up;
        let WordDown {
            words: lower,
            size: _,
            at: from,
            got_len,
        } = down;
        let mut words = JoinedWords::join(upper, lower);
        read_rest(&mut words, from, to, size, rest)?;
        Ok(Settled::new(split, sent, got, sent_len, got_len, RingKind::Word))
    }
}
