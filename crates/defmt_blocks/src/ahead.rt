//! The blocks that are read and not yet heard.
ghost use Rattle.std.specs.Prelude.{◌≡◌, ◌≤◌, ◌<◌, ◌+◌, ◌^◌, ◌++◌, ◌∷◌, ℕ, [], length, take, IfOk, IfSome, None};
ghost use Rattle.std.specs.VecDeque.{deque_capacity, deque_len};
ghost use Rattle.std.specs.Io.KnownBytes.{Consumes, prepend_known};
ghost use Rattle.defmt_blocks.specs.Queue.{KnowsOf, bytes_in};

use crate::part::Part;
use defmt_listen::{Behind, Portion, fill};
use dl_io::{Memory, Source};
use std::alloc::Global;
use std::collections::VecDeque;
use std::mem::replace;

/// The blocks that were read ahead, in their order, what comes behind them, and buffers for more.
#[derive(Drop)]
pub(crate) struct Ahead {
    pub(crate) parts: VecDeque<Part, Global>,
    spare: Vec<Vec<u8>>,
    pub(crate) size: usize,
    pub(crate) behind: Behind,
    ghost size_is: { size ≡ length (bytes_in parts.items) },
}

// Fills the front of a slice.
fn fill_some<S: Source>(src: &mut S, buf: &mut [u8], most: usize) -> Portion
    requires { (0 < most) × (most ≤ length buf.old) }
    ensures within { result.count ≤ most }
    ensures size { length buf.new ≡ length buf.old }
    ensures bytes { Consumes (S.left src.old) (S.left src.new) (take result.count buf.new) }
    ensures more { result.behind ≡ Behind.More → 0 < result.count }
    ensures known { (count : ℕ) → count ≤ S.faults src.old
        → KnowsOf count result.behind (S.left src.new) (S.faults src.new) }
    ensures later { S.faults src.old ≤ S.faults src.new }
{
    fill(src, &mut buf[..most])
}

/// Fills the front of a buffer, up to so many bytes.
pub(crate) fn fill_front<S: Source>(src: &mut S, buf: &mut Vec<u8>, most: usize) -> Portion
    requires { (0 < most) × (most ≤ length buf.old.items) }
    ensures within { result.count ≤ most }
    ensures size { length buf.new.items ≡ length buf.old.items }
    ensures bytes { Consumes (S.left src.old) (S.left src.new) (take result.count buf.new.items) }
    ensures more { result.behind ≡ Behind.More → 0 < result.count }
    ensures known { (count : ℕ) → count ≤ S.faults src.old
        → KnowsOf count result.behind (S.left src.new) (S.faults src.new) }
    ensures later { S.faults src.old ≤ S.faults src.new }
{
    fill_some(src, buf, most)
}

impl Ahead {
    /// Nothing read, and so many buffers of so many bytes.
    pub(crate) fn new(alloc: Global, count: usize, block: usize) -> Result<Self, Memory>
        ensures none { IfOk result (λ ahead. ahead.parts.items ≡ []) }
        ensures more { IfOk result (λ ahead. ahead.behind ≡ Behind.More) }
    {
        let mut spare = Vec::with_capacity(alloc, count)?;
        'buffers: for _ in 0..count {
            let mut buf = Vec::new(alloc);
            buf.resize(block.max(1), 0)?;
            spare.push(buf)?;
        }
        Ok(Ahead::empty(VecDeque::with_capacity(alloc, count)?, spare))
    }

    fn empty(parts: VecDeque<Part, Global>, spare: Vec<Vec<u8>>) -> Self
        requires { parts.items ≡ [] }
        ensures none { result.parts.items ≡ [] }
        ensures more { result.behind ≡ Behind.More }
    {
        Ahead {
            parts,
            spare,
            size: 0,
            behind: Behind::More,
        }
    }

    /// How many blocks may still be read ahead.
    pub(crate) fn left(&self) -> usize {
        self.spare.len()
    }

    /// The block that was read last, if there is one.
    pub(crate) fn last(&self) -> &[u8] {
        match self.parts.back() {
            Some(part) => &part.buf[..part.count],
            None => &[],
        }
    }

    /// Reads the next block behind those that were read, where a buffer is left and bytes may come, so many in all. Answers
    /// whether it did.
    pub(crate) fn add<S: Source>(&mut self, src: &mut S, room: usize) -> bool
        requires { self.old.size ≤ room }
        ensures within { self.new.size ≤ room }
        ensures bytes { Consumes (prepend_known (bytes_in self.old.parts.items) (S.left src.old))
            (prepend_known (bytes_in self.new.parts.items) (S.left src.new)) [] }
        ensures known { (count : ℕ) → KnowsOf count self.old.behind (S.left src.old) (S.faults src.old)
            → KnowsOf count self.new.behind (S.left src.new) (S.faults src.new) }
        ensures later { S.faults src.old ≤ S.faults src.new }
    {
        if self.parts.len() >= self.parts.capacity() {
            return false;
        }
        match (self.behind, self.spare.pop()) {
            (Behind::More, Some(buf)) => self.fill_one(src, buf, room),
            _ => false,
        }
    }

    // Reads a block into this buffer.
    fn fill_one<S: Source>(&mut self, src: &mut S, buf: Vec<u8>, room: usize) -> bool
        requires within { self.old.size ≤ room }
        requires place { deque_len self.old.parts < deque_capacity self.old.parts }
        ensures within { self.new.size ≤ room }
        ensures bytes { Consumes (prepend_known (bytes_in self.old.parts.items) (S.left src.old))
            (prepend_known (bytes_in self.new.parts.items) (S.left src.new)) [] }
        ensures known { (count : ℕ) → KnowsOf count self.old.behind (S.left src.old) (S.faults src.old)
            → KnowsOf count self.new.behind (S.left src.new) (S.faults src.new) }
        ensures later { S.faults src.old ≤ S.faults src.new }
    {
        let mut buf = buf;
        let size = buf.len().min(room - self.size);
        if size == 0 {
            return false;
        }
        let portion = fill_front(src, &mut buf, size);
        self.behind = portion.behind;
        if portion.count == 0 {
            return false;
        }
        self.push(Part {
            buf,
            count: portion.count,
        });
        true
    }

    // Puts a block behind the others.
    fn push(&mut self, part: Part)
        requires place { deque_len self.old.parts < deque_capacity self.old.parts }
        requires size { self.old.size + part.count < 2 ^ 64 }
        ensures parts { self.new.parts.items ≡ self.old.parts.items ++ part ∷ [] }
        ensures size { self.new.size ≡ self.old.size + part.count }
        ensures behind { self.new.behind ≡ self.old.behind }
    {
        self.size += part.count;
        self.parts.push_back_reserved(part);
    }

    /// Puts the first block into the buffer, whose own room is kept for another. Answers how many bytes it has.
    pub(crate) fn give(&mut self, buf: &mut Vec<u8>) -> Option<usize>
        ensures some { IfSome result (λ count. (0 < count) × (count ≤ length buf.new.items)
            × (bytes_in self.old.parts.items ≡ take count buf.new.items ++ bytes_in self.new.parts.items)) }
        ensures none { ((result ≡ None) → (bytes_in self.old.parts.items ≡ []) × (self.new.parts.items ≡ self.old.parts.items)
            × (buf.new ≡ buf.old)) }
        ensures behind { self.new.behind ≡ self.old.behind }
    {
        let Part { buf: block, count } = self.parts.pop_front()?;
        self.size -= count;
        let _ = self.spare.push(replace(buf, block));
        Some(count)
    }
}
