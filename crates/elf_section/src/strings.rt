//! String tables.

ghost use Rattle.std.specs.Prelude.{◌≡◌, ◌≤◌, ◌<◌, ◌+◌, ◌^◌, length, drop, is_some, slice_index, IfOk};
ghost use Rattle.std.specs.Option.{option_copied};
ghost use Rattle.elf_section.specs.Bytes.{gap, text_at, HasGaps};

use crate::bytes::gap;
use std::alloc::{AllocError, Global};
use std::cmp;
use std::marker::Model;

/// A string table that finds the end of each text in at most 64 steps, however long the text is, so
/// that many names may share one long text.
#[derive(Drop)]
pub struct StringTable<'a> {
    bytes: &'a [u8],
    // How many bytes stand from place 64, 128 and so on to the next zero or the end.
    gaps: Vec<u32>,
}

impl<'a> Model for StringTable<'a> {
    ghost use Rattle.std.specs.Prelude.{List, ℕ};
    ghost use Rattle.elf_section.specs.Bytes.{HasGaps};

    ghost Value = { List ℕ };

    ghost view = { λ t. t.bytes.now };

    ghost invariant = { λ t. HasGaps t.bytes.now t.gaps.items };
}

// How many bytes stand from `at` to the next zero or the end, where `after` do so from `stop` on.
fn gap_from(bytes: &[u8], at: usize, stop: usize, after: usize) -> usize
    requires order { at ≤ stop }
    requires inside { stop ≤ length bytes.now }
    requires after { after ≡ gap (drop stop bytes.now) }
    ensures value { result ≡ gap (drop at bytes.now) }
    ensures bound { at + result ≤ length bytes.now }
{
    let here = gap(&bytes[at..stop]);
    if here < stop - at { here } else { here + after }
}

// The gaps from the places 64, 128 and so on.
fn gaps_of(alloc: Global, bytes: &[u8]) -> Result<Vec<u32>, AllocError>
    requires { length bytes.now < 2 ^ 32 }
    ensures { IfOk result (λ v. HasGaps bytes.now v.items) }
{
    let count = bytes.len() / 64 + 1;
    let mut gaps = vec![in alloc; 0; count]?;
    let mut after = 0;
    for i in (0..count).rev() {
        gaps[i] = after as u32;
        let stop = cmp::min(64 * (i + 1), bytes.len());
        after = gap_from(bytes, 64 * i, stop, after);
    }
    Ok(gaps)
}

impl<'a> StringTable<'a> {
    pub fn new(alloc: Global, bytes: &'a [u8]) -> Result<Self, AllocError>
        requires { length bytes.now < 2 ^ 32 }
        ensures { IfOk result (λ t. t ≡ bytes.now) }
    {
        let gaps = gaps_of(alloc, bytes)?;
        Ok(StringTable { bytes, gaps })
    }

    /// The text from a place to the zero at its end.
    pub fn text_at(&self, at: u64) -> Option<&'a [u8]>
        ensures { option_copied result ≡ text_at at self.now }
    {
        if at > self.bytes.len() as u64 {
            return None;
        }
        let at = at as usize;
        let stop = cmp::min(64 * (at / 64 + 1), self.bytes.len());
        let end = at + gap_from(self.bytes, at, stop, self.gaps[at / 64] as usize);
        if end < self.bytes.len() {
            Some(&self.bytes[at..end])
        } else {
            None
        }
    }

    /// Whether a text stands at a place. Where the table ends with a zero, one does at each place in it.
    pub fn has_text_at(&self, at: u64) -> bool
        ensures { result ≡ is_some (text_at at self.now) }
    {
        let len = self.bytes.len();
        if at < len as u64 && self.bytes[len - 1] == 0 {
            return true;
        }
        self.text_at(at).is_some()
    }

    /// The byte at a place, 0 past the end.
    pub fn byte_at(&self, at: u64) -> u8
        ensures { result ≡ slice_index self.now at }
    {
        if at < self.bytes.len() as u64 {
            self.bytes[at as usize]
        } else {
            0
        }
    }
}
