//! Pieces of lines in blocks, which are put into a buffer whole: what stands behind a piece in its block is written over by what follows.
ghost use Rattle.std.specs.Prelude.{◌≡◌, ◌≤◌, ◌<◌, ◌+◌, length, take, drop};
ghost use Rattle.std.specs.Fmt.{decimal};
ghost use Rattle.defmt_forms.specs.Placed.{Holds, Placed};

use dl_io::Bytes;

/// The pieces of a template, each at the front of a block.
#[derive(Clone, Copy)]
pub struct Blocks {
    pub(crate) head: [u8; 64],
    pub(crate) between: [u8; 64],
    pub(crate) before: [u8; 64],
    pub(crate) behind: [u8; 64],
}

/// A block with a piece at its front.
pub(crate) fn block_of(piece: &[u8]) -> [u8; 64]
    requires { length piece.now ≤ 64 }
    ensures { Holds result piece.now }
{
    let mut block = [0; 64];
    block[..piece.len()].copy_from_slice(piece);
    block
}

/// The 32 bytes behind a place.
#[inline(always)]
pub(crate) fn block_at(text: &[u8], at: usize) -> [u8; 32]
    requires { at + 32 ≤ length text.now }
    ensures { result ≡ take 32 (drop at text.now) }
{
    let mut block = [0; 32];
    block.copy_from_slice(&text[at..at + 32]);
    block
}

// The first bytes of a block. They are taken before they are put, so that the compiler needn't ask whether both places overlap.
#[inline(always)]
fn front_of<const N: usize>(block: &[u8; 64]) -> [u8; N]
    requires { N ≤ 64 }
    ensures { result ≡ take N block.now }
{
    let mut front = [0; N];
    front.copy_from_slice(&block[..N]);
    front
}

// Puts bytes at a place, of which a front is meant, and answers where that ends.
#[inline(always)]
pub(crate) fn put_bytes(text: &mut [u8], at: usize, bytes: &[u8], count: usize) -> usize
    requires { (count ≤ length bytes.now) × (at + length bytes.now ≤ length text.old) }
    ensures placed { Placed text.old at text.new result (take count bytes.now) }
    ensures end { result ≡ at + count }
{
    text[at..at + bytes.len()].copy_from_slice(bytes);
    at + count
}

/// Puts the front of a block at a place, and answers where that front ends.
#[inline(always)]
pub(crate) fn put_front(text: &mut [u8], at: usize, block: &[u8; 32], count: usize) -> usize
    requires { (count ≤ 32) × (at + 32 ≤ length text.old) }
    ensures placed { Placed text.old at text.new result (take count block.now) }
    ensures end { result ≡ at + count }
{
    put_bytes(text, at, block, count)
}

/// Puts a piece at a place, from its block, and answers where it ends.
#[inline(always)]
pub(crate) fn put_piece(text: &mut [u8], at: usize, piece: &Bytes, block: &[u8; 64]) -> usize
    requires { Holds block.now piece.now.items × (at + 64 ≤ length text.old) }
    ensures { Placed text.old at text.new result piece.now.items }
{
    let count = piece.len();
    if count <= 16 {
        put_bytes(text, at, &front_of::<16>(block), count)
    } else if count <= 32 {
        put_bytes(text, at, &front_of::<32>(block), count)
    } else {
        put_bytes(text, at, &front_of::<64>(block), count)
    }
}

/// The same of the end of a line, which mostly is a newline alone.
#[inline(always)]
pub(crate) fn put_end(text: &mut [u8], at: usize, piece: &Bytes, block: &[u8; 64]) -> usize
    requires { Holds block.now piece.now.items × (at + 64 ≤ length text.old) }
    ensures { Placed text.old at text.new result piece.now.items }
{
    if piece.len() == 1 {
        put_bytes(text, at, &[block[0]], 1)
    } else {
        put_piece(text, at, piece, block)
    }
}

/// Puts the digits of a number below a hundred at a place, and answers where they end.
#[inline(always)]
pub(crate) fn put_digits(text: &mut [u8], at: usize, number: u32) -> usize
    requires { (number < 100) × (at + 2 ≤ length text.old) }
    ensures placed { Placed text.old at text.new result (decimal number) }
    ensures few { result ≤ at + 2 }
{
    if number < 10 {
        put_bytes(text, at, &[b'0' + number as u8], 1)
    } else {
        let digits = [b'0' + (number / 10) as u8, b'0' + (number % 10) as u8];
        put_bytes(text, at, &digits, 2)
    }
}
