//! Slots.

ghost use Rattle.std.specs.Prelude.{◌≡◌, ◌≤◌, ◌<◌};
ghost use Rattle.defmt_grammar.specs.Slots.{raised, window};
ghost use Rattle.defmt_grammar.specs.Positions.{BitsFit, slot_for};

use crate::kind::Kind;

/// What is sent for a position. The defmt book, "Bitfields".
#[derive(Clone, Copy, Debug, PartialEq, Eq)]
pub enum Slot {
    /// A value of this kind, which is never `Kind::Bits`.
    One(Kind),
    /// `width` bytes of a number, of which the lowest is its byte `first`. They hold all bit fields
    /// of the position.
    Bits { first: u8, width: u8 },
}

// A number of bytes, raised to the next of 1, 2, 4, 8, 16.
fn raised(count: u8) -> u8
    ensures { result ≡ raised count }
{
    match count {
        0 | 1 => 1,
        2 => 2,
        3 | 4 => 4,
        5..=8 => 8,
        _ => 16,
    }
}

// The window that holds the bits `lo` to `hi - 1`.
fn window(lo: u8, hi: u8) -> Slot
    requires ordered { lo < hi }
    requires within { hi ≤ 128 }
    ensures { result ≡ window lo hi }
{
    let start = lo / 8;
    let width = raised((hi - 1) / 8 + 1 - start);
    Slot::Bits {
        first: start.min(16 - width),
        width,
    }
}

/// The slot of a position of this kind.
pub fn slot_for(kind: Kind) -> Slot
    requires { BitsFit kind }
    ensures { result ≡ slot_for kind }
{
    match kind {
        Kind::Bits { lo, hi } => window(lo, hi),
        other => Slot::One(other),
    }
}
