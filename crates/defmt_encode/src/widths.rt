//! How many bytes the numbers of a slot have.
ghost use Rattle.std.specs.Prelude.{◌≡◌, ◌≤◌, ◌/◌, ◌^◌};
ghost use Rattle.defmt_encode.specs.Carry.{size_bytes, uint_width, int_width, float_width, window_first};

use defmt_grammar::{FloatSize, IntSize, Kind, Slot};
use defmt_values::power;

/// How many bytes an integer of a size has. Native integers have four. Takes no memory.
#[inline(always)]
pub fn size_bytes(size: IntSize) -> u8
    ensures value { result ≡ size_bytes size }
    ensures small { result ≤ 16 }
{
    match size {
        IntSize::W8 => 1,
        IntSize::W16 => 2,
        IntSize::W32 | IntSize::Native => 4,
        IntSize::W64 => 8,
        IntSize::W128 => 16,
    }
}

pub(crate) fn uint_width(slot: Slot) -> u8
    ensures value { result ≡ uint_width slot }
    ensures small { result ≤ 16 }
{
    match slot {
        Slot::One(Kind::Uint(size)) => size_bytes(size),
        _ => 0,
    }
}

pub(crate) fn int_width(slot: Slot) -> u8
    ensures value { result ≡ int_width slot }
    ensures small { result ≤ 16 }
{
    match slot {
        Slot::One(Kind::Int(size)) => size_bytes(size),
        _ => 0,
    }
}

pub(crate) fn float_width(slot: Slot) -> u8
    ensures { result ≡ float_width slot }
{
    match slot {
        Slot::One(Kind::Float(FloatSize::W32)) => 4,
        Slot::One(Kind::Float(FloatSize::W64)) => 8,
        _ => 0,
    }
}

pub(crate) fn window_first(slot: Slot) -> u8
    ensures { result ≡ window_first slot }
{
    match slot {
        Slot::Bits { first, .. } => first,
        _ => 0,
    }
}

// A number without its lowest bytes.
pub(crate) fn shifted(n: u128, bytes: u8) -> u128
    ensures { result ≡ n / 256 ^ bytes }
{
    match power(u32::from(bytes)) {
        Some(p) => n / p,
        None => 0,
    }
}
