//! How many bits and bytes numbers have, and which.
ghost use Rattle.std.specs.Prelude.{◌≡◌, ◌==◌, ◌-◌, ◌/◌, ◌%◌, nat_lt, ◌<◌, ◌≤◌, ◌^◌, MatchOption};
ghost use Rattle.defmt_grammar.specs.Sizes.{size_bits, float_bits, is_signed};

use defmt_grammar::{FloatSize, IntSize};

/// How many bits an integer of a size has. Native integers have 32. Takes no memory.
pub fn size_bits(size: IntSize) -> u32
    ensures value { result ≡ size_bits size }
    ensures some { 0 < result }
    ensures bound { result ≤ 128 }
{
    match size {
        IntSize::W8 => 8,
        IntSize::W16 => 16,
        IntSize::W32 | IntSize::Native => 32,
        IntSize::W64 => 64,
        IntSize::W128 => 128,
    }
}

/// How many bits a float of a size has (IEEE 754). Takes no memory.
pub fn float_bits(size: FloatSize) -> u32
    ensures { result ≡ float_bits size }
{
    match size {
        FloatSize::W32 => 32,
        FloatSize::W64 => 64,
    }
}

/// Whether a number has at most so many bits. Takes no memory.
pub fn is_of_bits(n: u128, bits: u32) -> bool
    ensures { result ≡ nat_lt n (2 ^ bits) }
{
    if bits < 128 { n < 1u128 << bits } else { true }
}

/// Whether a signed number has at most so many bits, in two's complement. Takes no memory.
pub fn is_signed(n: i128, bits: u32) -> bool
    requires { (0 < bits) × (bits ≤ 128) }
    ensures { result ≡ is_signed bits n }
{
    let magnitude = if n < 0 { (-(n + 1)) as u128 } else { n as u128 };
    is_of_bits(magnitude, bits - 1)
}

/// 256 to this power, where it has at most 128 bits. Takes no memory.
pub fn power(bytes: u32) -> Option<u128>
    ensures { MatchOption result (16 ≤ bytes) (λ p. (p ≡ 256 ^ bytes) × (0 < p)) }
{
    if bytes < 16 {
        Some(256u128.pow(bytes))
    } else {
        None
    }
}

/// Whether a number has at most so many bytes. Takes no memory.
pub fn is_below(n: u128, bytes: u32) -> bool
    ensures { result ≡ nat_lt n (256 ^ bytes) }
{
    match power(bytes) {
        Some(p) => n < p,
        None => true,
    }
}

/// Whether the lowest bytes of a number, so many, are zero. Takes no memory.
pub fn is_multiple(n: u128, bytes: u32) -> bool
    ensures { result ≡ (n % 256 ^ bytes == 0) }
{
    match power(bytes) {
        Some(p) => n % p == 0,
        None => n == 0,
    }
}

// A number without its lowest bits.
fn without_low(n: u128, bits: u8) -> u128
    ensures { result ≡ n / 2 ^ bits }
{
    if bits < 128 { n >> bits } else { 0 }
}

// The lowest bits of a number.
fn low(n: u128, bits: u8) -> u128
    ensures { result ≡ n % 2 ^ bits }
{
    if bits < 128 { n % (1u128 << bits) } else { n }
}

/// The bits of a number from this one on, up to that one, as a number: none where that one is no higher. Takes no memory.
pub fn bits_between(n: u128, lo: u8, hi: u8) -> u128
    ensures { result ≡ n / 2 ^ lo % 2 ^ (hi - lo) }
{
    low(without_low(n, lo), hi.saturating_sub(lo))
}
