//! Numbers.

ghost use Rattle.std.specs.Prelude.{◌≡◌, ◌≤◌, ◌<◌, ◌+◌, ◌-◌, ◌^◌, ◌++◌, ℤ, codes, length, decimal, IfNone, IfSome};
ghost use Rattle.defmt_grammar.specs.Sizes.{size_bits, IsSigned};
ghost use Rattle.defmt_hints.specs.Printed.{decimal_text, signed_text, twos_complement, printed_int, printed_uint};
ghost use Rattle.defmt_hints.specs.Written.{Writes};

use crate::padded::{put_padded, put_padded_shown, put_padded_signed};
use crate::radix::{put_fraction, put_radix, put_wide_radix};
use crate::seconds::put_micros;
use crate::texts::put;
use crate::times::{put_clock, put_date};
use defmt_grammar::{Hint, IntSize};
use itoa::{Buffer, write_digits};

// The number of decimal digits.
fn digit_count(number: u64) -> usize
    ensures { result ≡ length (decimal number) }
{
    let mut count = 0;
    let mut rest = number;
    'digits: while rest >= 10_000 {
        rest = rest / 10_000;
        count += 4;
    }
    count + short_count(rest)
}

// The number of decimal digits of a number with at most four.
#[inline(always)]
fn short_count(number: u64) -> usize
    requires { number < 10000 }
    ensures { result ≡ length (decimal number) }
{
    if number < 10 {
        1
    } else if number < 100 {
        2
    } else if number < 1000 {
        3
    } else {
        4
    }
}

/// Writes a number of up to 64 bits in decimal. `None` exactly where its digits don't fit.
pub fn put_decimal(out: &mut [u8], at: usize, number: u64) -> Option<usize>
    requires { at ≤ length out.old }
    ensures { Writes result out.old at out.new (decimal_text number) }
{
    if number < 10 {
        return put(out, at, &[b'0' + number as u8]);
    }
    put_all_digits(out, at, number)
}

// The same, of any number. It stands apart, so that a single digit is written at once.
#[inline(never)]
fn put_all_digits(out: &mut [u8], at: usize, number: u64) -> Option<usize>
    requires { at ≤ length out.old }
    ensures { Writes result out.old at out.new (decimal_text number) }
{
    let count = digit_count(number);
    if out.len() - at < count {
        return None;
    }
    let end = at + count;
    write_digits(number, out, end);
    Some(end)
}

// Writes any number in decimal, above 64 bits too.
pub(crate) fn put_wide_decimal(out: &mut [u8], at: usize, number: u128) -> Option<usize>
    requires { at ≤ length out.old }
    ensures { Writes result out.old at out.new (decimal_text number) }
{
    if number <= u128::from(u64::MAX) {
        return put_decimal(out, at, number as u64);
    }
    let mut buffer = Buffer::new();
    put(out, at, buffer.format(number).as_bytes())
}

/// Writes a number of up to 64 bits under a display hint of the defmt book: in decimal, in the hint's base as Rust prints it, or
/// under `Micros` and `Millis` divided by 1,000,000 and 1,000, with six and three digits behind the point; under `Iso` as date and
/// time, under `Clock` as a clock's time, under `Pad` in decimal with zeros in front. `None` exactly where this doesn't fit.
pub fn put_uint(out: &mut [u8], at: usize, number: u64, hint: Hint) -> Option<usize>
    requires { at ≤ length out.old }
    ensures { Writes result out.old at out.new (printed_uint number hint) }
{
    match hint {
        Hint::Plain | Hint::Debug | Hint::Ascii => put_decimal(out, at, number),
        Hint::Radix { base, alt, width } => { put_radix(out, at, number, base, alt, width) }
        Hint::Micros => put_micros(out, at, number),
        Hint::Millis => put_fraction(out, at, u128::from(number), 1_000, 3),
        Hint::Iso(unit) => put_date(out, at, u128::from(number), unit),
        Hint::Clock(unit) => put_clock(out, at, u128::from(number), unit),
        Hint::Pad(width) => put_padded(out, at, u128::from(number), width),
    }
}

// Writes a number above 64 bits under a hint.
#[inline(never)]
fn put_great(out: &mut [u8], at: usize, number: u128, hint: Hint) -> Option<usize>
    requires { at ≤ length out.old }
    ensures { Writes result out.old at out.new (printed_uint number hint) }
{
    match hint {
        Hint::Plain | Hint::Debug | Hint::Ascii => put_wide_decimal(out, at, number),
        Hint::Radix { base, alt, width } => put_wide_radix(out, at, number, base, alt, width),
        Hint::Micros => put_fraction(out, at, number, 1_000_000, 6),
        Hint::Millis => put_fraction(out, at, number, 1_000, 3),
        Hint::Iso(unit) => put_date(out, at, number, unit),
        Hint::Clock(unit) => put_clock(out, at, number, unit),
        Hint::Pad(width) => put_padded(out, at, number, width),
    }
}

/// Writes a number of up to 128 bits as `put_uint` writes smaller ones. `None` exactly where this doesn't fit.
pub fn put_wide_uint(out: &mut [u8], at: usize, number: u128, hint: Hint) -> Option<usize>
    requires { at ≤ length out.old }
    ensures { Writes result out.old at out.new (printed_uint number hint) }
{
    if number <= u128::from(u64::MAX) {
        put_uint(out, at, number as u64, hint)
    } else {
        put_great(out, at, number, hint)
    }
}

// Writes the text of a negative number.
fn put_negative(out: &mut [u8], at: usize, magnitude: u128) -> Option<usize>
    requires { at ≤ length out.old }
    ensures { Writes result out.old at out.new (codes "-" ++ decimal_text magnitude) }
{
    let digits = put(out, at, b"-")?;
    put_wide_decimal(out, digits, magnitude)
}

// Writes a signed number in decimal.
fn put_signed(out: &mut [u8], at: usize, number: i128) -> Option<usize>
    requires { at ≤ length out.old }
    ensures { Writes result out.old at out.new (signed_text number) }
{
    let magnitude = number.unsigned_abs();
    if number < 0 {
        put_negative(out, at, magnitude)
    } else {
        put_wide_decimal(out, at, magnitude)
    }
}

// The greatest number of as many bits as the size has.
fn greatest(size: IntSize) -> u128
    ensures { result + 1 ≡ 2 ^ size_bits size }
{
    match size {
        IntSize::W8 => 0xff,
        IntSize::W16 => 0xffff,
        IntSize::W32 | IntSize::Native => 0xffff_ffff,
        IntSize::W64 => 0xffff_ffff_ffff_ffff,
        IntSize::W128 => 0xffff_ffff_ffff_ffff_ffff_ffff_ffff_ffff,
    }
}

// The two's complement of a number in its own size.
fn twos_complement(number: i128, size: IntSize) -> u128
    requires { IsSigned (size_bits size) number }
    ensures { result ≡ twos_complement (size_bits size) number }
{
    let magnitude = number.unsigned_abs();
    if number < 0 {
        greatest(size) - (magnitude - 1)
    } else {
        magnitude
    }
}

/// Writes a signed number, which lies in the size, under a display hint of the defmt book: in decimal, under `Pad` with zeros up to a
/// width, which counts the `-`, or under `Radix` its two's complement in the size's width, in the hint's base as Rust prints it.
/// `Native` has 32 bits. `None` exactly where this doesn't fit.
pub fn put_int(out: &mut [u8], at: usize, number: i128, size: IntSize, hint: Hint) -> Option<usize>
    requires place { at ≤ length out.old }
    requires sized { IsSigned (size_bits size) number }
    ensures { Writes result out.old at out.new (printed_int number size hint) }
{
    match hint {
        Hint::Radix { base, alt, width } => {
            put_wide_radix(out, at, twos_complement(number, size), base, alt, width)
        }
        Hint::Plain
        | Hint::Debug
        | Hint::Ascii
        | Hint::Micros
        | Hint::Millis
        | Hint::Iso(_)
        | Hint::Clock(_) => put_signed(out, at, number),
        Hint::Pad(width) => put_padded_signed(out, at, number, width),
    }
}

// Half of the numbers of a size of up to 64 bits: in two's complement those below it stand for themselves.
pub(crate) fn half_of(size: IntSize) -> Option<u64>
    ensures half { IfSome result (λ half. half ≡ 2 ^ (size_bits size - 1)) }
    ensures wide { IfNone result (size ≡ IntSize.W128) }
{
    match size {
        IntSize::W8 => Some(0x80),
        IntSize::W16 => Some(0x8000),
        IntSize::W32 | IntSize::Native => Some(0x8000_0000),
        IntSize::W64 => Some(0x8000_0000_0000_0000),
        IntSize::W128 => None,
    }
}

// Writes in decimal the signed number of a size whose two's complement this is.
fn put_shown(out: &mut [u8], at: usize, number: u64, size: IntSize) -> Option<usize>
    requires place { at ≤ length out.old }
    requires small { number < 2 ^ size_bits size }
    ensures { (z : ℤ) → IsSigned (size_bits size) z → twos_complement (size_bits size) z ≡ number
        → Writes result out.old at out.new (signed_text z) }
{
    let Some(half) = half_of(size) else {
        return put_decimal(out, at, number);
    };
    if number < half {
        return put_decimal(out, at, number);
    }
    let digits = put(out, at, b"-")?;
    put_decimal(out, digits, half - (number - half))
}

/// Writes, as `put_int` does, the signed number whose two's complement in the size this is: a number below 2 to the power of the
/// size's bits, as messages carry it. Each such number is the two's complement of one signed number, so the clause says what is
/// written of all. `None` exactly where the text doesn't fit.
pub fn put_complement(
    out: &mut [u8],
    at: usize,
    number: u64,
    size: IntSize,
    hint: Hint,
) -> Option<usize>
    requires place { at ≤ length out.old }
    requires small { number < 2 ^ size_bits size }
    ensures { (z : ℤ) → IsSigned (size_bits size) z → twos_complement (size_bits size) z ≡ number
        → Writes result out.old at out.new (printed_int z size hint) }
{
    match hint {
        Hint::Radix { base, alt, width } => { put_radix(out, at, number, base, alt, width) }
        Hint::Plain
        | Hint::Debug
        | Hint::Ascii
        | Hint::Micros
        | Hint::Millis
        | Hint::Iso(_)
        | Hint::Clock(_) => put_shown(out, at, number, size),
        Hint::Pad(width) => put_padded_shown(out, at, number, size, width),
    }
}
