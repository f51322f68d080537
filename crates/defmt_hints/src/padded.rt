//! Numbers in decimal, filled with zeros up to a width. These functions stand apart from those that print without a width.

ghost use Rattle.std.specs.Prelude.{◌≡◌, ◌≤◌, ◌<◌, ◌-◌, ◌^◌, ◌++◌, ℤ, codes, length};
ghost use Rattle.defmt_grammar.specs.Sizes.{size_bits, IsSigned};
ghost use Rattle.defmt_hints.specs.Digits.{zero_filled};
ghost use Rattle.defmt_hints.specs.Printed.{decimal_text, padded_text, twos_complement};
ghost use Rattle.defmt_hints.specs.Written.{Writes};

use crate::numbers::half_of;
use crate::radix::put_digits;
use crate::texts::put;
use defmt_grammar::IntSize;

// Writes a number with zeros in front up to a width.
#[inline(never)]
pub(crate) fn put_padded(out: &mut [u8], at: usize, number: u128, width: u8) -> Option<usize>
    requires { at ≤ length out.old }
    ensures { Writes result out.old at out.new (zero_filled width (decimal_text number)) }
{
    put_digits(out, at, number, 10, false, width)
}

// The same of a negative number, whose sign counts.
fn put_padded_negative(out: &mut [u8], at: usize, magnitude: u128, width: u8) -> Option<usize>
    requires { at ≤ length out.old }
    ensures { Writes result out.old at out.new
        (codes "-" ++ zero_filled (width - 1) (decimal_text magnitude)) }
{
    let digits = put(out, at, b"-")?;
    put_padded(out, digits, magnitude, width.saturating_sub(1))
}

// Writes a signed number.
#[inline(never)]
pub(crate) fn put_padded_signed(out: &mut [u8], at: usize, number: i128, width: u8) -> Option<usize>
    requires { at ≤ length out.old }
    ensures { Writes result out.old at out.new (padded_text width number) }
{
    let magnitude = number.unsigned_abs();
    if number < 0 {
        put_padded_negative(out, at, magnitude, width)
    } else {
        put_padded(out, at, magnitude, width)
    }
}

// Writes the signed number of a size whose two's complement this is.
#[inline(never)]
pub(crate) fn put_padded_shown(
    out: &mut [u8],
    at: usize,
    number: u64,
    size: IntSize,
    width: u8,
) -> Option<usize>
    requires place { at ≤ length out.old }
    requires small { number < 2 ^ size_bits size }
    ensures { (z : ℤ) → IsSigned (size_bits size) z → twos_complement (size_bits size) z ≡ number
        → Writes result out.old at out.new (padded_text width z) }
{
    let Some(half) = half_of(size) else {
        return put_padded(out, at, u128::from(number), width);
    };
    if number < half {
        return put_padded(out, at, u128::from(number), width);
    }
    put_padded_negative(out, at, u128::from(half - (number - half)), width)
}
