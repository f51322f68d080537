//! The first 19 digits of the exact value.

ghost use Rattle.std.specs.Prelude.{◌≡◌, ℕ, ◌+◌, ◌-◌, ◌*◌, ◌^◌, ◌<◌, ◌≤◌, length};
ghost use Rattle.std.specs.Float.Ieee.{ones, hid, low};
ghost use Rattle.core.specs.Dec2flt.Limbs.{value_below, limb_weight};
ghost use Rattle.defmt_floats.specs.Leading.{IsLeading, limb_count};
ghost use Rattle.defmt_floats.specs.Shortest.{tens, significand, exponent, numerator, denominator};

use crate::kind::Kind;
use crate::limbs::{is_less, multiply_add, set_to, subtract, times_two_to};
use crate::quick::quick;

// Ten to the power of 18, by which the first digit that isn't 0 is looked for.
const TEN_TO_18: u64 = 1_000_000_000_000_000_000;

// The next digit of `rest` over `by`. The new rest is what is left, ten times as large.
fn next_digit(rest: &mut [u64], by: &[u64]) -> u64
    requires same { length rest.old ≡ length by.now }
    requires room { value_below by.now (length by.now) * 10 ≤ limb_weight (length by.now) }
    requires less { value_below rest.old (length rest.old) < value_below by.now (length by.now) }
    ensures digit { result < 10 }
    ensures parts { value_below rest.old (length rest.old) * 10
        ≡ result * value_below by.now (length by.now) + value_below rest.new (length rest.new) }
    ensures less { value_below rest.new (length rest.new) < value_below by.now (length by.now) }
{
    multiply_add(rest, 10, 0);
    let mut digit = 0;
    while digit < 9 && !is_less(rest, by) {
        subtract(rest, by);
        digit += 1;
    }
    digit
}

// The digits of `rest` over `by` from the first that is not 0, and the place after them.
fn digits_of(rest: &mut [u64], by: &[u64], tenths: &[u64]) -> (u64, u64)
    requires same { (length rest.old ≡ length by.now) × (length tenths.now ≡ length by.now) }
    requires room { value_below by.now (length by.now) * 10 ≤ limb_weight (length by.now) }
    requires tenths { value_below tenths.now (length tenths.now) * 10 ^ 18
        ≡ value_below by.now (length by.now) }
    requires less { (0 < value_below rest.old (length rest.old))
        × (value_below rest.old (length rest.old) < value_below by.now (length by.now)) }
    requires far { 10 ^ 19 * value_below by.now (length by.now) ≤ 10 ^ 652 }
    ensures parts { value_below rest.old (length rest.old) * 10 ^ result.1
        ≡ result.0 * value_below by.now (length by.now) + value_below rest.new (length rest.new) }
    ensures less { value_below rest.new (length rest.new) < value_below by.now (length by.now) }
    ensures sizes { (10 ^ 18 ≤ result.0) × (result.0 < 10 ^ 19) }
{
    let mut digits = 0;
    let mut place = 0;
    while digits < TEN_TO_18 {
        if digits == 0 && is_less(rest, tenths) {
            multiply_add(rest, TEN_TO_18, 0);
            place += 18;
        } else {
            digits = digits * 10 + next_digit(rest, by);
            place += 1;
        }
    }
    (digits, place)
}

// The float is significand * 2 ^ exponent times the least float above 0.
fn decode<F: Kind>(bits: u64) -> (u64, u64)
    requires { bits < ones F.format * hid F.format }
    ensures significand { result.0 ≡ significand F.format bits }
    ensures exponent { result.1 ≡ exponent F.format bits }
{
    let hidden = 1 << (F::DIGITS - 1);
    if bits < hidden {
        (bits, 0)
    } else {
        (hidden + bits % hidden, bits / hidden - 1)
    }
}

// The leading digits by long division.
fn divide<F: Kind>(bits: u64, rest: &mut [u64], zero: &mut [u64]) -> (u64, u64, bool)
    requires bits { (0 < bits) × (bits < ones F.format * hid F.format) }
    requires same { (length rest.old ≡ limb_count F.format)
        × (length zero.old ≡ limb_count F.format) }
    ensures { IsLeading F.format bits result.0 result.1 result.2 }
{
    let (significand, exponent) = decode::<F>(bits);
    set_to(rest, significand);
    times_two_to(rest, exponent);
    let by = F::divisor();
    let tenths = F::small_divisor();
    let (digits, place) = digits_of(rest, by, tenths);
    set_to(zero, 0);
    (digits, place, is_less(zero, rest))
}

// The same, in room of its own. It stands apart, since it is rarely needed.
#[inline(never)]
fn divided<F: Kind>(bits: u64) -> (u64, u64, bool)
    requires { (0 < bits) × (bits < ones F.format * hid F.format) }
    ensures { IsLeading F.format bits result.0 result.1 result.2 }
{
    let mut rest = [0; 33];
    let mut zero = [0; 33];
    divide::<F>(bits, &mut rest[..F::LIMBS], &mut zero[..F::LIMBS])
}

// The leading digits of a float without its sign, the place of the last one, and whether more follow that aren't all 0.
pub(crate) fn leading<F: Kind>(bits: u64) -> (u64, u64, bool)
    requires { (0 < bits) × (bits < ones F.format * hid F.format) }
    ensures { IsLeading F.format bits result.0 result.1 result.2 }
{
    let (significand, exponent) = decode::<F>(bits);
    if let Some(found) = quick::<F>(bits, significand, exponent) {
        return found;
    }
    divided::<F>(bits)
}
