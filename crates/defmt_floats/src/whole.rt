//! The first 19 digits of floats that are whole numbers.

ghost use Rattle.std.specs.Prelude.{◌≡◌, ◌*◌, ◌/◌, ◌%◌, ◌^◌, ◌<◌, ◌≤◌, IfSome, nat_lt};
ghost use Rattle.defmt_floats.specs.Leading.{IsLeading};
ghost use Rattle.defmt_floats.specs.Shortest.{significand, exponent};

use crate::kind::Kind;

const TEN_TO_18: u128 = 1_000_000_000_000_000_000;

// A whole number over a unit, if this has 19 digits, and whether something is cut off.
fn cut_off(whole: u128, unit: u64) -> Option<(u64, bool)>
    requires { 0 < unit }
    ensures sizes { IfSome result (λ d. (10 ^ 18 ≤ d.0) × (d.0 < 10 ^ 19)) }
    ensures are { IfSome result (λ d. (d.0 ≡ whole / unit) × (d.1 ≡ nat_lt 0 (whole % unit))) }
{
    let unit = u128::from(unit);
    let digits = whole / unit;
    if digits < TEN_TO_18 || digits >= 10 * TEN_TO_18 {
        return None;
    }
    Some((digits as u64, whole % unit > 0))
}

// The digits of a float up to the place, where it is a whole number below 2 ^ 128, and the place at most 19 in front of the ones. The
// float is number * 2 ^ power times the least one.
pub(crate) fn whole_digits<F: Kind>(
    bits: u64,
    number: u64,
    power: u64,
    place: u64,
) -> Option<(u64, bool)>
    requires parts { (number ≡ significand F.format bits) × (power ≡ exponent F.format bits) }
    requires small { number < 2 ^ 53 }
    requires place { 19 ≤ place }
    ensures { IfSome result (λ d. IsLeading F.format bits d.0 place d.1) }
{
    let lowest = F::LOWEST;
    let tens = F::TENS;
    if power < lowest || tens < place {
        return None;
    }
    let shift = power - lowest;
    let less = tens - place;
    if shift > 75 || less > 19 {
        return None;
    }
    cut_off(u128::from(number) << shift, 10u64.pow(less as u32))
}
