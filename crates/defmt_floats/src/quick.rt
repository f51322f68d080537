//! The first 19 digits by one product with a power of ten of 128 bits, where what is cut off of the power can't change them, or by one
//! quotient.

ghost use Rattle.std.specs.Prelude.{◌≡◌, ℕ, ◌+◌, ◌-◌, ◌*◌, ◌/◌, ◌%◌, ◌^◌, ◌<◌, ◌≤◌, IfSome, IsTrue, nat_lt};
ghost use Rattle.defmt_floats.specs.Leading.{IsLeading};
ghost use Rattle.defmt_floats.specs.Product.{IsFixed};
ghost use Rattle.defmt_floats.specs.Shortest.{tens, significand, exponent};

use crate::kind::Kind;
use crate::whole::whole_digits;
use fast_float::power_of_ten;

// The table's first power is 10 ^ -342.
const POWER_BIAS: u64 = 342;

const LOW_WORD: u128 = 0xffff_ffff_ffff_ffff;

const TEN_TO_18: u128 = 1_000_000_000_000_000_000;

// A product lacks less than so many units of its last bit, for what was cut off of it and of the power.
const LACK: u128 = 2;

// A product without its lowest 64 bits, and whether these are 0.
fn product(number: u64, power: u128) -> (u128, bool)
    ensures from { result.0 * 2 ^ 64 ≤ number * power }
    ensures below { number * power < (result.0 + 1) * 2 ^ 64 }
    ensures same { IsTrue result.1 → number * power ≡ result.0 * 2 ^ 64 }
{
    let upper = u128::from(number) * (power >> 64);
    let lower = u128::from(number) * (power & LOW_WORD);
    (upper + (lower >> 64), lower & LOW_WORD == 0)
}

// The whole part of a number in fixed point, if it has 19 digits, and whether something follows it: where both are certain.
fn whole_part(upper: u128, shift: u64, exact: bool) -> Option<(u64, bool)>
    requires { shift < 128 }
    ensures sizes { IfSome result (λ d. (10 ^ 18 ≤ d.0) × (d.0 < 10 ^ 19)) }
    ensures are { IfSome result (λ d. (num den : ℕ) → 0 < den → IsFixed num den upper shift exact
        → (d.0 ≡ num / den) × (d.1 ≡ nat_lt 0 (num % den))) }
{
    let whole = upper >> shift;
    if whole < TEN_TO_18 || whole >= 10 * TEN_TO_18 {
        return None;
    }
    let unit = 1 << shift;
    let rest = upper & (unit - 1);
    if rest == 0 && exact {
        return Some((whole as u64, false));
    }
    if rest == 0 || unit - rest < LACK {
        return None;
    }
    Some((whole as u64, true))
}

// The digits of a float up to the place, where a product tells them. The float is number * 2 ^ power times the least one.
fn product_digits<F: Kind>(bits: u64, number: u64, power: u64, place: u64) -> Option<(u64, bool)>
    requires parts { (number ≡ significand F.format bits) × (power ≡ exponent F.format bits) }
    requires small { (0 < number) × (number < 2 ^ 53) × (power < 4000) }
    requires place { (19 ≤ place) × (place < tens F.format + 326) }
    ensures { IfSome result (λ d. IsLeading F.format bits d.0 place d.1) }
{
    // The row of 10 ^ (place - TENS) is this power over 2 ^ (scale - 1266), cut off.
    let row = place + POWER_BIAS - F::TENS;
    let scale = (row * 217_706 + 58_980) / 65_536 + 2;
    let above = F::LOWEST + 1213;
    let below = power + scale;
    if above < below {
        return None;
    }
    let shift = above - below;
    if shift >= 128 {
        return None;
    }
    let (upper, clear) = product(number << 11, power_of_ten(row));
    whole_part(upper, shift, clear & (row >= POWER_BIAS) & (scale <= 1266))
}

// The same, where a product tells them or a quotient.
fn digits_up_to<F: Kind>(bits: u64, number: u64, power: u64, place: u64) -> Option<(u64, bool)>
    requires parts { (number ≡ significand F.format bits) × (power ≡ exponent F.format bits) }
    requires small { (0 < number) × (number < 2 ^ 53) × (power < 4000) }
    requires place { (19 ≤ place) × (place < tens F.format + 326) }
    ensures { IfSome result (λ d. IsLeading F.format bits d.0 place d.1) }
{
    if let Some(found) = whole_digits::<F>(bits, number, power, place) {
        return Some(found);
    }
    product_digits::<F>(bits, number, power, place)
}

// A place up to which a float has 19 digits or 20, if it is normal and not among the least. Over 2 ^ 20, 315_653 is log10(2), and
// 726_885 a little less than 324 - 1074 * log10(2).
fn likely_place<F: Kind>(power: u64) -> u64
    requires { power < 4000 }
    ensures { (20 ≤ result) × (result < tens F.format + 326) }
{
    let binary = power + F::DIGITS + 1073 - F::LOWEST;
    let decimal = (binary * 315_653 + 726_885) >> 20;
    (F::TENS + 342)
        .saturating_sub(decimal)
        .max(20)
        .min(F::TENS + 325)
}

// The leading digits, the place of the last one and whether more follow, where a product tells them.
pub(crate) fn quick<F: Kind>(bits: u64, number: u64, power: u64) -> Option<(u64, u64, bool)>
    requires parts { (number ≡ significand F.format bits) × (power ≡ exponent F.format bits) }
    requires small { (0 < number) × (number < 2 ^ 53) × (power < 4000) }
    ensures { IfSome result (λ d. IsLeading F.format bits d.0 d.1 d.2) }
{
    let place = likely_place::<F>(power);
    if let Some((digits, more)) = digits_up_to::<F>(bits, number, power, place) {
        return Some((digits, place, more));
    }
    let (digits, more) = digits_up_to::<F>(bits, number, power, place - 1)?;
    Some((digits, place - 1, more))
}
