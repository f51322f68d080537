//! The fewest digits that read back, from the first 19 of the exact value.

ghost use Rattle.std.specs.Prelude.{◌≡◌, ◌+◌, ◌-◌, ◌*◌, ◌^◌, ◌<◌, ◌≤◌};
ghost use Rattle.std.specs.Float.Ieee.{ones, hid};
ghost use Rattle.defmt_floats.specs.Leading.{IsLeading};
ghost use Rattle.defmt_floats.specs.Shortest.{tens, most_digits, below, reads_back, is_found, last_place, is_above_nearer, digits};

use crate::kind::Kind;
use crate::leading::leading;
use fast_float::nearest_bits;

// The leading digits.
const LEADING: u64 = 19;

// The parser counts its powers of ten from 10 ^ -342.
const POWER_BIAS: u64 = 342;

// Whether the decimal reads as the float.
fn is_read_as<F: Kind>(bits: u64, decimal: u64, place: u64) -> bool
    requires digits { 0 < decimal }
    requires place { (0 < place) × (place ≤ tens F.format + 342) }
    ensures { result ≡ reads_back F.format bits decimal place }
{
    nearest_bits::<F>(decimal, F::TENS + POWER_BIAS - place) == bits
}

// Whether one of the two decimals at the place reads as the float.
fn is_one_found<F: Kind>(bits: u64, decimal: u64, place: u64) -> bool
    requires digits { (0 < decimal) × (decimal < 10 ^ 18) }
    requires place { (0 < place) × (place ≤ tens F.format + 342) }
    requires next_below { decimal ≡ below F.format bits place }
    ensures { result ≡ is_found F.format bits place }
{
    is_read_as::<F>(bits, decimal, place) || is_read_as::<F>(bits, decimal + 1, place)
}

// How many of the leading digits are cut off, and ten to that power.
fn cut<F: Kind>(bits: u64, leading: u64, place: u64, more: bool) -> (u64, u64)
    requires { IsLeading F.format bits leading place more }
    ensures unit { result.1 ≡ 10 ^ result.0 }
    ensures sizes { (19 - most_digits F.format ≤ result.0) × (result.0 ≤ 18) }
    ensures same { place - result.0 ≡ last_place F.format bits }
{
    let mut cut = LEADING - 1;
    let mut unit = 1_000_000_000_000_000_000;
    while cut > LEADING - F::MOST_DIGITS && !is_one_found::<F>(bits, leading / unit, place - cut) {
        cut -= 1;
        unit /= 10;
    }
    (cut, unit)
}

// Whether the decimal above is nearer to the float, or as near and even.
fn is_above_nearer<F: Kind>(
    bits: u64,
    leading: u64,
    place: u64,
    more: bool,
    cut: u64,
    unit: u64,
) -> bool
    requires lead { IsLeading F.format bits leading place more }
    requires sizes { (2 ≤ cut) × (cut ≤ 18) }
    requires unit { unit ≡ 10 ^ cut }
    ensures { result ≡ is_above_nearer F.format bits (place - cut) }
{
    let rest = leading % unit;
    let half = unit / 2;
    (half < rest) | ((rest == half) & (more | (leading / unit % 2 == 1)))
}

// The digits, and the place of the last one, from the leading digits.
fn chosen<F: Kind>(bits: u64, leading: u64, place: u64, more: bool) -> (u64, u64)
    requires { IsLeading F.format bits leading place more }
    ensures digits { result.0 ≡ digits F.format bits }
    ensures place { result.1 ≡ last_place F.format bits }
    ensures few { (0 < result.0) × (result.0 ≤ 10 ^ most_digits F.format) }
    ensures range { (0 < result.1) × (result.1 ≤ tens F.format + 342) }
{
    let (cut, unit) = cut::<F>(bits, leading, place, more);
    let at = place - cut;
    let decimal = leading / unit;
    if !is_read_as::<F>(bits, decimal, at) {
        return (decimal + 1, at);
    }
    if is_read_as::<F>(bits, decimal + 1, at)
        && is_above_nearer::<F>(bits, leading, place, more, cut, unit)
    {
        (decimal + 1, at)
    } else {
        (decimal, at)
    }
}

// The digits of a float without its sign, and the place of the last one.
pub(crate) fn shortest<F: Kind>(bits: u64) -> (u64, u64)
    requires { (0 < bits) × (bits < ones F.format * hid F.format) }
    ensures digits { result.0 ≡ digits F.format bits }
    ensures place { result.1 ≡ last_place F.format bits }
    ensures few { (0 < result.0) × (result.0 ≤ 10 ^ most_digits F.format) }
    ensures range { (0 < result.1) × (result.1 ≤ tens F.format + 342) }
{
    let (digits, place, more) = leading::<F>(bits);
    chosen::<F>(bits, digits, place, more)
}
