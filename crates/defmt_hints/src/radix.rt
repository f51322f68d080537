//! Numbers in a base, written at a place.

ghost use Rattle.std.specs.Prelude.{◌≡◌, ◌≤◌, ◌<◌, ◌/◌, ◌%◌, ◌^◌, length};
ghost use Rattle.std.specs.Fmt.{digit_glyph};
ghost use Rattle.std.specs.Int.Digits.{digits_of};
ghost use Rattle.defmt_hints.specs.Digits.{number_text, zero_filled};
ghost use Rattle.defmt_hints.specs.Printed.{base_number, base_prefix, is_upper, prefix_text, radix_text, fraction_text};
ghost use Rattle.defmt_hints.specs.Written.{Writes};

use crate::numbers::put_wide_decimal;
use crate::texts::put;
use defmt_grammar::Base;
use itoa::write_digits;

static LOWER: [u8; 16] = *b"0123456789abcdef";

static UPPER: [u8; 16] = *b"0123456789ABCDEF";

// The character of a digit below 16.
pub(crate) fn glyph(digit: u8, upper: bool) -> u8
    requires { digit < 16 }
    ensures { result ≡ digit_glyph upper digit }
{
    let place = digit as usize;
    if upper { UPPER[place] } else { LOWER[place] }
}

// The number of digits, none of 0.
#[inline(always)]
fn count_in(number: u128, base: u64) -> usize
    requires least { 2 ≤ base }
    ensures count { result ≡ length (digits_of base number) }
    ensures few { result ≤ 128 }
{
    let mut count = 0;
    let mut wide = number;
    let by = u128::from(base);
    'wide: while wide > u128::from(u64::MAX) {
        wide = wide / by;
        count += 1;
    }
    let mut rest = wide as u64;
    'digits: while rest != 0 {
        rest = rest / base;
        count += 1;
    }
    count
}

// Writes the digits, with zeros in front up to a width. It is compiled for each base.
#[inline(always)]
pub(crate) fn put_digits(
    out: &mut [u8],
    at: usize,
    number: u128,
    base: u64,
    upper: bool,
    width: u8,
) -> Option<usize>
    requires place { at ≤ length out.old }
    requires least { 2 ≤ base }
    requires most { base ≤ 16 }
    ensures { Writes result out.old at out.new
        (zero_filled width (number_text base upper number)) }
{
    let long = count_in(number, base).max(usize::from(width.max(1)));
    if out.len() - at < long {
        return None;
    }
    let end = at + long;
    let mut place = end;
    let mut wide = number;
    let by = u128::from(base);
    'wide: while wide > u128::from(u64::MAX) {
        place -= 1;
        out[place] = glyph((wide % by) as u8, upper);
        wide = wide / by;
    }
    let mut rest = wide as u64;
    'digits: while place > at {
        place -= 1;
        out[place] = glyph((rest % base) as u8, upper);
        rest = rest / base;
    }
    Some(end)
}

fn prefix_of(base: Base) -> &'static str
    ensures text { result.now ≡ base_prefix base }
    ensures short { length result.now ≤ 2 }
{
    match base {
        Base::Hex | Base::HexUpper => "0x",
        Base::Binary => "0b",
        Base::Octal => "0o",
    }
}

// Writes a byte in two hexadecimal digits.
fn put_pair(out: &mut [u8], at: usize, byte: u8, upper: bool) -> Option<usize>
    requires { at ≤ length out.old }
    ensures { Writes result out.old at out.new (zero_filled 2 (number_text 16 upper byte)) }
{
    let pair = [glyph(byte / 16, upper), glyph(byte % 16, upper)];
    put(out, at, &pair)
}

// Writes the digits in base 16, with zeros in front up to a width.
fn put_hex(out: &mut [u8], at: usize, number: u64, upper: bool, width: u8) -> Option<usize>
    requires { at ≤ length out.old }
    ensures { Writes result out.old at out.new
        (zero_filled width (number_text 16 upper number)) }
{
    if width == 2 && number < 256 {
        put_pair(out, at, number as u8, upper)
    } else {
        put_digits(out, at, u128::from(number), 16, upper, width)
    }
}

// Writes the digits in a hint's base, with zeros in front up to a width.
#[inline(never)]
fn put_in_base(out: &mut [u8], at: usize, number: u64, base: Base, width: u8) -> Option<usize>
    requires { at ≤ length out.old }
    ensures { Writes result out.old at out.new
        (zero_filled width (number_text (base_number base) (is_upper base) number)) }
{
    match base {
        Base::Hex => put_hex(out, at, number, false, width),
        Base::HexUpper => put_hex(out, at, number, true, width),
        Base::Binary => put_digits(out, at, u128::from(number), 2, false, width),
        Base::Octal => put_digits(out, at, u128::from(number), 8, false, width),
    }
}

// Writes a number of up to 64 bits in a hint's base.
pub(crate) fn put_radix(
    out: &mut [u8],
    at: usize,
    number: u64,
    base: Base,
    alt: bool,
    width: u8,
) -> Option<usize>
    requires { at ≤ length out.old }
    ensures { Writes result out.old at out.new (radix_text base alt width number) }
{
    if !alt {
        return put_in_base(out, at, number, base, width);
    }
    let prefix = prefix_of(base);
    let middle = put(out, at, prefix.as_bytes())?;
    let zeros_and_digits = width.saturating_sub(prefix.len() as u8);
    put_in_base(out, middle, number, base, zeros_and_digits)
}

fn prefix_text(base: Base, alt: bool) -> &'static str
    ensures text { result.now ≡ prefix_text base alt }
    ensures short { length result.now ≤ 2 }
{
    if alt { prefix_of(base) } else { "" }
}

fn is_upper(base: Base) -> bool
    ensures { result ≡ is_upper base }
{
    matches!(base, Base::HexUpper)
}

fn base_number(base: Base) -> u64
    ensures { result ≡ base_number base }
{
    match base {
        Base::Hex | Base::HexUpper => 16,
        Base::Binary => 2,
        Base::Octal => 8,
    }
}

// Writes any number in a hint's base. It is one code for all bases, so that those of up to 64 bits have one for each.
#[inline(never)]
fn put_great_radix(
    out: &mut [u8],
    at: usize,
    number: u128,
    base: Base,
    alt: bool,
    width: u8,
) -> Option<usize>
    requires { at ≤ length out.old }
    ensures { Writes result out.old at out.new (radix_text base alt width number) }
{
    let prefix = prefix_text(base, alt);
    let middle = put(out, at, prefix.as_bytes())?;
    let places = width.saturating_sub(prefix.len() as u8);
    put_digits(
        out,
        middle,
        number,
        base_number(base),
        is_upper(base),
        places,
    )
}

// Writes a number in a hint's base.
pub(crate) fn put_wide_radix(
    out: &mut [u8],
    at: usize,
    number: u128,
    base: Base,
    alt: bool,
    width: u8,
) -> Option<usize>
    requires { at ≤ length out.old }
    ensures { Writes result out.old at out.new (radix_text base alt width number) }
{
    if number <= u128::from(u64::MAX) {
        put_radix(out, at, number as u64, base, alt, width)
    } else {
        put_great_radix(out, at, number, base, alt, width)
    }
}

// The quotient and the remainder of a division, in 64 bits wherever they hold the number.
#[inline(always)]
fn divided(number: u128, by: u64) -> (u128, u64)
    requires { 0 < by }
    ensures quotient { result.0 ≡ number / by }
    ensures remainder { result.1 ≡ number % by }
{
    if number <= u128::from(u64::MAX) {
        let low = number as u64;
        return (u128::from(low / by), low % by);
    }
    let wide = u128::from(by);
    (number / wide, (number % wide) as u64)
}

// Writes a number divided by a unit, with as many digits behind the point as the unit has zeros. It stands apart, so that the
// numbers that most texts have are written without it.
#[inline(never)]
pub(crate) fn put_fraction(
    out: &mut [u8],
    at: usize,
    number: u128,
    unit: u64,
    places: u8,
) -> Option<usize>
    requires place { at ≤ length out.old }
    requires some { 0 < places }
    requires unit { unit ≡ 10 ^ places }
    requires small { unit ≤ 1000000 }
    ensures { Writes result out.old at out.new (fraction_text unit places number) }
{
    let (whole, parts) = divided(number, unit);
    let point = put_wide_decimal(out, at, whole)?;
    let count = usize::from(places) + 1;
    if out.len() - point < count {
        return None;
    }
    let end = point + count;
    // The digits of this sum are a one, where the point is to stand, and behind it those of the parts with their zeros.
    write_digits(unit + parts, out, end);
    out[point] = b'.';
    Some(end)
}
