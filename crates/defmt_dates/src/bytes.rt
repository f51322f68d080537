//! Digits, and the text that they are put into.

ghost use Rattle.std.specs.Prelude.{◌≡◌, ◌+◌, ◌/◌, ◌%◌, ◌<◌, ◌≤◌, ◌++◌, length, decimal};
ghost use Rattle.defmt_dates.specs.Texts.{fraction};

use arrayvec::ArrayVec;
use itoa::Buffer;

/// The text of a date or a clock, in ASCII. The longest has a day of 34 digits, 15 bytes of a time and a `:`.
pub type TimeText = ArrayVec<u8, 50>;

// The quotient and the remainder of a division, in 64 bits wherever they hold the number.
#[inline(always)]
pub(crate) fn divided(number: u128, by: u64) -> (u128, u64)
    requires { 0 < by }
    ensures quotient { result.0 ≡ number / by }
    ensures remainder { result.1 ≡ number % by }
{
    if number <= u128::from(u64::MAX) {
        let low = number as u64;
        return (u128::from(low / by), low % by);
    }
    let wide = u128::from(by);
    (number / wide, (number % wide) as u64)
}

// Appends bytes.
pub(crate) fn put(text: &mut TimeText, bytes: &[u8])
    requires { length text.old.items + length bytes.now ≤ 50 }
    ensures { text.new.items ≡ text.old.items ++ bytes.now }
{
    let _fits = text.try_extend_from_slice(bytes);
}

// Appends a fraction, which mostly has none or four bytes: these are appended without a call.
pub(crate) fn put_fraction(text: &mut TimeText, fraction: &[u8])
    requires { length text.old.items + length fraction.now ≤ 50 }
    ensures { text.new.items ≡ text.old.items ++ fraction.now }
{
    match fraction {
        [] => {}
        [point, hundreds, tens, ones] => put(text, &[*point, *hundreds, *tens, *ones]),
        _ => put(text, fraction),
    }
}

// Appends a number in decimal.
pub(crate) fn put_decimal(text: &mut TimeText, number: u128)
    requires { length text.old.items + length (decimal number) ≤ 50 }
    ensures { text.new.items ≡ text.old.items ++ decimal number }
{
    let mut buffer = Buffer::new();
    put(text, buffer.format(number).as_bytes());
}

// The last digit of a number.
#[inline(always)]
pub(crate) fn digit(number: u64) -> u8
    ensures { result ≡ 48 + number % 10 }
{
    b'0' + (number % 10) as u8
}

// A point and three digits.
pub(crate) fn thousandths(number: u64) -> [u8; 4]
    ensures { result ≡ fraction 3 number }
{
    [b'.', digit(number / 100), digit(number / 10), digit(number)]
}

// A point and six digits.
pub(crate) fn millionths(number: u64) -> [u8; 7]
    ensures { result ≡ fraction 6 number }
{
    [
        b'.',
        digit(number / 100_000),
        digit(number / 10_000),
        digit(number / 1_000),
        digit(number / 100),
        digit(number / 10),
        digit(number),
    ]
}
