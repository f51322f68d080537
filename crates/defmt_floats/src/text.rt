//! The text of a float of either size.

ghost use Rattle.std.specs.Prelude.{◌≡◌, ◌+◌, ◌*◌, ◌<◌, ◌≤◌, ◌++◌, length};
ghost use Rattle.std.specs.Fmt.{decimal};
ghost use Rattle.std.specs.Float.Ieee.{ones, hid, top};
ghost use Rattle.defmt_floats.specs.Shortest.{tens, most_digits};
ghost use Rattle.defmt_floats.specs.Layout.{laid_out, number_text, sign_text, magnitude_text, float_text};

use crate::kind::Kind;
use crate::layout::put_laid_out;
use crate::search::shortest;
use arrayvec::ArrayString;
use itoa::Buffer;

/// A float's text. The longest has 24 bytes, as `-2.2250738585072014e-308`.
pub type FloatText = ArrayString<24>;

// Appends the decimal at the place.
fn put_decimal<F: Kind>(text: &mut FloatText, number: u64, place: u64)
    requires sizes { length (decimal number) ≤ most_digits F.format }
    requires place { place ≤ tens F.format + 342 }
    requires room { length text.old.bytes ≤ 1 }
    ensures { text.new.bytes ≡ text.old.bytes ++ laid_out F.format (decimal number) place }
{
    let mut buffer = Buffer::new();
    put_laid_out::<F>(text, buffer.format(number), place);
}

// Appends a number without a sign.
fn put_number<F: Kind>(text: &mut FloatText, bits: u64)
    requires bits { (0 < bits) × (bits < ones F.format * hid F.format) }
    requires room { length text.old.bytes ≤ 1 }
    ensures { text.new.bytes ≡ text.old.bytes ++ number_text F.format bits }
{
    let (digits, place) = shortest::<F>(bits);
    if digits % 10 == 0 {
        put_decimal::<F>(text, digits / 10, place - 1);
    } else {
        put_decimal::<F>(text, digits, place);
    }
}

// The sign, where there is one.
fn sign_of<F: Kind>(bits: u64) -> FloatText
    ensures text { result.bytes ≡ sign_text F.format bits }
    ensures short { length result.bytes ≤ 1 }
{
    let mut text = FloatText::new();
    if bits >= F::SIGN_BIT {
        text.push_str("-");
    }
    text
}

// Appends the text of a float without a sign.
fn put_magnitude<F: Kind>(text: &mut FloatText, bits: u64)
    requires bits { bits ≤ ones F.format * hid F.format }
    requires room { length text.old.bytes ≤ 1 }
    ensures { text.new.bytes ≡ text.old.bytes ++ magnitude_text F.format bits }
{
    if bits == F::INFINITY_BITS {
        text.push_str("inf");
    } else if bits == 0 {
        text.push_str("0.0");
    } else {
        put_number::<F>(text, bits);
    }
}

// The text of the float with these bits.
pub(crate) fn text_of<F: Kind>(bits: u64) -> FloatText
    ensures { result.bytes ≡ float_text F.format bits }
{
    let magnitude = bits % F::SIGN_BIT;
    if magnitude > F::INFINITY_BITS {
        let mut text = FloatText::new();
        text.push_str("NaN");
        return text;
    }
    let mut text = sign_of::<F>(bits);
    put_magnitude::<F>(&mut text, magnitude);
    text
}
