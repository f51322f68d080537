//! Where the point of a decimal stands, and its exponent.

ghost use Rattle.std.specs.Prelude.{◌≡◌, ◌+◌, ◌-◌, ◌<◌, ◌≤◌, ◌++◌, codes, length, replicate, IsAscii};
ghost use Rattle.std.specs.Fmt.{decimal};
ghost use Rattle.defmt_floats.specs.Shortest.{tens, most_digits};
ghost use Rattle.defmt_floats.specs.Layout.{zeros, whole_digits, leading_zeros, pointed, others, scientific, laid_out};

use crate::kind::Kind;
use crate::text::FloatText;
use itoa::Buffer;

// As many zeros as are ever written.
const ZEROS: &str = "0000000000000000";

// Appends zeros.
fn put_zeros(text: &mut FloatText, count: usize)
    requires few { count ≤ 16 }
    requires room { length text.old.bytes + count ≤ 24 }
    ensures { text.new.bytes ≡ text.old.bytes ++ zeros count }
{
    text.push_str(&ZEROS[..count]);
}

// Appends digits with the point behind the first `before` of them.
fn put_pointed(text: &mut FloatText, digits: &str, before: usize)
    requires ascii { IsAscii digits.now }
    requires sizes { (length digits.now ≤ 17) × (before ≤ 16) }
    requires room { length text.old.bytes ≤ 1 }
    ensures { text.new.bytes ≡ text.old.bytes ++ pointed digits.now before }
{
    if before < digits.len() {
        text.push_str(&digits[..before]);
        text.push_str(".");
        text.push_str(&digits[before..]);
    } else {
        text.push_str(digits);
        put_zeros(text, before - digits.len());
        text.push_str(".0");
    }
}

// Appends zeros behind a point, and digits.
fn put_fraction(text: &mut FloatText, digits: &str, count: usize)
    requires room { length text.old.bytes + count + length digits.now ≤ 22 }
    requires few { count ≤ 16 }
    ensures { text.new.bytes ≡ text.old.bytes ++ (codes "0." ++ zeros count ++ digits.now) }
{
    text.push_str("0.");
    put_zeros(text, count);
    text.push_str(digits);
}

// Appends a point and the digits behind the first, where there are any.
fn put_others(text: &mut FloatText, digits: &str)
    requires ascii { IsAscii digits.now }
    requires room { length text.old.bytes + length digits.now ≤ 24 }
    ensures { text.new.bytes ≡ text.old.bytes ++ others digits.now }
{
    if digits.len() > 1 {
        text.push_str(".");
        text.push_str(&digits[1..]);
    }
}

// Appends an exponent.
fn put_exponent(text: &mut FloatText, sign: &str, power: u64)
    requires few { (length sign.now ≤ 1) × (power < 1000) }
    requires room { length text.old.bytes ≤ 20 }
    ensures { text.new.bytes ≡ text.old.bytes ++ (sign.now ++ decimal power) }
{
    let mut buffer = Buffer::new();
    text.push_str(sign);
    text.push_str(buffer.format(power));
}

// Appends digits and an exponent.
fn put_scientific(text: &mut FloatText, digits: &str, sign: &str, power: u64)
    requires ascii { IsAscii digits.now }
    requires some { (1 ≤ length digits.now) × (length digits.now ≤ 17) }
    requires few { (length sign.now ≤ 1) × (power < 1000) }
    requires room { length text.old.bytes ≤ 1 }
    ensures { text.new.bytes ≡ text.old.bytes ++ scientific digits.now (sign.now ++ decimal power) }
{
    text.push_str(&digits[..1]);
    put_others(text, digits);
    text.push_str("e");
    put_exponent(text, sign, power);
}

// Appends the digits, the last of which stands at the place.
pub(crate) fn put_laid_out<F: Kind>(text: &mut FloatText, digits: &str, place: u64)
    requires ascii { IsAscii digits.now }
    requires some { (1 ≤ length digits.now) × (length digits.now ≤ most_digits F.format) }
    requires place { place ≤ tens F.format + 342 }
    requires room { length text.old.bytes ≤ 1 }
    ensures { text.new.bytes ≡ text.old.bytes ++ laid_out F.format digits.now place }
{
    let end = digits.len() as u64 + F::TENS;
    if place < end {
        let before = end - place;
        if before <= F::WHOLE_DIGITS {
            put_pointed(text, digits, before as usize);
        } else {
            put_scientific(text, digits, "", before - 1);
        }
    } else {
        let behind = place - end;
        if behind <= F::LEADING_ZEROS {
            put_fraction(text, digits, behind as usize);
        } else {
            put_scientific(text, digits, "-", behind + 1);
        }
    }
}
