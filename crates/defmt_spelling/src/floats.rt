//! Floats, from the texts that write them.
ghost use Rattle.std.specs.Prelude.{◌≡◌, ◌<◌, ◌^◌, ℕ};
ghost use Rattle.defmt_grammar.specs.Sizes.{float_bits};
ghost use Rattle.defmt_shapes.specs.Shape.{IsNumber};
ghost use Rattle.defmt_spelling.specs.Meaning.{nearest_bits, text_bits};

use defmt_grammar::FloatSize;
use fast_float::Numeral;
use std::num::{f32_to_bits_with_nan, f64_to_bits_with_nan};

/// The bits of the float nearest to the number of decimal digits, with this sign.
pub fn nearest_bits(size: FloatSize, negative: bool, digits: &str) -> u64
    ensures value { (n : ℕ) → IsNumber 10 digits.now n → result ≡ nearest_bits size negative n }
    ensures small { result < 2 ^ float_bits size }
{
    let numeral = Numeral::scan(digits.as_bytes());
    match size {
        FloatSize::W32 => {
            let float: f32 = numeral.to_float(negative);
            u64::from(f32_to_bits_with_nan(float))
        }
        FloatSize::W64 => {
            let float: f64 = numeral.to_float(negative);
            f64_to_bits_with_nan(float)
        }
    }
}

/// The bits of the float that a text writes, and those of NaN where it writes none.
pub fn text_bits(size: FloatSize, text: &str) -> u64
    ensures value { result ≡ text_bits size text.now }
    ensures small { result < 2 ^ float_bits size }
{
    match size {
        FloatSize::W32 => match fast_float::parse::<f32, _>(text.as_bytes()) {
            Ok(float) => u64::from(f32_to_bits_with_nan(float)),
            Err(_) => 0x7fc0_0000,
        },
        FloatSize::W64 => match fast_float::parse::<f64, _>(text.as_bytes()) {
            Ok(float) => f64_to_bits_with_nan(float),
            Err(_) => 0x7ff8_0000_0000_0000,
        },
    }
}
