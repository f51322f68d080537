//! The two sizes of floats.

ghost use Rattle.std.specs.Prelude.{◌≡◌, ◌*◌, ◌^◌, ℕ, length, refl};
ghost use Rattle.std.specs.Float.Ieee.{top};
ghost use Rattle.core.specs.Dec2flt.Limbs.{value_below};
ghost use Rattle.defmt_floats.specs.Shortest.{tens, most_digits, denominator};
ghost use Rattle.defmt_floats.specs.Leading.{limb_count};
ghost use Rattle.defmt_floats.specs.Layout.{whole_digits, leading_zeros};

use crate::powers::{DENOMINATOR_32, DENOMINATOR_64, TENTHS_32, TENTHS_64};

// What the text of a float depends on beside its bits.
pub(crate) trait Kind: fast_float::FastFloat {
    // Each finite float is below 10 ^ TENS.
    const TENS: u64;

    // The most digits that are tried.
    const MOST_DIGITS: u64;

    // So many limbs hold the numbers of the long division.
    const LIMBS: usize;

    // The weight of the sign.
    const SIGN_BIT: u64;

    // The most digits in front of the point without an exponent.
    const WHOLE_DIGITS: u64;

    // The most zeros between the point and the first digit without an exponent.
    const LEADING_ZEROS: u64;

    ghost TENS: { ℕ };

    ghost MOST_DIGITS: { ℕ };

    ghost LIMBS: { ℕ };

    ghost SIGN_BIT: { ℕ };

    ghost WHOLE_DIGITS: { ℕ };

    ghost LEADING_ZEROS: { ℕ };

    // What the long division divides by.
    fn divisor() -> &'static [u64]
        ensures long { length result.now ≡ limb_count Self.format }
        ensures value { value_below result.now (length result.now) ≡ denominator Self.format };

    // The same over 10 ^ 18.
    fn small_divisor() -> &'static [u64]
        ensures long { length result.now ≡ limb_count Self.format }
        ensures value { value_below result.now (length result.now) * 10 ^ 18
            ≡ denominator Self.format };

    ghost tens_is: { TENS ≡ tens Self.format };

    ghost most_is: { MOST_DIGITS ≡ most_digits Self.format };

    ghost limbs_is: { LIMBS ≡ limb_count Self.format };

    ghost sign_is: { SIGN_BIT ≡ top Self.format };

    ghost whole_is: { WHOLE_DIGITS ≡ whole_digits Self.format };

    ghost zeros_is: { LEADING_ZEROS ≡ leading_zeros Self.format };
}

impl Kind for f32 {
    const TENS: u64 = 39;

    const MOST_DIGITS: u64 = 9;

    const LIMBS: usize = 5;

    const SIGN_BIT: u64 = 0x8000_0000;

    const WHOLE_DIGITS: u64 = 13;

    const LEADING_ZEROS: u64 = 5;

    ghost TENS = { 39 };

    ghost MOST_DIGITS = { 9 };

    ghost LIMBS = { 5 };

    ghost SIGN_BIT = { 0x8000_0000 };

    ghost WHOLE_DIGITS = { 13 };

    ghost LEADING_ZEROS = { 5 };

    ghost tens_is = { refl };

    ghost most_is = { refl };

    ghost limbs_is = { refl };

    ghost sign_is = { refl };

    ghost whole_is = { refl };

    ghost zeros_is = { refl };

    fn divisor() -> &'static [u64] {
        &DENOMINATOR_32
    }

    fn small_divisor() -> &'static [u64] {
        &TENTHS_32
    }
}

impl Kind for f64 {
    const TENS: u64 = 309;

    const MOST_DIGITS: u64 = 17;

    const LIMBS: usize = 33;

    const SIGN_BIT: u64 = 0x8000_0000_0000_0000;

    const WHOLE_DIGITS: u64 = 16;

    const LEADING_ZEROS: u64 = 4;

    ghost TENS = { 309 };

    ghost MOST_DIGITS = { 17 };

    ghost LIMBS = { 33 };

    ghost SIGN_BIT = { 0x8000_0000_0000_0000 };

    ghost WHOLE_DIGITS = { 16 };

    ghost LEADING_ZEROS = { 4 };

    ghost tens_is = { refl };

    ghost most_is = { refl };

    ghost limbs_is = { refl };

    ghost sign_is = { refl };

    ghost whole_is = { refl };

    ghost zeros_is = { refl };

    fn divisor() -> &'static [u64] {
        &DENOMINATOR_64
    }

    fn small_divisor() -> &'static [u64] {
        &TENTHS_64
    }
}
