//! Floats as text: the shortest decimal that reads back as the same float (IEEE 754), laid out as the crate ryu does.
//!
//! So the `f32` with the bits `3dcccccd` is `0.1`, and the `f64` with the bits `444b1ae4d6e2ef50` is `1e21` (number_tests, `floats`).
#![tactic(auto)]

ghost use Rattle.std.specs.Prelude.{◌≡◌};
ghost use Rattle.std.specs.Float.Ieee.{binary32, binary64};
ghost use Rattle.defmt_floats.specs.Layout.{float_text};

mod kind;
mod laws;
mod layout;
mod leading;
mod limbs;
mod powers;
mod quick;
mod search;
mod text;
mod whole;

pub use laws::digits_read_back;
pub use text::FloatText;

/// The text of the `f32` with these bits.
pub fn f32_text(bits: u32) -> FloatText
    ensures { result.bytes ≡ float_text binary32 bits }
{
    text::text_of::<f32>(u64::from(bits))
}

/// The text of the `f64` with these bits.
pub fn f64_text(bits: u64) -> FloatText
    ensures { result.bytes ≡ float_text binary64 bits }
{
    text::text_of::<f64>(bits)
}
