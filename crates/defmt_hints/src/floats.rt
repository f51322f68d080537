//! Floats.

ghost use Rattle.std.specs.Prelude.{◌≤◌, ◌<◌, ◌^◌, length};
ghost use Rattle.defmt_grammar.specs.Sizes.{float_bits};
ghost use Rattle.defmt_hints.specs.Printed.{printed_float};
ghost use Rattle.defmt_hints.specs.Written.{Writes};

use crate::texts::put_text;
use defmt_floats::{f32_text, f64_text};
use defmt_grammar::FloatSize;

/// Writes the float with these bits, which are below 2 to the power of the size's bits: the shortest decimal that reads back as it,
/// `NaN`, `inf` or `-inf`, the same under every display hint of the defmt book. `None` exactly where this doesn't fit.
#[inline(never)]
pub fn put_float(out: &mut [u8], at: usize, bits: u64, size: FloatSize) -> Option<usize>
    requires place { at ≤ length out.old }
    requires sized { bits < 2 ^ float_bits size }
    ensures { Writes result out.old at out.new (printed_float size bits) }
{
    match size {
        FloatSize::W32 => put_text(out, at, f32_text(bits as u32).as_str().as_bytes()),
        FloatSize::W64 => put_text(out, at, f64_text(bits).as_str().as_bytes()),
    }
}
