//! The texts of many floats beside those of the kit's ryu.
use defmt_floats::{f32_text, f64_text};
use fast_float::nearest_bits;
use ryu::Buffer;
use std::test::Fail;
use test_rows::{expect, is_same};

// Powers of ten are counted from 10 ^ -342.
const TEN_TO_MINUS_3: u64 = 339;

const NARROW_INFINITY: u32 = 0x7f80_0000;

const WIDE_INFINITY: u64 = 0x7ff0_0000_0000_0000;

// The bits behind others, in an order that looks random (Marsaglia's xorshift).
fn next(bits: u64) -> u64 {
    let first = bits ^ (bits << 13);
    let second = first ^ (first >> 7);
    second ^ (second << 17)
}

// Whether the text of an `f32` is another than ryu's.
fn narrow_differs(bits: u32) -> bool {
    let text = f32_text(bits);
    let magnitude = bits & 0x7fff_ffff;
    if magnitude > NARROW_INFINITY {
        return !is_same(text.as_str(), "NaN");
    }
    let value = f32::from_bits(bits);
    let mut buffer = Buffer::new();
    !is_same(text.as_str(), buffer.format(value))
}

// Whether the text of an `f64` is another than ryu's.
fn wide_differs(bits: u64) -> bool {
    let text = f64_text(bits);
    let magnitude = bits & 0x7fff_ffff_ffff_ffff;
    if magnitude > WIDE_INFINITY {
        return !is_same(text.as_str(), "NaN");
    }
    let value = f64::from_bits(bits);
    let mut buffer = Buffer::new();
    !is_same(text.as_str(), buffer.format(value))
}

// How many of so many random floats have another text, and of the floats with the lowest bits.
fn narrow_differences(count: u32) -> u32 {
    let mut random = 88_172_645_463_325_252;
    let mut differences: u32 = 0;
    for low in 0..count {
        random = next(random);
        if narrow_differs(low) || narrow_differs((random & 0xffff_ffff) as u32) {
            differences = differences.saturating_add(1);
        }
    }
    differences
}

fn wide_differences(count: u64) -> u32 {
    let mut random = 88_172_645_463_325_252;
    let mut differences: u32 = 0;
    for low in 0..count {
        random = next(random);
        if wide_differs(low) || wide_differs(random) || wide_differs((low & 0x7ff) << 52) {
            differences = differences.saturating_add(1);
        }
    }
    differences
}

// How many of so many decimals with three digits behind the point have another text.
fn decimal_differences(count: u64) -> u32 {
    let mut differences: u32 = 0;
    for thousandths in 1..count {
        if wide_differs(nearest_bits::<f64>(thousandths, TEN_TO_MINUS_3)) {
            differences = differences.saturating_add(1);
        }
    }
    differences
}

#[test]
fn two_hundred_thousand_floats_have_the_text_that_ryu_prints() -> Result<(), Fail> {
    let none = narrow_differences(50_000) == 0
        && wide_differences(20_000) == 0
        && decimal_differences(50_000) == 0;
    expect(if none { "none" } else { "some" }, "none")
}
