//! Numbers as dates and on a clock. These functions stand apart from those that print other numbers.

ghost use Rattle.std.specs.Prelude.{◌≤◌, ◌+◌, length};
ghost use Rattle.defmt_hints.specs.Printed.{date_text, clock_text};
ghost use Rattle.defmt_hints.specs.Written.{Writes, Written};

use crate::texts::put;
use defmt_dates::{
    clock_of_micros, clock_of_millis, clock_of_seconds, date_of_millis, date_of_seconds,
};
use defmt_grammar::{ClockUnit, IsoUnit};
use std::simd::prelude::*;

// Writes the first sixteen bytes and the last sixteen of a text, which may overlap.
#[inline(always)]
fn write_sixteens(out: &mut [u8], at: usize, text: &[u8])
    requires within { at + length text.now ≤ length out.old }
    requires count { (16 ≤ length text.now) × (length text.now ≤ 32) }
    ensures { Written out.old at out.new (at + length text.now) text.now }
{
    let rest = text.len() - 16;
    let first = u8x16::from_slice(text);
    let last = u8x16::from_slice(&text[rest..]);
    first.copy_to_slice(&mut out[at..]);
    last.copy_to_slice(&mut out[at + rest..]);
}

// Writes the text of a time. Most have 16 to 32 bytes, which are written without a call.
#[inline(always)]
fn put_time(out: &mut [u8], at: usize, text: &[u8]) -> Option<usize>
    requires { at ≤ length out.old }
    ensures { Writes result out.old at out.new text.now }
{
    let size = text.len();
    if size < 16 || size > 32 {
        return put(out, at, text);
    }
    if out.len() - at < size {
        return None;
    }
    write_sixteens(out, at, text);
    Some(at + size)
}

// Writes date and time.
#[inline(never)]
pub(crate) fn put_date(out: &mut [u8], at: usize, number: u128, unit: IsoUnit) -> Option<usize>
    requires { at ≤ length out.old }
    ensures { Writes result out.old at out.new (date_text unit number) }
{
    match unit {
        IsoUnit::Seconds => put_time(out, at, date_of_seconds(number).as_slice()),
        IsoUnit::Millis => put_time(out, at, date_of_millis(number).as_slice()),
    }
}

// Writes the time on a clock.
#[inline(never)]
pub(crate) fn put_clock(out: &mut [u8], at: usize, number: u128, unit: ClockUnit) -> Option<usize>
    requires { at ≤ length out.old }
    ensures { Writes result out.old at out.new (clock_text unit number) }
{
    match unit {
        ClockUnit::Seconds => put_time(out, at, clock_of_seconds(number).as_slice()),
        ClockUnit::Millis => put_time(out, at, clock_of_millis(number).as_slice()),
        ClockUnit::Micros => put_time(out, at, clock_of_micros(number).as_slice()),
    }
}
