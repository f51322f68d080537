//! Numbers of microseconds, printed as seconds with six digits behind the point.

ghost use Rattle.std.specs.Prelude.{◌≤◌, ◌<◌, ◌+◌, ◌/◌, ◌%◌, ◌∷◌, [], ◌++◌, codes, length};
ghost use Rattle.defmt_hints.specs.Digits.{zero_filled};
ghost use Rattle.defmt_hints.specs.Printed.{decimal_text, fraction_text};
ghost use Rattle.defmt_hints.specs.Written.{Writes, Written};

use crate::numbers::put_decimal;
use crate::texts::put;

// The microseconds of a second.
const SECOND: u64 = 1_000_000;

// The bytes of a point and six digits.
const PARTS_LENGTH: usize = 7;

// The two digits of each number below 100, one number behind another.
static PAIRS: [u8; 200] =
    *b"00010203040506070809101112131415161718192021222324252627282930313233343536373839404142434445464748495051525354555657585960616263646566676869707172737475767778798081828384858687888990919293949596979899";

// Writes the two digits of a number below 100.
#[inline(always)]
fn write_pair(pair: u64, buf: &mut [u8], at: usize)
    requires { (pair < 100) × (at + 2 ≤ length buf.old) }
    ensures { Written buf.old at buf.new (at + 2) ((48 + pair / 10) ∷ (48 + pair % 10) ∷ []) }
{
    let from = pair as usize * 2;
    let (tens, ones) = (PAIRS[from], PAIRS[from + 1]);
    buf[at] = tens;
    buf[at + 1] = ones;
}

// Writes a point and the six digits of the parts of a second.
#[inline(always)]
fn put_parts(out: &mut [u8], at: usize, parts: u64) -> Option<usize>
    requires place { at ≤ length out.old }
    requires few { parts < 1000000 }
    ensures { Writes result out.old at out.new
        (codes "." ++ zero_filled 6 (decimal_text parts)) }
{
    if out.len() - at < PARTS_LENGTH {
        return None;
    }
    let low = parts % 10_000;
    let first = at + 1;
    let second = first + 2;
    let third = second + 2;
    out[at] = b'.';
    write_pair(parts / 10_000, out, first);
    write_pair(low / 100, out, second);
    write_pair(low % 100, out, third);
    Some(third + 2)
}

// Writes whole seconds below ten, and parts.
#[inline(always)]
fn put_short(out: &mut [u8], at: usize, whole: u64, parts: u64) -> Option<usize>
    requires place { at ≤ length out.old }
    requires digit { whole < 10 }
    requires few { parts < 1000000 }
    ensures { Writes result out.old at out.new
        (decimal_text whole ++ (codes "." ++ zero_filled 6 (decimal_text parts))) }
{
    let point = put(out, at, &[b'0' + whole as u8])?;
    put_parts(out, point, parts)
}

// Writes any whole seconds, and parts. It stands apart, so that a single digit is written at once.
#[inline(never)]
fn put_long(out: &mut [u8], at: usize, whole: u64, parts: u64) -> Option<usize>
    requires place { at ≤ length out.old }
    requires few { parts < 1000000 }
    ensures { Writes result out.old at out.new
        (decimal_text whole ++ (codes "." ++ zero_filled 6 (decimal_text parts))) }
{
    let point = put_decimal(out, at, whole)?;
    put_parts(out, point, parts)
}

// Writes microseconds as seconds.
pub(crate) fn put_micros(out: &mut [u8], at: usize, number: u64) -> Option<usize>
    requires { at ≤ length out.old }
    ensures { Writes result out.old at out.new (fraction_text 1000000 6 number) }
{
    let whole = number / SECOND;
    let parts = number % SECOND;
    if whole < 10 {
        put_short(out, at, whole, parts)
    } else {
        put_long(out, at, whole, parts)
    }
}
