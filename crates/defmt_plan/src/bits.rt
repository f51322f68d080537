//! Bits of numbers.

ghost use Rattle.std.specs.Prelude.{◌≡◌, ◌≤◌, ◌+◌, ◌*◌, ◌/◌, ◌%◌, ◌-◌, ◌^◌, length, IfSome, if◌then◌else◌, option_map};
ghost use Rattle.defmt_plan.specs.Passed.{PassesField};

use crate::leaves::Progress;
use crate::take::take_uint;
use defmt_grammar::Hint;
use defmt_hints::put_uint;

// The bits `lo` to `hi - 1` of a number of which `width` bytes are sent, the lowest of them its byte `first`.
#[derive(Clone, Copy)]
pub(crate) struct Field {
    pub first: u8,
    pub width: u8,
    pub lo: u8,
    pub hi: u8,
}

// A number without its lowest bits.
#[inline(always)]
fn without_low(number: u64, count: u32) -> Option<u64>
    ensures { IfSome result (λ rest. rest ≡ number / 2 ^ count) }
{
    if count < 64 {
        Some(number >> count)
    } else {
        None
    }
}

// The lowest bits of a number.
#[inline(always)]
fn low(number: u64, count: u8) -> u64
    ensures { result ≡ number % 2 ^ count }
{
    if count < 64 {
        number % (1u64 << count)
    } else {
        number
    }
}

// The field of a number, from those of its bytes that are sent.
#[inline(always)]
fn field_of(sent: u64, field: Field) -> Option<u64>
    ensures { IfSome result (λ bits.
        bits ≡ sent * 256 ^ field.first / 2 ^ field.lo % 2 ^ (field.hi - field.lo)) }
{
    let lo = u32::from(field.lo);
    let unsent = 8 * u32::from(field.first);
    if lo < unsent {
        return None;
    }
    let rest = without_low(sent, lo - unsent)?;
    Some(low(rest, field.hi.saturating_sub(field.lo)))
}

// Writes the field of the number whose bytes stand behind a place. It is not passed by.
fn put_field(
    field: Field,
    hint: Hint,
    bytes: &[u8],
    before: Progress,
    out: &mut [u8],
) -> Option<usize>
    requires read { before.read ≤ length bytes.now }
    requires written { before.written ≤ length out.old }
    ensures { PassesField result field hint bytes.now before out.old out.new }
{
    let sent = take_uint(bytes, before.read, usize::from(field.width))?;
    let bits = field_of(sent, field)?;
    put_uint(out, before.written, bits, hint)
}

// The same; the number is passed by where it is used for the last time. It stands apart from the steps that most strings have.
#[inline(never)]
pub(crate) fn pass_field(
    field: Field,
    hint: Hint,
    last: bool,
    bytes: &[u8],
    before: Progress,
    out: &mut [u8],
) -> Option<Progress>
    requires read { before.read ≤ length bytes.now }
    requires written { before.written ≤ length out.old }
    ensures field { PassesField (option_map (λ after. after.written) result) field hint bytes.now
        before out.old out.new }
    ensures read { IfSome result (λ after. after.read
        ≡ (if last then before.read + field.width else before.read)) }
{
    let written = put_field(field, hint, bytes, before, out)?;
    let passed = if last { usize::from(field.width) } else { 0 };
    Some(Progress {
        read: before.read + passed,
        written,
    })
}
