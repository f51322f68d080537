//! How far a pass has come, and what passes what has no values inside.

ghost use Rattle.std.specs.Prelude.{◌≡◌, ◌≤◌, ◌<◌, ◌+◌, ◌^◌, ℕ, length, IfSome, if◌then◌else◌, option_map};
ghost use Rattle.defmt_eager.specs.Show.{show_val};
ghost use Rattle.defmt_encode.specs.Read.{below, slot_at};
ghost use Rattle.defmt_grammar.specs.declared.slot.Slot.TheVariants as slots;
ghost use Rattle.defmt_intern.specs.Table.{Map};
ghost use Rattle.defmt_plan.specs.Passed.{PassesField};
ghost use Rattle.defmt_plan.specs.Readers.{PassesBy, progress_of};

use crate::bits::{Field, pass_field};
use crate::leaves::{Progress, pass_value};
use defmt_grammar::{Hint, Kind};

// How far a pass has come, and how many Format values it has opened.
#[derive(Clone, Copy)]
pub(crate) struct Reach {
    pub read: usize,
    pub written: usize,
    pub opened: usize,
}

// The same behind so many bytes of the message more.
#[inline(always)]
pub(crate) fn behind(before: Reach, count: usize) -> Reach
    requires { before.read + count < 2 ^ 64 }
    ensures read { result.read ≡ before.read + count }
    ensures written { result.written ≡ before.written }
    ensures opened { result.opened ≡ before.opened }
{
    Reach {
        read: before.read + count,
        written: before.written,
        opened: before.opened,
    }
}

// A value that is usual, whatever levels may still be opened.
#[inline(always)]
pub(crate) fn pass_leaf(
    kind: Kind,
    hint: Hint,
    bytes: &[u8],
    before: Reach,
    out: &mut [u8],
) -> Option<Reach>
    requires read { before.read ≤ length bytes.now }
    requires written { before.written ≤ length out.old }
    requires few { before.opened ≤ 8192 }
    ensures { (t : Map) (left : ℕ) → PassesBy result (slot_at t (below t left) (slots.One kind) 1)
        (λ v. show_val t v kind hint) bytes.now before out.old out.new }
{
    let from = Progress {
        read: before.read,
        written: before.written,
    };
    let after = pass_value(kind, hint, bytes, from, out)?;
    Some(Reach {
        read: after.read,
        written: after.written,
        opened: before.opened,
    })
}

// Bits of a number, which is passed by where they are its last.
#[inline(always)]
pub(crate) fn pass_bits(
    field: Field,
    hint: Hint,
    last: bool,
    bytes: &[u8],
    before: Reach,
    out: &mut [u8],
) -> Option<Reach>
    requires read { before.read ≤ length bytes.now }
    requires written { before.written ≤ length out.old }
    ensures field { PassesField (option_map (λ after. after.written) result) field hint bytes.now
        (progress_of before) out.old out.new }
    ensures read { IfSome result (λ after. after.read
        ≡ (if last then before.read + field.width else before.read)) }
    ensures opened { IfSome result (λ after. after.opened ≡ before.opened) }
{
    let from = Progress {
        read: before.read,
        written: before.written,
    };
    let after = pass_field(field, hint, last, bytes, from, out)?;
    Some(Reach {
        read: after.read,
        written: after.written,
        opened: before.opened,
    })
}
