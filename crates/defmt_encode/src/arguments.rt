//! The arguments of an entry's own text, read from the bytes of a message.
ghost use Rattle.std.specs.Prelude.{◌≡◌, [], ◌∷◌, IfSome};
ghost use Rattle.defmt_grammar.specs.declared.kind.Kind.TheVariants.{Uint};
ghost use Rattle.defmt_grammar.specs.declared.slot.Slot.TheVariants.{One};
ghost use Rattle.defmt_values.specs.Entries.{places_of};
ghost use Rattle.defmt_encode.specs.Read.{only_at, each_at, value_at};
ghost use Rattle.defmt_encode.specs.Reads.{ReadsVals, with_vals};

use crate::cause::Fault;
use crate::field::number;
use crate::read::read_into;
use crate::widths::size_bytes;
use defmt_grammar::{IntSize, Kind, Pieces, Slot};
use defmt_intern::Table;
use defmt_values::{Args, Value, cut};
use std::alloc::Global;

// The size of an unsigned number.
fn uint_size(slot: Slot) -> Option<IntSize>
    ensures { IfSome result (λ size. slot ≡ One (Uint size)) }
{
    match slot {
        Slot::One(Kind::Uint(size)) => Some(size),
        _ => None,
    }
}

// The size of the only argument, where that is an unsigned number.
fn only_uint(slots: &[Slot]) -> Option<IntSize>
    ensures { IfSome result (λ size. slots.now ≡ One (Uint size) ∷ []) }
{
    let Some((slot, others)) = cut(slots) else {
        return None;
    };
    let Some(size) = uint_size(*slot) else {
        return None;
    };
    match cut(others) {
        None => Some(size),
        Some(_) => None,
    }
}

// The value of the only argument, an unsigned number.
fn read_only<'b>(size: IntSize, bytes: &'b [u8], args: &mut Args) -> Result<(u128, &'b [u8]), Fault>
    ensures { ReadsVals (with_vals args.new result) (only_at size bytes.now) }
{
    let (n, rest) = number(bytes, size_bytes(size))?;
    args.clear();
    args.push(Value::Uint(n))?;
    Ok((0, rest))
}

/// The values of the arguments of an entry's own text, read into a list in place of what it had. Most
/// stamps, and many statements, have one unsigned number, which is read without a walk over slots.
#[inline(always)]
pub fn read_own<'b>(
    alloc: Global,
    table: &Table,
    pieces: &Pieces,
    bytes: &'b [u8],
    args: &mut Args,
) -> Result<(u128, &'b [u8]), Fault>
    ensures { ReadsVals (with_vals args.new result)
        (each_at (value_at table.now.entries 16) (places_of pieces.now) 1 0 bytes.now) }
{
    match only_uint(pieces.slots()) {
        Some(size) => read_only(size, bytes, args),
        None => read_into(alloc, table, pieces, 16, 1, 0, bytes, args),
    }
}
