//! Steps of putting a message.
ghost use Rattle.std.specs.Prelude.{◌≡◌, ◌≤◌, ◌<◌, ◌+◌, ◌∷◌, length};
ghost use Rattle.byteorder.specs.Endian.{little_bytes};
ghost use Rattle.defmt_encode.specs.Out.{Wrote};
ghost use Rattle.defmt_encode.specs.Placed.{place_bytes};
ghost use Rattle.defmt_grammar.specs.declared.slot.Slot.{Slot as AnySlot};
ghost use Rattle.defmt_macros.specs.Frames.{head_of};

use defmt_encode::put_number;
use defmt_grammar::Slot;

/// Puts a number for which there is room.
#[tactic(auto, using(defmt_encode::proofs::Numbers::length_little))]
pub fn put_fitting(buf: &mut [u8], at: usize, n: u128, width: u8) -> usize
    requires { (2000 ≤ length buf.old) × (at + width ≤ 2000) }
    ensures { Wrote buf.old buf.new at result (little_bytes width n) }
{
    match put_number(buf, at, n, width) {
        Ok(end) => end,
        Err(_) => unreachable!(),
    }
}

// Puts a place, where there is one.
fn put_place(buf: &mut [u8], at: usize, place: Option<u16>) -> usize
    requires { (2000 ≤ length buf.old) × (at + 2 ≤ 2000) }
    ensures { Wrote buf.old buf.new at result (place_bytes place) }
{
    match place {
        Some(n) => put_fitting(buf, at, n as u128, 2),
        None => at,
    }
}

/// Puts a message's head to the front of a buffer.
#[tactic(auto, using(defmt_encode::proofs::Placing::place_few, defmt_encode::proofs::Numbers::length_little))]
pub fn put_head(buf: &mut [u8], index: u16, place: Option<u16>, stamp: Option<u64>) -> usize
    requires { 2000 ≤ length buf.old }
    ensures { Wrote buf.old buf.new 0 result (head_of index place stamp) }
{
    let at = put_fitting(buf, 0, index as u128, 2);
    let behind = put_place(buf, at, place);
    match stamp {
        Some(number) => put_fitting(buf, behind, number as u128, 8),
        None => behind,
    }
}

/// The slots behind the first.
pub fn behind(slots: &[Slot]) -> &[Slot]
    requires { 0 < length slots.now }
    ensures { (first : AnySlot) × (slots.now ≡ first ∷ result.now) }
{
    &slots[1..]
}
