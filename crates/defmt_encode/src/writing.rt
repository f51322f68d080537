//! The message of a statement.
ghost use Rattle.std.specs.Prelude.{◌≡◌, ◌≤◌, ◌++◌, ◌↔◌, length, nat_lt, IsTrue};
ghost use Rattle.defmt_encode.specs.Carry.{stamp_slots, stamp_args, bytes_vals, message_of};
ghost use Rattle.defmt_encode.specs.Out.{Puts, Writes};
ghost use Rattle.defmt_encode.specs.Placed.{HasPlace, place_bytes};
ghost use Rattle.defmt_intern.specs.Stamp.{stamp_of};

use crate::bounds::most_of;
use crate::put::{Long, MESSAGE_LIMIT, put_number};
use crate::slots::{own_slots, stamp_slots};
use crate::values::put_args;
use crate::widths::uint_width;
use defmt_intern::{Profile, Table};
use defmt_values::Statement;

// With at most so many bytes of arguments a message is short, with any place and any stamp.
const SHORT: usize = MESSAGE_LIMIT - 20;

// Puts the bytes of a stamp that is one number, where there is one.
#[tactic(auto, unfolding(crate::specs::Carry::bytes_vals))]
fn put_stamp(table: &Table, stamp: Option<u64>, out: &mut [u8], at: usize) -> Result<usize, Long>
    requires { (2000 ≤ length out.old) × (at ≤ 2000) }
    ensures { Puts out.old out.new at result
        (bytes_vals table.now.entries (stamp_slots table.now.entries (stamp_of table.now.entries))
        (stamp_args stamp)) }
{
    let Some(n) = stamp else {
        return Ok(at);
    };
    match stamp_slots(table).first() {
        None => Ok(at),
        Some(slot) => put_number(out, at, u128::from(n), uint_width(*slot)),
    }
}

// Puts a place, where there is one.
fn put_place(out: &mut [u8], at: usize, place: Option<u16>) -> Result<usize, Long>
    requires { (2000 ≤ length out.old) × (at ≤ 2000) }
    ensures { Puts out.old out.new at result (place_bytes place) }
{
    match place {
        None => Ok(at),
        Some(n) => put_number(out, at, u128::from(n), 2),
    }
}

// Puts a place and then a stamp.
fn put_place_and_stamp(
    table: &Table,
    place: Option<u16>,
    stamp: Option<u64>,
    out: &mut [u8],
    at: usize,
) -> Result<usize, Long>
    requires { (2000 ≤ length out.old) × (at ≤ 2000) }
    ensures { Puts out.old out.new at result
        (place_bytes place ++ bytes_vals table.now.entries
        (stamp_slots table.now.entries (stamp_of table.now.entries)) (stamp_args stamp)) }
{
    let at = put_place(out, at, place)?;
    put_stamp(table, stamp, out, at)
}

fn put_message(
    table: &Table,
    place: Option<u16>,
    stamp: Option<u64>,
    stm: &Statement,
    out: &mut [u8],
) -> Result<usize, Long>
    requires { 2000 ≤ length out.old }
    ensures { Puts out.old out.new 0 result
        (message_of table.now.entries place (stamp_args stamp) stm.now.index stm.now.args) }
{
    let at = put_number(out, 0, u128::from(stm.index), 2)?;
    let at = put_place_and_stamp(table, place, stamp, out, at)?;
    put_args(table, own_slots(table, stm.index), &stm.args, out, at)
}

// The same through a buffer of its own, so that a message that is too long leaves the buffer as it was.
#[inline(never)]
fn message_by_copy(
    table: &Table,
    place: Option<u16>,
    stamp: Option<u64>,
    stm: &Statement,
    out: &mut [u8],
) -> Result<usize, Long>
    requires { 2000 ≤ length out.old }
    ensures { Writes out.old out.new result
        (message_of table.now.entries place (stamp_args stamp) stm.now.index stm.now.args) }
{
    let mut whole = [0u8; MESSAGE_LIMIT];
    let count = put_message(table, place, stamp, stm, &mut whole)?;
    out[..count].copy_from_slice(&whole[..count]);
    Ok(count)
}

// The same of a message that is written to a buffer of its own.
#[inline(never)]
fn is_long_by_copy(table: &Table, place: Option<u16>, stamp: Option<u64>, stm: &Statement) -> bool
    ensures { result ≡ nat_lt 2000
        (length (message_of table.now.entries place
        (stamp_args stamp) stm.now.index stm.now.args)) }
{
    let mut whole = [0u8; MESSAGE_LIMIT];
    match put_message(table, place, stamp, stm, &mut whole) {
        Ok(_) => false,
        Err(Long) => true,
    }
}

/// Whether a place suits a table: there is one exactly in profile Two. Takes no memory.
pub fn place_suits(table: &Table, place: Option<u16>) -> bool
    ensures { IsTrue result ↔ HasPlace table.now.profile place }
{
    match (table.profile(), place) {
        (Profile::One, None) => true,
        (Profile::One, Some(_)) => false,
        (Profile::Two, None) => false,
        (Profile::Two, Some(_)) => true,
    }
}

/// Whether the message of a statement has more than 2,000 bytes: whether `message` refuses it. Takes no memory.
pub fn is_long(table: &Table, place: Option<u16>, stamp: Option<u64>, stm: &Statement) -> bool
    ensures { result ≡ nat_lt 2000
        (length (message_of table.now.entries place
        (stamp_args stamp) stm.now.index stm.now.args)) }
{
    if most_of(&stm.args) <= SHORT {
        return false;
    }
    is_long_by_copy(table, place, stamp, stm)
}

/// Writes the message of a statement to the front of a buffer, and answers how many bytes it has
/// (defmt book, "Serialization").
///
/// A message is the statement's index in two bytes, in profile Two its place in two more, the stamp
/// where the table has a timestamp's entry, and the arguments in the order of their positions; numbers
/// come with their lowest byte first. There is a place exactly in profile Two (`place_suits`). The
/// buffer has at least 2,000 bytes. What lies behind the message is left as it was. Takes no memory.
///
/// # Errors
/// `Long` exactly where the message has more than 2,000 bytes. The buffer is then as before.
pub fn message(
    table: &Table,
    place: Option<u16>,
    stamp: Option<u64>,
    stm: &Statement,
    out: &mut [u8],
) -> Result<usize, Long>
    requires place { HasPlace table.now.profile place }
    requires room { 2000 ≤ length out.old }
    ensures { Writes out.old out.new result
        (message_of table.now.entries place (stamp_args stamp) stm.now.index stm.now.args) }
{
    if most_of(&stm.args) <= SHORT {
        return put_message(table, place, stamp, stm, out);
    }
    message_by_copy(table, place, stamp, stm, out)
}
