//! The reading of places, line by line.
ghost use Rattle.std.specs.Prelude.{◌≡◌, ◌<◌, ◌^◌, ◌↔◌, ℕ, List, Ok, Some, length};
ghost use Rattle.std.specs.FinMap as map;
ghost use Rattle.std.specs.Str.Lines.{lines};
ghost use Rattle.defmt_places.specs.Answers.{Reads, Takes};
ghost use Rattle.defmt_places.specs.Places.{Map, pair_in, places_in, with_line, with_pair, with_place};
ghost use Rattle.defmt_places.specs.Told.{IsTold};

use crate::fault::{Cause, LineFault, PlacesFault};
use crate::line::{is_passed_over, pair_of};
use crate::places::Places;
use defmt_lines::next_line;
use std::alloc::Global;
use std::str;

// Gives an index its place, where it is one of 16 bits and new.
fn take_pair(places: &mut Places, index: u32, place: &str) -> Result<(), LineFault>
    ensures { Takes (with_pair places.old (index, place.now)) places.old result places.new }
{
    let Ok(index) = u16::try_from(index) else {
        return Err(LineFault::Refused(Cause::Index));
    };
    if places.has(index) {
        return Err(LineFault::Refused(Cause::Double));
    }
    places.put(index, place)?;
    Ok(())
}

// Takes what a line tells that isn't passed over.
fn take_text(places: &mut Places, line: &str) -> Result<(), LineFault>
    ensures { Takes (with_place places.old (pair_in line.now)) places.old result places.new }
{
    match pair_of(line) {
        Some((index, place)) => take_pair(places, index, place),
        None => Err(LineFault::Refused(Cause::Line)),
    }
}

// Takes what a line tells.
fn take_line(places: &mut Places, line: &[u8]) -> Result<(), LineFault>
    ensures { Takes (with_line places.old line.now) places.old result places.new }
{
    let Ok(text) = str::from_utf8(line) else {
        return Err(LineFault::Refused(Cause::Line));
    };
    if is_passed_over(line) {
        return Ok(());
    }
    take_text(places, text)
}

/// The places that a text tells, line by line. A line ends with a newline, in front of which one carriage return is passed over; the
/// last line may lack its newline, and then keeps a carriage return. Empty lines and lines that begin with `#` are passed over. Each
/// other line is an index in decimal without a leading zero, a space, and the index's place, which isn't empty.
///
/// # Errors
/// `PlacesFault::Refused` with the first line that is refused, `PlacesFault::Memory` where memory runs out.
pub fn read_places(alloc: Global, file: &[u8]) -> Result<Places, PlacesFault>
    requires { length file.now < 2 ^ 32 }
    ensures { Reads (places_in file.now) result }
{
    let mut places = Places::new(alloc);
    let mut number = 0u32;
    let mut rest = file;
    'lines: while !rest.is_empty() {
        let (line, after) = next_line(rest);
        number += 1;
        match take_line(&mut places, line) {
            Ok(()) => {}
            Err(LineFault::Refused(cause)) => {
                return Err(PlacesFault::Refused {
                    line: number,
                    cause: cause.number(),
                });
            }
            Err(LineFault::Memory) => return Err(PlacesFault::Memory),
        }
        rest = after;
    }
    Ok(places)
}

/// Where a text tells places, an index has a place exactly where a line of it is this index and this place.
pub fn places_are_told()
    ensures { (text : List ℕ) (places : Map) → places_in text ≡ Ok places → (index : ℕ)
        → (place : List ℕ) → (map.get places index ≡ Some place)
        ↔ IsTold (lines text) index place }
{}
