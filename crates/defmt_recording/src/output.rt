//! Gaps between events, and the words of lines.
ghost use Rattle.std.specs.Prelude.{◌≡◌, ◌++◌, codes, OnErr, OnOk};
ghost use Rattle.std.specs.Fmt.{decimal};
ghost use Rattle.defmt_encode.specs.Cause.{fault_name};
ghost use Rattle.defmt_recording.specs.Output.{ended, gap_before, gap_between, is_fault, last_behind};
ghost use Rattle.defmt_recording.specs.Styled.{counted, is_cut};

use defmt_decode::{Event, gap};
use defmt_encode::fault_name;
use dl_io::{Bytes, Memory};
use std::alloc::Global;

/// How many frames are missing in front of an event, where the last line has this place.
#[tactic(auto, unfolding(crate::specs::Output::gap_before))]
pub fn gap_before(last: Option<u16>, event: &Event) -> u16
    ensures { result ≡ gap_before last event.now }
{
    match event {
        Event::Line { place, .. } => gap_between(last, *place),
        Event::Bad { .. } | Event::CutFront { .. } | Event::CutTail { .. } => 0,
    }
}

/// How many frames are missing between two lines, where both have a place.
pub fn gap_between(last: Option<u16>, next: Option<u16>) -> u16
    ensures { result ≡ gap_between last next }
{
    let Some(next) = next else {
        return 0;
    };
    match last {
        Some(last) => gap(last, next),
        None => 0,
    }
}

/// The place of the last line, behind an event.
#[tactic(auto, unfolding(crate::specs::Output::last_behind))]
pub fn last_behind(last: Option<u16>, event: &Event) -> Option<u16>
    ensures { result ≡ last_behind last event.now }
{
    match event {
        Event::Line { place, .. } => *place,
        Event::Bad { .. } | Event::CutFront { .. } | Event::CutTail { .. } => last,
    }
}

/// A count, and one more where something is so.
pub fn counted(count: u64, so: bool) -> u64
    ensures { result ≡ counted count so }
{
    if so { count.saturating_add(1) } else { count }
}

/// Whether an event is a front or a tail.
#[tactic(auto, unfolding(crate::specs::Styled::is_cut))]
pub fn is_cut(event: &Event) -> bool
    ensures { result ≡ is_cut event.now }
{
    match event {
        Event::CutFront { .. } | Event::CutTail { .. } => true,
        Event::Line { .. } | Event::Bad { .. } => false,
    }
}

/// Appends a text and a newline. On want of memory nothing was appended.
pub fn add_ended(text: &[u8], out: &mut Bytes) -> Result<(), Memory>
    ensures appended { OnOk result (out.new.items ≡ out.old.items ++ ended text.now) }
    ensures err { OnErr result (out.new.items ≡ out.old.items) }
{
    out.reserve(text.len() + 1)?;
    out.extend_reserved(text);
    out.push_reserved(b'\n');
    Ok(())
}

/// Appends the line of a piece that gives no line, by the number of its cause.
pub fn add_fault(alloc: Global, cause: u8, out: &mut Bytes) -> Result<(), Memory>
    ensures { OnOk result (out.new.items ≡ out.old.items
        ++ (codes "-- E" ++ decimal cause ++ codes " " ++ fault_name cause)) }
{
    add_count(alloc, b"-- E", u64::from(cause), out)?;
    out.push(b' ')?;
    out.extend_from_slice(fault_name(cause).as_bytes())
}

/// Appends a text and a number in decimal digits. On want of memory nothing was appended.
pub fn add_count(alloc: Global, front: &[u8], count: u64, out: &mut Bytes) -> Result<(), Memory>
    ensures appended { OnOk result (out.new.items
        ≡ out.old.items ++ (front.now ++ decimal count)) }
    ensures err { OnErr result (out.new.items ≡ out.old.items) }
{
    let digits = format!(in alloc; "{count}")?;
    out.reserve(front.len() + digits.len())?;
    out.extend_reserved(front);
    out.extend_reserved(digits.as_str().as_bytes());
    Ok(())
}

/// Whether an event is a fault of a recording.
#[tactic(auto, unfolding(crate::specs::Output::is_fault))]
pub fn is_fault(event: &Event) -> bool
    ensures { result ≡ is_fault event.now }
{
    match event {
        Event::Line { .. } => false,
        Event::Bad { .. } | Event::CutFront { .. } | Event::CutTail { .. } => true,
    }
}
