//! Notices of messages.

ghost use Rattle.std.specs.Prelude.{◌≡◌, ◌≤◌, length, take, drop, IfOk, IfSome};
ghost use Rattle.defmt_decode.specs.Event.{IsNotice, of_heard, of_read, read_of};
ghost use Rattle.defmt_encode.specs.Heard.{IsHeard};
ghost use Rattle.defmt_framing.specs.declared.notice.Notice.TheVariants as notices;

use crate::event::Event;
use crate::quick::put_heard;
use crate::reader::event_of_heard;
use defmt_eager::Front;
use defmt_encode::{Heard, ReadCause};
use defmt_framing::Notice;
use defmt_intern::Table;
use defmt_plan::{Origin, Parts, PlannedTable};
use dl_io::Memory;
use std::alloc::Global;

// The line of the bytes that a code of so many bytes stands for, where a plan writes it behind a place of a buffer, and in front of another.
#[inline(always)]
pub(crate) fn line_behind(
    table: &PlannedTable,
    bytes: &[u8],
    size: u32,
    text: &mut [u8],
    at: usize,
    end: usize,
) -> Option<(Origin, usize)>
    requires places { at ≤ end }
    requires within { end ≤ length text.old }
    ensures line { IfSome result (λ line. IsNotice (drop at text.new)
        (of_read table.now size (read_of table.now bytes.now)) (notices.Line line.0 line.1)) }
    ensures front { take at text.new ≡ take at text.old }
{
    table.message(bytes, size, &mut text[at..end], 0)
}

// What they tell, whatever they are. The text of a line may stand behind a place of the buffer, and in front of another.
pub(crate) fn notice_behind(
    alloc: Global,
    table: &Table,
    bytes: &[u8],
    size: u32,
    text: &mut [u8],
    at: usize,
    end: usize,
    heard: &mut Heard,
) -> Result<Notice<Event, Origin>, Memory>
    requires places { at ≤ end }
    requires within { end ≤ length text.old }
    ensures notice { IfOk result (λ notice. IsNotice (drop at text.new)
        (of_read table.now size (read_of table.now bytes.now)) notice) }
    ensures front { take at text.new ≡ take at text.old }
{
    notice_of_any(alloc, table, bytes, size, &mut text[at..end], heard)
}

// The same, with the text at the front of the buffer. A message whose plan there is is printed by it, and any other is heard.
pub(crate) fn notice_in_front(
    alloc: Global,
    table: &PlannedTable,
    bytes: &[u8],
    size: u32,
    text: &mut [u8],
    heard: &mut Heard,
) -> Result<Notice<Event, Origin>, Memory>
    ensures { IfOk result (λ notice. IsNotice text.new
        (of_read table.now size (read_of table.now bytes.now)) notice) }
{
    match table.message(bytes, size, text, 0) {
        Some((origin, end)) => Ok(Notice::Line(origin, end)),
        None => notice_of_any(alloc, table.table(), bytes, size, text, heard),
    }
}

// The same of a message that is heard. It stands apart from the way of a usual line.
#[inline(never)]
fn notice_of_any(
    alloc: Global,
    table: &Table,
    bytes: &[u8],
    size: u32,
    text: &mut [u8],
    heard: &mut Heard,
) -> Result<Notice<Event, Origin>, Memory>
    ensures { IfOk result (λ notice. IsNotice text.new
        (of_read table.now size (read_of table.now bytes.now)) notice) }
{
    match heard.hear(alloc, table, bytes) {
        Ok(()) => notice_of_heard(alloc, table, bytes, size, text, heard),
        Err(ReadCause::Bad { cause }) => Ok(Notice::Event(Event::Bad { cause })),
        Err(ReadCause::Memory) => Err(Memory),
    }
}

// Where the line of a message that is heard comes from.
pub(crate) fn origin_of(heard: &Heard, size: u32, front: Front) -> Origin
    ensures { result ≡ record {
      index = heard.now.stm.index;
      place = heard.now.place;
      parts = record { bytes = size; stamp = front.stamp; front = front.size };
    } }
{
    Origin {
        index: heard.stm.index,
        place: heard.place,
        parts: Parts {
            bytes: size,
            stamp: front.stamp,
            front: front.size,
        },
    }
}

// What a message that is heard tells.
fn notice_of_heard(
    alloc: Global,
    table: &Table,
    bytes: &[u8],
    size: u32,
    text: &mut [u8],
    heard: &Heard,
) -> Result<Notice<Event, Origin>, Memory>
    requires { IsHeard table.now bytes.now heard.now.place heard.now.stamp heard.now.stm.index
        heard.now.stm.args }
    ensures { IfOk result (λ notice. IsNotice text.new
        (of_heard table.now size heard.now.place heard.now.stamp heard.now.stm.index
        heard.now.stm.args) notice) }
{
    let Some((front, end)) = put_heard(table, heard, text) else {
        return Ok(Notice::Event(event_of_heard(alloc, table, bytes, size, heard)?));
    };
    Ok(Notice::Line(origin_of(heard, size, front), end))
}
