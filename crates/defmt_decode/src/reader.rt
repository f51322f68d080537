//! What a piece tells.

ghost use Rattle.std.specs.Prelude.{◌≡◌, ◌≤◌, ◌+◌, None, Some, false, List, ℕ, length, take, drop, IfOk, IfSome, OnErr};
ghost use Rattle.std.specs.Str.{IsUtf8};
ghost use Rattle.defmt_decode.specs.Event.{IsNotice, IsPrinted, line_with, of_heard, tells};
ghost use Rattle.defmt_decode.specs.Refusal.{refusal_number, refused};
ghost use Rattle.defmt_encode.specs.Heard.{IsHeard};
ghost use Rattle.defmt_framing.specs.Cut.{has_zero};
ghost use Rattle.defmt_framing.specs.Framing.{Hears, Stands};
ghost use Rattle.defmt_framing.specs.Notices.{HasText, told_by};
ghost use Rattle.defmt_framing.specs.Told.{Tells};
ghost use Rattle.defmt_framing.specs.Wholes.{IsWhole};
ghost use Rattle.defmt_framing.specs.declared.notice.Notice.TheVariants as notices;

use crate::event::Event;
use crate::notices::{line_behind, notice_behind, notice_in_front, origin_of};
use crate::room::{line_room, make_room, room_behind};
use defmt_eager::{EagerFault, parted_line};
use defmt_encode::{COBS, Heard, LONG, WIDE};
use defmt_framing::{
    Framer, Notice, Teller, decode_piece, decode_piece_in_front, decode_zeroless_piece,
};
use defmt_grammar::Text;
use defmt_intern::Table;
use defmt_plan::{Origin, PlannedTable};
use dl_io::Memory;
use std::alloc::Global;
use std::marker::Model;
use std::str;

// Why a piece gives no line, beside what its message is refused for.
enum Refusal {
    Cobs,
    Long,
    Wide,
}

impl Refusal {
    fn number(self) -> u8
        ensures { result ≡ refusal_number self }
    {
        match self {
            Refusal::Cobs => COBS,
            Refusal::Long => LONG,
            Refusal::Wide => WIDE,
        }
    }

    fn event(self) -> Event
        ensures { result ≡ refused self }
    {
        Event::Bad {
            cause: self.number(),
        }
    }
}

// Reads pieces by a table with the plans of its strings. The buffer is for what they stand for as codes, and the line for what
// is written by a plan; both grow as the pieces need them. What is heard in them is kept, so that its lists needn't be made
// anew for each.
#[derive(Drop)]
pub(crate) struct Reader<'t> {
    alloc: Global,
    table: &'t PlannedTable,
    buffer: Vec<u8>,
    line: Vec<u8>,
    heard: Heard,
}

impl<'t> Model for Reader<'t> {
    ghost use Rattle.defmt_intern.specs.declared.table.Table.{Table as AnyTable};
    ghost use Rattle.defmt_intern.specs.contracts.table.Table.{the_row};

    ghost Value = { AnyTable };

    ghost coded = { the_row.coded };

    ghost view = { λ r. r.table.now };
}

impl<'t> Reader<'t> {
    pub(crate) fn new(alloc: Global, table: &'t PlannedTable) -> Self
        ensures { result ≡ table.now }
    {
        Reader {
            alloc,
            table,
            buffer: Vec::new(alloc),
            line: Vec::new(alloc),
            heard: Heard::new(alloc),
        }
    }

    pub(crate) fn table(&self) -> &Table
        ensures { result.now ≡ self.now }
    {
        self.table.table()
    }

    // The line of a piece without a zero that stands in front of some bytes, where a plan writes it behind a place of the buffer. What
    // stands in front of the place stays.
    #[tactic(auto, unfolding(crate::specs::Event::tells))]
    #[inline(always)]
    pub(crate) fn line(
        &mut self,
        bytes: &[u8],
        size: usize,
        text: &mut Vec<u8>,
        at: usize,
    ) -> Option<(Origin, usize)>
        requires place { at ≤ length text.old.items }
        requires size { size ≤ length bytes.now }
        requires short { size ≤ 65536 }
        requires none { has_zero (take size bytes.now) ≡ false }
        ensures line { IfSome result (λ line. IsNotice (drop at text.new.items)
            ((tells self.old).piece (take size bytes.now)) (notices.Line line.0 line.1)) }
        ensures front { take at text.new.items ≡ take at text.old.items }
        ensures same { self.new ≡ self.old }
    {
        if make_room(&mut self.buffer, 7 * size + 9).is_err() {
            return None;
        }
        let begin = decode_piece_in_front(bytes, size, &mut self.buffer)?;
        let code = &self.buffer[begin..];
        let Ok(end) = room_behind(text, at) else {
            return None;
        };
        line_behind(self.table, code, size as u32, text, at, end)
    }

    // Hears a piece without a zero, which bytes have whole, whatever it tells. The text of a line may stand behind a place of the
    // buffer, and what stands in front of that stays.
    #[tactic(auto, unfolding(crate::specs::Event::tells))]
    pub(crate) fn hear(
        &mut self,
        framer: &mut Framer,
        bytes: &[u8],
        start: usize,
        size: usize,
        piece: &[u8],
        text: &mut Vec<u8>,
        at: usize,
    ) -> Result<(usize, Notice<Event, Origin>), Memory>
        requires place { at ≤ length text.old.items }
        requires whole { IsWhole framer.old bytes.now start size }
        requires short { length piece.now ≤ 65536 }
        requires none { has_zero piece.now ≡ false }
        ensures taken { IfOk result (λ r. r.0 ≡ start + size + 1) }
        ensures passed { IfOk result (λ r. (t : Tells Event) (stream : List ℕ)
            → Stands framer.old stream
            → Hears t framer.new stream (take (start + size + 1) bytes.now)
            (Some (t.piece (take size (drop start bytes.now))))) }
        ensures notice { IfOk result (λ r. IsNotice (drop at text.new.items)
            ((tells self.old).piece piece.now) r.1) }
        ensures front { take at text.new.items ≡ take at text.old.items }
        ensures same { self.new ≡ self.old }
        ensures err { OnErr result (framer.new ≡ framer.old) }
    {
        make_room(&mut self.buffer, 7 * piece.len())?;
        let Some(begin) = decode_zeroless_piece(piece, &mut self.buffer) else {
            framer.pass_piece::<Event>(bytes, start, size);
            return Ok((start + size + 1, Notice::Event(Refusal::Cobs.event())));
        };
        let code = &self.buffer[begin..];
        let end = room_behind(text, at)?;
        let whole = piece.len() as u32;
        let table = self.table.table();
        let notice = notice_behind(
            self.alloc,
            table,
            code,
            whole,
            text,
            at,
            end,
            &mut self.heard,
        )?;
        framer.pass_piece::<Event>(bytes, start, size);
        Ok((start + size + 1, notice))
    }
}

#[tactic(auto, unfolding(crate::specs::Event::tells))]
impl<'t> Teller for Reader<'t> {
    type Told = Event;

    ghost tells = { λ t. tells t };

    fn piece(&mut self, piece: &[u8]) -> Result<Event, Memory> {
        make_room(&mut self.buffer, 7 * piece.len())?;
        match decode_piece(piece, &mut self.buffer) {
            Some(count) => {
                let bytes = &self.buffer[..count];
                make_room(&mut self.line, line_room(count))?;
                let line = self.line.as_mut_slice();
                let notice = notice_in_front(
                    self.alloc,
                    self.table,
                    bytes,
                    piece.len() as u32,
                    line,
                    &mut self.heard,
                )?;
                event_of_notice(self.alloc, notice, line)
            }
            None => Ok(Refusal::Cobs.event()),
        }
    }

    fn long(&self) -> Event {
        Refusal::Long.event()
    }

    fn cut_front(&self, bytes: u64) -> Event {
        Event::CutFront { bytes }
    }

    fn cut_tail(&self, bytes: u64) -> Event {
        Event::CutTail { bytes }
    }
}

// UTF-8 as a text of its own.
fn text_of(alloc: Global, bytes: &[u8]) -> Result<Text, Memory>
    requires { IsUtf8 bytes.now }
    ensures { IfOk result (λ text. text ≡ bytes.now) }
{
    let Ok(text) = str::from_utf8(bytes) else {
        unreachable!();
    };
    let mut copy = Text::new(alloc);
    match copy.push_str(text) {
        Ok(()) => Ok(copy),
        Err(_) => Err(Memory),
    }
}

// The event of a line with this text.
fn event_of_line(origin: Origin, text: Text) -> Event
    ensures { result ≡ line_with origin text }
{
    Event::Line {
        index: origin.index,
        place: origin.place,
        parts: origin.parts,
        text,
    }
}

// The event that a notice tells, with the text of a line as its own.
fn event_of_notice(
    alloc: Global,
    notice: Notice<Event, Origin>,
    line: &[u8],
) -> Result<Event, Memory>
    requires text { HasText line.now notice }
    requires utf8 { IsPrinted line.now notice }
    requires some { told_by line_with line.now notice ≡ None → ⊥ }
    ensures { IfOk result (λ event. told_by line_with line.now notice ≡ Some event) }
{
    match notice {
        Notice::Nothing => unreachable!(),
        Notice::Event(event) => Ok(event),
        Notice::Line(origin, size) => { Ok(event_of_line(origin, text_of(alloc, &line[..size])?)) }
    }
}

// What a message that is heard tells.
pub(crate) fn event_of_heard(
    alloc: Global,
    table: &Table,
    bytes: &[u8],
    size: u32,
    heard: &Heard,
) -> Result<Event, Memory>
    requires { IsHeard table.now bytes.now heard.now.place heard.now.stamp heard.now.stm.index
        heard.now.stm.args }
    ensures { IfOk result (λ event. event ≡ of_heard table.now size heard.now.place heard.now.stamp
        heard.now.stm.index heard.now.stm.args) }
{
    match parted_line(alloc, table, &heard.stamp, &heard.stm) {
        Ok((front, text)) => Ok(event_of_line(origin_of(heard, size, front), text)),
        Err(EagerFault::Wide) => Ok(Refusal::Wide.event()),
        Err(EagerFault::Memory) => Err(Memory),
    }
}
