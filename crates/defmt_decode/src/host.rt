//! The host.

ghost use Rattle.std.specs.Prelude.{◌≡◌, ◌≤◌, ◌<◌, ◌++◌, ◌∷◌, [], None, Some, true, List, ℕ, length, take, drop, IfNone, IfOk, IfSome, OnErr, option_to_list};
ghost use Rattle.std.specs.Str.{IsUtf8};
ghost use Rattle.defmt_decode.specs.Event.{IsPrinted, tells, events_of, begun_of, line_with};
ghost use Rattle.defmt_framing.specs.Notices.{HasText, told_by};

use crate::event::Event;
use crate::reader::Reader;
use defmt_framing::{Framer, Notice};
use defmt_intern::Table;
use defmt_plan::{Origin, PlannedTable};
use dl_io::Memory;
use std::alloc::Global;
use std::marker::Model;

/// Hears one stream of frames, which is fed in parts, and answers its events.
///
/// Contracts see a host as its table, how many bytes it has heard, whether a zero was among them,
/// how many came after the last zero (of all where there was none), and, after a zero, the first
/// 65,537 of these. It stands for a stream where these parts are the stream's. The stream is cut
/// at its zeros: what comes before the first is the front, what lies between two that follow one
/// another is a piece, what comes after the last is the tail (defmt book, the encoding rzcobs).
#[derive(Drop)]
pub struct Host<'t> {
    reader: Reader<'t>,
    framer: Framer,
}

impl<'t> Model for Host<'t> {
    ghost use Rattle.defmt_decode.specs.Hearing.{Hearing, hearing_code};

    ghost Value = { Hearing };

    ghost coded = { hearing_code };

    ghost view = { λ h. record { table = h.reader; framing = h.framer } };
}

impl<'t> Host<'t> {
    ghost use Rattle.defmt_framing.specs.Calls.{HeardAs};
    ghost use Rattle.defmt_framing.specs.Cut.{tail};
    ghost use Rattle.defmt_framing.specs.Framing.{Stands, Hears, is_between};

    /// A host of this table that has heard nothing. Takes no memory; what it works in grows with the pieces that it is fed.
    pub fn new(alloc: Global, table: &'t PlannedTable) -> Host<'t>
        ensures stands { Stands result.framing [] }
        ensures table { result.table ≡ table.now }
    {
        Host {
            reader: Reader::new(alloc, table),
            framer: Framer::new(alloc),
        }
    }

    /// Takes bytes up to and with the zero that ends the first front or piece which isn't empty,
    /// and answers how many it took with the event of that part.
    ///
    /// `None` comes exactly where it took all bytes and none ended such a part. On want of memory
    /// nothing was taken, and the host is unchanged. After any event it goes on with what follows.
    #[inline(never)]
    pub fn feed(&mut self, bytes: &[u8]) -> Result<(usize, Option<Event>), Memory>
        // No more than these bytes were taken.
        ensures within { IfOk result (λ r. r.0 ≤ length bytes.now) }
        // For each stream that the host stands for: it stands for that stream and the bytes that
        // were taken, the event is what these begin beyond it, and comes by the last of them.
        ensures hears { IfOk result (λ r. (stream : List ℕ) → Stands self.old.framing stream
            → Hears (tells self.old.table) self.new.framing stream (take r.0 bytes.now) r.1) }
        // Something was taken where there was something.
        ensures some { IfOk result (λ r. 0 < length bytes.now → 0 < r.0) }
        // Without an event all was taken.
        ensures all { IfOk result (λ r. r.1 ≡ None → r.0 ≡ length bytes.now) }
        ensures table { self.new.table ≡ self.old.table }
        ensures err { OnErr result (self.new ≡ self.old) }
    {
        self.framer.feed(&mut self.reader, bytes)
    }

    /// Takes bytes up to and with the zero that ends the next piece, where that is a usual line, whose text it writes behind a
    /// place of the buffer, which grows as it has to. Answers how many bytes it took, where the line comes from, and how many
    /// bytes its text has.
    ///
    /// `None` says nothing of the bytes: the host is unchanged, and `hear_any` tells what they begin. What stands in front of the
    /// place stays, whatever is answered. It takes no memory, once the buffers are large enough.
    #[inline(always)]
    pub fn hear_line(
        &mut self,
        bytes: &[u8],
        text: &mut Vec<u8>,
        at: usize,
    ) -> Option<(usize, Origin, usize)>
        requires { at ≤ length text.old.items }
        ensures within { IfSome result (λ r. r.0 ≤ length bytes.now) }
        ensures some { IfSome result (λ r. 0 < r.0) }
        // As of `feed`, with the event of this line.
        ensures hears { IfSome result (λ r. (stream : List ℕ) → Stands self.old.framing stream
            → Hears (tells self.old.table) self.new.framing stream (take r.0 bytes.now)
            (Some (line_with r.1 (take r.2 (drop at text.new.items))))) }
        ensures text { IfSome result (λ r. r.2 ≤ length (drop at text.new.items)) }
        ensures utf8 { IfSome result (λ r. IsUtf8 (take r.2 (drop at text.new.items))) }
        ensures front { take at text.new.items ≡ take at text.old.items }
        ensures table { self.new.table ≡ self.old.table }
        ensures none { IfNone result (self.new ≡ self.old) }
    {
        let (start, size) = self.framer.whole_piece(bytes)?;
        let (origin, count) = self.reader.line(&bytes[start..], size, text, at)?;
        self.framer.pass_piece::<Event>(bytes, start, size);
        Some((start + size + 1, origin, count))
    }

    /// Does what `feed` does, but the text of a usual line is written behind a place of the buffer, which grows as it has to. What
    /// stands in front of the place stays, whatever is answered. It takes no memory for a usual line, once the buffers are large enough.
    pub fn hear(
        &mut self,
        bytes: &[u8],
        text: &mut Vec<u8>,
        at: usize,
    ) -> Result<(usize, Notice<Event, Origin>), Memory>
        requires { at ≤ length text.old.items }
        ensures within { IfOk result (λ r. r.0 ≤ length bytes.now) }
        // As of `feed`, with the event that the notice tells.
        ensures hears { IfOk result (λ r. (stream : List ℕ) → Stands self.old.framing stream
            → Hears (tells self.old.table) self.new.framing stream (take r.0 bytes.now)
            (told_by line_with (drop at text.new.items) r.1)) }
        ensures text { IfOk result (λ r. HasText (drop at text.new.items) r.1) }
        // It is UTF-8.
        ensures utf8 { IfOk result (λ r. IsPrinted (drop at text.new.items) r.1) }
        ensures front { take at text.new.items ≡ take at text.old.items }
        ensures some { IfOk result (λ r. 0 < length bytes.now → 0 < r.0) }
        // A notice of nothing comes only where all was taken.
        ensures all { IfOk result (λ r. told_by line_with (drop at text.new.items) r.1 ≡ None
            → r.0 ≡ length bytes.now) }
        ensures table { self.new.table ≡ self.old.table }
        ensures err { OnErr result (self.new ≡ self.old) }
    {
        match self.hear_line(bytes, text, at) {
            Some((taken, origin, size)) => Ok((taken, Notice::Line(origin, size))),
            None => self.hear_any(bytes, text, at),
        }
    }

    /// Does what `hear` does, for bytes of which `hear_line` told no line: a usual line is told as well, but slowly, and takes
    /// memory.
    #[inline(never)]
    pub fn hear_any(
        &mut self,
        bytes: &[u8],
        text: &mut Vec<u8>,
        at: usize,
    ) -> Result<(usize, Notice<Event, Origin>), Memory>
        requires { at ≤ length text.old.items }
        ensures within { IfOk result (λ r. r.0 ≤ length bytes.now) }
        // As of `feed`, with the event that the notice tells.
        ensures hears { IfOk result (λ r. (stream : List ℕ) → Stands self.old.framing stream
            → Hears (tells self.old.table) self.new.framing stream (take r.0 bytes.now)
            (told_by line_with (drop at text.new.items) r.1)) }
        ensures text { IfOk result (λ r. HasText (drop at text.new.items) r.1) }
        // It is UTF-8.
        ensures utf8 { IfOk result (λ r. IsPrinted (drop at text.new.items) r.1) }
        ensures front { take at text.new.items ≡ take at text.old.items }
        ensures some { IfOk result (λ r. 0 < length bytes.now → 0 < r.0) }
        // A notice of nothing comes only where all was taken.
        ensures all { IfOk result (λ r. told_by line_with (drop at text.new.items) r.1 ≡ None
            → r.0 ≡ length bytes.now) }
        ensures table { self.new.table ≡ self.old.table }
        ensures err { OnErr result (self.new ≡ self.old) }
    {
        let Some((start, size)) = self.framer.whole_piece(bytes) else {
            let (taken, event) = self.feed(bytes)?;
            return Ok((taken, notice_of(event)));
        };
        let piece = &bytes[start..start + size];
        self.reader
            .hear(&mut self.framer, bytes, start, size, piece, text, at)
    }

    /// Begins anew, as one that has heard a zero alone. Takes no memory.
    pub fn begin(&mut self)
        ensures stands { Stands self.new.framing (0 ∷ []) }
        ensures table { self.new.table ≡ self.old.table }
    {
        self.framer.begin();
    }

    /// Whether the last byte that was heard is a zero. Takes no memory.
    pub fn is_between(&self) -> bool
        ensures is { result ≡ is_between self.now.framing }
        ensures ended { result ≡ true → (stream : List ℕ) → Stands self.now.framing stream → tail stream ≡ [] }
    {
        self.framer.is_between()
    }

    /// Takes so many bytes that end with a zero, where the last byte before them is one too. Their events are known elsewhere.
    pub fn pass_pieces(&mut self, size: usize)
        requires { is_between self.old.framing ≡ true }
        ensures passed { (stream bytes : List ℕ) → Stands self.old.framing stream
            → length bytes ≡ size → tail (0 ∷ bytes) ≡ []
            → HeardAs (tells self.old.table) self.new.framing stream bytes
            (begun_of self.old.table (0 ∷ bytes)) }
        ensures table { self.new.table ≡ self.old.table }
    {
        self.framer.pass_pieces::<Event>(size);
    }

    /// The event that the end of the stream brings: a cut front where no zero was heard and
    /// something was, a cut tail where bytes follow the last zero, else none. Takes no memory.
    pub fn finish(self) -> Option<Event>
        ensures { (stream : List ℕ) → Stands self.entry.framing stream
            → events_of self.entry.table stream
            ≡ begun_of self.entry.table stream ++ option_to_list result }
    {
        self.framer.finish(&self.reader)
    }

    /// Its table. Takes no memory.
    pub fn table(&self) -> &Table
        ensures { result.now ≡ self.now.table }
    {
        self.reader.table()
    }

    /// How many bytes were heard; the last value of its type where there were more. Takes no
    /// memory.
    pub fn heard_len(&self) -> u64
        ensures { result ≡ self.now.framing.heard }
    {
        self.framer.heard_len()
    }
}

// A notice of what was told, if something was.
fn notice_of(event: Option<Event>) -> Notice<Event, Origin>
    ensures told { (buffer : List ℕ) → told_by line_with buffer result ≡ event }
    ensures text { (buffer : List ℕ) → HasText buffer result }
    ensures utf8 { (buffer : List ℕ) → IsPrinted buffer result }
{
    match event {
        Some(event) => Notice::Event(event),
        None => Notice::Nothing,
    }
}
