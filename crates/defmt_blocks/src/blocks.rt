//! A crew that has threads hear the blocks of a recording ahead.
ghost use Rattle.std.specs.Prelude.{◌≡◌, ◌≤◌, ◌<◌, ◌+◌, ◌^◌, ℕ, List, [], length, max, take, IfErr, OnErr, OnOk};
ghost use Rattle.std.specs.Io.KnownBytes.{Consumes, prepend_known};
ghost use Rattle.dl_io.specs.Outside.{Rose};
ghost use Rattle.defmt_framing.specs.Framing.{Stands};
ghost use Rattle.defmt_listen.specs.Gathered.{gathered, IsGathered};
ghost use Rattle.defmt_listen.specs.Heard.{BreaksPart, HeardPart, HeardSome, IsDrained, IsMet};
ghost use Rattle.defmt_listen.specs.Streams.{output_of};
ghost use Rattle.defmt_blocks.specs.Blocks.{Suits};
ghost use Rattle.defmt_blocks.specs.Queue.{KnowsOf, bytes_in};
ghost use Rattle.defmt_decode.specs.Event.{tells};
ghost use Rattle.defmt_recording.specs.Styled.{by_style};

use crate::ahead::{Ahead, fill_front};
use crate::joining::hear_told;
use crate::pool::Pool;
use crate::sent::Kin;
use defmt_listen::{Behind, Crew, ListenFault, Portion, Report};
use defmt_recording::{HostListener, Styled};
use dl_io::{Sink, Source};
use std::sync::Wait;

/// Reads blocks ahead, has threads hear them, and takes over what they told.
#[derive(Drop)]
pub struct Blocks<'a, 'r, G: Kin, R> {
    pub(crate) pool: Pool<'a, 'r, G, R>,
    pub(crate) ahead: Ahead,
    // The most bytes of a block.
    pub(crate) block: usize,
    // Whether the threads were sent what is heard next.
    pub(crate) sent: bool,
}

// Reads blocks until no buffer is left, and sends each to the threads.
fn read_ahead<G: Kin, R: Wait, S: Source>(
    ahead: &mut Ahead,
    pool: &mut Pool<'_, '_, G, R>,
    src: &mut S,
    room: usize,
)
    requires { ahead.old.size ≤ room }
    ensures within { ahead.new.size ≤ room }
    ensures bytes { Consumes (prepend_known (bytes_in ahead.old.parts.items) (S.left src.old))
        (prepend_known (bytes_in ahead.new.parts.items) (S.left src.new)) [] }
    ensures known { (count : ℕ) → KnowsOf count ahead.old.behind (S.left src.old) (S.faults src.old)
        → KnowsOf count ahead.new.behind (S.left src.new) (S.faults src.new) }
    ensures later { S.faults src.old ≤ S.faults src.new }
{
    'blocks: for _ in 0..ahead.left() {
        if !ahead.add(src, room) {
            break 'blocks;
        }
        pool.send(ahead.last());
    }
}

// Reads what no buffer was left for, or tells what comes behind all that was read.
fn read_on<S: Source>(behind: Behind, src: &mut S, buf: &mut Vec<u8>, room: usize) -> Portion
    requires { 0 < length buf.old.items }
    ensures buffer { 0 < length buf.new.items }
    ensures within { result.count ≤ length buf.new.items }
    ensures bytes { Consumes (S.left src.old) (S.left src.new) (take result.count buf.new.items) }
    ensures room { result.count ≤ max room 1 }
    ensures more { result.behind ≡ Behind.More → 0 < result.count }
    ensures known { (count : ℕ) → count ≤ S.faults src.old
        → IsMet count (S.left src.old) (S.faults src.old) behind
        → IsMet count (S.left src.new) (S.faults src.new) behind
        × IsMet count (S.left src.new) (S.faults src.new) result.behind }
    ensures later { S.faults src.old ≤ S.faults src.new }
{
    match behind {
        Behind::More => {
            let most = buf.len().min(room).max(1);
            fill_front(src, buf, most)
        }
        Behind::End | Behind::Fault => Portion { count: 0, behind },
    }
}

impl<'a, 'r, G: Kin, R: Wait, S: Source, K: Sink> Crew<S, K, HostListener<'a>, Styled<'a>>
    for Blocks<'a, 'r, G, R> {
    ghost suits = { λ _ listener reporter. Suits G.says listener reporter };

    ghost may = { λ _ _. Unit {0} };

    ghost ahead = { λ crew. bytes_in crew.ahead.parts.items };

    ghost knows = { λ count crew src. KnowsOf count crew.ahead.behind (S.left src) (S.faults src) };

    fn most(&self) -> usize {
        self.block
    }

    fn read(&mut self, src: &mut S, _: &K, buf: &mut Vec<u8>, room: usize) -> Portion
        requires buffer { 0 < length buf.old.items }
        requires within { length (bytes_in self.old.ahead.parts.items) ≤ room }
        ensures buffer { 0 < length buf.new.items }
        ensures within { result.count ≤ length buf.new.items }
        ensures bytes { Consumes (prepend_known (bytes_in self.old.ahead.parts.items) (S.left src.old))
            (prepend_known (bytes_in self.new.ahead.parts.items) (S.left src.new))
            (take result.count buf.new.items) }
        ensures room { result.count + length (bytes_in self.new.ahead.parts.items) ≤ max room 1 }
        ensures more { result.behind ≡ Behind.More → 0 < result.count }
        ensures drained { IsDrained (bytes_in self.new.ahead.parts.items) result.behind }
        ensures known { (count : ℕ) → KnowsOf count self.old.ahead.behind (S.left src.old) (S.faults src.old)
            → KnowsOf count self.new.ahead.behind (S.left src.new) (S.faults src.new)
            × IsMet count (S.left src.new) (S.faults src.new) result.behind }
        ensures suits { (listener : _) (reporter : _) → Suits G.says listener reporter
            → Suits G.says listener reporter }
        ensures later { S.faults src.old ≤ S.faults src.new }
    {
        read_ahead(&mut self.ahead, &mut self.pool, src, room);
        match self.ahead.give(buf) {
            Some(count) => {
                self.sent = true;
                Portion {
                    count,
                    behind: Behind::More,
                }
            }
            None => {
                self.sent = false;
                read_on(self.ahead.behind, src, buf, room)
            }
        }
    }

    fn hear(
        &mut self,
        listener: &mut HostListener<'a>,
        reporter: &mut Styled<'a>,
        out: &mut K,
        report: &mut Report,
        bytes: &[u8],
    ) -> Result<(), ListenFault>
        requires suits { Suits G.says listener.old reporter.old }
        requires within { IsGathered report.old }
        requires empty { gathered report.old ≡ [] }
        requires few { report.old.faults + length bytes.now < 2 ^ 64 }
        ensures heard { OnOk result
            ((stream : List ℕ) → Stands listener.old.host.framing stream → HeardPart
            (tells listener.old.host.table) by_style listener.new.host.framing reporter.old reporter.new
            (output_of K.held K.faults out.old out.new)
            stream bytes.now report.old.faults report.new.faults) }
        ensures within { OnOk result (IsGathered report.new) }
        ensures empty { OnOk result (gathered report.new ≡ []) }
        ensures few { OnOk result (report.new.faults ≤ report.old.faults + length bytes.now) }
        ensures some { OnErr result
            ((stream : List ℕ) → Stands listener.old.host.framing stream → HeardSome
            (tells listener.old.host.table) by_style reporter.old
            (output_of K.held K.faults out.old out.new) stream bytes.now) }
        ensures fault { IfErr result
            (λ fault. BreaksPart (Rose (K.faults out.old) (K.faults out.new)) fault) }
        ensures same { OnOk result (tells listener.new.host.table ≡ tells listener.old.host.table) }
        ensures suits { OnOk result (Suits G.says listener.new reporter.new) }
        ensures ahead { OnOk result (bytes_in self.new.ahead.parts.items
            ≡ bytes_in self.old.ahead.parts.items) }
        ensures known { OnOk result ((count : ℕ) (src : S)
            → KnowsOf count self.old.ahead.behind (S.left src) (S.faults src)
            → KnowsOf count self.new.ahead.behind (S.left src) (S.faults src)) }
        ensures later { K.faults out.old ≤ K.faults out.new }
    {
        let side = if self.sent { self.pool.next() } else { None };
        let heard = hear_told(listener, reporter, out, report, bytes, &side);
        if let Some(side) = side {
            self.pool.give_back(side);
        }
        heard
    }
}
