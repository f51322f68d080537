//! Who hears the parts of a recording.

ghost use Rattle.std.specs.Prelude.{◌≡◌, ◌≤◌, ◌<◌, ◌+◌, ◌^◌, ℕ, List, [], length, max, take, IfErr, OnOk, OnErr};
ghost use Rattle.std.specs.Io.KnownBytes.{Consumes, prepend_known};
ghost use Rattle.dl_io.specs.Outside.{Rose};
ghost use Rattle.defmt_framing.specs.Framing.{Stands};
ghost use Rattle.defmt_listen.specs.Gathered.{gathered, IsGathered};
ghost use Rattle.defmt_listen.specs.Heard.{HeardPart, HeardSome, BreaksPart, IsDrained, IsMet};
ghost use Rattle.defmt_listen.specs.Streams.{output_of};

use crate::fault::ListenFault;
use crate::listener::Listener;
use crate::part::hear_part;
use crate::report::Report;
use crate::reporter::Reporter;
use crate::turns::Turns;
use dl_io::{Failed, Sink};

/// What comes behind the bytes that were read.
#[derive(Clone, Copy)]
pub enum Behind {
    /// There may be more.
    More,
    /// The source is at its end.
    End,
    /// The source failed.
    Fault,
}

/// How many bytes were read into the front of a buffer, and what comes behind them.
#[derive(Clone, Copy)]
pub struct Portion {
    /// How many.
    pub count: usize,
    /// What comes behind them.
    pub behind: Behind,
}

/// Reads the parts of a recording, and hears each of them for a listener and a reporter.
pub trait Crew<S: Turns<K>, K: Sink, L: Listener, R: Reporter<L>> {
    /// Whether it hears for this listener and this reporter.
    ghost suits: { Self → L → R → Type 0 };

    /// Whether it may read the source, beside the sink as it is.
    ghost may: { S → K → Type 0 };

    /// The bytes that it has read ahead.
    ghost ahead: { Self → List ℕ };

    /// What it knows of a source that had failed so often before it was first read.
    ghost knows: { ℕ → Self → S → Type 0 };

    /// The longest buffer that it wants.
    fn most(&self) -> usize;

    /// Puts the next part into the front of the buffer. So many bytes may still come, those that were read ahead among them.
    fn read(&mut self, src: &mut S, out: &K, buf: &mut Vec<u8>, room: usize) -> Portion
        requires turn { ahead self.old ≡ [] → may src.old out.now }
        requires buffer { 0 < length buf.old.items }
        requires within { length (ahead self.old) ≤ room }
        ensures buffer { 0 < length buf.new.items }
        ensures within { result.count ≤ length buf.new.items }
        ensures bytes { Consumes (prepend_known (ahead self.old) (S.left src.old))
            (prepend_known (ahead self.new) (S.left src.new)) (take result.count buf.new.items) }
        ensures room { result.count + length (ahead self.new) ≤ max room 1 }
        ensures more { result.behind ≡ Behind.More → 0 < result.count }
        ensures drained { IsDrained (ahead self.new) result.behind }
        ensures known { (count : ℕ) → knows count self.old src.old → knows count self.new src.new
            × IsMet count (S.left src.new) (S.faults src.new) result.behind }
        ensures suits { (listener : L) (reporter : R) → suits self.old listener reporter
            → suits self.new listener reporter }
        ensures later { S.faults src.old ≤ S.faults src.new };

    /// Hears all the bytes, and writes what is printed of what they tell.
    fn hear(
        &mut self,
        listener: &mut L,
        reporter: &mut R,
        out: &mut K,
        report: &mut Report,
        bytes: &[u8],
    ) -> Result<(), ListenFault>
        requires suits { suits self.old listener.old reporter.old }
        requires within { IsGathered report.old }
        requires empty { gathered report.old ≡ [] }
        requires few { report.old.faults + length bytes.now < 2 ^ 64 }
        ensures heard { OnOk result
            ((stream : List ℕ) → Stands (L.framing listener.old) stream → HeardPart
            (L.tells listener.old) R.reporting (L.framing listener.new) reporter.old reporter.new
            (output_of K.held K.faults out.old out.new)
            stream bytes.now report.old.faults report.new.faults) }
        ensures within { OnOk result (IsGathered report.new) }
        ensures empty { OnOk result (gathered report.new ≡ []) }
        ensures few { OnOk result (report.new.faults ≤ report.old.faults + length bytes.now) }
        ensures some { OnErr result
            ((stream : List ℕ) → Stands (L.framing listener.old) stream → HeardSome
            (L.tells listener.old) R.reporting reporter.old
            (output_of K.held K.faults out.old out.new) stream bytes.now) }
        ensures fault { IfErr result
            (λ fault. BreaksPart (Rose (K.faults out.old) (K.faults out.new)) fault) }
        ensures same { OnOk result (L.tells listener.new ≡ L.tells listener.old) }
        ensures suits { OnOk result (suits self.new listener.new reporter.new) }
        ensures ahead { OnOk result (ahead self.new ≡ ahead self.old) }
        ensures known { OnOk result ((count : ℕ) (src : S) → knows count self.old src
            → knows count self.new src) }
        ensures later { K.faults out.old ≤ K.faults out.new };
}

/// Reads what one read gives, and hears it as it comes.
#[derive(Drop)]
pub struct Alone;

// The most bytes that are read at a time.
const PART: usize = 65_536;

// One read into the front of a buffer, of at most so many bytes, or of one.
fn read_once<S: Turns<K>, K: Sink>(src: &mut S, out: &K, buf: &mut [u8], room: usize) -> Portion
    requires turn { S.may src.old out.now }
    requires buffer { 0 < length buf.old }
    ensures within { result.count ≤ length buf.new }
    ensures size { length buf.new ≡ length buf.old }
    ensures bytes { Consumes (S.left src.old) (S.left src.new) (take result.count buf.new) }
    ensures room { result.count ≤ max room 1 }
    ensures more { result.behind ≡ Behind.More → 0 < result.count }
    ensures known { (count : ℕ) → count ≤ S.faults src.old → (count ≤ S.faults src.new)
        × IsMet count (S.left src.new) (S.faults src.new) result.behind }
    ensures later { S.faults src.old ≤ S.faults src.new }
{
    let most = buf.len().min(room).max(1);
    match src.next(out, &mut buf[..most]) {
        Ok(0) => Portion {
            count: 0,
            behind: Behind::End,
        },
        Ok(count) => Portion {
            count,
            behind: Behind::More,
        },
        Err(Failed) => Portion {
            count: 0,
            behind: Behind::Fault,
        },
    }
}

impl<S: Turns<K>, K: Sink, L: Listener, R: Reporter<L>> Crew<S, K, L, R> for Alone {
    ghost suits = { λ _ _ _. Unit {0} };

    ghost may = { λ src out. S.may src out };

    ghost ahead = { λ _. [] };

    ghost knows = { λ count _ src. count ≤ S.faults src };

    fn most(&self) -> usize {
        PART
    }

    fn read(&mut self, src: &mut S, out: &K, buf: &mut Vec<u8>, room: usize) -> Portion {
        read_once(src, out, buf, room)
    }

    fn hear(
        &mut self,
        listener: &mut L,
        reporter: &mut R,
        out: &mut K,
        report: &mut Report,
        bytes: &[u8],
    ) -> Result<(), ListenFault> {
        hear_part(listener, reporter, out, report, bytes)
    }
}
