//! A whole recording is heard.
ghost use Rattle.std.specs.Prelude.{◌≡◌, ◌≤◌, ◌<◌, ◌+◌, ◌^◌, ℕ, [], length, take, IfOk, IfErr};
ghost use Rattle.std.specs.Io.KnownBytes.{Consumes, prepend_known};
ghost use Rattle.dl_io.specs.Outside.{Took};
ghost use Rattle.defmt_framing.specs.Framing.{Stands};
ghost use Rattle.defmt_listen.specs.Heard.{HeardAll, HeardTo, Breaks, IsDrained, IsMet, TakesTurns, recording_limit};
ghost use Rattle.defmt_listen.specs.Streams.{input_of, output_of};

use crate::crew::{Alone, Behind, Crew, Portion};
use crate::fault::ListenFault;
use crate::listener::Listener;
use crate::part::add_told;
use crate::report::{Report, write_lines};
use crate::reporter::Reporter;
use crate::turns::Turns;
use dl_io::{Memory, Sink, Source};
use std::alloc::Global;

// So many bytes are read at first.
const FIRST_PART: usize = 8_192;

const RECORDING_LIMIT: usize = 268_435_456;

/// Reads the source to its end as a recording, gives its bytes to the listener, and writes what the reporter prints of each event
/// to the sink. Answers how many events are faults.
///
/// At most 65,536 bytes are read at a time, and what is begun in them is written before more is read, as [`listen_in_turns`]
/// says. A recording has at most 268,435,456 bytes. The source, this limit and the sink take turns, and the first fault that
/// is met is answered.
pub fn listen<S: Source, K: Sink, L: Listener + Drop, R: Reporter<L> + Drop>(
    alloc: Global,
    src: &mut S,
    out: &mut K,
    listener: L,
    reporter: R,
) -> Result<u64, ListenFault>
    requires { Stands (L.framing listener) [] }
    ensures heard { IfOk result (λ count. HeardAll
        (record {
          tells = L.tells listener;
          reporting = R.reporting;
          start = reporter;
          limit = recording_limit;
        })
        (input_of S.left S.faults src.old src.new)
        (output_of K.held K.faults out.old out.new) count) }
    ensures breaks { IfErr result (λ fault. Breaks
        (record {
          tells = L.tells listener;
          reporting = R.reporting;
          start = reporter;
          limit = recording_limit;
        })
        (input_of S.left S.faults src.old src.new)
        (output_of K.held K.faults out.old out.new) fault) }
    ensures source_count { S.faults src.old ≤ S.faults src.new }
    ensures sink_count { K.faults out.old ≤ K.faults out.new }
{
    match listen_in_turns(alloc, src, out, listener, reporter, RECORDING_LIMIT) {
        Ok((count, _)) => Ok(count),
        Err(fault) => Err(fault),
    }
}

/// The same with a recording of at most so many bytes, from a source that may be read only where what is begun in all that was taken of
/// it is written. Each source is one that may be read anywhere. Answers how many events are faults, and the reporter as it is behind
/// them.
pub fn listen_in_turns<S: Turns<K>, K: Sink, L: Listener + Drop, R: Reporter<L> + Drop>(
    alloc: Global,
    src: &mut S,
    out: &mut K,
    listener: L,
    reporter: R,
    limit: usize,
) -> Result<(u64, R), ListenFault>
    requires stands { Stands (L.framing listener) [] }
    requires few { limit + 1 < 2 ^ 64 }
    requires turns { TakesTurns
        (record {
          tells = L.tells listener;
          reporting = R.reporting;
          start = reporter;
          limit = limit;
        })
        S.left K.held S.may src.old out.old }
    ensures heard { IfOk result (λ r. HeardTo
        (record {
          tells = L.tells listener;
          reporting = R.reporting;
          start = reporter;
          limit = limit;
        })
        (input_of S.left S.faults src.old src.new)
        (output_of K.held K.faults out.old out.new) r.0 r.1) }
    ensures breaks { IfErr result (λ fault. Breaks
        (record {
          tells = L.tells listener;
          reporting = R.reporting;
          start = reporter;
          limit = limit;
        })
        (input_of S.left S.faults src.old src.new)
        (output_of K.held K.faults out.old out.new) fault) }
    ensures source_count { S.faults src.old ≤ S.faults src.new }
    ensures sink_count { K.faults out.old ≤ K.faults out.new }
{
    listen_by(&mut Alone, alloc, src, out, listener, reporter, limit)
}

/// The same, with each part read and heard by a crew that may read the source there.
pub fn listen_by<
    C: Crew<S, K, L, R>,
    S: Turns<K>,
    K: Sink,
    L: Listener + Drop,
    R: Reporter<L> + Drop,
>(
    crew: &mut C,
    alloc: Global,
    src: &mut S,
    out: &mut K,
    listener: L,
    reporter: R,
    limit: usize,
) -> Result<(u64, R), ListenFault>
    requires stands { Stands (L.framing listener) [] }
    requires few { limit + 1 < 2 ^ 64 }
    requires suits { C.suits crew.old listener reporter }
    requires ahead { C.ahead crew.old ≡ [] }
    requires known { C.knows (S.faults src.old) crew.old src.old }
    requires turns { TakesTurns
        (record {
          tells = L.tells listener;
          reporting = R.reporting;
          start = reporter;
          limit = limit;
        })
        S.left K.held C.may src.old out.old }
    ensures heard { IfOk result (λ r. HeardTo
        (record {
          tells = L.tells listener;
          reporting = R.reporting;
          start = reporter;
          limit = limit;
        })
        (input_of S.left S.faults src.old src.new)
        (output_of K.held K.faults out.old out.new) r.0 r.1) }
    ensures breaks { IfErr result (λ fault. Breaks
        (record {
          tells = L.tells listener;
          reporting = R.reporting;
          start = reporter;
          limit = limit;
        })
        (input_of S.left S.faults src.old src.new)
        (output_of K.held K.faults out.old out.new) fault) }
    ensures source_count { S.faults src.old ≤ S.faults src.new }
    ensures sink_count { K.faults out.old ≤ K.faults out.new }
{
    let mut listener = listener;
    let mut reporter = reporter;
    let mut buf = part_buffer(alloc, crew.most())?;
    let mut report = Report::new(alloc);
    let mut taken = 0usize;
    'parts: loop {
        let part = next_part(crew, src, out, &mut buf, taken, limit)?;
        crew.hear(
            &mut listener,
            &mut reporter,
            out,
            &mut report,
            &buf[..part.count],
        )?;
        taken += part.count;
        match part.behind {
            Behind::More => widen(&mut buf, part.count, crew.most()),
            Behind::End => break,
            Behind::Fault => return Err(ListenFault::Source),
        }
    }
    add_told::<L, R>(&mut reporter, &mut report, listener.finish())?;
    write_lines(out, &mut report)?;
    Ok((report.faults, reporter))
}

// The buffer for the first part, which is no larger than the most bytes of a part.
fn part_buffer(alloc: Global, most: usize) -> Result<Vec<u8>, Memory>
    ensures { IfOk result (λ buf. 0 < length buf.items) }
{
    let mut buf = Vec::new(alloc);
    buf.resize(FIRST_PART.min(most).max(1), 0)?;
    Ok(buf)
}

// Makes a buffer that was filled twice as large, up to the most bytes of a part. Where there is no memory for that it stays
// as it is.
fn widen(buf: &mut Vec<u8>, count: usize, most: usize)
    ensures { length buf.old.items ≤ length buf.new.items }
{
    let size = buf.len();
    if count == size && size < most {
        let _ = buf.resize((size * 2).min(most), 0);
    }
}

// Reads the next part, behind so many bytes that were taken, of at most so many.
fn next_part<C: Crew<S, K, L, R>, S: Turns<K>, K: Sink, L: Listener, R: Reporter<L>>(
    crew: &mut C,
    src: &mut S,
    out: &K,
    buf: &mut Vec<u8>,
    taken: usize,
    limit: usize,
) -> Result<Portion, ListenFault>
    requires turn { C.ahead crew.old ≡ [] → C.may src.old out.now }
    requires buffer { 0 < length buf.old.items }
    requires within { taken + length (C.ahead crew.old) ≤ limit }
    ensures buffer { 0 < length buf.new.items }
    ensures within { IfOk result (λ part. (part.count ≤ length buf.new.items)
        × (taken + part.count + length (C.ahead crew.new) ≤ limit)) }
    ensures bytes { IfOk result (λ part. Consumes (prepend_known (C.ahead crew.old) (S.left src.old))
        (prepend_known (C.ahead crew.new) (S.left src.new)) (take part.count buf.new.items)) }
    ensures more { IfOk result (λ part. part.behind ≡ Behind.More → 0 < part.count) }
    ensures drained { IfOk result (λ part. IsDrained (C.ahead crew.new) part.behind) }
    ensures known { IfOk result (λ part. (count : ℕ) → C.knows count crew.old src.old
        → C.knows count crew.new src.new
        × IsMet count (S.left src.new) (S.faults src.new) part.behind) }
    ensures suits { (listener : L) (reporter : R) → C.suits crew.old listener reporter
        → C.suits crew.new listener reporter }
    ensures long { IfErr result (λ fault. (fault ≡ ListenFault.Long) × (taken ≡ limit)
        × Took (prepend_known (C.ahead crew.old) (S.left src.old)) (S.left src.new)
        (λ more. length more ≡ 1)) }
    ensures later { S.faults src.old ≤ S.faults src.new }
{
    let part = crew.read(src, out, buf, limit - taken);
    if taken == limit && part.count > 0 {
        return Err(ListenFault::Long);
    }
    Ok(part)
}
