//! The ID of a control block in the segments.

ghost use Rattle.std.specs.Prelude.{◌≡◌, ◌+◌, ◌≤◌, ◌<◌, ◌^◌, ◌∷◌, ◌++◌, [], ℕ, length, map, nat_le, slice_index_or, IfOk, IfErr, All};
ghost use Rattle.std.specs.List.{filter};
ghost use Rattle.std.specs.List.Sorted.{IsNonDecreasingBy, IsPermutation};
ghost use Rattle.rtt_control.specs.Control.{id_places};
ghost use Rattle.rtt_dump.specs.Faults.{IsFault};
ghost use Rattle.rtt_dump.specs.Ids.{IsBelow, Rises, at_most_one, first_two, id_refusal, ids, listed, places_in, spots};
ghost use Rattle.rtt_dump.specs.Segments.{IsInside, region, start_of};

use crate::fault::{Cause, DumpFault};
use crate::spans::{Span, span_at};
use dl_io::Memory;
use memchr::memmem::Finder;
use rtt_control::ID;
use std::alloc::Global;

/// Where an ID stands: the number of the segment, and the place in its bytes.
#[derive(Clone, Copy)]
pub struct Spot {
    pub segment: u32,
    pub at: u32,
}

// Where the segments start in the file, the lowest place first.
fn starts_of(alloc: Global, spans: &[Span]) -> Result<Vec<usize>, Memory>
    ensures moved { IfOk result (λ v. IsPermutation (map start_of spans.now) v.items) }
    ensures rise { IfOk result (λ v. IsNonDecreasingBy (λ start. start) v.items) }
{
    let mut starts = Vec::new(alloc);
    for span in spans {
        starts.push(span.start)?;
    }
    starts.sort_unstable();
    Ok(starts)
}

// How many of the starts are up to a place.
fn starts_up_to(starts: &[usize], place: usize) -> usize
    requires { IsNonDecreasingBy (λ start. start) starts.now }
    ensures most { result ≤ length starts.now }
    ensures up_to { (k d : ℕ) → k < result → slice_index_or starts.now k d ≤ place }
    ensures behind { (k d : ℕ) → result ≤ k → k < length starts.now
        → place < slice_index_or starts.now k d }
{
    starts.partition_point(|start| *start <= place)
}

// How many of the bytes from a place on no start needs: all up to the next start, where so many starts have
// two IDs behind them and no other is up to the place.
fn passed_over(starts: &[usize], before: usize, last: usize, at: usize, len: usize) -> usize
    requires { IsNonDecreasingBy (λ start. start) starts.now }
    ensures within { result ≤ len }
    ensures full { 0 < result → last ≤ before }
    ensures below { (k d : ℕ) → 0 < result → last ≤ k → k < length starts.now
        → at + result ≤ slice_index_or starts.now k d }
{
    if before < last {
        return 0;
    }
    match starts.get(last) {
        Some(start) => len.min(start.saturating_sub(at)),
        None => len,
    }
}

// Of the places of the ID in the file, for each start the first two that aren't below it.
fn kept_places(alloc: Global, file: &[u8], starts: &[usize]) -> Result<Vec<u32>, Memory>
    requires short { length file.now < 2 ^ 32 }
    requires rise { IsNonDecreasingBy (λ start. start) starts.now }
    ensures rises { IfOk result (λ places. Rises 0 places.items) }
    ensures kept { IfOk result (λ places. All (λ start.
        first_two start places.items ≡ first_two start (id_places 0 file.now)) starts.now) }
{
    let finder = Finder::new(&ID);
    let mut places = Vec::new(alloc);
    // How many starts are up to the last ID but one, and up to the last.
    let mut before = 0;
    let mut last = 0;
    let mut at = 0;
    let mut rest = file;
    while let Some(gap) = finder.find(rest) {
        let begun = starts_up_to(starts, at + gap);
        if before < begun {
            places.push((at + gap) as u32)?;
        }
        before = last;
        last = begun;
        at += gap + 1;
        rest = &rest[gap + 1..];
        let passed = passed_over(starts, before, last, at, rest.len());
        at += passed;
        rest = &rest[passed..];
    }
    Ok(places)
}

// The places of the ID in the file that count: of each segment the first two behind its start, since a
// second one is refused. The file is searched once, and few are kept, whatever it is made of.
fn places_of(alloc: Global, file: &[u8], spans: &[Span]) -> Result<Vec<u32>, Memory>
    requires { length file.now < 2 ^ 32 }
    ensures rises { IfOk result (λ places. Rises 0 places.items) }
    ensures kept { IfOk result (λ places. All (λ span.
        first_two span.start places.items ≡ first_two span.start (id_places 0 file.now))
        spans.now) }
{
    let starts = starts_of(alloc, spans)?;
    kept_places(alloc, file, &starts)
}

// The places that aren't below the start.
fn places_from(places: &[u32], start: usize) -> &[u32]
    requires { Rises 0 places.now }
    ensures { result.now ≡ filter (nat_le start) places.now }
{
    let from = places.partition_point(|place| (*place as usize) < start);
    &places[from..]
}

// The only ID up to the end of a segment, of which one may stand before it.
fn next_id(
    places: &[u32],
    span: &Span,
    segment: u32,
    first: Option<Spot>,
) -> Result<Option<Spot>, DumpFault>
    requires rises { Rises 0 places.now }
    requires end { span.now.start + span.now.len < 2 ^ 32 }
    ensures { result ≡ at_most_one (listed first
        ++ spots segment (places_in span.now.start span.now.len places.now)) }
{
    let mut first = first;
    let mut rest = places_from(places, span.start);
    while let [place, more @ ..] = rest {
        let place = *place as usize;
        if span.start + span.len < place + ID.len() {
            return Ok(first);
        }
        if first.is_some() {
            return Err(Cause::TwoIds.at(segment));
        }
        first = Some(Spot {
            segment,
            at: (place - span.start) as u32,
        });
        rest = more;
    }
    Ok(first)
}

// The only ID, where all segments were seen.
fn found(first: Option<Spot>) -> Result<Spot, DumpFault>
    ensures only { IfOk result (λ spot. listed first ≡ spot ∷ []) }
    ensures within { (n : ℕ) → IsBelow n first → IfOk result (λ spot. spot.segment < n) }
    ensures refused { IfErr result (λ fault. id_refusal (listed first) ≡ Some fault) }
{
    match first {
        Some(spot) => Ok(spot),
        None => Err(Cause::NoId.at(0)),
    }
}

/// The only ID in these segments of the file.
pub fn only_id(alloc: Global, file: &[u8], spans: &[Span]) -> Result<Spot, DumpFault>
    requires short { length file.now < 2 ^ 32 }
    requires few { length spans.now < 2 ^ 16 }
    requires inside { All (IsInside (length file.now)) spans.now }
    ensures only { IfOk result (λ spot. ids (map (region file.now) spans.now) ≡ spot ∷ []) }
    ensures within { IfOk result (λ spot. spot.segment < length spans.now) }
    ensures refused { IfErr result (IsFault (id_refusal (ids (map (region file.now) spans.now)))) }
{
    let places = places_of(alloc, file, spans)?;
    let mut first = None;
    for number in 0..spans.len() as u32 {
        let span = span_at(spans, number);
        first = next_id(&places, &span, number, first)?;
    }
    found(first)
}
