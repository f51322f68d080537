//! The events of a recording are printed as they come, from a source or from bytes at hand.
ghost use Rattle.std.specs.Prelude.{◌≡◌, ◌≤◌, ◌<◌, ◌-◌, ◌^◌, [], None, Some, if◌then◌else◌};
ghost use Rattle.defmt_framing.specs.Framing.{Stands};
ghost use Rattle.defmt_listen.specs.Streams.{input_of, output_of};
ghost use Rattle.defmt_recording.specs.Decoding.{Hears, fault_by, fault_of_count};
ghost use Rattle.defmt_recording.specs.Styled.{limit_of, look_by, reel};

use crate::fault::Fault;
use crate::host_listener::HostListener;
use crate::styled::Styled;
use defmt_decode::{Host, PlannedTable};
use defmt_hooks::Level;
use defmt_listen::{Alone, Crew, ListenFault, listen_by};
use defmt_places::Places;
use defmt_words::Style;
use dl_io::{Sink, Source};
use std::alloc::Global;

const RECORDING_LIMIT: usize = 268_435_456;

// More than any device sends.
const LIVE_LIMIT: usize = 18_446_744_073_709_551_614;

/// Prints the events of the recording that the source gives, by this table and these places in this style; of a device that runs where
/// that is said.
pub fn print_events<S: Source, K: Sink>(
    alloc: Global,
    style: &Style,
    places: &Places,
    live: bool,
    src: &mut S,
    out: &mut K,
    table: &PlannedTable,
) -> Fault
    ensures hears { Hears (look_by style.now table.now.entries places.now) live table.now
        (input_of S.left S.faults src.old src.new)
        (output_of K.held K.faults out.old out.new) result }
    ensures source_count { S.faults src.old ≤ S.faults src.new }
    ensures sink_count { K.faults out.old ≤ K.faults out.new }
{
    let host = Host::new(alloc, table);
    let listener = HostListener { host };
    let reporter = Styled::new(alloc, style, table.table(), places);
    print_with(
        &mut Alone,
        alloc,
        style.fail_on,
        live,
        src,
        out,
        listener,
        reporter,
    )
}

/// The same by a listener and a reporter that heard nothing yet, with each part read and heard by a crew that may always read.
pub fn print_with<'a, C: Crew<S, K, HostListener<'a>, Styled<'a>>, S: Source, K: Sink>(
    crew: &mut C,
    alloc: Global,
    fail_on: Option<Level>,
    live: bool,
    src: &mut S,
    out: &mut K,
    listener: HostListener<'a>,
    reporter: Styled<'a>,
) -> Fault
    requires suits { C.suits crew.old listener reporter }
    requires anywhere { (source : _) (sink : _) → C.may source sink }
    requires ahead { C.ahead crew.old ≡ [] }
    requires known { C.knows (S.faults src.old) crew.old src.old }
    requires stands { Stands listener.host.framing [] }
    requires fresh { reporter ≡ reel reporter.look None 0 0 }
    requires same { fail_on ≡ reporter.look.style.fail_on }
    ensures hears { Hears reporter.entry.look live listener.entry.host.table
        (input_of S.left S.faults src.old src.new)
        (output_of K.held K.faults out.old out.new) result }
    ensures source_count { S.faults src.old ≤ S.faults src.new }
    ensures sink_count { K.faults out.old ≤ K.faults out.new }
{
    match listen_by(crew, alloc, src, out, listener, reporter, limit_of(live)) {
        Ok((bad, reporter)) => fault_of(
            fail_on,
            reporter.failing(),
            counted(live, bad, reporter.cuts()),
        ),
        Err(ListenFault::Source) => Fault::Source,
        Err(ListenFault::Sink) => Fault::Sink,
        Err(ListenFault::Long) => Fault::Long,
        Err(ListenFault::Memory) => Fault::Memory,
    }
}

// The most bytes of a recording.
fn limit_of(live: bool) -> usize
    ensures { result ≡ limit_of live }
{
    if live { LIVE_LIMIT } else { RECORDING_LIMIT }
}

// How many of so many faults count, of which so many are a front or a tail.
fn counted(live: bool, bad: u64, cuts: u64) -> u64
    ensures count { result ≡ (if live then bad - cuts else bad) }
    ensures small { bad < 2 ^ 64 }
{
    if live { bad.saturating_sub(cuts) } else { bad }
}

/// What so many lines that make the program fail and so many faults come to.
pub fn fault_of(fail_on: Option<Level>, failing: u64, bad: u64) -> Fault
    ensures { result ≡ fault_by fail_on failing bad }
{
    match fail_on {
        Some(level) => fault_at(level, failing, bad),
        None => fault_of_count(bad),
    }
}

fn fault_at(level: Level, failing: u64, bad: u64) -> Fault
    ensures { result ≡ fault_by (Some level) failing bad }
{
    match failing {
        0 => fault_of_count(bad),
        count => Fault::Level { level, count },
    }
}

fn fault_of_count(bad: u64) -> Fault
    ensures { result ≡ fault_of_count bad }
{
    match bad {
        0 => Fault::Fine,
        bad => Fault::Events { bad },
    }
}
