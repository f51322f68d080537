//! Threads decode beside the one that reads and writes.
ghost use Rattle.std.specs.Prelude.{◌≡◌, ◌≤◌, [], IfOk};
ghost use Rattle.defmt_blocks.specs.Beside.{IsHeard};
ghost use Rattle.defmt_blocks.specs.Blocks.{SaysAs};
ghost use Rattle.defmt_decode.specs.Event.{tells};
ghost use Rattle.defmt_listen.specs.Streams.{input_of, output_of};
ghost use Rattle.defmt_recording.specs.Decoding.{Hears};
ghost use Rattle.defmt_recording.specs.Styled.{look_by};

use crate::ahead::Ahead;
use crate::blocks::Blocks;
use crate::cuts::Cuts;
use crate::pool::{Beside, Ends, Pool, There, wait_for_one};
use crate::sent::{Kin, Sent};
use crossbeam_channel::bounded;
use defmt_decode::{Host, PlannedTable};
use defmt_listen::Behind;
use defmt_places::Places;
use defmt_recording::{Fault, HostListener, Styled, print_with};
use defmt_words::Style;
use dl_io::{Memory, Sink, Source};
use std::alloc::Global;
use std::marker::Brand;
use std::sync::Wait;
use std::sync::atomic::AtomicU64;
use std::thread::{Threads, for_each_mut, join_mut};

/// Prints the events of a recording in this style, by a table and places, with its blocks cut so and decoded by so many threads.
pub(crate) fn print_cut<S: Source, K: Sink, R: Threads + Wait + Sync>(
    rt: &R,
    alloc: Global,
    jobs: u32,
    cuts: Cuts,
    style: &Style,
    places: &Places,
    live: bool,
    src: &mut S,
    out: &mut K,
    table: &PlannedTable,
) -> Fault
    ensures hears { Hears (look_by style.now table.now.entries places.now) live table.now
        (input_of S.left S.faults src.old src.new)
        (output_of K.held K.faults out.old out.new) result }
    ensures source_count { S.faults src.old ≤ S.faults src.new }
    ensures sink_count { K.faults out.old ≤ K.faults out.new }
{
    let count = (jobs as usize).saturating_mul(2);
    print_named::<Brand, S, K, R>(
        rt, alloc, jobs, count, cuts, style, places, live, src, out, table,
    )
}

// The same by so many sides, whose kin is named.
fn print_named<'a, G: Kin + Send, S: Source, K: Sink, R: Threads + Wait + Sync>(
    rt: &R,
    alloc: Global,
    jobs: u32,
    count: usize,
    cuts: Cuts,
    style: &'a Style,
    places: &'a Places,
    live: bool,
    src: &mut S,
    out: &mut K,
    table: &'a PlannedTable,
) -> Fault
    requires says { SaysAs G.says (look_by style.now table.now.entries places.now) (tells table.now) }
    ensures hears { Hears (look_by style.now table.now.entries places.now) live table.now
        (input_of S.left S.faults src.old src.new)
        (output_of K.held K.faults out.old out.new) result }
    ensures source_count { S.faults src.old ≤ S.faults src.new }
    ensures sink_count { K.faults out.old ≤ K.faults out.new }
{
    let Ok((to, theirs)) = bounded::<Sent<'_, G>, Global>(alloc, count) else {
        return Fault::Memory;
    };
    let Ok((done, from)) = bounded::<Sent<'_, G>, Global>(alloc, count) else {
        return Fault::Memory;
    };
    let Ok(mut seats) = seats_of(alloc, jobs) else {
        return Fault::Memory;
    };
    let there = There {
        from: theirs,
        to: done,
    };
    let desk = Desk {
        style,
        places,
        table,
        live,
        block: cuts.block,
        count,
    };
    let mut here = Here {
        desk,
        ends: Some(Ends { to, from }),
    };
    let begun = AtomicU64::new(0);
    run_both(
        rt, alloc, &cuts, &mut seats, &there, &begun, &mut here, src, out,
    )
}

// A place for each thread.
fn seats_of(alloc: Global, jobs: u32) -> Result<Vec<u8>, Memory> {
    let mut seats = Vec::new(alloc);
    seats.resize((jobs as usize).max(1), 0)?;
    Ok(seats)
}

// What is printed, by what, and how many sides there are.
#[derive(Clone, Copy)]
struct Desk<'a> {
    style: &'a Style,
    places: &'a Places,
    table: &'a PlannedTable,
    live: bool,
    block: usize,
    count: usize,
}

// The same, with the ends of the channels to the threads until they are taken.
#[derive(Drop)]
struct Here<'a, G: Kin> {
    desk: Desk<'a>,
    ends: Option<Ends<'a, G>>,
}

// Runs the threads, and beside them what reads and writes.
fn run_both<'a, B: Beside + Sync, G: Kin, S: Source, K: Sink, R: Threads + Wait + Sync>(
    rt: &R,
    alloc: Global,
    cuts: &Cuts,
    seats: &mut [u8],
    there: &B,
    begun: &AtomicU64,
    here: &mut Here<'a, G>,
    src: &mut S,
    out: &mut K,
) -> Fault
    requires says { SaysAs G.says (look_by here.old.desk.style.now here.old.desk.table.now.entries here.old.desk.places.now)
        (tells here.old.desk.table.now) }
    ensures heard { IsHeard
        (look_by here.old.desk.style.now here.old.desk.table.now.entries here.old.desk.places.now)
        here.old.desk.live here.old.desk.table.now
        (input_of S.left S.faults src.old src.new)
        (output_of K.held K.faults out.old out.new) result }
    ensures source_count { S.faults src.old ≤ S.faults src.new }
    ensures sink_count { K.faults out.old ≤ K.faults out.new }
{
    let (_, fault) = join_mut(
        rt,
        &mut || hear_beside(rt, cuts, seats, there, begun),
        &mut || -> Fault
            requires says { SaysAs G.says
                (look_by here.now.desk.style.now here.now.desk.table.now.entries here.now.desk.places.now)
                (tells here.now.desk.table.now) }
            ensures heard { IsHeard
                (look_by here.entry.now.desk.style.now here.entry.now.desk.table.now.entries
                here.entry.now.desk.places.now)
                here.entry.now.desk.live here.entry.now.desk.table.now
                (input_of S.left S.faults src.entry.now src.exit.now)
                (output_of K.held K.faults out.entry.now out.exit.now) result }
            ensures source_count { S.faults src.entry.now ≤ S.faults src.exit.now }
            ensures sink_count { K.faults out.entry.now ≤ K.faults out.exit.now }
        { print_whole(rt, alloc, here, begun, src, out) },
    );
    fault
}

// Has a thread for each seat hear blocks.
fn hear_beside<B: Beside + Sync, R: Threads + Wait + Sync>(
    rt: &R,
    cuts: &Cuts,
    seats: &mut [u8],
    there: &B,
    begun: &AtomicU64,
) {
    let count = seats.len();
    if count > 0 {
        for_each_mut(rt, seats, count, &|_, _| there.hear_all(rt, cuts, begun));
    }
}

// Reads, and writes what the threads tell.
fn print_here<'a, G: Kin, S: Source, K: Sink, R: Wait>(
    rt: &R,
    alloc: Global,
    here: &mut Here<'a, G>,
    begun: &AtomicU64,
    src: &mut S,
    out: &mut K,
) -> Fault
    requires says { SaysAs G.says (look_by here.old.desk.style.now here.old.desk.table.now.entries here.old.desk.places.now)
        (tells here.old.desk.table.now) }
    ensures hears { Hears
        (look_by here.old.desk.style.now here.old.desk.table.now.entries here.old.desk.places.now)
        here.old.desk.live here.old.desk.table.now
        (input_of S.left S.faults src.old src.new)
        (output_of K.held K.faults out.old out.new) result }
    ensures source_count { S.faults src.old ≤ S.faults src.new }
    ensures sink_count { K.faults out.old ≤ K.faults out.new }
{
    let desk = here.desk;
    let Some(ends) = here.ends.take() else {
        return Fault::Memory;
    };
    let reporter = Styled::new(alloc, desk.style, desk.table.table(), desk.places);
    let Ok(mut crew) = crew_of(rt, alloc, &desk, ends, begun, &reporter) else {
        return Fault::Memory;
    };
    wait_for_one(begun);
    let host = Host::new(alloc, desk.table);
    let listener = HostListener { host };
    print_with(
        &mut crew,
        alloc,
        desk.style.fail_on,
        desk.live,
        src,
        out,
        listener,
        reporter,
    )
}

// The same, with its answer as one fact.
fn print_whole<'a, G: Kin, S: Source, K: Sink, R: Wait>(
    rt: &R,
    alloc: Global,
    here: &mut Here<'a, G>,
    begun: &AtomicU64,
    src: &mut S,
    out: &mut K,
) -> Fault
    requires says { SaysAs G.says (look_by here.old.desk.style.now here.old.desk.table.now.entries here.old.desk.places.now)
        (tells here.old.desk.table.now) }
    ensures heard { IsHeard
        (look_by here.old.desk.style.now here.old.desk.table.now.entries here.old.desk.places.now)
        here.old.desk.live here.old.desk.table.now
        (input_of S.left S.faults src.old src.new)
        (output_of K.held K.faults out.old out.new) result }
    ensures source_count { S.faults src.old ≤ S.faults src.new }
    ensures sink_count { K.faults out.old ≤ K.faults out.new }
{
    print_here(rt, alloc, here, begun, src, out)
}

fn crew_of<'a, 'r, G: Kin, R: Wait>(
    rt: &'r R,
    alloc: Global,
    desk: &Desk<'a>,
    ends: Ends<'a, G>,
    begun: &'r AtomicU64,
    reporter: &Styled<'a>,
) -> Result<Blocks<'a, 'r, G, R>, Memory>
    requires says { SaysAs G.says reporter.now.look (tells desk.now.table.now) }
    ensures none { IfOk result (λ crew. crew.ahead.parts.items ≡ []) }
    ensures more { IfOk result (λ crew. crew.ahead.behind ≡ Behind.More) }
{
    let pool = Pool::new(rt, alloc, ends, begun, desk.count, desk.table, reporter)?;
    let ahead = Ahead::new(alloc, desk.count, desk.block)?;
    Ok(Blocks {
        pool,
        ahead,
        block: desk.block,
        sent: false,
    })
}
