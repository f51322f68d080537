//! A recording is decoded side by side.
ghost use Rattle.std.specs.Prelude.{◌≡◌, ◌≤◌};
ghost use Rattle.defmt_listen.specs.Streams.{input_of, output_of};
ghost use Rattle.defmt_recording.specs.Calls.{files_of};
ghost use Rattle.defmt_recording.specs.Decoding.{Decodes};

use crate::beside::print_cut;
use crate::cuts::Cuts;
use defmt_recording::{Fault, decode as decode_in_turns, load};
use defmt_words::DecodeOptions;
use dl_io::{Shelf, Sink, Source};
use std::alloc::Global;
use std::sync::Wait;
use std::thread::Threads;

// A block is decoded in a few milliseconds, and is sent to a thread and back in far less than one.
const CUTS: Cuts = Cuts {
    block: 262_144,
    before: 1_024,
};

/// Prints the events of the recording that the source gives, as `decode` of defmt_recording does; with `--jobs` parts of it are decoded
/// by so many threads, or here where none can be made.
pub fn decode<S: Source, F: Shelf, K: Sink, R: Threads + Wait + Sync>(
    rt: &R,
    alloc: Global,
    options: &DecodeOptions,
    src: &mut S,
    shelf: &mut F,
    out: &mut K,
) -> Fault
    ensures decodes { Decodes options.now
        (input_of S.left S.faults src.old src.new) (files_of F.files F.faults shelf.old shelf.new)
        (output_of K.held K.faults out.old out.new) result }
    ensures source_count { S.faults src.old ≤ S.faults src.new }
    ensures sink_count { K.faults out.old ≤ K.faults out.new }
    ensures shelf_count { F.faults shelf.old ≤ F.faults shelf.new }
    ensures files { F.files shelf.new ≡ F.files shelf.old }
{
    match &options.jobs {
        Some(jobs) => decode_cut(rt, alloc, jobs.number(), CUTS, options, src, shelf, out),
        None => decode_in_turns(alloc, options, src, shelf, out),
    }
}

/// The same by so many threads, with each part cut so.
pub fn decode_cut<S: Source, F: Shelf, K: Sink, R: Threads + Wait + Sync>(
    rt: &R,
    alloc: Global,
    jobs: u32,
    cuts: Cuts,
    options: &DecodeOptions,
    src: &mut S,
    shelf: &mut F,
    out: &mut K,
) -> Fault
    ensures decodes { Decodes options.now
        (input_of S.left S.faults src.old src.new) (files_of F.files F.faults shelf.old shelf.new)
        (output_of K.held K.faults out.old out.new) result }
    ensures source_count { S.faults src.old ≤ S.faults src.new }
    ensures sink_count { K.faults out.old ≤ K.faults out.new }
    ensures shelf_count { F.faults shelf.old ≤ F.faults shelf.new }
    ensures files { F.files shelf.new ≡ F.files shelf.old }
{
    let name = options.table.as_str();
    match load(alloc, name, options.language, &options.places, shelf) {
        Ok((table, places)) => print_cut(
            rt,
            alloc,
            jobs,
            cuts,
            &options.style,
            &places,
            options.live,
            src,
            out,
            &table,
        ),
        Err(fault) => fault,
    }
}
