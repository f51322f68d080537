//! A recording is decoded by the table that a file names.
ghost use Rattle.std.specs.Prelude.{◌≡◌, ◌≤◌};
ghost use Rattle.defmt_listen.specs.Streams.{input_of, output_of};
ghost use Rattle.defmt_recording.specs.Calls.{files_of};
ghost use Rattle.defmt_recording.specs.Decoding.{Decodes};

use crate::fault::Fault;
use crate::files::load;
use crate::reporting::print_events;
use defmt_words::DecodeOptions;
use dl_io::{Shelf, Sink, Source};
use std::alloc::Global;

/// Prints the events of the recording that the source gives, by the table and the places that the options name, in the style that
/// they ask for.
pub fn decode<S: Source, F: Shelf, K: Sink>(
    alloc: Global,
    options: &DecodeOptions,
    src: &mut S,
    shelf: &mut F,
    out: &mut K,
) -> Fault
    ensures decodes { Decodes options.now
        (input_of S.left S.faults src.old src.new) (files_of F.files F.faults shelf.old shelf.new)
        (output_of K.held K.faults out.old out.new) result }
    ensures source_count { S.faults src.old ≤ S.faults src.new }
    ensures sink_count { K.faults out.old ≤ K.faults out.new }
    ensures shelf_count { F.faults shelf.old ≤ F.faults shelf.new }
    ensures files { F.files shelf.new ≡ F.files shelf.old }
{
    let name = options.table.as_str();
    match load(alloc, name, options.language, &options.places, shelf) {
        Ok((table, places)) => {
            let fault = print_events(
                alloc,
                &options.style,
                &places,
                options.live,
                src,
                out,
                &table,
            );
            // (the program ends behind this)
            table.forget();
            fault
        }
        Err(fault) => fault,
    }
}
