//! The bytes of an up-buffer in an image of memory are decoded by the table that a file names.
ghost use Rattle.std.specs.Prelude.{◌≡◌, ◌≤◌, length, IfOk, IfErr};
ghost use Rattle.defmt_listen.specs.Heard.{recording_limit};
ghost use Rattle.defmt_listen.specs.Streams.{input_of, output_of};
ghost use Rattle.defmt_recording.specs.Calls.{files_of};
ghost use Rattle.defmt_recording.specs.Dumping.{AreAsked, Dumps, Gives, GivesNone, Shows, StopsAt};
ghost use Rattle.defmt_recording.specs.Styled.{look_by};

use crate::fault::Fault;
use crate::files::load;
use crate::reporting::print_events;
use defmt_decode::PlannedTable;
use defmt_listen::AtHand;
use defmt_places::Places;
use defmt_words::DumpOptions;
use dl_io::{Bytes, ReadFault, Shelf, Sink, Source, read_all};
use rtt_dump::{DumpFault, dumped};
use std::alloc::Global;

const IMAGE_LIMIT: usize = 268_435_456;

/// Prints the events of an up-buffer in the image that the source gives, by the table and the places that the options name, in the
/// style that they ask for.
pub fn dump<S: Source, F: Shelf, K: Sink>(
    alloc: Global,
    options: &DumpOptions,
    src: &mut S,
    shelf: &mut F,
    out: &mut K,
) -> Fault
    ensures dumps { Dumps options.now
        (input_of S.left S.faults src.old src.new) (files_of F.files F.faults shelf.old shelf.new)
        (output_of K.held K.faults out.old out.new) result }
    ensures source_count { S.faults src.old ≤ S.faults src.new }
    ensures sink_count { K.faults out.old ≤ K.faults out.new }
    ensures shelf_count { F.faults shelf.old ≤ F.faults shelf.new }
    ensures files { F.files shelf.new ≡ F.files shelf.old }
{
    let name = options.table.as_str();
    match load(alloc, name, options.language, &options.places, shelf) {
        Ok((table, places)) => {
            let fault = show(alloc, options, &places, src, out, &table);
            // (the program ends behind this)
            table.forget();
            fault
        }
        Err(fault) => fault,
    }
}

// Prints them by this table and these places. The image is let go before.
fn show<S: Source, K: Sink>(
    alloc: Global,
    options: &DumpOptions,
    places: &Places,
    src: &mut S,
    out: &mut K,
    table: &PlannedTable,
) -> Fault
    ensures shows { Shows options.now (look_by options.now.style table.now.entries places.now)
        table.now (input_of S.left S.faults src.old src.new)
        (output_of K.held K.faults out.old out.new) result }
    ensures source_count { S.faults src.old ≤ S.faults src.new }
    ensures sink_count { K.faults out.old ≤ K.faults out.new }
{
    match given_bytes(alloc, options, src) {
        Ok(bytes) => {
            let mut given = AtHand {
                left: bytes.as_slice(),
            };
            print_events(alloc, &options.style, places, false, &mut given, out, table)
        }
        Err(fault) => fault,
    }
}

// The bytes of the up-buffer in the image that the source gives.
fn given_bytes<S: Source>(alloc: Global, options: &DumpOptions, src: &mut S) -> Result<Bytes, Fault>
    ensures gives { IfOk result (λ bytes. Gives options.now
        (input_of S.left S.faults src.old src.new) bytes.items) }
    ensures short { IfOk result (λ bytes. length bytes.items ≤ recording_limit) }
    ensures none { IfErr result (λ fault. GivesNone options.now
        (input_of S.left S.faults src.old src.new) fault) }
    ensures later { S.faults src.old ≤ S.faults src.new }
{
    match read_all(alloc, src, IMAGE_LIMIT) {
        Ok(image) => asked_bytes(alloc, options, image.as_slice()),
        Err(ReadFault::Failed) => Err(Fault::Source),
        Err(ReadFault::Long { .. }) => Err(Fault::Long),
        Err(ReadFault::Memory) => Err(Fault::Memory),
    }
}

// The bytes of the up-buffer in an image.
fn asked_bytes(alloc: Global, options: &DumpOptions, image: &[u8]) -> Result<Bytes, Fault>
    requires { length image.now ≤ recording_limit }
    ensures asked { IfOk result (λ bytes. AreAsked options.now image.now bytes.items) }
    ensures short { IfOk result (λ bytes. length bytes.items ≤ recording_limit) }
    ensures stops { IfErr result (λ fault. StopsAt options.now image.now fault) }
{
    match dumped(alloc, image, options.base, options.up, options.old) {
        Ok(bytes) => Ok(bytes),
        Err(DumpFault::Refused { cause, place }) => Err(Fault::Control { cause, place }),
        Err(DumpFault::Memory) => Err(Fault::Memory),
    }
}
