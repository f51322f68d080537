//! What the program answers: a status, and what it tells of a fault.
ghost use Rattle.std.specs.Prelude.{◌≡◌, ◌++◌, ◌∷◌, [], map, string_bytes};
ghost use Rattle.defmt_cli.specs.Ends.{Ends, SaysFault, Tells};
ghost use Rattle.defmt_listen.specs.Streams.{input_of, output_of};
ghost use Rattle.defmt_recording.specs.Calls.{files_of};
ghost use Rattle.defmt_recording.specs.declared.fault.Fault.TheVariants.{Memory as OutOfMemory};
ghost use Rattle.defmt_words.specs.Words.{job as job_in};

use defmt_run::{Fault, OpenGate, session};
use dl_io::{Failed, Shelf, Sink, Source, write_all};
use std::alloc::Global;
use std::mem;
use std::sync::Wait;
use std::thread::Threads;

/// Does what the words ask for, as [`session`] does, writes the words of a fault to `errors`, and answers the status. The program
/// ends then, so what is told of a run isn't taken apart event by event: its memory is forgotten.
pub fn answer<S: Source, F: Shelf, K: Sink, E: Sink, R: Threads + Wait + Sync>(
    rt: &R,
    alloc: Global,
    words: &[String],
    src: &mut S,
    shelf: &mut F,
    out: &mut K,
    errors: &mut E,
) -> u8
    ensures { Ends (job_in (map string_bytes words.now))
        (input_of S.left S.faults src.old src.new) (files_of F.files F.faults shelf.old shelf.new)
        (output_of K.held K.faults out.old out.new)
        (output_of E.held E.faults errors.old errors.new) result }
{
    let outcome = session(rt, alloc, words, src, shelf, out, &OpenGate);
    say(alloc, outcome.fault, errors);
    let status = outcome.status;
    mem::forget(outcome);
    status
}

/// Tells that memory is wanting before anything is done, and answers the status of that.
pub fn without_memory<E: Sink>(errors: &mut E) -> u8
    ensures status { result ≡ 1 }
    ensures says { SaysFault OutOfMemory (output_of E.held E.faults errors.old errors.new) }
{
    tell(errors, b"memory");
    Fault::Memory.status()
}

// Says a fault, if there is memory for its words.
fn say<E: Sink>(alloc: Global, fault: Fault, errors: &mut E)
    ensures { SaysFault fault (output_of E.held E.faults errors.old errors.new) }
{
    if fault.status() == 0 {
        return;
    }
    match fault.say(alloc) {
        Ok(text) => tell(errors, text.as_str().as_bytes()),
        Err(_) => {}
    }
}

// Writes a text and a newline. What can't be written is lost.
fn tell<E: Sink>(errors: &mut E, text: &[u8])
    ensures { Tells (text.now ++ 10 ∷ []) (output_of E.held E.faults errors.old errors.new) }
{
    match write_all(errors, text) {
        Ok(()) => {}
        Err(Failed) => return,
    }
    match write_all(errors, b"\n") {
        Ok(()) => {}
        Err(Failed) => {}
    }
}
