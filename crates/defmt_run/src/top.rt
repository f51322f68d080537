//! The top call.
ghost use Rattle.std.specs.Prelude.{◌≡◌, ◌⊎◌, ◌≤◌, IfOk, Option, Some, None, map, string_bytes};
ghost use Rattle.defmt_listen.specs.Streams.{input_of, output_of};
ghost use Rattle.defmt_recording.specs.Calls.{files_of};
ghost use Rattle.defmt_run.specs.Session.{Answers, MayComeTo, MustComeTo, OrFails};
ghost use Rattle.defmt_recording.specs.Status.{status_of};
ghost use Rattle.defmt_run.specs.Told.{IsGated, told};
ghost use Rattle.defmt_recording.specs.declared.fault.Fault.{Fault as AnyFault};
ghost use Rattle.defmt_words.specs.Words.{job as job_in};
ghost use Rattle.defmt_words.specs.declared.job.Job.{Job as AnyJob};

use crate::outcome::Outcome;
use crate::running::script_outcome;
use defmt_blocks::decode;
use defmt_recording::{Fault, dump};
use defmt_script::one_reading;
use defmt_words::{Job, job_of};
use defmt_writers::Gate;
use dl_io::{Memory, Shelf, Sink, Source};
use std::alloc::Global;
use std::sync::Wait;
use std::thread::Threads;

/// Does what the words ask for. The first word is the program's name; `defmt_words::job_of` says how the others are read.
///
/// `run`, `record`, `term`, `steer`, `table` and `print` read the source to its end as a script. `run`, `record` and
/// `term` log its statements by threads over a word ring, in the script's mode and with its reader; the threads of
/// `term` say its texts for terminals too, over a word ring of 1,024 bytes. `run` feeds the host what the reader took
/// and then the rest of what was sent, and writes a line for each event, in front of it where frames with places are
/// missing a report of the gap, and a report for each frame that was dropped or cut; with `--group` it writes the
/// lines of the statements that were sent whole, writer by writer, in place of the events. `term` writes what `run`
/// does, and then the texts of each terminal that has one, behind a line that names it. `steer` runs a script while
/// the host sends its orders of levels down a second ring, and writes the lines and from which turn each order was
/// heard. `record` writes what was sent, `table` the file of the script's table, `print` the lines of all statements.
/// `decode --table FILE` takes the table that the shelf's file names, reads the source as a recording, and writes a
/// line for each event as it comes, with the gaps. `dump --table FILE` takes the table too, reads the source to its
/// end as an image of memory, and writes a line for each event of the bytes of an up-buffer in it, as
/// `rtt_dump::dumped` gives them. `gen N` does as `run` with a script of N statements that a formula makes, and writes
/// counts of its tape in place of lines. With `--only RULES` `run`, `decode` and `dump` write no line that the rules
/// don't show, as `defmt_decode::shows` says; with `--json` or `--color` they give the lines another form, and with `--fail-on LEVEL`
/// they fail where a line of that level or a more severe one was written. `decode` and `dump` take `--places FILE`, which tells where in
/// the sources each statement stands, and `--full`, by which the table has the full language. With `--live`, for a device that runs, a
/// recording of `decode` may be of `limit_of true` bytes, and what was cut at its front or its end is no fault. With `--jobs N` parts of a
/// recording are decoded by so many threads, and the answer is the same. Nothing else depends on these, and what is told of a run has
/// all events.
///
/// `Fault` has the other answers. The order of these is words, shelf, length of the table's file, table, the same of the places,
/// source, length of the input, script or image, sink, faults or failing lines; in `decode` the source, its length and the sink take
/// turns. The gate is asked before each statement of a run is logged, and told the total of each take of the reader; that it was
/// asked at each place is a clause, that it was asked before the statement isn't. The call may wait for the threads of a run and for
/// the gate.
pub fn session<S: Source, F: Shelf, K: Sink, G: Gate + Sync, R: Threads + Wait + Sync>(
    rt: &R,
    alloc: Global,
    words: &[String],
    src: &mut S,
    shelf: &mut F,
    out: &mut K,
    gate: &G,
) -> Outcome
    ensures status { result.status ≡ status_of result.fault }

    // Each fault's cause, what was read and written, and what is told of a run.
    ensures answer { Answers (job_in (map string_bytes words.now))
        (input_of S.left S.faults src.old src.new) (files_of F.files F.faults shelf.old shelf.new)
        (output_of K.held K.faults out.old out.new) result.fault (told result) }

    // What the gate was asked and told of the run.
    ensures gate { IsGated (G.passed gate.now) (G.told gate.now) (told result) }

    // The fault is one that inputs as told come to, but for want of memory and faults of what the job
    // uses of the outside.
    ensures comes { (job : AnyJob) → job_in (map string_bytes words.now) ≡ Some job → OrFails job
        (input_of S.left S.faults src.old src.new) (files_of F.files F.faults shelf.old shelf.new)
        (output_of K.held K.faults out.old out.new)
        (MayComeTo job (S.left src.old) (F.files shelf.old)) result.fault }

    // And one that all such inputs come to is the one that is answered.
    ensures exact { (job : AnyJob) (due : AnyFault) → job_in (map string_bytes words.now) ≡ Some job
        → MustComeTo job (S.left src.old) (F.files shelf.old) due → OrFails job
        (input_of S.left S.faults src.old src.new) (files_of F.files F.faults shelf.old shelf.new)
        (output_of K.held K.faults out.old out.new) (λ fault. fault ≡ due) result.fault }

    // The status is 2 only where the words ask for nothing, and there it is 2 unless memory was wanting.
    ensures words { result.status ≡ 2 → job_in (map string_bytes words.now) ≡ None }
    ensures no_words { job_in (map string_bytes words.now) ≡ None
        → (result.status ≡ 2) ⊎ (result.status ≡ 1) }

    // No count falls, and the files stay as they were.
    ensures source_count { S.faults src.old ≤ S.faults src.new }
    ensures sink_count { K.faults out.old ≤ K.faults out.new }
    ensures shelf_count { F.faults shelf.old ≤ F.faults shelf.new }
    ensures files { F.files shelf.new ≡ F.files shelf.old }
{
    one_reading();
    let asked = job_of(alloc, words);
    perform(rt, alloc, &asked, src, shelf, out, gate)
}

// Does what is asked for, where that was read.
fn perform<S: Source, F: Shelf, K: Sink, G: Gate + Sync, R: Threads + Wait + Sync>(
    rt: &R,
    alloc: Global,
    asked: &Result<Option<Job>, Memory>,
    src: &mut S,
    shelf: &mut F,
    out: &mut K,
    gate: &G,
) -> Outcome
    ensures status { result.status ≡ status_of result.fault }
    ensures answer { (job : Option AnyJob) → IfOk asked.now (λ read. read ≡ job) → Answers job
        (input_of S.left S.faults src.old src.new) (files_of F.files F.faults shelf.old shelf.new)
        (output_of K.held K.faults out.old out.new) result.fault (told result) }
    ensures gate { IsGated (G.passed gate.now) (G.told gate.now) (told result) }
    ensures source_count { S.faults src.old ≤ S.faults src.new }
    ensures sink_count { K.faults out.old ≤ K.faults out.new }
    ensures shelf_count { F.faults shelf.old ≤ F.faults shelf.new }
    ensures files { F.files shelf.new ≡ F.files shelf.old }
{
    match asked {
        Ok(Some(job)) => work_on(rt, alloc, job, src, shelf, out, gate),
        Ok(None) => Outcome::silent(alloc, Fault::Words),
        Err(_) => Outcome::silent(alloc, Fault::Memory),
    }
}

fn work_on<S: Source, F: Shelf, K: Sink, G: Gate + Sync, R: Threads + Wait + Sync>(
    rt: &R,
    alloc: Global,
    job: &Job,
    src: &mut S,
    shelf: &mut F,
    out: &mut K,
    gate: &G,
) -> Outcome
    ensures status { result.status ≡ status_of result.fault }
    ensures answer { Answers (Some job.now)
        (input_of S.left S.faults src.old src.new) (files_of F.files F.faults shelf.old shelf.new)
        (output_of K.held K.faults out.old out.new) result.fault (told result) }
    ensures gate { IsGated (G.passed gate.now) (G.told gate.now) (told result) }
    ensures source_count { S.faults src.old ≤ S.faults src.new }
    ensures sink_count { K.faults out.old ≤ K.faults out.new }
    ensures shelf_count { F.faults shelf.old ≤ F.faults shelf.new }
    ensures files { F.files shelf.new ≡ F.files shelf.old }
{
    match job {
        Job::Script(job) => script_outcome(rt, alloc, job, src, out, gate),
        Job::Decode(options) => {
            let fault = decode(rt, alloc, options, src, shelf, out);
            Outcome::silent(alloc, fault)
        }
        Job::Dump(options) => {
            let fault = dump(alloc, options, src, shelf, out);
            Outcome::silent(alloc, fault)
        }
    }
}
