//! A job on a script.
ghost use Rattle.std.specs.Prelude.{◌≡◌, ◌≤◌, ◌^◌, false, true, length, None, Some, Ok, IfOk, IfErr, IfSome};
ghost use Rattle.std.specs.Str.Lines.{lines};
ghost use Rattle.elf_table.specs.Listed.{size_of};
ghost use Rattle.defmt_lines.specs.Settings.{is_block};
ghost use Rattle.defmt_listen.specs.Streams.{input_of, output_of};
ghost use Rattle.defmt_run.specs.Running.{Comes, ComesNot, GaveWhole, IsSpelled, Made, Runs, Stops, StopsFor, Suits, TextComes, Withholds, Writes, script_limit};
ghost use Rattle.defmt_recording.specs.Status.{status_of};
ghost use Rattle.defmt_run.specs.Told.{IsGated, told};
ghost use Rattle.defmt_script.specs.Reads.{Reads};
ghost use Rattle.rtt_down.specs.Modes.{FirstMode};

use crate::making::{Making, make};
use crate::outcome::Outcome;
use defmt_generate::{generate, generated_reads, scripts_are_short};
use defmt_recording::Fault;
use defmt_script::{RingMode, Script, ScriptFault, one_reading, read, texts_are_few};
use defmt_words::ScriptJob;
use defmt_writers::Gate;
use dl_io::{Bytes, Failed, ReadFault, Sink, Source, read_all, write_all};
use elf_table::size_grows;
use rtt_down::{mode_line, modes_are_set};
use std::alloc::Global;
use std::sync::Wait;
use std::thread::Threads;

const SCRIPT_LIMIT: usize = 4_194_304;

// A script that is steered has another mode than the blocking one.
const STEER: u8 = 18;

/// Does this job on its script, and writes what comes of it. It may wait for the writers.
pub fn script_outcome<S: Source, K: Sink, G: Gate + Sync, R: Threads + Wait + Sync>(
    rt: &R,
    alloc: Global,
    job: &ScriptJob,
    src: &mut S,
    out: &mut K,
    gate: &G,
) -> Outcome
    ensures status { result.status ≡ status_of result.fault }
    ensures runs { Runs job.now (input_of S.left S.faults src.old src.new)
        (output_of K.held K.faults out.old out.new) result.fault (told result) }
    ensures gate { IsGated (G.passed gate.now) (G.told gate.now) (told result) }
    ensures source_count { S.faults src.old ≤ S.faults src.new }
    ensures sink_count { K.faults out.old ≤ K.faults out.new }
{
    match making_of(rt, alloc, job, src, gate) {
        Ok(making) => outcome_of_writing(out, making),
        Err(fault) => Outcome::silent(alloc, fault),
    }
}

// What comes of this job on its script.
fn making_of<S: Source, G: Gate + Sync, R: Threads + Wait + Sync>(
    rt: &R,
    alloc: Global,
    job: &ScriptJob,
    src: &mut S,
    gate: &G,
) -> Result<Making, Fault>
    ensures made { IfOk result (λ made. Made job.now (input_of S.left S.faults src.old src.new)
        (told made.outcome) made.output.items made.outcome.fault) }
    ensures gate { IfOk result (λ made. IsGated (G.passed gate.now) (G.told gate.now)
        (told made.outcome)) }
    ensures comes_not { IfErr result (λ fault. ComesNot job.now
        (input_of S.left S.faults src.old src.new) fault) }
    ensures later { S.faults src.old ≤ S.faults src.new }
{
    let script = script_of(alloc, job, src)?;
    match make(rt, alloc, job, script, gate) {
        Ok(making) => Ok(making),
        Err(_) => Err(Fault::Memory),
    }
}

// The script of this job.
fn script_of<S: Source>(alloc: Global, job: &ScriptJob, src: &mut S) -> Result<Script, Fault>
    ensures comes { IfOk result (λ s. Comes job.now (input_of S.left S.faults src.old src.new) s) }
    ensures small { IfOk result (λ s. size_of s.table ≤ 2 ^ 26) }
    ensures comes_not { IfErr result (λ fault. ComesNot job.now
        (input_of S.left S.faults src.old src.new) fault) }
    ensures later { S.faults src.old ≤ S.faults src.new }
{
    generated_reads();
    one_reading();
    let text = text_of(alloc, job, src)?;
    suited_script(alloc, job, text.as_slice())
}

// The text of this job's script.
fn text_of<S: Source>(alloc: Global, job: &ScriptJob, src: &mut S) -> Result<Bytes, Fault>
    ensures text { IfOk result (λ text. TextComes job.now
        (input_of S.left S.faults src.old src.new) text.items) }
    ensures within { IfOk result (λ text. length text.items ≤ script_limit) }
    ensures comes_not { IfErr result (λ fault. ComesNot job.now
        (input_of S.left S.faults src.old src.new) fault) }
    ensures later { S.faults src.old ≤ S.faults src.new }
{
    scripts_are_short();
    match job {
        ScriptJob::Generate(count) => Ok(generate(alloc, count.number())?),
        _ => read_input(alloc, src),
    }
}

// The script that a text spells, where it suits this job.
fn suited_script(alloc: Global, job: &ScriptJob, text: &[u8]) -> Result<Script, Fault>
    requires { length text.now ≤ script_limit }
    ensures spelled { IfOk result (λ s. IsSpelled text.now s) }
    ensures suits { IfOk result (λ s. Suits job.now s) }
    ensures small { IfOk result (λ s. size_of s.table ≤ 2 ^ 26) }
    ensures stops { IfErr result (λ fault. StopsFor job.now text.now fault) }
{
    let script = spelled_by(alloc, text)?;
    match unsuited_line(job, &script, text) {
        None => Ok(script),
        Some(line) => {
            script.forget();
            Err(Fault::Script {
                line,
                cause: STEER,
                inner: 0,
            })
        }
    }
}

// The line for which a script doesn't suit this job.
fn unsuited_line(job: &ScriptJob, script: &Script, text: &[u8]) -> Option<u32>
    requires reads { Reads text.now (Ok script.now) }
    requires within { length text.now ≤ script_limit }
    ensures none { result ≡ None → Suits job.now script.now }
    ensures some { IfSome result (λ line. (job.now ≡ ScriptJob.Steer)
        × (is_block script.now.settings.mode ≡ false)
        × FirstMode 1 (lines text.now) (Some line)) }
{
    match job {
        ScriptJob::Steer => other_mode(script, text),
        _ => None,
    }
}

// The line that sets the mode of a script, where that isn't the blocking one.
fn other_mode(script: &Script, text: &[u8]) -> Option<u32>
    requires reads { Reads text.now (Ok script.now) }
    requires within { length text.now ≤ script_limit }
    ensures none { result ≡ None → is_block script.now.settings.mode ≡ true }
    ensures some { IfSome result (λ line. (is_block script.now.settings.mode ≡ false)
        × FirstMode 1 (lines text.now) (Some line)) }
{
    modes_are_set();
    match script.mode() {
        RingMode::Block => None,
        _ => mode_line(text),
    }
}

fn read_input<S: Source>(alloc: Global, src: &mut S) -> Result<Bytes, Fault>
    ensures whole { IfOk result (λ text. GaveWhole
        (input_of S.left S.faults src.old src.new) text.items) }
    ensures withheld { IfErr result (λ fault. Withholds
        (input_of S.left S.faults src.old src.new) fault) }
    ensures later { S.faults src.old ≤ S.faults src.new }
{
    match read_all(alloc, src, SCRIPT_LIMIT) {
        Ok(text) => Ok(text),
        Err(ReadFault::Failed) => Err(Fault::Source),
        Err(ReadFault::Long { .. }) => Err(Fault::Long),
        Err(ReadFault::Memory) => Err(Fault::Memory),
    }
}

// The script that a text spells. Its table has few enough texts to be written.
fn spelled_by(alloc: Global, text: &[u8]) -> Result<Script, Fault>
    requires { length text.now ≤ script_limit }
    ensures spelled { IfOk result (λ s. IsSpelled text.now s) }
    ensures small { IfOk result (λ s. size_of s.table ≤ 2 ^ 26) }
    ensures stops { IfErr result (λ fault. Stops text.now fault) }
{
    size_grows();
    texts_are_few();
    match read(alloc, text) {
        Ok(script) => Ok(script),
        Err(ScriptFault::Refused { line, cause, inner }) => Err(Fault::Script {
            line,
            cause,
            inner,
        }),
        Err(ScriptFault::Memory) => Err(Fault::Memory),
    }
}

// Writes what was made, and tells what is told of it.
fn outcome_of_writing<K: Sink>(out: &mut K, making: Making) -> Outcome
    ensures status { result.status ≡ status_of result.fault }
    ensures same { told result ≡ told making.outcome }
    ensures written { Writes (output_of K.held K.faults out.old out.new) making.output.items
        making.outcome.fault result.fault }
    ensures later { K.faults out.old ≤ K.faults out.new }
{
    let Making { output, outcome } = making;
    let fault = write(out, output.as_slice(), outcome.fault);
    Outcome {
        status: fault.status(),
        fault,
        ..outcome
    }
}

// Writes the output, and answers this fault where all was written.
fn write<K: Sink>(out: &mut K, output: &[u8], due: Fault) -> Fault
    ensures written { Writes (output_of K.held K.faults out.old out.new) output.now due result }
    ensures later { K.faults out.old ≤ K.faults out.new }
{
    match write_all(out, output) {
        Ok(()) => due,
        Err(Failed) => Fault::Sink,
    }
}
