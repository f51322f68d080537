//! What the host tells of a run, and what is written of it.
ghost use Rattle.std.specs.Prelude.{◌≡◌, ◌++◌, ℕ, IfOk};
ghost use Rattle.defmt_decode.specs.Event.{events_of};
ghost use Rattle.defmt_print.specs.Heard.{GapsIn, LinesIn, catalog_of};
ghost use Rattle.defmt_run.specs.Making.{IsLogged, IsWordRun, IsWordSteered, IsWordTalk, MakesAlone, MakesSpoken, MakesSteered};
ghost use Rattle.defmt_writers.specs.Runs.{IsRun};

use crate::terminals::with_spoken;
use defmt_decode::Events;
use defmt_print::{
    heard_events, run_failing, run_lines, sent_events, sent_lines, steered_lines, summary,
};
use defmt_recording::{Fault, fault_of};
use defmt_steer::SteeredRun;
use defmt_talk::Talk;
use defmt_words::{RunOptions, ScriptJob};
use defmt_writers::Run;
use dl_io::{Bytes, Memory};
use std::alloc::Global;

/// What the host tells of a run, and what is to be written of it.
#[derive(Drop)]
pub struct Heard {
    /// What the host tells of what was sent.
    pub events: Events,
    /// What is to be written.
    pub output: Bytes,
    /// What is answered once all of it is written.
    pub fault: Fault,
}

/// What is heard of a run by a job that logs: its lines, what was sent, or else counts.
pub fn hear_run(alloc: Global, job: &ScriptJob, run: &Run) -> Result<Heard, Memory>
    requires { IsWordRun run.now }
    ensures { IsLogged job.now → IfOk result (λ heard.
        MakesAlone job.now run.now heard.events heard.output.items heard.fault) }
{
    match job {
        ScriptJob::Run(options) => lines_of_run(alloc, options, run),
        ScriptJob::Record => stream_of_run(alloc, run),
        _ => counts_of_run(alloc, run),
    }
}

// The lines of what the host tells of a run, or those in groups by writer, and then what was lost.
fn lines_of_run(alloc: Global, options: &RunOptions, run: &Run) -> Result<Heard, Memory>
    requires { IsWordRun run.now }
    ensures { IfOk result (λ heard. MakesAlone (ScriptJob.Run options.now) run.now heard.events
        heard.output.items heard.fault) }
{
    let events = events_of_run(alloc, run)?;
    run.script.lawful();
    let output = run_lines(alloc, options, &run.script, &run.tape, &events)?;
    let failing = run_failing(options, &run.script, &run.tape, &events);
    let fault = fault_of(options.style.fail_on, failing, 0);
    Ok(Heard {
        events,
        output,
        fault,
    })
}

// What a run sent.
fn stream_of_run(alloc: Global, run: &Run) -> Result<Heard, Memory>
    requires { IsWordRun run.now }
    ensures { IfOk result (λ heard. MakesAlone ScriptJob.Record run.now heard.events
        heard.output.items heard.fault) }
{
    let output = joined_bytes(alloc, run.captured.as_slice(), run.rest.as_slice())?;
    Ok(Heard {
        events: Events::new(alloc),
        output,
        fault: Fault::Fine,
    })
}

// Counts of the statements of a run.
fn counts_of_run(alloc: Global, run: &Run) -> Result<Heard, Memory>
    requires { IsWordRun run.now }
    ensures { IfOk result (λ heard. (count : ℕ) → MakesAlone (ScriptJob.Generate count) run.now
        heard.events heard.output.items heard.fault) }
{
    let events = events_of_run(alloc, run)?;
    run.script.lawful();
    let output = summary(alloc, &run.script, &run.tape)?;
    Ok(Heard {
        events,
        output,
        fault: Fault::Fine,
    })
}

/// What is heard of a run whose texts were said: its lines, what was lost, and then the texts of each terminal.
pub fn hear_spoken(alloc: Global, run: &Run, talk: &Talk) -> Result<Heard, Memory>
    requires run { IsWordRun run.now }
    requires talk { IsWordTalk run.now talk.now }
    ensures { IfOk result (λ heard. MakesSpoken run.now talk.now heard.events heard.output.items
        heard.fault) }
{
    let events = events_of_run(alloc, run)?;
    run.script.lawful();
    let options = RunOptions::none();
    let lines = run_lines(alloc, &options, &run.script, &run.tape, &events)?;
    let output = with_spoken(alloc, lines, &run.script, talk)?;
    Ok(Heard {
        events,
        output,
        fault: Fault::Fine,
    })
}

/// What is heard of a run under orders: its lines, and then a line for each order.
pub fn hear_steered(alloc: Global, run: &SteeredRun) -> Result<Heard, Memory>
    requires { IsWordSteered run.now }
    ensures { IfOk result (λ heard. MakesSteered run.now heard.events heard.output.items
        heard.fault) }
{
    sent_lines(&run.script);
    let events = heard_events(
        alloc,
        &run.script,
        run.captured.as_slice(),
        run.rest.as_slice(),
    )?;
    let output = steered_lines(alloc, &run.script, &run.turns, &events)?;
    Ok(Heard {
        events,
        output,
        fault: Fault::Fine,
    })
}

// The events of what a run sent. In blocking and skip mode they are the lines of the frames that were sent whole, with the places
// of their marks, and in profile Two the gaps between them are those of the tape.
fn events_of_run(alloc: Global, run: &Run) -> Result<Events, Memory>
    requires { IsRun run.now.script run.now.tape run.now.settled
        run.now.captured.items run.now.rest.items run.now.looks }
    ensures events { IfOk result (λ events.
        events ≡ events_of (catalog_of run.now.script) run.now.settled.sent) }
    ensures lines { IfOk result (λ events.
        LinesIn run.now.script.settings.mode run.now.script run.now.tape.marks events) }
    ensures gaps { IfOk result (λ events. GapsIn run.now.script.settings.mode
        run.now.script.settings.profile run.now.script run.now.tape.marks events) }
{
    sent_events(
        alloc,
        &run.script,
        &run.tape,
        run.captured.as_slice(),
        run.rest.as_slice(),
    )
}

/// These bytes, one part after the other.
pub fn joined_bytes(alloc: Global, front: &[u8], rest: &[u8]) -> Result<Bytes, Memory>
    ensures { IfOk result (λ all. all.items ≡ front.now ++ rest.now) }
{
    let mut all = Bytes::new(alloc);
    all.reserve(front.len().saturating_add(rest.len()))?;
    all.extend_from_slice(front)?;
    all.extend_from_slice(rest)?;
    Ok(all)
}
