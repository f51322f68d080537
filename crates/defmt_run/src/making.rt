//! What is made of a script, before it is written.
ghost use Rattle.std.specs.Prelude.{◌≡◌, ◌≤◌, ◌^◌, IfOk, Ok};
ghost use Rattle.elf_table.specs.Listed.{size_of};
ghost use Rattle.defmt_recording.specs.declared.fault.Fault.TheVariants.{Fine};
ghost use Rattle.defmt_run.specs.Making.{IsLogged, Makes};
ghost use Rattle.defmt_run.specs.Told.{IsGated, IsUntold, steered_of, told, told_of};
ghost use Rattle.defmt_run.specs.declared.hearing.Heard.{Heard as HeardOf};

use crate::hearing::{Heard, hear_run, hear_spoken, hear_steered};
use crate::logging::{log, speak, steer};
use crate::outcome::Outcome;
use defmt_decode::Events;
use defmt_logger::Tape;
use defmt_print::statement_lines;
use defmt_recording::Fault;
use defmt_script::Script;
use defmt_steer::SteeredRun;
use defmt_talk::Talk;
use defmt_words::ScriptJob;
use defmt_writers::{Gate, Run};
use dl_io::{Bytes, Memory};
use elf_table::write_table;
use rtt_booth::Said;
use rtt_down::Turns;
use rtt_ring::Settled;
use std::alloc::Global;
use std::sync::Wait;
use std::thread::Threads;

// The session ends with its script, so the script isn't taken apart statement by statement: its memory is forgotten.

/// What comes of a job on a script.
#[derive(Drop)]
pub struct Making {
    /// What is to be written.
    pub output: Bytes,
    /// What is answered once all of it is written.
    pub outcome: Outcome,
}

/// What comes of a job on a script. It may wait for the writers.
pub fn make<G: Gate + Sync, R: Threads + Wait + Sync>(
    rt: &R,
    alloc: Global,
    job: &ScriptJob,
    script: Script,
    gate: &G,
) -> Result<Making, Memory>
    requires { size_of script.table ≤ 2 ^ 26 }
    ensures makes { IfOk result (λ made. Makes job.now script (told made.outcome)
        made.output.items made.outcome.fault) }
    ensures gate { IfOk result (λ made. IsGated (G.passed gate.now) (G.told gate.now)
        (told made.outcome)) }
{
    match job {
        ScriptJob::Terminals => making_by_speaking(rt, alloc, script, gate),
        ScriptJob::Steer => making_by_steering(rt, alloc, script, gate),
        ScriptJob::Table => {
            let file = write_table(alloc, script.table());
            without_run(alloc, script, file)
        }
        ScriptJob::Print => {
            let lines = statement_lines(alloc, &script);
            without_run(alloc, script, lines)
        }
        _ => making_by_logging(rt, alloc, job, script, gate),
    }
}

// What comes of a script that is logged, by a job that logs.
fn making_by_logging<G: Gate + Sync, R: Threads + Wait + Sync>(
    rt: &R,
    alloc: Global,
    job: &ScriptJob,
    script: Script,
    gate: &G,
) -> Result<Making, Memory>
    ensures makes { IsLogged job.now → IfOk result (λ made.
        Makes job.now script (told made.outcome) made.output.items made.outcome.fault) }
    ensures gate { IfOk result (λ made. IsGated (G.passed gate.now) (G.told gate.now)
        (told made.outcome)) }
{
    let run = log(rt, alloc, script, gate)?;
    let heard = hear_run(alloc, job, &run);
    with_run(alloc, run, heard, Said::new(alloc), None)
}

// What comes of a script that is logged, and whose texts for terminals are said.
fn making_by_speaking<G: Gate + Sync, R: Threads + Wait + Sync>(
    rt: &R,
    alloc: Global,
    script: Script,
    gate: &G,
) -> Result<Making, Memory>
    ensures makes { IfOk result (λ made. Makes ScriptJob.Terminals script (told made.outcome)
        made.output.items made.outcome.fault) }
    ensures gate { IfOk result (λ made. IsGated (G.passed gate.now) (G.told gate.now)
        (told made.outcome)) }
{
    let (run, talk) = speak(rt, alloc, script, gate)?;
    let heard = hear_spoken(alloc, &run, &talk);
    let Talk {
        said,
        settled,
        captured: _,
        rest: _,
    } = talk;
    with_run(alloc, run, heard, said, Some(settled))
}

// What comes of a script that is run under its orders.
fn making_by_steering<G: Gate + Sync, R: Threads + Wait + Sync>(
    rt: &R,
    alloc: Global,
    script: Script,
    gate: &G,
) -> Result<Making, Memory>
    ensures makes { IfOk result (λ made. Makes ScriptJob.Steer script (told made.outcome)
        made.output.items made.outcome.fault) }
    ensures gate { IfOk result (λ made. IsGated (G.passed gate.now) (G.told gate.now)
        (told made.outcome)) }
{
    let run = steer(rt, alloc, script, gate)?;
    let heard = hear_steered(alloc, &run);
    with_steered(alloc, run, heard)
}

// What was heard of a run, and what was said on terminals.
fn with_run(
    alloc: Global,
    run: Run,
    heard: Result<Heard, Memory>,
    said: Said,
    term: Option<Settled>,
) -> Result<Making, Memory>
    ensures { IfOk result (λ made. (h : HeardOf) × (heard ≡ Ok h)
        × (made.output.items ≡ h.output.items) × (told made.outcome
        ≡ told_of run.tape run.settled h.events run.looks said term)
        × (made.outcome.fault ≡ h.fault)) }
{
    let Run {
        script,
        tape,
        settled,
        captured: _,
        rest: _,
        looks,
    } = run;
    script.forget();
    let Heard {
        events,
        output,
        fault,
    } = heard?;
    let outcome = Outcome {
        status: fault.status(),
        fault,
        tape,
        settled: Some(settled),
        events,
        looks,
        said,
        term,
        turns: Turns::new(alloc),
        orders: None,
    };
    Ok(Making { output, outcome })
}

// What was heard of a run under orders.
fn with_steered(
    alloc: Global,
    run: SteeredRun,
    heard: Result<Heard, Memory>,
) -> Result<Making, Memory>
    ensures { IfOk result (λ made. (h : HeardOf) × (heard ≡ Ok h)
        × (made.output.items ≡ h.output.items) × (told made.outcome
        ≡ steered_of run.turns run.settled h.events run.orders)
        × (made.outcome.fault ≡ h.fault)) }
{
    let SteeredRun {
        script,
        turns,
        settled,
        captured: _,
        rest: _,
        orders,
        unheard: _,
    } = run;
    script.forget();
    let Heard {
        events,
        output,
        fault,
    } = heard?;
    let outcome = Outcome {
        status: fault.status(),
        fault,
        tape: Tape::new(alloc),
        settled: Some(settled),
        events,
        looks: 0,
        said: Said::new(alloc),
        term: None,
        turns,
        orders: Some(orders),
    };
    Ok(Making { output, outcome })
}

// What is written of a script that isn't run.
fn without_run(
    alloc: Global,
    script: Script,
    output: Result<Bytes, Memory>,
) -> Result<Making, Memory>
    ensures { IfOk result (λ made. IsUntold (told made.outcome)
        × (output ≡ Ok made.output) × (made.outcome.fault ≡ Fine)) }
{
    script.forget();
    Ok(Making {
        output: output?,
        outcome: Outcome::silent(alloc, Fault::Fine),
    })
}
