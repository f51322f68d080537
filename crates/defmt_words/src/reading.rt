//! The job by what was found in the words.
ghost use Rattle.std.specs.Prelude.{◌≡◌, map, IfOk, string_bytes};
ghost use Rattle.clap.specs.Words.{found_of, rows_of};
ghost use Rattle.defmt_words.specs.View.{text_in};
ghost use Rattle.defmt_words.specs.Parameters.{all_go};
ghost use Rattle.defmt_words.specs.Words.{chosen, job, choice, base_in, decode_by, dump_by, generate_by, jobs_by, language_by, parameters, run_by, up_in};

use crate::command_line::matches_of;
use crate::job::{DecodeOptions, DumpOptions, Job, RunOptions, ScriptJob, command_parameters};
use crate::number::{Jobs, Up, decimal_of, hexadecimal_of};
use crate::parameters::{all_go, is_set, value_of};
use crate::style::{style_of, style_parameters};
use clap::ArgMatches;
use defmt_grammar::{Language, Text};
use dl_io::Memory;
use std::alloc::Global;

fn run_job(alloc: Global, matches: &ArgMatches<'_>) -> Result<Option<Job>, Memory>
    ensures { IfOk result (λ job. job ≡ run_by (rows_of (found_of matches.now))) }
{
    let Some(style) = style_of(alloc, matches)? else {
        return Ok(None);
    };
    let group = is_set(matches, "group");
    Ok(Some(Job::Script(ScriptJob::Run(RunOptions { group, style }))))
}

fn text_of(alloc: Global, text: &str) -> Result<Text, Memory>
    ensures { IfOk result (λ copy. copy ≡ text.now) }
{
    let mut copy = Text::new(alloc);
    match copy.push_str(text) {
        Ok(()) => Ok(copy),
        Err(_) => Err(Memory),
    }
}

// A copy of a value, where there is one.
fn copy_of(alloc: Global, value: Option<&str>) -> Result<Option<Text>, Memory>
    ensures { IfOk result (λ copy. copy ≡ text_in value.entry) }
{
    match value {
        Some(text) => Ok(Some(text_of(alloc, text)?)),
        None => Ok(None),
    }
}

// The language of the table.
fn language_of(matches: &ArgMatches<'_>) -> Language
    ensures { result ≡ language_by (rows_of (found_of matches.now)) }
{
    if is_set(matches, "full") {
        Language::Full
    } else {
        Language::Base
    }
}

// The number of threads, and none where `--jobs` isn't there; `None` where its value spells none.
fn jobs_of(matches: &ArgMatches<'_>) -> Option<Option<Jobs>>
    ensures { result ≡ jobs_by (rows_of (found_of matches.now)) }
{
    let Some(text) = value_of(matches, "jobs") else {
        return Some(None);
    };
    let jobs = decimal_of(text)?;
    Some(Some(jobs))
}

fn decode_job(alloc: Global, matches: &ArgMatches<'_>) -> Result<Option<Job>, Memory>
    ensures { IfOk result (λ job. job ≡ decode_by (rows_of (found_of matches.now))) }
{
    let Some(name) = value_of(matches, "table") else {
        return Ok(None);
    };
    let Some(jobs) = jobs_of(matches) else {
        return Ok(None);
    };
    let Some(style) = style_of(alloc, matches)? else {
        return Ok(None);
    };
    let table = text_of(alloc, name)?;
    let language = language_of(matches);
    let places = copy_of(alloc, value_of(matches, "places"))?;
    let live = is_set(matches, "live");
    Ok(Some(Job::Decode(DecodeOptions {
        table,
        language,
        places,
        live,
        jobs,
        style,
    })))
}

// Where the memory of a Cortex-M begins.
const BASE: u32 = 0x2000_0000;

fn base_of(matches: &ArgMatches<'_>) -> Option<u32>
    ensures { result ≡ base_in (rows_of (found_of matches.now)) }
{
    match value_of(matches, "base") {
        Some(text) => hexadecimal_of(text),
        None => Some(BASE),
    }
}

fn up_of(matches: &ArgMatches<'_>) -> Option<u32>
    ensures { result ≡ up_in (rows_of (found_of matches.now)) }
{
    let Some(text) = value_of(matches, "up") else {
        return Some(0);
    };
    let up: Up = decimal_of(text)?;
    Some(up.number())
}

fn dump_job(alloc: Global, matches: &ArgMatches<'_>) -> Result<Option<Job>, Memory>
    ensures { IfOk result (λ job. job ≡ dump_by (rows_of (found_of matches.now))) }
{
    let Some(name) = value_of(matches, "table") else {
        return Ok(None);
    };
    let Some(base) = base_of(matches) else {
        return Ok(None);
    };
    let Some(up) = up_of(matches) else {
        return Ok(None);
    };
    let Some(style) = style_of(alloc, matches)? else {
        return Ok(None);
    };
    let table = text_of(alloc, name)?;
    let language = language_of(matches);
    let places = copy_of(alloc, value_of(matches, "places"))?;
    let old = is_set(matches, "old");
    Ok(Some(Job::Dump(DumpOptions {
        table,
        language,
        places,
        base,
        up,
        old,
        style,
    })))
}

fn generate_job(matches: &ArgMatches<'_>) -> Option<Job>
    ensures { result ≡ generate_by (rows_of (found_of matches.now)) }
{
    let count = decimal_of(value_of(matches, "number")?)?;
    Some(Job::Script(ScriptJob::Generate(count)))
}

// The job of a command, by parameters that go with it.
fn choice_of(alloc: Global, command: &str, matches: &ArgMatches<'_>) -> Result<Option<Job>, Memory>
    ensures { IfOk result (λ job. job ≡ choice command.now (rows_of (found_of matches.now))) }
{
    match command {
        "run" => run_job(alloc, matches),
        "record" => Ok(Some(Job::Script(ScriptJob::Record))),
        "term" => Ok(Some(Job::Script(ScriptJob::Terminals))),
        "steer" => Ok(Some(Job::Script(ScriptJob::Steer))),
        "table" => Ok(Some(Job::Script(ScriptJob::Table))),
        "print" => Ok(Some(Job::Script(ScriptJob::Print))),
        "decode" => decode_job(alloc, matches),
        "dump" => dump_job(alloc, matches),
        "gen" => Ok(generate_job(matches)),
        _ => Ok(None),
    }
}

// Whether all parameters go with the command.
fn goes_with(command: &str, matches: &ArgMatches<'_>) -> bool
    ensures { result ≡ all_go command.now (rows_of (found_of matches.now)) parameters }
{
    all_go(command, matches, &command_parameters()) && all_go(command, matches, &style_parameters())
}

fn chosen_of(alloc: Global, matches: &ArgMatches<'_>) -> Result<Option<Job>, Memory>
    ensures { IfOk result (λ job. job ≡ chosen (rows_of (found_of matches.now))) }
{
    let Some(command) = value_of(matches, "command") else {
        return Ok(None);
    };
    if goes_with(command, matches) {
        choice_of(alloc, command, matches)
    } else {
        Ok(None)
    }
}

/// What the words ask for, or `None` where they ask for nothing. The first word is the program's name.
///
/// `clap` reads them as one simple command: a required positional `command`, and a rule a row of `parameters`: a positional word, an option
/// with one value, or a flag. The variants of [`Job`] and [`ScriptJob`] say which go with which command, with those of [`Style`] where they
/// speak of options of printing: what stands there in brackets may be left out, what stands there without must be there, and nothing else
/// may. N is decimal, without sign or leading zero: of `gen` from 1 to 4,096, of `--up` from 0 to 15, of `--jobs` from 1 to 64. HEX is 1 to
/// 8 hexadecimal digits of either case. What `clap` answers with help or a version asks for nothing. The one error is want of memory.
///
/// [`Style`]: crate::Style
pub fn job_of(alloc: Global, words: &[String]) -> Result<Option<Job>, Memory>
    ensures { IfOk result (λ answer. answer ≡ job (map string_bytes words.now)) }
{
    match matches_of(alloc, words)? {
        Some(matches) => chosen_of(alloc, &matches),
        None => Ok(None),
    }
}
