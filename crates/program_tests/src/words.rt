//! What words ask for. A row is the words, which single spaces part, and the job.
use crate::rows::{Kind, each_line};
use defmt_grammar::{Language, Text};
use defmt_words::{DecodeOptions, DumpOptions, Form, Job, RunOptions, ScriptJob, Style, job_of};
use std::alloc::Global;
use std::test::Fail;
use test_rows::{put, put_hexadecimal, put_number, words_of};

const JOBS: &str = "\
defmtl run = run
defmtl --group run = run in groups
defmtl record = record
defmtl term = term, its lines as of run
defmtl steer = steer
defmtl table = table
defmtl print = print
defmtl decode --table=t.elf = decode by t.elf
defmtl decode --table t.elf = decode by t.elf
defmtl gen 1 = generate 1
defmtl gen 4096 = generate 4096
defmtl dump --table t.elf = what waits in 0 from 20000000 by t.elf
defmtl --old dump --up 15 --table=t.elf --base 0x1FfF0000 = all of 15 from 1fff0000 by t.elf
defmtl dump --table t.elf --base=0x0 --up=0 = what waits in 0 from 0 by t.elf
defmtl dump --table t.elf --base 0xffffffff = what waits in 0 from ffffffff by t.elf
defmtl run --only warn = run by rules
defmtl run --only=off,script=info --group = run in groups by rules
defmtl decode --only off --table t.elf = decode by t.elf by rules
defmtl dump --table t.elf --only trace = what waits in 0 from 20000000 by t.elf by rules
defmtl run --json = run in JSON
defmtl run --color --group = run in groups in colors
defmtl run --fail-on trace = run failing on trace
defmtl run --fail-on=error --only off --json = run by rules in JSON failing on error
defmtl decode --live --table t.elf = decode live by t.elf
defmtl decode --table t.elf --places p = decode by t.elf with places of p
defmtl --places=p decode --only off --table=t.elf = decode by t.elf with places of p by rules
defmtl dump --places p --json --table t.elf --fail-on warn = what waits in 0 from 20000000 by t.elf with places of p in JSON failing on warn
defmtl decode --full --table t.elf = decode by t.elf in full
defmtl dump --table t.elf --full --places p = what waits in 0 from 20000000 by t.elf in full with places of p
defmtl decode --jobs 1 --table t.elf = decode by t.elf with jobs 1
defmtl --jobs=64 decode --live --json --table t.elf = decode live by t.elf with jobs 64 in JSON";

const NO_JOBS: &str = "\
defmtl frob = nothing
defmtl gen 0 = nothing
defmtl gen 4097 = nothing
defmtl gen 007 = nothing
defmtl gen = nothing
defmtl run 5 = nothing
defmtl run --table t.elf = nothing
defmtl print --group = nothing
defmtl term --group = nothing
defmtl steer --group = nothing
defmtl steer --only warn = nothing
defmtl decode = nothing
defmtl gen --table t.elf 4 = nothing
defmtl record 4 = nothing
defmtl --help = nothing
defmtl dump = nothing
defmtl dump --table t.elf 4 = nothing
defmtl dump --table t.elf --base 20000000 = nothing
defmtl dump --table t.elf --base 0x = nothing
defmtl dump --table t.elf --base 0x123456789 = nothing
defmtl dump --table t.elf --base 0X1 = nothing
defmtl dump --table t.elf --base 0x+1 = nothing
defmtl dump --table t.elf --base 0x1g = nothing
defmtl dump --table t.elf --base= = nothing
defmtl dump --table t.elf --up 16 = nothing
defmtl dump --table t.elf --up 01 = nothing
defmtl dump --table t.elf --up -1 = nothing
defmtl run --old = nothing
defmtl decode --table t.elf --up 1 = nothing
defmtl record --base 0x0 = nothing
defmtl run --only loud = nothing
defmtl run --only warn,a=info,a=warn = nothing
defmtl run --only= = nothing
defmtl run --only = nothing
defmtl run --only warn --only warn = nothing
defmtl print --only warn = nothing
defmtl record --only warn = nothing
defmtl gen 4 --only warn = nothing
defmtl run --json --color = nothing
defmtl run --json --json = nothing
defmtl run --json=1 = nothing
defmtl print --json = nothing
defmtl term --color = nothing
defmtl steer --json = nothing
defmtl table --json = nothing
defmtl run --fail-on off = nothing
defmtl run --fail-on Info = nothing
defmtl run --fail-on= = nothing
defmtl run --fail-on --json = nothing
defmtl record --fail-on warn = nothing
defmtl run --places p = nothing
defmtl decode --table t.elf --places = nothing
defmtl decode --table t.elf --places p --places p = nothing
defmtl run --live = nothing
defmtl dump --table t.elf --live = nothing
defmtl decode --table t.elf --live=1 = nothing
defmtl run --full = nothing
defmtl table --full = nothing
defmtl decode --full --table t.elf --full = nothing
defmtl dump --table t.elf --full=1 = nothing
defmtl decode --table t.elf --jobs 0 = nothing
defmtl decode --table t.elf --jobs 65 = nothing
defmtl decode --table t.elf --jobs 02 = nothing
defmtl decode --table t.elf --jobs +2 = nothing
defmtl decode --table t.elf --jobs -1 = nothing
defmtl decode --table t.elf --jobs= = nothing
defmtl decode --table t.elf --jobs = nothing
defmtl decode --table t.elf --jobs 2 --jobs 2 = nothing
defmtl dump --table t.elf --jobs 2 = nothing
defmtl run --jobs 2 = nothing";

fn put_style(style: &Style, out: &mut String) {
    if style.only.is_some() {
        put(out, " by rules");
    }
    match style.form {
        Form::Plain => {}
        Form::Color => put(out, " in colors"),
        Form::Json => put(out, " in JSON"),
    }
    if let Some(level) = style.fail_on {
        put(out, " failing on ");
        put(out, level.word());
    }
}

fn put_run(options: &RunOptions, out: &mut String) {
    put(
        out,
        if options.group {
            "run in groups"
        } else {
            "run"
        },
    );
    put_style(&options.style, out);
}

fn put_script_job(job: &ScriptJob, out: &mut String) {
    match job {
        ScriptJob::Run(options) => put_run(options, out),
        ScriptJob::Record => put(out, "record"),
        ScriptJob::Terminals => {
            put(out, "term, its lines as of ");
            put_run(&RunOptions::none(), out);
        }
        ScriptJob::Steer => put(out, "steer"),
        ScriptJob::Table => put(out, "table"),
        ScriptJob::Print => put(out, "print"),
        ScriptJob::Generate(count) => {
            put(out, "generate ");
            put_number(out, u64::from(count.number()));
        }
    }
}

fn put_files(table: &str, language: Language, places: &Option<Text>, out: &mut String) {
    put(out, " by ");
    put(out, table);
    match language {
        Language::Base => {}
        Language::Full => put(out, " in full"),
    }
    if let Some(places) = places {
        put(out, " with places of ");
        put(out, places.as_str());
    }
}

fn put_decode(options: &DecodeOptions, out: &mut String) {
    put(
        out,
        if options.live {
            "decode live"
        } else {
            "decode"
        },
    );
    put_files(
        options.table.as_str(),
        options.language,
        &options.places,
        out,
    );
    if let Some(jobs) = &options.jobs {
        put(out, " with jobs ");
        put_number(out, u64::from(jobs.number()));
    }
    put_style(&options.style, out);
}

fn put_dump(options: &DumpOptions, out: &mut String) {
    let what = if options.old {
        "all of"
    } else {
        "what waits in"
    };
    put(out, what);
    put(out, " ");
    put_number(out, u64::from(options.up));
    put(out, " from ");
    put_hexadecimal(out, u64::from(options.base));
    put_files(
        options.table.as_str(),
        options.language,
        &options.places,
        out,
    );
    put_style(&options.style, out);
}

fn put_job(job: &Option<Job>, out: &mut String) {
    match job {
        Some(Job::Script(job)) => put_script_job(job, out),
        Some(Job::Decode(options)) => put_decode(options, out),
        Some(Job::Dump(options)) => put_dump(options, out),
        None => put(out, "nothing"),
    }
}

fn put_asked(alloc: Global, words: &[String], out: &mut String) {
    match job_of(alloc, words) {
        Ok(job) => put_job(&job, out),
        Err(_) => put(out, "memory"),
    }
}

pub(crate) fn put_words(alloc: Global, row: &str, out: &mut String) -> Result<(), Fail> {
    let words = words_of(alloc, row)?;
    put_asked(alloc, &words, out);
    Ok(())
}

#[test]
fn words_ask_for_their_job_and_others_for_nothing(rt: HostRuntime) -> Result<(), Fail> {
    each_line(&rt, rt.alloc(), JOBS, 31, &Kind::Job)?;
    each_line(&rt, rt.alloc(), NO_JOBS, 70, &Kind::Job)
}
