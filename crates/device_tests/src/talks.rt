//! Scripts whose texts for terminals are said by threads. A row is the script, what came of its statements, and what was said.
ghost use Rattle.defmt_writers.specs.Runs.{ModeFits};

use crate::rows::{Kind, each_block};
use crate::scripts::{script_of, stamp_of};
use crate::writers::put_account;
use defmt_script::Script;
use defmt_talk::{Talk, run_terminals};
use defmt_writers::OpenGate;
use rtt_booth::Word;
use rtt_ring::{Channel, WordRing};
use std::alloc::Global;
use std::fmt::Write;
use std::sync::Wait;
use std::test::Fail;
use std::thread::Threads;

const TALKS: &str = "\
s hi defmt_info hello
t 0 0 ready
w 0 hi
t 0 A tick
t 0 0 done
=
1 marks, 4 bytes sent, Word
captured 00 01 7e 00
rest nothing
writer 0 said 0 1 2
20 bytes spoken, 20 captured, Word

ring 16
mode skip
reader late
s hi defmt_info hello
w 0 hi
t 0 3 a
w 0 hi
t 0 3 b
=
2 marks, 8 bytes sent, Word
captured nothing
rest 00 01 7e 00 00 01 7e 00
writer 0 said 0 1
6 bytes spoken, 6 captured, Word

ring 16
s hi defmt_info hello
w 0 hi
t 0 3 abc
w 1 hi
t 1 3 abc
w 0 hi
t 1 3 abc
w 1 hi
t 0 3 abc
w 0 hi
w 1 hi
=
6 marks, 24 bytes sent, Word
captured 00 01 7e 00 00 01 7e 00 00 01 7e 00 00 01 7e 00 00 01 7e 00 00 01 7e 00
rest nothing
writer 0 said 0 1
writer 1 said 0 1
18 bytes spoken, 18 captured, Word

t 7 F x
=
0 marks, 0 bytes sent, Word
captured nothing
rest nothing
writer 7 said 0
4 bytes spoken, 4 captured, Word

# no lines
=
0 marks, 0 bytes sent, Word
captured nothing
rest nothing
0 bytes spoken, 0 captured, Word";

// The places of a writer's words, where it has some.
fn put_writer(words: &[Word], writer: u8, out: &mut String) -> Result<(), Fail> {
    let mut first = true;
    for word in words {
        if word.writer == writer {
            if first {
                write!(out, "\nwriter {writer} said")?;
                first = false;
            }
            write!(out, " {}", word.place)?;
        }
    }
    Ok(())
}

fn put_said(talk: &Talk, out: &mut String) -> Result<(), Fail> {
    for writer in 0..8u8 {
        put_writer(talk.said.as_slice(), writer, out)?;
    }
    let (sent, taken, ring) = (
        talk.settled.sent_len(),
        talk.captured.len(),
        talk.settled.ring(),
    );
    Ok(write!(out, "\n{sent} bytes spoken, {taken} captured, {ring:?}")?)
}

fn put_talk_over<H: Channel, R: Threads + Wait + Sync>(
    rt: &R,
    alloc: Global,
    script: Script,
    out: &mut String,
) -> Result<(), Fail>
    requires { ModeFits script.settings.mode H.tells }
{
    let stamp = stamp_of(&script);
    let (run, talk) = run_terminals::<H, _, _, R>(rt, alloc, script, stamp, &OpenGate)?;
    put_account(&run, out)?;
    put_said(&talk, out)
}

pub(crate) fn put_talk<R: Threads + Wait + Sync>(
    rt: &R,
    alloc: Global,
    text: &str,
    out: &mut String,
) -> Result<(), Fail> {
    let script = script_of(alloc, text)?;
    put_talk_over::<WordRing, R>(rt, alloc, script, out)
}

#[test]
fn texts_are_said_among_statements_and_read_also_beside_a_late_reader(
    rt: HostRuntime,
) -> Result<(), Fail> {
    each_block(&rt, rt.alloc(), TALKS, 5, &Kind::Talk)
}
