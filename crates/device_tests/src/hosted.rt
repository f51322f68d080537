//! Scripts whose orders the reading thread sends. A row is the script, the turns of its statements, and what was sent both ways.
ghost use Rattle.std.specs.Prelude.{◌≡◌, true};

use crate::rows::{Kind, each_block};
use crate::scripts::{put_digits_or_nothing, script_of, stamp_of};
use crate::steering::put_turns;
use defmt_script::Script;
use defmt_steer::{SteeredRun, run_steered};
use defmt_writers::OpenGate;
use rtt_ring::{Channel, WordRing};
use std::alloc::Global;
use std::fmt::Write;
use std::sync::Wait;
use std::test::Fail;
use std::thread::Threads;
use test_rows::put_str;

// Orders that are due at first, one that is due once a frame was captured, one that never is with another behind it, and one
// that no turn hears.
const HOSTED: &str = "\
d 0 warn
d 0 info
s a defmt_debug a
s b defmt_info b
s c defmt_error c
w 0 a
w 0 b
w 0 c
=
0.0 at 0: Info by 2, sent false
0.1 at 0: Info by 2, sent true
0.2 at 0: Info by 2, sent true
3 turns, room for 4093, heard from Some(0) and Some(0)
captured 00 02 7e 00 00 03 7e 00
unheard nothing
6 bytes ordered, 0 left, Word

d 1 error
s c defmt_error c
w 0 c
=
0.0 at 0: Trace by 0, sent true
1 turns, room for 4095, heard from None and None
captured 00 01 7e 00
unheard 6c 35 0a
3 bytes ordered, 0 left, Word

d 2 error
d 0 warn
s c defmt_error c
w 0 c
=
0.0 at 0: Trace by 0, sent true
1 turns, room for 4095, heard from None and None
captured 00 01 7e 00
unheard nothing
0 bytes ordered, 0 left, Word

d 0 trace
=
0 turns, room for 4096, heard from None and None
captured nothing
unheard 6c 31 0a
3 bytes ordered, 0 left, Word";

fn put_run(run: &SteeredRun, out: &mut String) -> Result<(), Fail> {
    put_turns(&run.turns, out)?;
    put_str(out, "captured ")?;
    put_digits_or_nothing(out, run.captured.as_slice())?;
    put_str(out, "\nunheard ")?;
    put_digits_or_nothing(out, run.unheard.as_slice())?;
    let (ordered, left, ring) = (run.orders.sent_len(), run.rest.len(), run.orders.ring());
    Ok(write!(out, "\n{ordered} bytes ordered, {left} left, {ring:?}")?)
}

fn put_hosted_over<H: Channel, R: Threads + Wait + Sync>(
    rt: &R,
    alloc: Global,
    script: Script,
    out: &mut String,
) -> Result<(), Fail>
    requires { H.tells ≡ true }
{
    let stamp = stamp_of(&script);
    let run = run_steered::<H, _, _, R>(rt, alloc, script, stamp, &OpenGate)?;
    put_run(&run, out)
}

pub(crate) fn put_hosted<R: Threads + Wait + Sync>(
    rt: &R,
    alloc: Global,
    text: &str,
    out: &mut String,
) -> Result<(), Fail> {
    let script = script_of(alloc, text)?;
    put_hosted_over::<WordRing, R>(rt, alloc, script, out)
}

#[test]
fn orders_are_sent_once_as_many_frames_came_as_they_say(rt: HostRuntime) -> Result<(), Fail> {
    each_block(&rt, rt.alloc(), HOSTED, 4, &Kind::Hosted)
}
