//! A logger over a plain ring, on one thread.
ghost use Rattle.std.specs.Prelude.{◌≡◌, [], true, ⊤};
ghost use Rattle.defmt_frames.specs.Frames.{pace_of};
ghost use Rattle.rtt_ring.specs.PlainView.{up_of};
ghost use Rattle.rtt_ring.specs.Views.{new_up};
ghost use Rattle.shared_work.specs.Names.{AreNamed};

use crate::rows::{self, each_block};
use crate::scripts::{put_digits_or_nothing, put_marks, script_of, site_at, stamp_of};
use defmt_encode::MESSAGE_LIMIT;
use defmt_grammar::{IntSize, Kind, Slot};
use defmt_hooks::{Clock, Stamp};
use defmt_intern::Table;
use defmt_logger::{EachStatement, Logger, Logging, Naming, Tape};
use defmt_macros::{Frame, Site, put};
use defmt_script::Script;
use dl_io::Bytes;
use rtt_modes::Relief;
use rtt_ring::PlainRing;
use shared_work::{Blanks, Books, Eight, HasBook, Names, Pen, Quota, Work};
use std::alloc::Global;
use std::fmt::Write;
use std::marker::Brand;
use std::sync::Wait;
use std::sync::ledger::Ledger;
use std::test::Fail;

// A script: what came of it where the writer 1 logs a statement, then the writer 0 three, as far as they have them.
const LOGGED: &str = "\
ring 16
mode skip
reader late
stamp 1000 250
s hi defmt_info hello
w 0 hi
w 1 hi
w 0 hi
=
1.0 at 1000 Whole
0.0 at 1250 Whole
0.1 at 1500 Dropped { need: 7, room: 1 }
3 marks, room for 4093
sent 00 01 e8 03 72 7f 00 00 01 e2 04 72 7f 00

ring 64
profile 2
s hi defmt_info hello
w 0 hi
w 1 hi
w 0 hi
=
1.0 at 0 Whole
0.0 at 0 Whole
0.1 at 0 Whole
3 marks, room for 4093
sent 00 01 7e 00 00 01 01 7a 00 00 01 02 7a 00";

// The same where a frame of the first statement's string is begun, given two numbers and dropped afterwards.
const DROPPED: &str = "\
s pair defmt_info {=u8} {=u8}
w 0 pair 1 2
=
0.0 at 0 Whole
1 marks, room for 4095
sent 00 01 01 02 72 00";

// Waits for nobody.
#[derive(Drop)]
pub(crate) struct NoRelief;

impl Relief for NoRelief {
    ghost kept = { λ _. ⊤ };

    fn ease(&mut self) {}
}

// Logs the next statement of a pen, where it has one left.
fn log_by<B: Books, Q: Quota, T: Work<Q>, S: HasBook<B, L>, L: Ledger, W: Wait>(
    rt: &W,
    logger: &Logger<B, Q, T>,
    pen: &mut Pen<S, L, Q>,
) {
    if pen.place() < pen.total() {
        logger.log(rt, pen, &mut NoRelief);
    }
}

// Logs the next three statements of a pen, as far as it has them.
fn log_three_by<B: Books, Q: Quota, T: Work<Q>, S: HasBook<B, L>, L: Ledger, W: Wait>(
    rt: &W,
    logger: &Logger<B, Q, T>,
    pen: &mut Pen<S, L, Q>,
) {
    for _ in 0..3 {
        log_by(rt, logger, pen);
    }
}

// Begins a message of two bytes, puts both, and drops its frame.
fn drop_frame(site: &Site, table: &Table) -> Result<(), Fail> {
    let [
        Slot::One(Kind::Uint(IntSize::W8)),
        Slot::One(Kind::Uint(IntSize::W8)),
    ] = site.slots()
    else {
        return Err(Fail::new("other slots"));
    };
    let mut message = [0; MESSAGE_LIMIT];
    let mut frame = Frame::begin(&mut message, site, None, None);
    put!(frame, table, u8 1);
    put!(frame, table, u8 2);
    drop(frame);
    Ok(())
}

// The same of the first entry of a table, where there is a table.
fn drop_frame_of(alloc: Global, table: Option<&Table>) -> Result<(), Fail> {
    match table {
        Some(table) => {
            let site = site_at(alloc, table, 1)?;
            drop_frame(&site, table)
        }
        None => Ok(()),
    }
}

fn put_tape(tape: &Tape, sent: &[u8], out: &mut String) -> Result<(), Fail> {
    put_marks(out, tape)?;
    let (count, spare) = (tape.len(), tape.spare());
    write!(out, "{count} marks, room for {spare}\nsent ")?;
    put_digits_or_nothing(out, sent)
}

// Puts a tape and what the ring sent, where a frame was dropped or none had to be.
fn put_sent(
    alloc: Global,
    dropped: Result<(), Fail>,
    tape: &Tape,
    ring: PlainRing,
    out: &mut String,
) -> Result<(), Fail>
    requires { (up_of ring).staged ≡ [] }
{
    dropped?;
    let mut sent = Bytes::new(alloc);
    ring.settle(&mut sent)?;
    put_tape(tape, sent.as_slice(), out)
}

// Logs a statement of the writer 1 and three of the writer 0, as far as they have them, drops a frame of a table where there
// is one, and closes the logger. Puts the tape and what was sent.
fn log_by_pens<E: Names, K: Naming, C: Clock + Drop, W: Wait>(
    rt: &W,
    alloc: Global,
    blanks: Blanks,
    script: Script,
    stamp: Stamp<C>,
    ring: PlainRing,
    table: Option<&Table>,
    out: &mut String,
) -> Result<(), Fail>
    requires pace { stamp ≡ pace_of script.settings.stamp }
    requires fresh { up_of ring ≡ new_up (up_of ring).split script.settings.ring true }
    requires names { (K.script ≡ script) × (K.split ≡ (up_of ring).split)
        × (K.tells ≡ (up_of ring).tells) }
    requires ledgers { AreNamed blanks E.names }
{
    let (logger, mut pens) = Logger::<Eight<E>, EachStatement<K>, Logging<K, PlainRing, C>>::start(
        alloc, blanks, script, stamp, ring,
    )?;
    log_by(rt, &logger, &mut pens.p1);
    log_three_by(rt, &logger, &mut pens.p0);
    let dropped = drop_frame_of(alloc, table);
    let (tape, ring, _) = logger.close(pens);
    put_sent(alloc, dropped, &tape, ring, out)
}

// Runs the pens of a script's logger over a ring of its own.
fn log_script<W: Wait>(
    rt: &W,
    alloc: Global,
    text: &str,
    table: Option<&Table>,
    out: &mut String,
) -> Result<(), Fail> {
    let script = script_of(alloc, text)?;
    let Ok(ring) = PlainRing::split(alloc, script.ring()) else {
        return Err(Fail::new("no ring"));
    };
    let stamp = stamp_of(&script);
    log_by_pens::<Brand, Brand, _, _>(rt, alloc, Blanks::new(), script, stamp, ring, table, out)
}

pub(crate) fn put_logged<W: Wait>(
    rt: &W,
    alloc: Global,
    text: &str,
    out: &mut String,
) -> Result<(), Fail> {
    log_script(rt, alloc, text, None, out)
}

pub(crate) fn put_logged_and_dropped<W: Wait>(
    rt: &W,
    alloc: Global,
    text: &str,
    out: &mut String,
) -> Result<(), Fail> {
    let script = script_of(alloc, text)?;
    log_script(rt, alloc, text, Some(script.table()), out)
}

#[test]
fn pens_log_what_fits_and_a_dropped_frame_leaves_no_trace(rt: HostRuntime) -> Result<(), Fail> {
    each_block(&rt, rt.alloc(), LOGGED, 2, &rows::Kind::Logged)?;
    each_block(&rt, rt.alloc(), DROPPED, 1, &rows::Kind::LoggedAndDropped)
}
