//! Orders by an ear, and a steered logger over two rings, on one thread.
ghost use Rattle.std.specs.Prelude.{◌≡◌, []};
ghost use Rattle.defmt_frames.specs.Frames.{pace_of};
ghost use Rattle.rtt_ring.specs.PlainView.{up_of};
ghost use Rattle.rtt_ring.specs.Views.{new_down, new_up};
ghost use Rattle.rtt_ring.specs.WordEnds.{down_of, up_of as host_of};
ghost use Rattle.shared_work.specs.Names.{AreNamed};

use crate::logger::NoRelief;
use crate::rows::{self, each_block, each_line};
use crate::scripts::{put_digits_or_nothing, script_of, stamp_of};
use defmt_hooks::{Clock, Level, Stamp};
use defmt_script::Script;
use dl_io::Bytes;
use rtt_down::{EachTurn, Ear, Naming, Steered, Steering, Turn, Turns, order_bytes};
use rtt_modes::skip;
use rtt_ring::{Channel, PlainRing, WordDown, WordRing, WordUp};
use shared_work::{Blanks, Books, Eight, HasBook, Names, Pen, Quota, Work};
use std::alloc::Global;
use std::fmt::Write;
use std::marker::Brand;
use std::sync::Wait;
use std::sync::ledger::Ledger;
use std::test::Fail;
use test_rows::put_str;

// Bytes, where `;` stands for a newline: the levels that they order.
const HEARD: &str = "\
l1;l2;l3;l4;l5; = heard Trace Debug Info Warn Error
;l;l0;l6;ll3;L4;x4; = heard
l4 = heard
l4x;3;l5; = heard Error
l44;l4 ;l4; = heard Warn";

// The digits of the orders that are sent before each of three turns of the writer 0, `-` for none, and a script: the turns as
// far as the writers have statements, one of the writer 1 last, from which turn the first two orders were heard, and what was
// sent.
const STEERED: &str = "\
4 - 2
s a defmt_info a
s b defmt_warn b
s c defmt_println c
w 0 a
w 0 b
w 0 a
w 1 c
=
0.0 at 0: Warn by 1, sent false
0.1 at 0: Warn by 1, sent true
0.2 at 0: Debug by 2, sent true
1.0 at 0: Debug by 2, sent true
4 turns, room for 4092, heard from Some(0) and Some(2)
sent 00 02 7e 00 00 01 7e 00 00 03 7e 00

5 - -
s a defmt_trace a
s b defmt_error b
s c defmt_println c
w 0 a
w 0 b
w 0 c
=
0.0 at 0: Error by 1, sent false
0.1 at 0: Error by 1, sent true
0.2 at 0: Error by 1, sent true
3 turns, room for 4093, heard from Some(0) and None
sent 00 02 7e 00 00 03 7e 00

- - -
stamp 1000 250
s hi defmt_info hello
w 0 hi
w 0 hi
=
0.0 at 1000: Trace by 0, sent true
0.1 at 1250: Trace by 0, sent true
2 turns, room for 4094, heard from None and None
sent 00 01 e8 03 72 7f 00 00 01 e2 04 72 7f 00";

pub(crate) fn put_heard(text: &str, out: &mut String) -> Result<(), Fail> {
    put_str(out, "heard")?;
    let mut ear = Ear::new();
    for byte in text.as_bytes() {
        let byte = if *byte == b';' { b'\n' } else { *byte };
        if let Some(level) = ear.hear(byte) {
            write!(out, " {level:?}")?;
        }
    }
    Ok(())
}

fn level_by_digit(digit: &str) -> Option<Level> {
    match digit {
        "1" => Some(Level::Trace),
        "2" => Some(Level::Debug),
        "3" => Some(Level::Info),
        "4" => Some(Level::Warn),
        "5" => Some(Level::Error),
        _ => None,
    }
}

// Sends an order down, where there is one.
fn send_order(host: &mut WordUp, order: Option<Level>)
    requires { (host_of host.old).staged ≡ [] }
    ensures { (host_of host.new).staged ≡ [] }
{
    if let Some(level) = order {
        skip(host, &order_bytes(level));
    }
}

// Takes the next turn of a helm, where it has one left, once an order was sent, where there is one.
fn steer_by<B: Books, Q: Quota, T: Work<Q>, S: HasBook<B, L>, L: Ledger, W: Wait>(
    rt: &W,
    logger: &Steered<B, Q, T>,
    helm: &mut Pen<S, L, Q>,
    host: &mut WordUp,
    order: Option<Level>,
)
    requires { (host_of host.old).staged ≡ [] }
    ensures { (host_of host.new).staged ≡ [] }
{
    send_order(host, order);
    if helm.place() < helm.total() {
        logger.log(rt, helm, &mut NoRelief);
    }
}

// The orders of the three digits of a line.
fn orders_of(line: &str) -> (Option<Level>, Option<Level>, Option<Level>) {
    let (first, rest) = line.split_once(" ").unwrap_or((line, ""));
    let (second, third) = rest.split_once(" ").unwrap_or((rest, ""));
    (
        level_by_digit(first),
        level_by_digit(second),
        level_by_digit(third),
    )
}

// Puts a line for each turn, how many there are, and at which the first two orders had been heard.
pub(crate) fn put_turns(turns: &Turns, out: &mut String) -> Result<(), Fail> {
    for turn in turns.as_slice() {
        let Turn {
            writer,
            place,
            stamp,
            floor,
            seen,
            sent,
        } = *turn;
        write!(
            out,
            "{writer}.{place} at {stamp}: {floor:?} by {seen}, sent {sent}\n"
        )?;
    }
    let (count, spare) = (turns.len(), turns.spare());
    let (first, second) = (turns.heard_at(0), turns.heard_at(1));
    Ok(write!(
        out,
        "{count} turns, room for {spare}, heard from {first:?} and {second:?}\n"
    )?)
}

// Puts the turns, and what the ring sent.
fn put_sent(alloc: Global, turns: &Turns, ring: PlainRing, out: &mut String) -> Result<(), Fail>
    requires { (up_of ring).staged ≡ [] }
{
    put_turns(turns, out)?;
    put_str(out, "sent ")?;
    let mut sent = Bytes::new(alloc);
    ring.settle(&mut sent)?;
    put_digits_or_nothing(out, sent.as_slice())
}

// Takes three turns of the writer 0, each behind its order, and one of the writer 1, as far as they have them, and closes the
// logger.
fn steer_by_helms<E: Names, K: Naming, C: Clock + Drop, W: Wait>(
    rt: &W,
    alloc: Global,
    blanks: Blanks,
    script: Script,
    stamp: Stamp<C>,
    ring: PlainRing,
    host: &mut WordUp,
    down: WordDown,
    orders: (Option<Level>, Option<Level>, Option<Level>),
    out: &mut String,
) -> Result<(), Fail>
    requires pace { stamp ≡ pace_of script.settings.stamp }
    requires up { up_of ring ≡ new_up (up_of ring).split (up_of ring).size (up_of ring).tells }
    requires down { down_of down ≡ new_down (down_of down).split (down_of down).size }
    requires staged { (host_of host.old).staged ≡ [] }
    requires names { (K.script ≡ script) × (K.up ≡ (up_of ring).split)
        × (K.down ≡ (down_of down).split) × (K.tells ≡ (up_of ring).tells) }
    requires ledgers { AreNamed blanks E.names }
{
    let (logger, mut helms) = Steered::<
        Eight<E>,
        EachTurn<K>,
        Steering<K, PlainRing, WordDown, C>,
    >::start(alloc, blanks, script, stamp, ring, down)?;
    let (first, second, third) = orders;
    steer_by(rt, &logger, &mut helms.p0, host, first);
    steer_by(rt, &logger, &mut helms.p0, host, second);
    steer_by(rt, &logger, &mut helms.p0, host, third);
    steer_by(rt, &logger, &mut helms.p1, host, None);
    let (turns, ring, _, _) = logger.close(helms);
    put_sent(alloc, &turns, ring, out)
}

// The upper ring has room for all that is sent, since nobody reads it.
pub(crate) fn put_steered<W: Wait>(
    rt: &W,
    alloc: Global,
    input: &str,
    out: &mut String,
) -> Result<(), Fail> {
    let (digits, text) = input.split_once("\n").unwrap_or((input, ""));
    let orders = orders_of(digits);
    let script = script_of(alloc, text)?;
    let Ok(ring) = PlainRing::split(alloc, 1024) else {
        return Err(Fail::new("no ring"));
    };
    let Ok((mut host, down)) = WordRing::split(alloc, 256) else {
        return Err(Fail::new("no ring"));
    };
    let stamp = stamp_of(&script);
    let blanks = Blanks::new();
    steer_by_helms::<Brand, Brand, _, _>(
        rt, alloc, blanks, script, stamp, ring, &mut host, down, orders, out,
    )
}

#[test]
fn an_ear_hears_whole_orders_alone(rt: HostRuntime) -> Result<(), Fail> {
    each_line(&rt, rt.alloc(), HEARD, 5, &rows::Kind::Heard)
}

#[test]
fn orders_mute_what_is_below_them(rt: HostRuntime) -> Result<(), Fail> {
    each_block(&rt, rt.alloc(), STEERED, 3, &rows::Kind::Steered)
}
