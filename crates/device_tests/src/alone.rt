//! Scripts whose statements one thread logs alone.
ghost use Rattle.std.specs.Prelude.{◌≡◌, []};
ghost use Rattle.defmt_frames.specs.Frames.{pace_of};
ghost use Rattle.defmt_logger.specs.Kept.{TellsIn};
ghost use Rattle.rtt_ring.specs.Views.{new_down, new_up};
ghost use Rattle.shared_work.specs.Names.{AreNamed};

use crate::rows::{Kind, each_block};
use crate::scripts::stamp_of;
use crate::writers::blocking_script_of;
use defmt_hooks::{Clock, Stamp};
use defmt_logger::{EachStatement, Logger, Logging, Naming};
use defmt_script::Script;
use defmt_writers::{OpenGate, serve_here};
use dl_io::Bytes;
use rtt_ring::{Channel, WordRing};
use shared_work::{Blanks, Eight, Names};
use std::alloc::Global;
use std::marker::Brand;
use std::sync::Wait;
use std::test::Fail;
use test_rows::put_digits;

// A script that one thread runs alone, with room for 64 bytes, and what it sent.
const ALONE: &str = r#"ring 16
s say defmt_info {=str}
w 0 say "abcdefghijklmnopqrstuvwxyzabcdefgh"
=
00 01 22 61 3a 62 63 64 65 66 67 68 69 6a 6b 6c 6d 6e 6f 70 71 72 73 74 75 76 77 78 79 7a 61 62 63 64 65 66 67 68 9a 00"#;

// Logs the statements of the writer 0 on this thread alone. What was sent is then captured or the rest.
fn serve_alone<H: Channel, E: Names, K: Naming, C: Clock + Drop, W: Wait>(
    rt: &W,
    alloc: Global,
    blanks: Blanks,
    script: Script,
    stamp: Stamp<C>,
    up: H::Up,
    mut down: H::Down,
    captured: &mut Bytes,
    rest: &mut Bytes,
) -> Result<(), Fail>
    requires pace { stamp ≡ pace_of script.settings.stamp }
    requires up { H.Up.view up
        ≡ new_up (H.Up.view up).split script.settings.ring (H.Up.view up).tells }
    requires told { TellsIn script.settings.mode (H.Up.view up) }
    requires down { H.Down.view down ≡ new_down (H.Up.view up).split script.settings.ring }
    requires empty { (captured.old.items ≡ []) × (rest.old.items ≡ []) }
    requires names { (K.script ≡ script) × (K.split ≡ (H.Up.view up).split)
        × (K.tells ≡ (H.Up.view up).tells) }
    requires ledgers { AreNamed blanks E.names }
{
    let (logger, mut pens) = Logger::<Eight<E>, EachStatement<K>, Logging<K, H::Up, C>>::start(
        alloc, blanks, script, stamp, up,
    )?;
    let count = pens.p0.total();
    serve_here::<H, _, _, _, _, _, _, _>(
        rt,
        &logger,
        count,
        &mut pens.p0,
        &mut down,
        captured,
        &OpenGate,
    );
    let (_, up, _) = logger.close(pens);
    H::settle(up, down, rest)?;
    Ok(())
}

// The same of a script, with room for 64 bytes.
fn run_alone<W: Wait>(
    rt: &W,
    alloc: Global,
    text: &str,
    captured: &mut Bytes,
    rest: &mut Bytes,
) -> Result<(), Fail>
    requires { (captured.old.items ≡ []) × (rest.old.items ≡ []) }
{
    captured.reserve(64)?;
    let script = blocking_script_of(alloc, text)?;
    let Ok((up, down)) = WordRing::split(alloc, script.ring()) else {
        return Err(Fail::new("no ring"));
    };
    let stamp = stamp_of(&script);
    serve_alone::<WordRing, Brand, Brand, _, _>(
        rt,
        alloc,
        Blanks::new(),
        script,
        stamp,
        up,
        down,
        captured,
        rest,
    )
}

fn put_sent_alone<W: Wait>(
    rt: &W,
    alloc: Global,
    text: &str,
    sent: &mut Bytes,
    out: &mut String,
) -> Result<(), Fail>
    requires { sent.old.items ≡ [] }
{
    let mut rest = Bytes::new(alloc);
    run_alone(rt, alloc, text, sent, &mut rest)?;
    sent.extend_from_slice(rest.as_slice())?;
    put_digits(out, sent.as_slice())
}

pub(crate) fn put_alone<W: Wait>(
    rt: &W,
    alloc: Global,
    text: &str,
    out: &mut String,
) -> Result<(), Fail> {
    let mut sent = Bytes::new(alloc);
    put_sent_alone(rt, alloc, text, &mut sent, out)
}

#[test]
fn one_thread_serves_itself(rt: HostRuntime) -> Result<(), Fail> {
    each_block(&rt, rt.alloc(), ALONE, 1, &Kind::Alone)
}
