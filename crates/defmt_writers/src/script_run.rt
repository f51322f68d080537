//! How a run goes.
ghost use Rattle.std.specs.Prelude.{◌≡◌, ◌<◌, ℕ, true, false, [], IfOk, length};
ghost use Rattle.defmt_frames.specs.Frames.{count as count_of, pace_of};
ghost use Rattle.defmt_logger.specs.Kept.{IsKept, TellsIn};
ghost use Rattle.defmt_logger.specs.Tape.{marks_of};
ghost use Rattle.defmt_writers.specs.Runs.{HoldsTapes, IsRun, ModeFits};
ghost use Rattle.std.specs.Io.{StartsWith};
ghost use Rattle.rtt_ring.specs.Account.{capped};
ghost use Rattle.rtt_ring.specs.Views.{new_down, new_up};
ghost use Rattle.shared_work.specs.Names.{AreNamed};
ghost use Rattle.writer_threads.specs.Passing.{Means, WasPassed, WasTold};

use crate::drain::Drain;
use crate::reader::FromSplit;
use crate::ring_ends::{RingEnds, SettledRing, prepare, settle};
use defmt_hooks::{Clock, Stamp};
use defmt_logger::{EachStatement, Logger, Logging, Naming, Tape};
use defmt_script::Script;
use dl_io::{Bytes, Memory};
use rtt_ring::{Channel, Settled, UpEnd};
use shared_work::{Blanks, Eight, Names};
use std::alloc::Global;
use std::marker::Brand;
use std::sync::Wait;
use std::thread::Threads;
use writer_threads::{Gate, run_threads};

/// What a run answers.
#[derive(Drop)]
pub struct Run {
    /// The script that was run.
    pub script: Script,
    /// A mark for each statement, in the order in which the writers acquired the logger.
    pub tape: Tape,
    /// The account of the ring.
    pub settled: Settled,
    /// The bytes that the reader took.
    pub captured: Bytes,
    /// The bytes that were sent and not taken.
    pub rest: Bytes,
    /// How many looks the logger made.
    pub looks: u64,
}

// Runs a script over the two ends of one split, under their names.
fn run_named<
    H: Channel,
    E: Names + Send,
    N: FromSplit,
    K: Naming + Send,
    C: Clock + Send + Drop,
    G: Gate + Sync,
    R: Threads + Wait + Sync,
>(
    rt: &R,
    alloc: Global,
    blanks: Blanks,
    script: Script,
    stamp: Stamp<C>,
    gate: &G,
    ends: RingEnds<H::Up, H::Down>,
) -> Result<Run, Memory>
    requires pace { stamp ≡ pace_of script.settings.stamp }
    requires up { H.Up.view ends.up
        ≡ new_up (H.Up.view ends.up).split script.settings.ring (H.Up.view ends.up).tells }
    requires told { TellsIn script.settings.mode (H.Up.view ends.up) }
    requires down { H.Down.view ends.down
        ≡ new_down (H.Up.view ends.up).split script.settings.ring }
    requires captured { ends.captured.items ≡ [] }
    requires room { HoldsTapes script ends.captured.room }
    requires names { (K.script ≡ script) × (K.split ≡ (H.Up.view ends.up).split)
        × (K.tells ≡ (H.Up.view ends.up).tells) × (N.split ≡ (H.Up.view ends.up).split) }
    requires lets { (writer : ℕ) → Means (G.passed gate.now writer) (N.passed writer) }
    requires means { Means (G.told gate.now) N.told }
    requires ledgers { AreNamed blanks E.names }
    ensures script { IfOk result (λ r. r.script ≡ K.script) }
    ensures run { IfOk result (λ r.
        IsRun K.script r.tape r.settled r.captured.items r.rest.items r.looks) }
    ensures ring { IfOk result (λ r. r.settled.ring ≡ H.KIND) }
    ensures taken { IfOk result (λ r. K.tells ≡ true → K.script.settings.late ≡ false
        → r.settled.got ≡ r.settled.sent) }
    ensures asked { IfOk result (λ _.
        (w : ℕ) → w < 8 → WasPassed (N.passed w) 0 (count_of K.script w)) }
    ensures told { IfOk result (λ r. WasTold N.told 0 (length r.captured.items)) }
{
    let RingEnds { up, down, captured } = ends;
    let late = script.late();
    let drain = Drain::<N, K, H::Down, G>::new(late, down, captured, gate);
    let (logger, pens) = Logger::<Eight<E>, EachStatement<K>, Logging<K, H::Up, C>>::start(
        alloc, blanks, script, stamp, up,
    )?;
    let (mut pens, mut drain) = run_threads(rt, logger.shared(), pens, gate, !late, drain);
    drain.serve(rt, logger.shared(), &mut pens);
    let (tape, up, script) = logger.close(pens);
    settle_run::<H, N, K, G, R>(rt, alloc, tape, up, script, drain)
}

/// Settles the ring of a run of which every statement is on the tape. A reader that isn't late takes what is still there: all that
/// was sent. What it captured before stays in front, and the tape comes back as it was. The call waits for nobody where no
/// other thread has an end of the ring.
///
/// # Errors
/// `Memory` where there is none.
pub fn settle_run<H: Channel, N: FromSplit, K: Naming, G: Gate, W: Wait>(
    rt: &W,
    alloc: Global,
    tape: Tape,
    up: H::Up,
    script: Script,
    drain: Drain<'_, N, K, H::Down, G>,
) -> Result<Run, Memory>
    requires script { script ≡ K.script }
    requires split { (H.Up.view up).split ≡ N.split }
    requires kept { IsKept (record { script = script; tape = tape; up = H.Up.view up }) }
    requires all { (w : ℕ) → w < 8 → marks_of w tape.marks ≡ count_of K.script w }
    ensures script { IfOk result (λ r. r.script ≡ K.script) }
    ensures run { IfOk result (λ r.
        IsRun K.script r.tape r.settled r.captured.items r.rest.items r.looks) }
    ensures ring { IfOk result (λ r. r.settled.ring ≡ H.KIND) }
    ensures tape { IfOk result (λ r. r.tape ≡ tape) }
    ensures sent { IfOk result (λ r. r.settled.sent ≡ (H.Up.view up).sent) }
    ensures captured { IfOk result (λ r.
        StartsWith r.captured.items drain.entry.reader.captured.items) }
    ensures late { drain.entry.late ≡ true
        → IfOk result (λ r. r.captured ≡ drain.entry.reader.captured) }
    ensures taken { IfOk result (λ r. (H.Up.view up).tells ≡ true
        → K.script.settings.late ≡ false → r.settled.got ≡ r.settled.sent) }
    ensures looks { IfOk result (λ r. r.looks ≡ capped (H.Up.view up).looks) }
    ensures told { IfOk result (λ r. WasTold N.told 0 (length r.captured.items)) }
{
    let looks = up.looks();
    let mut up = up;
    let mut drain = drain;
    drain.take_rest(rt, &mut up);
    let Drain { reader, .. } = drain;
    let (down, captured) = reader.into_parts();
    let SettledRing { settled, rest } = settle::<H>(alloc, up, down)?;
    Ok(Run {
        script,
        tape,
        settled,
        captured,
        rest,
        looks,
    })
}

/// Runs a script over a ring of its own: a thread for each writer that has statements logs them, and the calling thread reads.
///
/// The stamp counts as the script's stamps do, and by 0 and 0 without them. In skip and trim mode the ring tells how many bytes
/// were released. The gate is asked before each statement is logged, and told the total of each take that took something; that it
/// was asked at each place is a clause, that it was asked before the statement isn't. A late reader takes nothing; another has taken
/// all that was sent at the end, as far as the ring tells what was released. A writer whose thread couldn't be started is run by the
/// calling thread, which reads where a frame waits for room. The call waits for its threads.
///
/// # Errors
/// `Memory` where there is none.
pub fn run_script<H: Channel, C: Clock + Send + Drop, G: Gate + Sync, R: Threads + Wait + Sync>(
    rt: &R,
    alloc: Global,
    script: Script,
    stamp: Stamp<C>,
    gate: &G,
) -> Result<Run, Memory>
    requires pace { stamp ≡ pace_of script.settings.stamp }
    requires fits { ModeFits script.settings.mode H.tells }
    ensures script { IfOk result (λ r. r.script ≡ script) }
    ensures run { IfOk result (λ r.
        IsRun script r.tape r.settled r.captured.items r.rest.items r.looks) }
    ensures ring { IfOk result (λ r. r.settled.ring ≡ H.KIND) }
    ensures taken { IfOk result (λ r. H.tells ≡ true → script.settings.late ≡ false
        → r.settled.got ≡ r.settled.sent) }
    ensures asked { IfOk result (λ _.
        (w : ℕ) → w < 8 → WasPassed (G.passed gate.now w) 0 (count_of script w)) }
    ensures told { IfOk result (λ r. WasTold (G.told gate.now) 0 (length r.captured.items)) }
{
    let ends = prepare::<H>(alloc, &script)?;
    run_named::<H, Brand, Brand, Brand, C, G, R>(
        rt,
        alloc,
        Blanks::new(),
        script,
        stamp,
        gate,
        ends,
    )
}
