//! How a run with texts for terminals goes.
ghost use Rattle.std.specs.Prelude.{◌≡◌, ◌<◌, ℕ, true, false, [], IfOk, Ok, length};
ghost use Rattle.defmt_frames.specs.Frames.{count as count_of, pace_of};
ghost use Rattle.defmt_logger.specs.Kept.{TellsIn};
ghost use Rattle.defmt_talk.specs.Talks.{HoldsWords, IsTalk};
ghost use Rattle.defmt_writers.specs.Runs.{HoldsTapes, IsRun, ModeFits};
ghost use Rattle.rtt_ring.specs.Views.{new_down, new_up};
ghost use Rattle.shared_work.specs.Names.{AreNamed};
ghost use Rattle.writer_threads.specs.Passing.{Means, WasPassed, WasTold};

use crate::ends::prepare_both;
use crate::listener::Listener;
use crate::settling::settle_both;
use crate::starting::{Booths, Logs, start_both};
use defmt_hooks::{Clock, Stamp};
use defmt_logger::Naming;
use defmt_script::Script;
use defmt_writers::{Drain, FromSplit, Reader, RingEnds, Run};
use dl_io::{Bytes, Memory};
use rtt_booth::Said;
use rtt_modes::Both;
use rtt_ring::{Channel, DownEnd, Settled};
use rtt_terminal::Speech;
use shared_work::{Blanks, Names};
use std::alloc::Global;
use std::marker::{Brand, PhantomData};
use std::sync::Wait;
use std::thread::Threads;
use talk_threads::{Stage, run_all};
use writer_threads::{Gate, OpenGate};

/// What was said on terminals.
#[derive(Drop)]
pub struct Talk {
    /// A word for each text, in the order in which the writers acquired the booth.
    pub said: Said,
    /// The account of the terminals' ring.
    pub settled: Settled,
    /// The bytes that the reader took.
    pub captured: Bytes,
    /// The bytes that were sent and not taken.
    pub rest: Bytes,
}

// The readers of both rings, which have taken nothing yet. That of the script's ring may be late.
fn readers_of<'g, N: FromSplit, K: Naming, M: FromSplit, V: rtt_booth::Naming, D: DownEnd, G: Gate>(
    late: bool,
    down: D,
    captured: Bytes,
    gate: &'g G,
    text_down: D,
    text_captured: Bytes,
) -> Both<Drain<'g, N, K, D, G>, Listener<M, V, D>>
    requires late { late ≡ K.script.settings.late }
    requires split { (D.view down).split ≡ N.split }
    requires got { ((D.view down).got ≡ []) × (captured.items ≡ []) }
    requires text_split { (D.view text_down).split ≡ M.split }
    requires text_got { ((D.view text_down).got ≡ []) × (text_captured.items ≡ []) }
    requires room { HoldsTapes K.script captured.room }
    requires text_room { HoldsWords V.speech text_captured.room }
    requires lets { (writer : ℕ) → Means (G.passed gate.now writer) (N.passed writer) }
    requires means { Means (G.told gate.now) N.told }
    requires text_lets { (writer : ℕ) → Means (λ _. Unit {0}) (M.passed writer) }
    requires text_means { Means (λ _. Unit {0}) M.told }
{
    let first = Drain::new(late, down, captured, gate);
    let reader = Reader {
        down: text_down,
        captured: text_captured,
        gate: &OpenGate,
        of: PhantomData,
    };
    let second = Listener {
        reader,
        of: PhantomData,
    };
    Both { first, second }
}

// Runs what was started, and settles both rings.
fn run_started<
    H: Channel,
    E: Names + Send,
    N: FromSplit,
    K: Naming + Send,
    F: Names + Send,
    M: FromSplit,
    V: rtt_booth::Naming + Send,
    C: Clock + Send + Drop,
    G: Gate + Sync,
    R: Threads + Wait + Sync,
>(
    rt: &R,
    alloc: Global,
    speech: &Speech,
    gate: &G,
    logs: Logs<E, K, H::Up, C>,
    booths: Booths<F, V, H::Up>,
    readers: Both<Drain<'_, N, K, H::Down, G>, Listener<M, V, H::Down>>,
) -> Result<(Run, Talk), Memory>
    requires split { K.split ≡ N.split }
    requires text_split { V.split ≡ M.split }
    requires fresh { (logs.1.p0.place ≡ 0) × (logs.1.p1.place ≡ 0) × (logs.1.p2.place ≡ 0)
        × (logs.1.p3.place ≡ 0) × (logs.1.p4.place ≡ 0) × (logs.1.p5.place ≡ 0)
        × (logs.1.p6.place ≡ 0) × (logs.1.p7.place ≡ 0) }
    ensures script { IfOk result (λ r. r.0.script ≡ K.script) }
    ensures run { IfOk result (λ r. IsRun K.script
        r.0.tape r.0.settled r.0.captured.items r.0.rest.items r.0.looks) }
    ensures talk { IfOk result (λ r. IsTalk V.speech
        r.1.said r.1.settled r.1.captured.items r.1.rest.items) }
    ensures rings { IfOk result (λ r.
        (r.0.settled.ring ≡ H.KIND) × (r.1.settled.ring ≡ H.KIND)) }
    ensures taken { IfOk result (λ r. K.tells ≡ true → K.script.settings.late ≡ false
        → r.0.settled.got ≡ r.0.settled.sent) }
    ensures texts_taken { IfOk result (λ r. V.tells ≡ true
        → r.1.settled.got ≡ r.1.settled.sent) }
    ensures asked { IfOk result (λ _.
        (w : ℕ) → w < 8 → WasPassed (G.passed gate.now w) 0 (count_of K.script w)) }
    ensures told { IfOk result (λ r. WasTold N.told 0 (length r.0.captured.items)) }
{
    let (logger, pens) = logs;
    let (booth, voices) = booths;
    let stage = Stage::new(logger.shared(), booth.shared(), speech);
    let (pens, voices, readers) = run_all(rt, &stage, pens, voices, gate, readers);
    let (tape, up, script) = logger.close(pens);
    let (said, text_up) = booth.close(voices);
    settle_both::<H, N, K, M, V, G, R>(rt, alloc, tape, up, script, said, text_up, readers)
}

// What was made, with what is kept beside it.
fn with<A: Drop, B>(kept: A, made: Result<B, Memory>) -> Result<(A, B), Memory>
    ensures { IfOk result (λ r. (r.0 ≡ kept) × (made ≡ Ok r.1)) }
{
    Ok((kept, made?))
}

// Runs a script over the two ends of one split, and its texts over those of another, under their names.
fn run_both<
    H: Channel,
    E: Names + Send,
    N: FromSplit,
    K: Naming + Send,
    F: Names + Send,
    M: FromSplit,
    V: rtt_booth::Naming + Send,
    C: Clock + Send + Drop,
    G: Gate + Sync,
    R: Threads + Wait + Sync,
>(
    rt: &R,
    alloc: Global,
    blanks: Blanks,
    text_blanks: Blanks,
    script: Script,
    speech: &Speech,
    stamp: Stamp<C>,
    gate: &G,
    ends: RingEnds<H::Up, H::Down>,
    text_ends: RingEnds<H::Up, H::Down>,
) -> Result<(Run, Talk), Memory>
    requires pace { stamp ≡ pace_of script.settings.stamp }
    requires up { H.Up.view ends.up
        ≡ new_up (H.Up.view ends.up).split script.settings.ring (H.Up.view ends.up).tells }
    requires told { TellsIn script.settings.mode (H.Up.view ends.up) }
    requires down { H.Down.view ends.down
        ≡ new_down (H.Up.view ends.up).split script.settings.ring }
    requires captured { ends.captured.items ≡ [] }
    requires room { HoldsTapes script ends.captured.room }
    requires names { (K.script ≡ script) × (K.split ≡ (H.Up.view ends.up).split)
        × (K.tells ≡ (H.Up.view ends.up).tells) × (N.split ≡ (H.Up.view ends.up).split) }
    requires ledgers { AreNamed blanks E.names }
    requires text_up { H.Up.view text_ends.up ≡ new_up (H.Up.view text_ends.up).split
        (H.Up.view text_ends.up).size (H.Up.view text_ends.up).tells }
    requires text_down { H.Down.view text_ends.down
        ≡ new_down (H.Up.view text_ends.up).split (H.Up.view text_ends.up).size }
    requires text_captured { text_ends.captured.items ≡ [] }
    requires text_room { HoldsWords speech.now text_ends.captured.room }
    requires text_names { (V.speech ≡ speech.now)
        × (V.split ≡ (H.Up.view text_ends.up).split)
        × (V.tells ≡ (H.Up.view text_ends.up).tells)
        × (M.split ≡ (H.Up.view text_ends.up).split) }
    requires text_ledgers { AreNamed text_blanks F.names }
    requires lets { (writer : ℕ) → Means (G.passed gate.now writer) (N.passed writer) }
    requires means { Means (G.told gate.now) N.told }
    requires text_lets { (writer : ℕ) → Means (λ _. Unit {0}) (M.passed writer) }
    requires text_means { Means (λ _. Unit {0}) M.told }
    ensures script { IfOk result (λ r. r.0.script ≡ K.script) }
    ensures run { IfOk result (λ r. IsRun K.script
        r.0.tape r.0.settled r.0.captured.items r.0.rest.items r.0.looks) }
    ensures talk { IfOk result (λ r. IsTalk V.speech
        r.1.said r.1.settled r.1.captured.items r.1.rest.items) }
    ensures rings { IfOk result (λ r.
        (r.0.settled.ring ≡ H.KIND) × (r.1.settled.ring ≡ H.KIND)) }
    ensures taken { IfOk result (λ r. K.tells ≡ true → K.script.settings.late ≡ false
        → r.0.settled.got ≡ r.0.settled.sent) }
    ensures texts_taken { IfOk result (λ r. V.tells ≡ true
        → r.1.settled.got ≡ r.1.settled.sent) }
    ensures asked { IfOk result (λ _.
        (w : ℕ) → w < 8 → WasPassed (G.passed gate.now w) 0 (count_of K.script w)) }
    ensures told { IfOk result (λ r. WasTold N.told 0 (length r.0.captured.items)) }
{
    let RingEnds { up, down, captured } = ends;
    let RingEnds {
        up: text_up,
        down: text_down,
        captured: text_captured,
    } = text_ends;
    let readers = readers_of::<N, K, M, V, H::Down, G>(
        script.late(),
        down,
        captured,
        gate,
        text_down,
        text_captured,
    );
    let started = start_both::<H::Up, E, K, F, V, C>(
        alloc,
        blanks,
        text_blanks,
        script,
        speech,
        stamp,
        up,
        text_up,
    );
    // The readers are handed on beside what was started, so that the one early exit leaves nothing to drop here.
    let (readers, (logs, booths)) = with(readers, started)?;
    run_started::<H, E, N, K, F, M, V, C, G, R>(rt, alloc, speech, gate, logs, booths, readers)
}

/// Runs a script and its texts for terminals, each over a ring of its own: a thread for each writer that has statements or
/// texts does these in the script's order, and the calling thread reads at both rings.
///
/// Of the statements it does as `run_script`. A text waits for room in the terminals' ring, which has 1,024 bytes, and the
/// calling thread reads at it also where the script's reader is late; at the end all of it is taken, as far as the ring tells what
/// was released. The gate isn't asked before texts, nor told of what is taken of them. Two captures with room for all that will
/// be sent are there before any thread is started. The call waits for its threads.
///
/// # Errors
/// `Memory` where there is none.
pub fn run_terminals<H: Channel, C: Clock + Send + Drop, G: Gate + Sync, R: Threads + Wait + Sync>(
    rt: &R,
    alloc: Global,
    script: Script,
    stamp: Stamp<C>,
    gate: &G,
) -> Result<(Run, Talk), Memory>
    requires pace { stamp ≡ pace_of script.settings.stamp }
    requires fits { ModeFits script.settings.mode H.tells }
    ensures script { IfOk result (λ r. r.0.script ≡ script) }
    ensures run { IfOk result (λ r. IsRun script
        r.0.tape r.0.settled r.0.captured.items r.0.rest.items r.0.looks) }
    ensures talk { IfOk result (λ r. IsTalk script.said
        r.1.said r.1.settled r.1.captured.items r.1.rest.items) }
    ensures rings { IfOk result (λ r.
        (r.0.settled.ring ≡ H.KIND) × (r.1.settled.ring ≡ H.KIND)) }
    ensures taken { IfOk result (λ r. H.tells ≡ true → script.settings.late ≡ false
        → r.0.settled.got ≡ r.0.settled.sent) }
    ensures texts_taken { IfOk result (λ r. H.tells ≡ true
        → r.1.settled.got ≡ r.1.settled.sent) }
    ensures asked { IfOk result (λ _.
        (w : ℕ) → w < 8 → WasPassed (G.passed gate.now w) 0 (count_of script w)) }
    ensures told { IfOk result (λ r. WasTold (G.told gate.now) 0 (length r.0.captured.items)) }
{
    let (speech, ends, text_ends) = prepare_both::<H>(alloc, &script)?;
    run_both::<H, Brand, Brand, Brand, Brand, Brand, Brand, C, G, R>(
        rt,
        alloc,
        Blanks::new(),
        Blanks::new(),
        script,
        &speech,
        stamp,
        gate,
        ends,
        text_ends,
    )
}
