//! How a writer logs its statements and says its texts.
ghost use Rattle.std.specs.Prelude.{◌≡◌, ◌≤◌, ◌<◌, ◌⊎◌, ℕ, slice_get};
ghost use Rattle.talk_threads.specs.InFront.{in_front};
ghost use Rattle.rtt_terminal.specs.Speech.{said_by};
ghost use Rattle.writer_threads.specs.Passing.{PassedAll};

use crate::steps::Steps;
use rtt_modes::Relief;
use rtt_terminal::Speech;
use shared_work::{Books, HasBook, Pen, Quota};
use std::sync::Wait;
use std::sync::ledger::Ledger;
use writer_threads::Gate;

// How many statements stand in front of a writer's text, none where there is no such text.
fn statements_in_front(speech: &Speech, writer: u8, place: u32) -> u32
    ensures { result ≡ in_front (slice_get (said_by speech.now writer) place) }
{
    match speech.get(writer, place) {
        Some(saying) => saying.behind(),
        None => 0,
    }
}

// Logs the statements that a pen has left in front of a place.
fn log_before<
    B: Books,
    Q: Quota,
    S: HasBook<B, L>,
    L: Ledger,
    C: Books,
    P: Quota,
    V: HasBook<C, M>,
    M: Ledger,
    A: Steps<B, Q, C, P>,
    G: Gate,
    R: Relief,
    W: Wait,
>(
    rt: &W,
    steps: &A,
    pen: &mut Pen<S, L, Q>,
    voice: &Pen<V, M, P>,
    count: u32,
    gate: &G,
    relief: &mut R,
)
    requires same { S.NUMBER ≡ V.NUMBER }
    requires next { (place : ℕ) → place < count
        → A.logs steps.now V.NUMBER place voice.now.place voice.now.total }
    requires relief { R.kept relief.old }
    ensures until { (pen.new.total ≤ pen.new.place) ⊎ (count ≤ pen.new.place) }
    ensures asked { PassedAll (G.passed gate.now S.NUMBER) pen.old.place pen.new.place }
    ensures relief { R.kept relief.new }
{
    while pen.place() < pen.total() && pen.place() < count {
        steps.log(rt, pen, voice, gate, relief);
    }
}

/// Does the steps that the pen and the voice of a writer have left: before each text the statements that stand in front of it, and
/// then the other statements. The gate is asked before each statement. No step is done but by a [`Steps`], which has to be shown
/// each time that this one comes next.
pub fn talk<
    B: Books,
    Q: Quota,
    S: HasBook<B, L>,
    L: Ledger,
    C: Books,
    P: Quota,
    V: HasBook<C, M>,
    M: Ledger,
    A: Steps<B, Q, C, P>,
    G: Gate,
    R: Relief,
    W: Wait,
>(rt: &W, steps: &A, pen: &mut Pen<S, L, Q>, voice: &mut Pen<V, M, P>, gate: &G, relief: &mut R)
    requires same { S.NUMBER ≡ V.NUMBER }
    requires relief { R.kept relief.old }
    ensures pen { pen.new.place ≡ pen.new.total }
    ensures voice { voice.new.place ≡ voice.new.total }
    ensures asked { PassedAll (G.passed gate.now S.NUMBER) pen.old.place pen.new.place }
    ensures relief { R.kept relief.new }
{
    while voice.place() < voice.total() {
        let count = statements_in_front(steps.speech(), voice.writer(), voice.place());
        log_before(rt, steps, pen, voice, count, gate, relief);
        steps.say(rt, pen, voice, relief);
    }
    log_before(rt, steps, pen, voice, pen.total(), gate, relief);
}
