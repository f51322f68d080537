//! How the two rings of a run with texts for terminals are settled.
ghost use Rattle.std.specs.Prelude.{◌≡◌, ◌<◌, ℕ, true, false, [], IfOk, Ok, length};
ghost use Rattle.defmt_frames.specs.Frames.{count as count_of};
ghost use Rattle.defmt_logger.specs.Kept.{IsKept};
ghost use Rattle.defmt_logger.specs.Tape.{marks_of};
ghost use Rattle.defmt_writers.specs.Runs.{IsRun};
ghost use Rattle.defmt_talk.specs.Talks.{IsTalk};
ghost use Rattle.rtt_booth.specs.Said.{IsLawful, spoken_by, words_of};
ghost use Rattle.rtt_terminal.specs.Speech.{count_said};
ghost use Rattle.writer_threads.specs.Passing.{WasTold};

use crate::listener::Listener;
use crate::talk_run::Talk;
use defmt_logger::{Naming, Tape};
use defmt_script::Script;
use defmt_writers::{Drain, FromSplit, Run, SettledRing, settle, settle_run};
use dl_io::Memory;
use rtt_booth::Said;
use rtt_modes::Both;
use rtt_ring::Channel;
use std::alloc::Global;
use std::sync::Wait;
use writer_threads::Gate;

// Settles the terminals' ring of a run of which every text was said. What is still there is taken before.
fn settle_talk<H: Channel, M: FromSplit, V: rtt_booth::Naming, W: Wait>(
    rt: &W,
    alloc: Global,
    said: Said,
    up: H::Up,
    listener: Listener<M, V, H::Down>,
) -> Result<Talk, Memory>
    requires split { (H.Up.view up).split ≡ M.split }
    requires said { said.split ≡ (H.Up.view up).split }
    requires lawful { IsLawful V.speech said.words }
    requires sent { (H.Up.view up).sent ≡ spoken_by V.speech said.words }
    requires staged { (H.Up.view up).staged ≡ [] }
    requires all { (w : ℕ) → w < 8 → words_of w said.words ≡ count_said V.speech w }
    ensures talk { IfOk result (λ t.
        IsTalk V.speech t.said t.settled t.captured.items t.rest.items) }
    ensures ring { IfOk result (λ t. t.settled.ring ≡ H.KIND) }
    ensures taken { IfOk result (λ t. (H.Up.view up).tells ≡ true
        → t.settled.got ≡ t.settled.sent) }
{
    let mut up = up;
    let mut listener = listener;
    listener.reader.take_rest(rt, &mut up);
    let Listener { reader, .. } = listener;
    let (down, captured) = reader.into_parts();
    let SettledRing { settled, rest } = settle::<H>(alloc, up, down)?;
    Ok(Talk {
        said,
        settled,
        captured,
        rest,
    })
}

// Both, where both are there.
pub(crate) fn both<A: Drop, B: Drop>(
    first: Result<A, Memory>,
    second: Result<B, Memory>,
) -> Result<(A, B), Memory>
    ensures { IfOk result (λ r. (first ≡ Ok r.0) × (second ≡ Ok r.1)) }
{
    Ok((first?, second?))
}

// Settles both rings.
pub(crate) fn settle_both<
    H: Channel,
    N: FromSplit,
    K: Naming,
    M: FromSplit,
    V: rtt_booth::Naming,
    G: Gate,
    W: Wait,
>(
    rt: &W,
    alloc: Global,
    tape: Tape,
    up: H::Up,
    script: Script,
    said: Said,
    text_up: H::Up,
    readers: Both<Drain<'_, N, K, H::Down, G>, Listener<M, V, H::Down>>,
) -> Result<(Run, Talk), Memory>
    requires script { script ≡ K.script }
    requires split { (H.Up.view up).split ≡ N.split }
    requires kept { IsKept (record { script = script; tape = tape; up = H.Up.view up }) }
    requires all { (w : ℕ) → w < 8 → marks_of w tape.marks ≡ count_of K.script w }
    requires text_split { (H.Up.view text_up).split ≡ M.split }
    requires said { said.split ≡ (H.Up.view text_up).split }
    requires lawful { IsLawful V.speech said.words }
    requires sent { (H.Up.view text_up).sent ≡ spoken_by V.speech said.words }
    requires staged { (H.Up.view text_up).staged ≡ [] }
    requires all_said { (w : ℕ) → w < 8 → words_of w said.words ≡ count_said V.speech w }
    ensures script { IfOk result (λ r. r.0.script ≡ K.script) }
    ensures run { IfOk result (λ r. IsRun K.script
        r.0.tape r.0.settled r.0.captured.items r.0.rest.items r.0.looks) }
    ensures talk { IfOk result (λ r. IsTalk V.speech
        r.1.said r.1.settled r.1.captured.items r.1.rest.items) }
    ensures rings { IfOk result (λ r.
        (r.0.settled.ring ≡ H.KIND) × (r.1.settled.ring ≡ H.KIND)) }
    ensures taken { IfOk result (λ r. (H.Up.view up).tells ≡ true
        → K.script.settings.late ≡ false → r.0.settled.got ≡ r.0.settled.sent) }
    ensures texts_taken { IfOk result (λ r. (H.Up.view text_up).tells ≡ true
        → r.1.settled.got ≡ r.1.settled.sent) }
    ensures told { IfOk result (λ r. WasTold N.told 0 (length r.0.captured.items)) }
{
    let Both { first, second } = readers;
    let talk = settle_talk::<H, M, V, W>(rt, alloc, said, text_up, second);
    let run = settle_run::<H, N, K, G, W>(rt, alloc, tape, up, script, first);
    // Both results are handed on whole, so that no early exit has the other to drop.
    both(run, talk)
}
