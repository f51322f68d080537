//! What the host tells of what was sent.
ghost use Rattle.std.specs.Prelude.{◌≡◌, ◌++◌, ℕ, List, IfOk};
ghost use Rattle.defmt_decode.specs.Event.{events_of};
ghost use Rattle.defmt_logger.specs.Tape.{IsLawful, stream_of};
ghost use Rattle.defmt_logger.specs.declared.mark.Mark.{Mark as AnyMark};
ghost use Rattle.defmt_print.specs.Heard.{GapsIn, LinesIn, PrintTurns, catalog_of, turn_events};
ghost use Rattle.rtt_down.specs.Steered.{IsSteered, stream_of as steered_stream};
ghost use Rattle.rtt_down.specs.declared.turn.Turn.{Turn as AnyTurn};

use crate::statements::stamps;
use defmt_decode::{Events, frames_read_back, gaps_count, intact_frames, without_front};
use defmt_logger::Tape;
use defmt_recording::events_of;
use defmt_script::{Script, stamps_fit};
use dl_io::Memory;
use std::alloc::Global;

/// In blocking and skip mode the events of what is sent for a lawful tape are the lines of the frames that were sent whole, with
/// the places of their marks. In profile Two the gaps that are printed between them are how many frames were dropped there. In
/// trim mode each frame that was sent whole gives its line, and prints it, in its place among what the cut ones give. The events
/// of what is sent for steered turns are the lines of the turns that were sent, and in profile Two the gaps that are printed
/// between them are how many turns weren't sent there. Takes no memory.
pub fn sent_lines(script: &Script)
    ensures lines { (tape : List AnyMark) → IsLawful script.now tape
        → LinesIn script.now.settings.mode script.now tape
        (events_of (catalog_of script.now) (stream_of script.now tape)) }
    ensures gaps { (tape : List AnyMark) → IsLawful script.now tape
        → GapsIn script.now.settings.mode script.now.settings.profile script.now tape
        (events_of (catalog_of script.now) (stream_of script.now tape)) }
    ensures turns { (turns : List AnyTurn) (got : List ℕ) → IsSteered script.now turns got
        → events_of (catalog_of script.now) (steered_stream script.now turns)
        ≡ turn_events script.now turns }
    ensures muted { (turns : List AnyTurn) (got : List ℕ) → IsSteered script.now turns got
        → PrintTurns script.now turns (turn_events script.now turns) }
{
    script.lawful();
    stamps(script);
    stamps_fit();
    script.statements_are_sound();
    frames_read_back();
    intact_frames();
    without_front();
    gaps_count();
}

/// The events of what was sent for a tape, which is given in two parts, and what `sent_lines` says of them.
pub fn sent_events(
    alloc: Global,
    script: &Script,
    tape: &Tape,
    front: &[u8],
    rest: &[u8],
) -> Result<Events, Memory>
    requires lawful { IsLawful script.now tape.now.marks }
    requires sent { front.now ++ rest.now ≡ stream_of script.now tape.now.marks }
    ensures events { IfOk result (λ events.
        events ≡ events_of (catalog_of script.now) (front.now ++ rest.now)) }
    ensures lines { IfOk result (λ events.
        LinesIn script.now.settings.mode script.now tape.now.marks events) }
    ensures gaps { IfOk result (λ events. GapsIn script.now.settings.mode
        script.now.settings.profile script.now tape.now.marks events) }
{
    sent_lines(script);
    let copy = script.table().copy()?;
    events_of(alloc, copy, front, rest)
}

/// The events of what was sent, which is given in two parts, by the script's table.
pub fn heard_events(
    alloc: Global,
    script: &Script,
    front: &[u8],
    rest: &[u8],
) -> Result<Events, Memory>
    ensures { IfOk result (λ events.
        events ≡ events_of (catalog_of script.now) (front.now ++ rest.now)) }
{
    let copy = script.table().copy()?;
    events_of(alloc, copy, front, rest)
}
