//! The ends of the two rings of a run with texts for terminals, and the room for what is read of them.
ghost use Rattle.std.specs.Prelude.{◌≡◌, [], IfOk};
ghost use Rattle.defmt_logger.specs.Kept.{TellsIn};
ghost use Rattle.defmt_talk.specs.Talks.{HoldsWords};
ghost use Rattle.defmt_writers.specs.Runs.{HoldsTapes, ModeFits};
ghost use Rattle.rtt_ring.specs.Views.{new_down, new_up};

use defmt_script::Script;
use defmt_writers::{RingEnds, new_ends, prepare};
use dl_io::Memory;
use rtt_booth::spoken_is_short;
use rtt_ring::Channel;
use rtt_terminal::Speech;
use std::alloc::Global;

// How many bytes the terminals' ring has.
const RING_SIZE: u32 = 1024;

// How many bytes a line and its switch have at most.
const LINE_SIZE: usize = 2003;

// How many bytes are enough for what any lawful words speak: as many as the longest lines of all texts have.
fn talk_size(speech: &Speech) -> usize
    ensures { HoldsWords speech.now result }
{
    spoken_is_short();
    speech.lawful();
    speech.len() as usize * LINE_SIZE
}

// What the writers have to say, and the ends of both rings.
pub(crate) fn prepare_both<H: Channel>(
    alloc: Global,
    script: &Script,
) -> Result<(Speech, RingEnds<H::Up, H::Down>, RingEnds<H::Up, H::Down>), Memory>
    requires { ModeFits script.now.settings.mode H.tells }
    ensures speech { IfOk result (λ b. b.0 ≡ script.now.said) }
    ensures up { IfOk result (λ b. H.Up.view b.1.up
        ≡ new_up (H.Up.view b.1.up).split script.now.settings.ring
        (H.Up.view b.1.up).tells) }
    ensures told { IfOk result (λ b. TellsIn script.now.settings.mode (H.Up.view b.1.up)) }
    ensures tells { IfOk result (λ b. (H.Up.view b.1.up).tells ≡ H.tells) }
    ensures down { IfOk result (λ b. H.Down.view b.1.down
        ≡ new_down (H.Up.view b.1.up).split script.now.settings.ring) }
    ensures captured { IfOk result (λ b. b.1.captured.items ≡ []) }
    ensures room { IfOk result (λ b. HoldsTapes script.now b.1.captured.room) }
    ensures text_up { IfOk result (λ b. H.Up.view b.2.up ≡ new_up (H.Up.view b.2.up).split
        (H.Up.view b.2.up).size H.tells) }
    ensures text_down { IfOk result (λ b. H.Down.view b.2.down
        ≡ new_down (H.Up.view b.2.up).split (H.Up.view b.2.up).size) }
    ensures text_captured { IfOk result (λ b. b.2.captured.items ≡ []) }
    ensures text_room { IfOk result (λ b. HoldsWords script.now.said b.2.captured.room) }
{
    let speech = script.speech().copy(alloc)?;
    let ends = prepare::<H>(alloc, script)?;
    let text_ends = new_ends::<H>(alloc, RING_SIZE, talk_size(&speech))?;
    Ok((speech, ends, text_ends))
}
