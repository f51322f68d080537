//! What is printed of terminals.
ghost use Rattle.std.specs.Prelude.{◌≡◌, ◌++◌, IfOk};
ghost use Rattle.defmt_print.specs.Terminals.{screen_lines};
ghost use Rattle.defmt_talk.specs.Talks.{IsTalk};
ghost use Rattle.rtt_booth.specs.Said.{IsLawful, screens_by, spoken_by};

use crate::hearing::joined_bytes;
use defmt_print::with_screens;
use defmt_script::Script;
use defmt_talk::Talk;
use dl_io::{Bytes, Memory};
use rtt_booth::{Said, spoken_is_short, words_are_shown};
use rtt_terminal::{Screens, TermFault, read_terminals};
use std::alloc::Global;

/// These lines, and then the texts of each terminal, of what was said on them.
pub fn with_spoken(
    alloc: Global,
    lines: Bytes,
    script: &Script,
    talk: &Talk,
) -> Result<Bytes, Memory>
    requires { IsTalk script.now.said talk.now.said talk.now.settled
        talk.now.captured.items talk.now.rest.items }
    ensures { IfOk result (λ out. out.items ≡ lines.items
        ++ screen_lines (screens_by script.now.said talk.now.said.words)) }
{
    let screens = spoken_screens(alloc, script, talk)?;
    with_screens(lines, &screens)
}

// The texts of the terminals, of what was said on them.
fn spoken_screens(alloc: Global, script: &Script, talk: &Talk) -> Result<Screens, Memory>
    requires { IsTalk script.now.said talk.now.said talk.now.settled
        talk.now.captured.items talk.now.rest.items }
    ensures { IfOk result (λ screens.
        screens ≡ screens_by script.now.said talk.now.said.words) }
{
    let sent = joined_bytes(alloc, talk.captured.as_slice(), talk.rest.as_slice())?;
    screens_of(alloc, script, &talk.said, sent.as_slice())
}

// The texts of the terminals, read from what words speak.
fn screens_of(alloc: Global, script: &Script, said: &Said, bytes: &[u8]) -> Result<Screens, Memory>
    requires lawful { IsLawful script.now.said said.now.words }
    requires spoken { bytes.now ≡ spoken_by script.now.said said.now.words }
    ensures { IfOk result (λ screens. screens ≡ screens_by script.now.said said.now.words) }
{
    script.lawful();
    words_are_shown();
    spoken_is_short();
    match read_terminals(alloc, bytes) {
        Ok(screens) => Ok(screens),
        Err(TermFault::Memory) => Err(Memory),
        Err(TermFault::Refused { .. }) => unreachable!(),
    }
}
