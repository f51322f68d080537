//! A stream as lines for terminals.
ghost use Rattle.std.specs.Prelude.{◌≡◌, ◌<◌, ◌^◌, ℕ, List, [], length};
ghost use Rattle.rtt_terminal.specs.declared.fault.Cause.{Cause as AnyCause};
ghost use Rattle.rtt_terminal.specs.Stream.{Shows, HasFault, screens};
ghost use Rattle.rtt_terminal.specs.Answers.{Reads, GivesOnly, RefusesOnly};
ghost use Rattle.rtt_terminal.specs.Reading.{Fills};

use crate::fault::TermFault;
use crate::item::{Item, next_item};
use crate::screens::Screens;
use std::alloc::Global;

// Puts the lines of bytes on screens that have none, as `read_terminals`.
fn put_lines(alloc: Global, bytes: &[u8], shown: &mut Screens) -> Result<(), TermFault>
    requires none { shown.old ≡ screens [] }
    requires short { length bytes.now < 2 ^ 32 }
    ensures { Fills bytes.now shown.new result }
{
    let mut current = 0u8;
    let mut rest = bytes;
    'items: while !rest.is_empty() {
        match next_item(rest) {
            Ok((Item::Switch(terminal), after)) => {
                current = terminal;
                rest = after;
            }
            Ok((Item::Line(text), after)) => {
                shown.push(alloc, current, text)?;
                rest = after;
            }
            Err(cause) => {
                return Err(TermFault::Refused {
                    cause: cause.number(),
                    place: (bytes.len() - rest.len()) as u32,
                });
            }
        }
    }
    Ok(())
}

// As `read_terminals`.
fn screens_of(alloc: Global, bytes: &[u8]) -> Result<Screens, TermFault>
    requires { length bytes.now < 2 ^ 32 }
    ensures { Reads bytes.now result }
{
    let mut screens = Screens::new(alloc)?;
    put_lines(alloc, bytes, &mut screens)?;
    Ok(screens)
}

/// The lines of each terminal, of a stream of fewer than 4,294,967,296 bytes. A line may have any number of switches in
/// front, and switches after the last line are accepted too. SEGGER RTT, "Virtual terminals".
///
/// # Errors
/// `TermFault::Refused` with the first thing from left to right that isn't right, exactly where there is one: the number of
/// its [`Cause`](crate::Cause) and its place. `TermFault::Memory` where memory runs out.
pub fn read_terminals(alloc: Global, bytes: &[u8]) -> Result<Screens, TermFault>
    requires { length bytes.now < 2 ^ 32 }
    // Lines are answered only where the bytes show them, and a refusal only with what isn't right first.
    ensures answer { Reads bytes.now result }
    // Unless memory runs out, what the bytes show is answered, and what isn't right.
    ensures shown { (screens : List (List (List ℕ)))
        → Shows bytes.now screens → GivesOnly result screens }
    ensures refused { (cause : AnyCause) (place : ℕ)
        → HasFault bytes.now cause place → RefusesOnly result cause place }
{
    screens_of(alloc, bytes)
}
