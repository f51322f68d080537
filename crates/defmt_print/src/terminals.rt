//! The texts of terminals.
ghost use Rattle.std.specs.Prelude.{◌≡◌, ◌<◌, ◌++◌, flat_map, IfOk, OnOk};
ghost use Rattle.defmt_recording.specs.Output.{ended};
ghost use Rattle.defmt_print.specs.Terminals.{screen_lines, terminal_lines};
ghost use Rattle.rtt_terminal.specs.Stream.{screen_at};

use defmt_recording::add_ended;
use dl_io::{Bytes, Memory};
use rtt_terminal::{Screens, digit_of};

const TERMINALS: u8 = 16;

/// These lines, and then the texts of all terminals in order: of each that has one a line that names it, and then its texts.
pub fn with_screens(lines: Bytes, screens: &Screens) -> Result<Bytes, Memory>
    ensures { IfOk result (λ out. out.items ≡ lines.items ++ screen_lines screens.now) }
{
    let mut out = lines;
    for terminal in 0..TERMINALS {
        add_terminal(screens, terminal, &mut out)?;
    }
    Ok(out)
}

// Appends a line that names a terminal, and its texts, nothing of a terminal without a text.
fn add_terminal(screens: &Screens, terminal: u8, out: &mut Bytes) -> Result<(), Memory>
    requires { terminal < 16 }
    ensures { OnOk result (out.new.items ≡ out.old.items
        ++ terminal_lines terminal (screen_at screens.now terminal)) }
{
    if screens.count(terminal) == 0 {
        return Ok(());
    }
    out.extend_from_slice(b"== terminal ")?;
    add_ended(&[digit_of(terminal)], out)?;
    add_texts(screens, terminal, out)
}

// Appends the texts of a terminal, each with a newline.
fn add_texts(screens: &Screens, terminal: u8, out: &mut Bytes) -> Result<(), Memory>
    requires { terminal < 16 }
    ensures { OnOk result (out.new.items ≡ out.old.items
        ++ flat_map ended (screen_at screens.now terminal)) }
{
    let count = screens.count(terminal);
    for place in 0..count {
        let text = screens.text(terminal, place);
        add_text(text, out)?;
    }
    Ok(())
}

fn add_text(text: &str, out: &mut Bytes) -> Result<(), Memory>
    ensures { OnOk result (out.new.items ≡ out.old.items ++ ended text.now) }
{
    add_ended(text.as_bytes(), out)
}
