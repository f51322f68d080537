//! The line that sets the ring's mode.

ghost use Rattle.std.specs.Prelude.{◌≡◌, ◌+◌, ◌<◌, ◌^◌, ℕ, List, Ok, None, length, false};
ghost use Rattle.std.specs.Str.Lines.{lines};
ghost use Rattle.defmt_lines.specs.LineView.{line_view};
ghost use Rattle.defmt_lines.specs.Settings.{is_block};
ghost use Rattle.rtt_down.specs.Modes.{FirstMode, is_mode_line};
ghost use Rattle.defmt_script.specs.Reads.{Reads};
ghost use Rattle.defmt_script.specs.Script.{Script as Read};

use defmt_lines::{Form, Line, next_line, read_line};

/// The number of the first line that sets the ring's mode, from 1; `None` exactly where no line does. Takes no memory.
pub fn mode_line(text: &[u8]) -> Option<u32>
    requires { length text.now < 2 ^ 32 }
    ensures { FirstMode 1 (lines text.now) result }
{
    let mut number = 0u32;
    let mut rest = text;
    while !rest.is_empty() {
        let (line, after) = next_line(rest);
        number += 1;
        if sets_mode(read_line(line)) {
            return Some(number);
        }
        rest = after;
    }
    None
}

// Whether a line sets the mode.
fn sets_mode(line: Line<'_>) -> bool
    ensures { result ≡ is_mode_line (line_view line.entry) }
{
    match line {
        Line::Head(Form::Mode, _) => true,
        _ => false,
    }
}

/// A text that reads as a script whose mode isn't the blocking one has a line that sets it.
pub fn modes_are_set()
    ensures { (text : List ℕ) (script : Read) → Reads text (Ok script)
        → is_block script.settings.mode ≡ false
        → FirstMode 1 (lines text) None → ⊥ }
{}
