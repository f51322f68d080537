//! What is printed of a run.
ghost use Rattle.std.specs.Prelude.{◌≡◌, ◌≤◌, length, IfOk};
ghost use Rattle.defmt_print.specs.Groups.{look_of};
ghost use Rattle.defmt_print.specs.RunLines.{heard_lines, run_lines, steered_lines};
ghost use Rattle.defmt_print.specs.Printed.{ArePlaced};
ghost use Rattle.defmt_recording.specs.Styled.{styled_lines};

use crate::orders::with_orders;
use crate::printing::{group_lines, with_losses};
use defmt_decode::Events;
use defmt_logger::Tape;
use defmt_places::Places;
use defmt_recording::event_lines;
use defmt_script::Script;
use defmt_words::{RunOptions, Style};
use dl_io::{Bytes, Memory};
use rtt_down::Turns;
use std::alloc::Global;

/// The lines of a run in a style, the events' with the gaps between them or those of the tape in groups by writer, and then the reports
/// of what was lost.
pub fn run_lines(
    alloc: Global,
    options: &RunOptions,
    script: &Script,
    tape: &Tape,
    events: &Events,
) -> Result<Bytes, Memory>
    requires placed { ArePlaced script.now tape.now.marks }
    requires few { length tape.now.marks ≤ 4096 }
    ensures { IfOk result (λ out. out.items
        ≡ run_lines options.now script.now tape.now.marks events.now) }
{
    let lines = heard_lines(alloc, options, script, tape, events)?;
    with_losses(alloc, options.style.form, lines, tape.as_slice())
}

// The lines of the events, or those of the tape in groups.
fn heard_lines(
    alloc: Global,
    options: &RunOptions,
    script: &Script,
    tape: &Tape,
    events: &Events,
) -> Result<Bytes, Memory>
    requires placed { ArePlaced script.now tape.now.marks }
    requires few { length tape.now.marks ≤ 4096 }
    ensures { IfOk result (λ out. out.items
        ≡ heard_lines options.now script.now tape.now.marks events.now) }
{
    if options.group {
        group_lines(alloc, &options.style, script, tape.as_slice())
    } else {
        styled_lines(alloc, &options.style, script, events)
    }
}

// The lines of the events in a style, by the script's own table and without places in the sources.
fn styled_lines(
    alloc: Global,
    style: &Style,
    script: &Script,
    events: &Events,
) -> Result<Bytes, Memory>
    ensures { IfOk result (λ out. out.items ≡ styled_lines (look_of style.now script.now) events.now) }
{
    let places = Places::new(alloc);
    event_lines(alloc, style, script.table(), &places, events.as_slice())
}

/// The lines of a run under orders: the events' with the gaps between them, and then one for each order.
pub fn steered_lines(
    alloc: Global,
    script: &Script,
    turns: &Turns,
    events: &Events,
) -> Result<Bytes, Memory>
    ensures { IfOk result (λ out. out.items ≡ steered_lines script.now turns.now.turns events.now) }
{
    let lines = styled_lines(alloc, &Style::plain(), script, events)?;
    with_orders(alloc, lines, script, turns)
}
