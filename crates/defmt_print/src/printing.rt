//! What is printed of the tape of a run.
ghost use Rattle.std.specs.Prelude.{◌≡◌, ◌≤◌, ◌<◌, ◌++◌, length, IfOk, OnOk};
ghost use Rattle.defmt_print.specs.Groups.{group_lines, writer_line, writer_lines};
ghost use Rattle.defmt_print.specs.Losses.{loss_lines};
ghost use Rattle.defmt_print.specs.Printed.{ArePlaced, IsPlaced};

use crate::losses::add_loss;
use crate::mark_lines::add_mark_line;
use crate::statements::LINE_ROOM;
use defmt_logger::Mark;
use defmt_script::Script;
use defmt_words::{Form, Style};
use dl_io::{Bytes, Memory};
use rtt_modes::Fate;
use std::alloc::Global;

const EACH_WRITER: [u8; 8] = [0, 1, 2, 3, 4, 5, 6, 7];

/// These lines, and then the reports of the frames that weren't sent whole.
pub fn with_losses(alloc: Global, form: Form, lines: Bytes, tape: &[Mark]) -> Result<Bytes, Memory>
    ensures { IfOk result (λ out. out.items ≡ lines.items ++ loss_lines form tape.now) }
{
    let mut out = lines;
    for mark in tape {
        add_loss(alloc, form, mark, &mut out)?;
    }
    Ok(out)
}

/// The lines of the frames that were sent whole, writer by writer, in a style.
pub fn group_lines(
    alloc: Global,
    style: &Style,
    script: &Script,
    tape: &[Mark],
) -> Result<Bytes, Memory>
    requires placed { ArePlaced script.now tape.now }
    requires few { length tape.now ≤ 4096 }
    ensures { IfOk result (λ out. out.items ≡ group_lines style.now script.now tape.now) }
{
    let mut out = Bytes::new(alloc);
    let mut room = [0u8; LINE_ROOM];
    for writer in &EACH_WRITER {
        add_writer(alloc, style, script, tape, *writer, &mut room, &mut out)?;
    }
    Ok(out)
}

fn add_writer(
    alloc: Global,
    style: &Style,
    script: &Script,
    tape: &[Mark],
    writer: u8,
    room: &mut [u8],
    out: &mut Bytes,
) -> Result<(), Memory>
    requires placed { ArePlaced script.now tape.now }
    requires few { length tape.now ≤ 4096 }
    ensures { OnOk result (out.new.items ≡ out.old.items
        ++ writer_lines style.now script.now writer 0 tape.now) }
{
    for (number, mark) in tape.iter().enumerate() {
        add_of_writer(alloc, style, script, writer, number as u32, mark, room, out)?;
    }
    Ok(())
}

// Appends the line of a mark with this number, where it is of this writer, its statement is shown, and its frame was sent whole.
fn add_of_writer(
    alloc: Global,
    style: &Style,
    script: &Script,
    writer: u8,
    number: u32,
    mark: &Mark,
    room: &mut [u8],
    out: &mut Bytes,
) -> Result<(), Memory>
    requires { IsPlaced script.now mark.now }
    ensures { OnOk result (out.new.items ≡ out.old.items
        ++ writer_line style.now script.now writer number mark.now) }
{
    if mark.writer != writer {
        return Ok(());
    }
    match mark.fate {
        Fate::Whole => add_mark_line(alloc, style, script, number, mark, room, out),
        Fate::Dropped { .. } | Fate::Cut { .. } => Ok(()),
    }
}
