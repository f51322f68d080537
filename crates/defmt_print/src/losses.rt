//! The reports of frames that weren't sent whole.
ghost use Rattle.std.specs.Prelude.{◌≡◌, ◌++◌, IfOk, OnOk};
ghost use Rattle.std.specs.Fmt.{decimal};
ghost use Rattle.defmt_print.specs.Losses.{loss_line, loss_text, loss_words, report_text};
ghost use Rattle.defmt_recording.specs.Output.{ended};

use defmt_forms::{add_json_loss, add_warning};
use defmt_logger::Mark;
use defmt_recording::{add_count, add_ended};
use defmt_words::Form;
use dl_io::{Bytes, Memory};
use rtt_modes::Fate;
use std::alloc::Global;

/// Appends the report of a frame that wasn't sent whole, nothing of one that was.
#[tactic(auto, unfolding(crate::specs::Losses::loss_line))]
pub fn add_loss(alloc: Global, form: Form, mark: &Mark, out: &mut Bytes) -> Result<(), Memory>
    ensures { OnOk result (out.new.items ≡ out.old.items ++ loss_line form mark.now) }
{
    match mark.fate {
        Fate::Whole => Ok(()),
        Fate::Dropped { need, room } => add_report(alloc, form, true, mark, need, room, out),
        Fate::Cut { need, room } => add_report(alloc, form, false, mark, need, room, out),
    }
}

fn add_report(
    alloc: Global,
    form: Form,
    dropped: bool,
    mark: &Mark,
    need: u32,
    room: u32,
    out: &mut Bytes,
) -> Result<(), Memory>
    ensures { OnOk result (out.new.items ≡ out.old.items
        ++ ended (report_text form dropped mark.now.writer mark.now.place need room)) }
{
    match form {
        Form::Plain => add_ended(words(alloc, dropped, mark, need, room)?.as_slice(), out),
        Form::Color => add_warning(words(alloc, dropped, mark, need, room)?.as_slice(), out),
        Form::Json => add_json_loss(dropped, mark.writer, mark.place, need, room, out),
    }
}

// The words of a report.
fn words(alloc: Global, dropped: bool, mark: &Mark, need: u32, room: u32) -> Result<Bytes, Memory>
    ensures { IfOk result (λ words. words.items
        ≡ loss_text (loss_words dropped) mark.now.writer mark.now.place need room) }
{
    let mut words = Bytes::new(alloc);
    words.extend_from_slice(done(dropped))?;
    add_pair(
        alloc,
        b" writer ",
        u64::from(mark.writer),
        b" statement ",
        u64::from(mark.place),
        &mut words,
    )?;
    add_pair(
        alloc,
        b" need ",
        u64::from(need),
        b" room ",
        u64::from(room),
        &mut words,
    )?;
    Ok(words)
}

fn done(dropped: bool) -> &'static [u8]
    ensures { result.now ≡ loss_words dropped }
{
    if dropped { b"-- dropped" } else { b"-- cut" }
}

// Appends two numbers, each behind its text.
fn add_pair(
    alloc: Global,
    front: &[u8],
    count: u64,
    middle: &[u8],
    other: u64,
    out: &mut Bytes,
) -> Result<(), Memory>
    ensures { OnOk result (out.new.items ≡ out.old.items
        ++ ((front.now ++ decimal count) ++ (middle.now ++ decimal other))) }
{
    add_count(alloc, front, count, out)?;
    add_count(alloc, middle, other, out)
}
