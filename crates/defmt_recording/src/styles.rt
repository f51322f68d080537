//! What is printed of an event in a style.
ghost use Rattle.std.specs.Prelude.{◌≡◌, ◌++◌, ◌&&◌, OnOk};
ghost use Rattle.defmt_decode.specs.Event.{line_with};
ghost use Rattle.defmt_recording.specs.Output.{ended};
ghost use Rattle.defmt_recording.specs.Styled.{is_failing, is_printed, level_at, look_by, prints_index, reaches, styled_gap, styled_line, styled_text};

use crate::notices::{add_bad, add_front, add_report, add_tail};
use crate::output::{gap_before, gap_between};
use crate::statement::{add_statement, level_at};
use defmt_decode::{Event, Origin, shows_line};
use defmt_hooks::{Floor, Level};
use defmt_intern::Table;
use defmt_places::Places;
use defmt_words::{Form, Style};
use dl_io::{Bytes, Memory};
use std::alloc::Global;

/// Appends what is printed of an event: its line, nothing of a line that rules don't show, and in front of it how many frames are
/// missing since the last line, which has this place. On want of memory it isn't said what was appended.
#[tactic(auto, unfolding(crate::specs::Styled::styled_line, crate::specs::Styled::shown_text))]
pub fn add_styled_line(
    alloc: Global,
    style: &Style,
    table: &Table,
    places: &Places,
    last: Option<u16>,
    event: &Event,
    out: &mut Bytes,
) -> Result<(), Memory>
    ensures { OnOk result (out.new.items ≡ out.old.items
        ++ styled_line (look_by style.now table.now.entries places.now) last event.now) }
{
    add_styled_gap(alloc, style.form, gap_before(last, event), out)?;
    if is_printed(style, table, event) {
        return add_styled_event(alloc, style, table, places, event, out);
    }
    Ok(())
}

/// The same of the line with this text.
#[tactic(auto, unfolding(crate::specs::Styled::styled_line, crate::specs::Styled::shown_text, crate::specs::Styled::styled_text, crate::specs::Styled::is_printed, crate::specs::Output::gap_before))]
pub fn add_styled_text(
    alloc: Global,
    style: &Style,
    table: &Table,
    places: &Places,
    last: Option<u16>,
    origin: &Origin,
    text: &[u8],
    out: &mut Bytes,
) -> Result<(), Memory>
    ensures { OnOk result (out.new.items ≡ out.old.items
        ++ styled_line (look_by style.now table.now.entries places.now) last
        (line_with origin.now text.now)) }
{
    add_styled_gap(alloc, style.form, gap_between(last, origin.place), out)?;
    if prints_index(style, table, origin.index) {
        return add_statement(style, table, places, origin.index, &origin.parts, text, out);
    }
    Ok(())
}

/// Appends a report of so many missing frames, where some are.
#[tactic(auto, unfolding(crate::specs::Styled::styled_gap))]
pub fn add_styled_gap(alloc: Global, form: Form, count: u16, out: &mut Bytes) -> Result<(), Memory>
    ensures { OnOk result (out.new.items ≡ out.old.items ++ styled_gap form count) }
{
    match count {
        0 => Ok(()),
        _ => add_report(alloc, form, count, out),
    }
}

/// Appends the line of an event and a newline, whether rules show it or not.
#[tactic(auto, unfolding(crate::specs::Styled::styled_text))]
pub fn add_styled_event(
    alloc: Global,
    style: &Style,
    table: &Table,
    places: &Places,
    event: &Event,
    out: &mut Bytes,
) -> Result<(), Memory>
    ensures { OnOk result (out.new.items ≡ out.old.items
        ++ ended (styled_text style.now table.now.entries places.now event.now)) }
{
    match event {
        Event::Line {
            index,
            parts,
            text,
            ..
        } => {
            let bytes = text.as_str().as_bytes();
            add_statement(style, table, places, *index, parts, bytes, out)
        }
        Event::Bad { cause } => add_bad(alloc, style.form, *cause, out),
        Event::CutFront { bytes } => add_front(alloc, style.form, *bytes, out),
        Event::CutTail { bytes } => add_tail(alloc, style.form, *bytes, out),
    }
}

// Whether an event is printed.
#[tactic(auto, unfolding(crate::specs::Styled::is_printed))]
fn is_printed(style: &Style, table: &Table, event: &Event) -> bool
    ensures { result ≡ is_printed style.now.only table.now.entries event.now }
{
    match event {
        Event::Line { index, .. } => prints_index(style, table, *index),
        Event::Bad { .. } | Event::CutFront { .. } | Event::CutTail { .. } => true,
    }
}

/// Whether the lines of an index are printed.
#[inline(always)]
pub fn prints_index(style: &Style, table: &Table, index: u16) -> bool
    ensures { result ≡ prints_index style.now.only table.now.entries index }
{
    match &style.only {
        None => true,
        Some(rules) => shows_line(rules, table, index),
    }
}

/// Whether an event is a line that is printed and makes the program fail.
#[tactic(auto, unfolding(crate::specs::Styled::is_failing))]
pub fn is_failing(style: &Style, table: &Table, event: &Event) -> bool
    ensures { (places : _) → result
        ≡ is_failing (look_by style.now table.now.entries places) event.now }
{
    match event {
        Event::Line { index, .. } => fails_at(style, table, *index),
        Event::Bad { .. } | Event::CutFront { .. } | Event::CutTail { .. } => false,
    }
}

/// Whether the lines of an index are printed and make the program fail.
pub fn fails_at(style: &Style, table: &Table, index: u16) -> bool
    ensures { result ≡ (prints_index style.now.only table.now.entries index
        && reaches style.now.fail_on (level_at table.now.entries index)) }
{
    reaches_at(style.fail_on, table, index) && prints_index(style, table, index)
}

// Whether the entry at an index has that level or a more severe one, where both are there.
fn reaches_at(least: Option<Level>, table: &Table, index: u16) -> bool
    ensures { result ≡ reaches least (level_at table.now.entries index) }
{
    let Some(least) = least else {
        return false;
    };
    match level_at(table, index) {
        Some(level) => Floor::At(least).passes(level),
        None => false,
    }
}
