//! How many lines are printed that make the program fail.
ghost use Rattle.std.specs.Prelude.{◌≡◌, ◌≤◌, filter, length, ℕ, if◌then◌else◌};
ghost use Rattle.std.specs.FinMap as map;
ghost use Rattle.defmt_print.specs.Groups.{look_of};
ghost use Rattle.defmt_print.specs.Heard.{mark_events};
ghost use Rattle.defmt_print.specs.Printed.{ArePlaced};
ghost use Rattle.defmt_print.specs.RunLines.{run_failing, tape_failing};
ghost use Rattle.defmt_recording.specs.Styled.{is_failing, look_by};

use defmt_decode::{Event, Events};
use defmt_intern::Table;
use defmt_logger::{Mark, Tape};
use defmt_recording::{fails_at, is_failing};
use defmt_script::Script;
use defmt_words::{RunOptions, Style};
use rtt_modes::Fate;

/// How many lines of a run are printed that make the program fail: the events', or those of the tape in groups.
pub fn run_failing(options: &RunOptions, script: &Script, tape: &Tape, events: &Events) -> u64
    requires placed { ArePlaced script.now tape.now.marks }
    requires few { length tape.now.marks ≤ 4096 }
    ensures { result ≡ run_failing options.now script.now tape.now.marks events.now }
{
    if options.group {
        return tape_failing(&options.style, script, tape.as_slice());
    }
    events_failing(&options.style, script.table(), events.as_slice())
}

fn events_failing(style: &Style, table: &Table, events: &[Event]) -> u64
    ensures { result ≡ length (filter
        (is_failing (look_by style.now table.now.entries map.empty)) events.now) }
{
    let mut failing = 0u64;
    for event in events {
        failing += one_if(is_failing(style, table, event));
    }
    failing
}

fn tape_failing(style: &Style, script: &Script, tape: &[Mark]) -> u64
    requires placed { ArePlaced script.now tape.now }
    requires few { length tape.now ≤ 4096 }
    ensures { result ≡ tape_failing style.now script.now 0 tape.now }
{
    let mut failing = 0u64;
    for mark in tape {
        failing += failing_of(style, script, mark);
    }
    failing
}

// 1 where the line of a mark is printed and makes the program fail, else 0.
fn failing_of(style: &Style, script: &Script, mark: &Mark) -> u64
    ensures count { (number : ℕ) → result ≡ length (filter
        (is_failing (look_of style.now script.now)) (mark_events script.now number mark.now)) }
    ensures one { result ≤ 1 }
{
    match mark.fate {
        Fate::Dropped { .. } | Fate::Cut { .. } => 0,
        Fate::Whole => match script.statement(mark.writer, mark.place) {
            Some(statement) => one_if(fails_at(style, script.table(), statement.index)),
            None => 0,
        },
    }
}

fn one_if(so: bool) -> u64
    ensures count { result ≡ (if so then 1 else 0) }
    ensures one { result ≤ 1 }
{
    if so { 1 } else { 0 }
}
