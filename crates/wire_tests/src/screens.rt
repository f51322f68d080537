//! Which events a screen shows.
ghost use Rattle.std.specs.Prelude.{◌≡◌};
ghost use Rattle.defmt_hooks.specs.Judging.{JudgesBy};
ghost use Rattle.defmt_hooks.specs.Kept.{keeps};

use crate::rows::Kind;
use crate::strings::table_of;
use defmt_decode::{Event, Events, Parts, Screen};
use defmt_grammar::Text;
use defmt_hooks::{Hook, Judge, Level, Rules, Watch, keeps, read_rules};
use defmt_intern::Table;
use std::alloc::Global;
use std::test::Fail;
use test_rows::{each_line, put_str};

const STRINGS: &str = "\
defmt_info i
defmt_warn w
defmt_println p";

// Rules, and which of these are shown: a line of each of the strings, a line of none, a fault, a front and a tail.
const SHOWN: &str = "\
trace = +++++++
warn = -++++++
off = --+++++
off,script=info = +++++++
trace,script=error = --+++++
warn,other=info = -++++++";

fn events_of(alloc: Global) -> Result<Events, Fail> {
    let mut events = Events::new(alloc);
    for index in 1..=4 {
        let text = Text::new(alloc);
        events.push(Event::Line {
            index,
            place: None,
            parts: Parts {
                bytes: 2,
                stamp: 0,
                front: 0,
            },
            text,
        })?;
    }
    events.push(Event::Bad { cause: 1 })?;
    events.push(Event::CutFront { bytes: 1 })?;
    events.push(Event::CutTail { bytes: 1 })?;
    Ok(events)
}

// A sign for each event: whether a screen with this judge shows it.
fn put_shown_by<J: Judge + Drop>(
    rules: &Rules,
    judge: J,
    table: &Table,
    told: &[Event],
    out: &mut String,
) -> Result<(), Fail>
    requires { JudgesBy rules.now (J.ready judge) (J.gives judge) }
{
    let screen = Screen::new(Watch::new(rules, judge));
    for event in told {
        out.push(if screen.shows(table, event) { '+' } else { '-' })?;
    }
    Ok(())
}

// The same with a closure that goes by the rules.
fn put_shown(rules: &Rules, table: &Table, told: &[Event], out: &mut String) -> Result<(), Fail> {
    let judge = |level: Level, name: &str| -> bool
        ensures { result ≡ keeps rules.entry.now level name.now }
    { keeps(rules, level, name) };
    put_shown_by(rules, Hook::new(judge), table, told, out)
}

pub fn put_shown_of(alloc: Global, text: &str, out: &mut String) -> Result<(), Fail> {
    let table = table_of(alloc, STRINGS)?;
    let events = events_of(alloc)?;
    match read_rules(alloc, text) {
        Ok(rules) => put_shown(&rules, &table, events.as_slice(), out),
        Err(_) => put_str(out, "no rules"),
    }
}

#[test]
fn a_screen_hides_lines_of_a_level_alone(rt: HostRuntime) -> Result<(), Fail> {
    each_line(rt.alloc(), SHOWN, 6, &Kind::Shown)
}
