//! What a list of events prints.
ghost use Rattle.std.specs.Prelude.{◌≡◌, IfOk};
ghost use Rattle.defmt_recording.specs.Styled.{look_by, styled_lines};

use crate::output::last_behind;
use crate::styles::add_styled_line;
use defmt_decode::Event;
use defmt_intern::Table;
use defmt_places::Places;
use defmt_words::Style;
use dl_io::{Bytes, Memory};
use std::alloc::Global;

/// What the events print in a style: their lines, with the gaps between them.
pub fn event_lines(
    alloc: Global,
    style: &Style,
    table: &Table,
    places: &Places,
    events: &[Event],
) -> Result<Bytes, Memory>
    ensures { IfOk result (λ out. out.items
        ≡ styled_lines (look_by style.now table.now.entries places.now) events.now) }
{
    let mut out = Bytes::new(alloc);
    let mut last = None;
    for event in events {
        add_styled_line(alloc, style, table, places, last, event, &mut out)?;
        last = last_behind(last, event);
    }
    Ok(out)
}
