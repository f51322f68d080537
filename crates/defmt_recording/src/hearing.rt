//! The events of bytes that are at hand.
ghost use Rattle.std.specs.Prelude.{◌≡◌, ◌++◌, option_to_list, IfOk, OnOk};
ghost use Rattle.defmt_decode.specs.Event.{events_of};

use crate::host_listener::HostListener;
use crate::kept::Kept;
use defmt_decode::{Event, Events, Host, PlannedTable};
use defmt_intern::Table;
use defmt_listen::{Listener, hear_bytes};
use dl_io::Memory;
use std::alloc::Global;

/// The events of a stream that is given in two parts, by a table.
pub fn events_of(alloc: Global, table: Table, front: &[u8], rest: &[u8]) -> Result<Events, Memory>
    ensures { IfOk result (λ events. events ≡ events_of table (front.now ++ rest.now)) }
{
    let planned = PlannedTable::new(alloc, table)?;
    let host = Host::new(alloc, &planned);
    let events = Events::new(alloc);
    let listener = HostListener { host };
    let kept = Kept { events };
    let (listener, kept) = hear_bytes(alloc, listener, kept, front)?;
    let (listener, kept) = hear_bytes(alloc, listener, kept, rest)?;
    with_event(kept.events, listener.finish())
}

fn with_event(events: Events, event: Option<Event>) -> Result<Events, Memory>
    ensures { IfOk result (λ all. all ≡ events ++ option_to_list event) }
{
    let mut all = events;
    if let Some(event) = event {
        all.push(event)?;
    }
    Ok(all)
}
