//! The events of a stream of frames: one for each piece between two zeros, and one each for a
//! front and a tail that are cut off.
//!
//! A frame is a zero, the code of a message and a zero (defmt book, the encoding rzcobs). What
//! stands between two zeros is decoded, read as a message and printed as its line, or it is
//! reported with the first fault that stands in it. What comes before the first zero is never
//! decoded, since its own beginning may be lost.
//!
//! In profile Two a line has the place of its frame, and [`gap`] says how many frames are missing between two lines. [`shows`]
//! says which of the events rules for levels and packages show, and [`Screen`] does so by a judge that is handed in.
//!
//! With the entry 1 `hello`, `7e 00 00 01 7e 00 09` gives a front of one byte, the line `INFO  hello` and a tail of one byte
//! (wire_tests, `events`).
#![tactic(auto)]

mod event;
mod host;
mod laws;
mod notices;
mod places;
mod quick;
mod reader;
mod room;
mod screen;

pub use defmt_plan::{Origin, Parts, PlannedTable};
pub use event::{Event, Events};
pub use host::Host;
pub use laws::{
    any_cutting, cut_between_frames, cut_within_a_frame, events_by_parts, frames_read_back,
    intact_frames, one_event, without_end, without_front,
};
pub use places::{gap, gaps_count};
pub use screen::{Screen, shows, shows_line};
