//! A recording is heard part by part: what its parts tell is reported as it comes.
//!
//! `listen` reads a source to its end, gives the bytes to a `Listener`, and writes what a `Reporter` prints of each event to a
//! sink. A listener cuts the stream of frames at its zeros, as a `Framer` of defmt_framing does, and knows what each part tells.
//! A reporter knows what is printed of an event, which may depend on the events before it. `listen_bytes` does the same with a
//! recording that is at hand, which `AtHand` gives as a source, and `hear_bytes` with bytes of one, of which nothing is written.
//! `listen_in_turns` is what all of them do, with a source of which it shows at each read that what is begun in the bytes before is
//! written, and with a recording of another length; it answers the reporter too.
//!
//! After docs/FORMATS.md, "Events of a stream of frames". So of `07 00 61 62 00 00 63 00 09`, whose second write fails, what is
//! printed of the front and of both pieces stands (wire_tests, `hearing`).
#![tactic(auto)]

mod bytes;
mod crew;
mod fault;
mod filling;
mod listener;
mod listening;
mod part;
mod report;
mod reporter;
mod turns;

pub use bytes::{AtHand, Nowhere, hear_bytes, listen_bytes};
pub use crew::{Alone, Behind, Crew, Portion};
pub use fault::ListenFault;
pub use filling::fill;
pub use listener::Listener;
pub use listening::{listen, listen_by, listen_in_turns};
pub use part::hear_part;
pub use report::Report;
pub use reporter::{Passing, Reporter};
pub use turns::Turns;
