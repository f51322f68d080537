//! The threads of the writers that share a work: one for each writer that has steps, beside what the calling thread does.
//!
//! [`run_threads`] lends each pen that has steps to a thread that does these, and asks a [`Gate`] before each. The calling thread
//! eases meanwhile, until all have ended; what the pens have left then is done by [`finish`].
//!
//! What the writers share is a type parameter: of a pen that comes back from a thread its type tells all that is known. So a thread
//! is lent a pen whose type tells where the gate was asked ([`Lending`]).
//!
//! Threads are std's. So two writers that wait for each other both log, in each mode (device_tests, `writers`).
#![tactic(auto)]

mod asked;
mod gate;
mod threads;
mod writers;

pub use asked::Lending;
pub use gate::{Gate, OpenGate};
pub use threads::run_threads;
pub use writers::{Yields, ease_on, finish, log_all, log_next, log_until};
