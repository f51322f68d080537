//! How a script is run by threads: a thread for each writer that has statements, and a reader.
//!
//! [`run_script`] splits a ring, starts a logger over its upper end, and lends each writer's pen to a thread that logs the
//! writer's statements. The calling thread reads at the lower end meanwhile, logs what is left, and settles the ring.
//! [`serve_here`] logs what one pen has left on the calling thread, which in blocking mode reads where the ring has no room.
//!
//! The other calls are the parts of a run, for the crates that run a script with more than a logger. The gate and the threads are
//! those of writer_threads, and are public here too.
//!
//! Threads and locks are std's. So two writers that wait for each other both log, in each mode (device_tests, `writers`).
#![tactic(auto)]

mod drain;
mod reader;
mod ring_ends;
mod script_run;
mod serving;

pub use drain::Drain;
pub use reader::{FromSplit, Reader};
pub use ring_ends::{RingEnds, SettledRing, empty_capture, new_ends, prepare, settle, split_ring};
pub use script_run::{Run, run_script, settle_run};
pub use serving::serve_here;
pub use writer_threads::{
    Gate, OpenGate, Yields, ease_on, finish, log_all, log_until, run_threads,
};
