//! How a script is run by threads under orders: a thread for each writer that has statements, and a host that reads the frames and
//! sends the orders.
//!
//! [`run_steered`] splits two rings, and starts a steered logger over the upper end of the one and the lower end of the other. The
//! calling thread reads the frames meanwhile, sends each order once it is due, does what is left, and settles both rings.
//!
//! Threads and locks are std's; orders are those of docs/FORMATS.md, "Orders of levels". So behind the orders `warn` and `info` a
//! debug statement is muted, and one of info sent (device_tests, `hosted`).
#![tactic(auto)]

mod counting;
mod host;
mod steer_run;

pub use steer_run::{SteeredRun, run_steered};
