//! How a script is run by threads with its texts for terminals: a thread for each writer that has statements or texts, and a
//! reader of two rings.
//!
//! [`run_terminals`] splits two rings, and starts a logger over the one and a booth over the other. Each thread has its writer's
//! pen and voice, and says the writer's texts among the statements. The calling thread reads at both rings meanwhile, does what is
//! left, and settles both.
//!
//! Threads and locks are std's; texts are those of docs/SCRIPT.md. So a writer with one statement and three texts sends 4 bytes
//! over the one ring and 20 over the other (device_tests, `talks`).
#![tactic(auto)]

mod ends;
mod listener;
mod settling;
mod starting;
mod talk_run;

pub use talk_run::{Talk, run_terminals};
