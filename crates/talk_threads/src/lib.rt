//! The threads of writers that share two works: a step of the one logs a statement, and one of the other says a text.
//!
//! [`run_all`] lends each thread its writer's pen and voice. The thread says the writer's texts among the statements, in the order
//! of the script, and the calling thread eases meanwhile and does what is left. [`talk`], by which both do it, shows what that order
//! is: it does no step but by a [`Steps`], which asks for a proof that the step comes next. [`Stage`] is the one there is, and gives
//! what the writers share to nobody: so no other order can be had of it.
//!
//! Threads are std's; texts are those of docs/SCRIPT.md. So of a writer with one statement and three texts the one step of the first
//! work and the three of the second are done in the end (device_tests, `talks`).
#![tactic(auto)]

mod all_writers;
mod lent;
mod steps;
mod talking;
mod threads;

pub use all_writers::run_all;
pub use steps::{Stage, Steps};
pub use talking::talk;
