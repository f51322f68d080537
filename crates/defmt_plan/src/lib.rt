//! Messages printed in one pass, from their bytes to their line, where all they carry is usual.
//!
//! A plan is made once of each string of a level or of println, when a table is taken: its pieces as steps, which use the positions
//! in order, and each once, unless for bit fields of one number. The strings that Format values have are planned too, so that these
//! and lists of them are passed to their depth.
//! The invariant of [`PlannedTable`] is that each plan says what the pieces of its string say. A message is read and printed
//! by its plan. Where anything isn't usual, or a message is refused, nothing is answered, and the caller goes another way.
//!
//! After the defmt book, "Serialization" and "Display hints". With the entry 1 `hello` the message `01 00` is told in one pass
//! as `INFO  hello` (wire_tests, `events`: a host asks for plans first).
#![tactic(auto)]

mod bits;
mod ends;
mod forms;
mod inside;
mod leaves;
mod message;
mod numbers;
mod plan;
mod planned;
mod reach;
mod run;
mod steps;
mod take;

pub use message::{Origin, Parts};
pub use planned::PlannedTable;
