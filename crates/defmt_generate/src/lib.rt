//! A script of any number of statements, made by a formula: a large input for the other commands.
//!
//! The formula stands in docs/FORMATS.md, "The generated script"; the text of ten statements stands in script_tests, `generated`.
#![tactic(auto)]

mod laws;
mod script;
mod statement;

pub use laws::{generated_lines, generated_reads, scripts_are_short};
pub use script::generate;
