//! The spelling of a statement's arguments as text: how it is read, and how it is written (docs/SCRIPT.md, "Arguments").
//!
//! For `{=u8}` the text ` 0x1f  ` reads as 31, and nothing is refused with cause 2 (script_tests, `arguments`).
#![tactic(auto)]

mod arguments;
mod fault;
mod floats;
mod forms;
mod leaves;
mod marks;
mod names;
mod near;
mod nested;
mod numbers;
mod printing;
mod quick;
mod reading;
mod sequences;

pub use arguments::{one_reading, read_args, some_reading};
pub use fault::ArgFault;
pub use names::Names;
pub use printing::{print_args, reads_back};
