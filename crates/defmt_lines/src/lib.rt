//! The lines of a script: a text cut into lines, what each line says, and what the texts and the first lines of a script
//! must be (docs/SCRIPT.md, "Lines"). Which lines may follow one another, and what they come to, is the crate above.
//!
//! So `ring 16` sets the ring's size, and `ring 064` is refused with cause 6 (script_tests, `content`).
#![tactic(auto)]

mod cause;
mod content;
mod cut;
mod form;
mod line;
mod number;
mod orders;
mod setting_words;
mod settings;
mod verdict;

pub use cause::Cause;
pub use content::{ActionLine, EntryLine, Line, Words};
pub use cut::{next_line, next_text_line};
pub use form::Form;
pub use line::{one_line, read_line, read_statement, read_text_line};
pub use orders::Orders;
pub use settings::{RingMode, Settings, one_setting};
pub use verdict::{judge, one_verdict, parse_text, some_verdict};
