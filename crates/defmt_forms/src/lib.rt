//! The forms of a printed line: an object of JSON, a line with colors for a terminal, and plain text with a place behind it.
//!
//! Each call appends to a buffer. A line comes with what it says apart: its stamp, its level, its package, its own text and its place
//! in the sources. In a terminal's line each control character but newline and tab is written as its number, so that a log can't
//! steer the terminal. On want of memory it isn't said what was appended.
//!
//! So the text `a"b` is `"a\"b"` in JSON, and an escape character is `\u{1b}` for a terminal (program_tests, `forms`).
#![tactic(auto)]

mod color;
mod escaping;
mod looks;
mod making;
mod names;
mod objects;
mod pieces;
mod placing;
mod plain;
mod quoted;
mod tame;
mod template;

pub use color::{add_alarm, add_color_line, add_warning};
pub use looks::{is_bare_text, is_quiet_text};
pub use making::{color_template, json_template, plain_template};
pub use names::level_name;
pub use objects::{
    add_json_fault, add_json_front, add_json_gap, add_json_line, add_json_loss, add_json_tail,
    objects_are_lines,
};
pub use placing::{place_color, place_json, place_plain};
pub use plain::add_plain_line;
pub use quoted::add_quoted;
pub use tame::{add_tame, tame_has_no_controls};
pub use template::Template;
