#![tactic(auto)]

//! Rows of tests as texts: what goes in, and the answer that is due.
mod digits;
mod images;
mod rooms;
mod rows;
mod texts;

pub use digits::{bytes_of, changed_of, put_digits, put_hex, zeros_of};
pub use images::image_of;
pub use rooms::{PLACE, put_told, room_of, told_of};
pub use rows::{Question, each_block, each_line, each_row, expect, put, put_str};
pub use texts::{
    begins_with, count_in_order, count_of, is_same, line_count, number_of, parted, put_ended,
    put_hexadecimal, put_lines_of, put_number, put_once, put_repeated, text_of, words_of,
};
