//! What the texts of arguments spell, without any table: docs/SCRIPT.md, "Arguments".
//!
//! So `0x1F` spells the number 31, and `true x` begins with a truth value, behind which two bytes stand (script_tests, `shapes`).
#![tactic(auto)]

mod calls;
mod digits;
mod escape;
mod float;
mod full;
mod head;
mod laws;
mod meaning;
mod number;
mod parts;
mod quick;
mod scan;
mod spelling;

pub use calls::last_call;
pub use laws::{element_by_element, one_head, one_shape, some_head, value_by_value};
pub use meaning::{bytes_of, unescape};
pub use number::Number;
pub use parts::{is_name, skip_spaces};
pub use quick::{quick_bytes, quick_decimal, quick_flag, quick_negative, quick_quoted};
pub use spelling::{Item, Spelling, first_item, first_value};
