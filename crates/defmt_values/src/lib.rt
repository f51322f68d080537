//! Statements: the values of a format string's arguments, and whether they fit a table.
//!
//! A value fits where its parameter takes it (the defmt book, on the arguments of log statements): 255 fits `{=u8}`, and 256 is
//! refused with cause 4 (text_tests, `values`).
#![tactic(auto)]

mod cause;
mod entries;
mod fitting;
mod law;
mod leaves;
mod numbers;
mod sound;
mod value;

pub use entries::{
    element_form, form_of, is_format, is_interned, is_logged, look_up, own_form, pick,
};
pub use fitting::{check, cut};
pub use law::one_cause;
pub use numbers::{
    bits_between, float_bits, is_below, is_multiple, is_of_bits, is_signed, power, size_bits,
};
pub use value::{Args, Item, Items, Node, Nodes, Seq, Statement, Value};
