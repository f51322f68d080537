//! Where in the sources each statement stands, by a text that tells it: each line is an index, a space and a place.
//!
//! After docs/FORMATS.md, "Places". So by the text `1 src/main.rs:12` the place of the index 1 is `src/main.rs:12`, and of two such
//! lines the second is refused with cause 3 (elf_tests, `places`).
#![tactic(auto)]

mod fault;
mod line;
mod places;
mod reading;
mod slots;

pub use fault::{Cause, PlacesFault};
pub use places::Places;
pub use reading::{places_are_told, read_places};
