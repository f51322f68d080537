//! The frames of a script's statements, as a device writes them.
//!
//! [`Sites`] has a site for each string that a script's statements log. By them [`write_frame`] logs one statement of a writer
//! by the macro of its string's tag, with its mark's number in profile Two and a stamp where the script has stamps, and writes
//! the frame of its message.
//!
//! After the defmt book, "Timestamps" and "Encoding". So `hello` at index 1 is `00 01 7e 00`, and in profile Two, as the third of all,
//! `00 01 02 7a 00` (device_tests, `logger`).
#![tactic(auto)]

mod framing;
mod sites;
mod totals;

pub use framing::{FRAME_SIZE, write_frame};
pub use sites::Sites;
pub use totals::totals_of;
