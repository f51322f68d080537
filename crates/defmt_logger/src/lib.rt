//! The logger of a device: a desk that writes the statements of a script to a ring, a tape with a mark for each, and the lock
//! and the pens by which threads share the desk.
//!
//! A [`Desk`] takes the next statement of one of eight writers, writes its frame to the ring in the script's mode, and
//! puts a [`Mark`] on its [`Tape`]: which statement it was, its stamp, and whether its frame was sent whole, dropped or cut.
//!
//! A [`Logger`] has a desk behind a lock, as the work that eight writers share. It gives a [`Pen`] to each writer, and only a
//! pen can log. When all [`Pens`] are back, `close` gives the tape, and each writer has as many marks on it as its pen tells.
//!
//! After the defmt book, the display of log frames, and SEGGER RTT's modes. So of three frames of 7 bytes a skipping ring of 16 takes
//! two, and drops the third with room for 1 (device_tests, `logger`).
#![tactic(auto)]

mod desk;
mod logger;
mod logging;
mod mark;
mod tape;

pub use desk::Desk;
pub use logger::Logger;
pub use logging::{EachStatement, Logging, Naming};
pub use mark::Mark;
pub use rtt_modes::Fate;
pub use shared_work::{Pen, Pens};
pub use tape::Tape;
