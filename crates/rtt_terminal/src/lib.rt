//! Text terminals that share one stream of bytes, after SEGGER RTT's virtual terminals.
//!
//! There are 16 terminals. A line is its text and a newline, and goes to the terminal that was switched to last, which
//! is 0 at first. A switch is the byte `ff` and the digit of a terminal, `0` to `9` or `A` to `F`, and stands only where a
//! line may begin. [`speak`] writes one line, with a switch in front where the terminal changes, and [`read_terminals`]
//! gives each terminal its lines. [`is_sayable`] tells which texts may be written. A [`Speech`] has what eight writers are
//! to say.
//!
//! So `ff 41 74 69 63 6b 0a` switches to the terminal 10 and gives it the line `tick` (terminal_tests, `terminals`).
#![tactic(auto)]

mod digit;
mod fault;
mod item;
mod laws;
mod reading;
mod sayable;
mod saying;
mod screen;
mod screens;
mod speaking;
mod speech;

pub use digit::{digit_of, terminal_named};
pub use fault::{Cause, TermFault};
pub use laws::{one_reading, spoken_is_read};
pub use reading::read_terminals;
pub use sayable::is_sayable;
pub use saying::Saying;
pub use screens::Screens;
pub use speaking::speak;
pub use speech::{Speech, WRITERS};
