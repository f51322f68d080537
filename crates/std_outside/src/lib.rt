//! The outside that the program meets: the standard input and the files of the working folder, which are read into rooms on the heap
//! first, so that a read that fails leaves the lent buffer.
//!
//! They stand for std's `Read`, `Seek` and files. So `defmtl run` ends with the status 3 where its input is a folder, and
//! `decode --table FILE` with 7 where there is no such file (tests/failing-calls.sh).
#![tactic(auto)]

mod folder;
mod input;
mod opened;
mod room;

pub use folder::Folder;
pub use input::Input;
