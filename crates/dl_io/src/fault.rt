//! Why a call to the outside, or for memory, gives nothing.
use std::alloc::{AllocError, AllocFailed};

/// A fault of the outside: a read, write or fetch didn't work.
#[derive(Clone, Copy, Debug)]
pub struct Failed;

/// Want of memory.
#[derive(Clone, Copy, Debug)]
pub struct Memory;

impl From<AllocError> for Memory {
    fn from(_: AllocError) -> Self {
        Memory
    }
}

impl<T: Drop> From<AllocFailed<T>> for Memory {
    fn from(_: AllocFailed<T>) -> Self {
        Memory
    }
}
