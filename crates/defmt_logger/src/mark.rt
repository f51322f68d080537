//! A mark of a tape.
use rtt_modes::Fate;

/// A statement that was logged, and what became of its frame.
#[derive(Clone, Copy)]
pub struct Mark {
    /// The number of the writer, from 0 to 7.
    pub writer: u8,
    /// The place of the statement among the writer's, from 0.
    pub place: u32,
    /// The stamp in microseconds, 0 where the script has no stamps (defmt book, "Timestamps").
    pub stamp: u64,
    /// What became of the frame.
    pub fate: Fate,
}
