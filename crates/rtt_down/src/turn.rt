//! A turn.
use defmt_hooks::Level;

/// A statement whose turn came, and whether it was sent.
#[derive(Clone, Copy)]
pub struct Turn {
    /// The number of the writer, from 0 to 7.
    pub writer: u8,
    /// The place of the statement among the writer's, from 0.
    pub place: u32,
    /// The stamp in microseconds, 0 where the script has no stamps (defmt book, "Timestamps").
    pub stamp: u64,
    /// The least level that was sent: the last order that had been heard, Trace where there was none.
    pub floor: Level,
    /// How many orders had been heard.
    pub seen: u32,
    /// Whether the frame was sent. Else the statement was muted.
    pub sent: bool,
}
