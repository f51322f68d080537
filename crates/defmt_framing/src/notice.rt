//! What a listener notices.

/// What some bytes of a stream tell, where the text of a line stands behind a place of a buffer.
#[derive(Drop)]
pub enum Notice<E, O> {
    /// Nothing: they end no front and no piece.
    Nothing,
    /// Something that is told as it is.
    Event(E),
    /// A line, by what it has beside its text, and by the number of bytes of its text.
    Line(O, usize),
}
