//! What the ends of a ring know. No value of these types is made: contracts alone read them.
use std::collections::LinkedList;

/// An access of an offset: one end stores it, and the other loads it. Its number of bytes is the one that the offset is the
/// residue of.
pub enum Access {
    /// So many bytes are published, or released.
    Stored(u64),
    /// So many were found published, or released.
    Loaded(u64),
}

/// What the upper end knows. Numbers of bytes are since the ring was made.
pub struct UpView {
    /// The ring's size in bytes.
    pub size: u64,
    /// All bytes published.
    pub sent: LinkedList<u8>,
    /// The bytes put and not published.
    pub staged: LinkedList<u8>,
    /// How many bytes the last look found released. A look of this end is a load of RdOff.
    pub freed: u64,
    /// A data word's number and value, from its load to its store.
    pub held: Option<(u64, u64)>,
    /// How many looks were made.
    pub looks: u64,
    /// All accesses of RdOff, up to this end's last load of it.
    pub rd_off: LinkedList<Access>,
    /// All accesses of WrOff, up to this end's last store of it.
    pub wr_off: LinkedList<Access>,
}

/// What the lower end knows. Numbers of bytes are since the ring was made.
pub struct DownView {
    /// The ring's size in bytes.
    pub size: u64,
    /// All bytes taken.
    pub got: LinkedList<u8>,
    /// How many bytes the last look found published. A look of this end is a load of WrOff.
    pub found: u64,
    /// How many bytes were released.
    pub released: u64,
    /// How many looks were made.
    pub looks: u64,
    /// All accesses of WrOff, up to this end's last load of it.
    pub wr_off: LinkedList<Access>,
    /// All accesses of RdOff, up to this end's last store of it.
    pub rd_off: LinkedList<Access>,
}

// What one seat of the table knows.
pub(crate) enum View {
    // Nothing: the seat was joined to another.
    Spent,
    Up(UpView),
    Down(DownView),
    Both(UpView, DownView),
}
