//! What became of a frame, and what a call does that waits.

/// What became of a frame. Numbers are bytes.
#[derive(Clone, Copy, Debug)]
pub enum Fate {
    /// It was sent whole.
    Whole,
    /// It needed `need` bytes, the look found room for `room` only, and nothing was sent.
    Dropped { need: u32, room: u32 },
    /// It needed `need` bytes, and its first `room` bytes were sent, for which the look found room.
    Cut { need: u32, room: u32 },
}

/// What a call does while a ring has no room, such as reading from it or waiting for its reader.
pub trait Relief {
    /// A fact that each ease keeps.
    ghost kept: { Self → Type 0 };

    /// Eases once. It may wait.
    fn ease(&mut self)
        requires { kept self.old }
        ensures { kept self.new };
}

/// Two reliefs as one, such as readers of two rings. An ease eases the first and then the second.
#[derive(Drop)]
pub struct Both<A: Relief, B: Relief> {
    pub first: A,
    pub second: B,
}

impl<A: Relief, B: Relief> Relief for Both<A, B> {
    ghost kept = { λ both. A.kept both.first × B.kept both.second };

    fn ease(&mut self) {
        self.first.ease();
        self.second.ease();
    }
}
