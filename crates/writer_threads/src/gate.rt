//! The gate that writers and reader pass.

/// What is told of the steps of a run, by each of its threads.
///
/// A gate may hold a call as long as it wants. The run goes on once the call has returned. Nothing but a call shows that a gate
/// was asked or told: a body that leaves a call out, or asks another gate, has nothing to show.
pub trait Gate {
    ghost use Rattle.std.specs.Prelude.{ℕ};

    /// A writer was let pass at a place.
    ghost passed: { Self → ℕ → ℕ → Type 0 };

    /// So many bytes were told.
    ghost told: { Self → ℕ → Type 0 };

    /// A writer, from 0 to 7, is about to log its statement at this place, from 0. It doesn't have the logger yet.
    fn pass(&self, writer: u8, place: u32)
        ensures { passed self.now writer place };

    /// The reader took at least one byte, and has captured `total` bytes so far.
    fn took(&self, total: u64)
        ensures { told self.now total };
}

/// A gate that holds no call.
#[derive(Clone, Copy)]
pub struct OpenGate;

impl Gate for OpenGate {
    ghost passed = { λ _ _ _. Unit {0} };

    ghost told = { λ _ _. Unit {0} };

    fn pass(&self, _: u8, _: u32) {}

    fn took(&self, _: u64) {}
}
