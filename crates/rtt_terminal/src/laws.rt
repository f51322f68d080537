//! What holds of streams.

ghost use Rattle.std.specs.Prelude.{◌≡◌, ℕ, List};
ghost use Rattle.std.specs.List.{AllByRecursion};
ghost use Rattle.rtt_terminal.specs.declared.fault.Cause.{Cause as AnyCause};
ghost use Rattle.rtt_terminal.specs.Stream.{Line, IsLine, spoken, screens, Shows, HasFault};

/// Bytes show at most one list of lines for each terminal, have at most one first fault, and never both.
pub fn one_reading()
    ensures one { (bytes : List ℕ) (a b : List (List (List ℕ)))
        → Shows bytes a → Shows bytes b → a ≡ b }
    ensures never_both { (bytes : List ℕ) (a : List (List (List ℕ))) (cause : AnyCause) (place : ℕ)
        → Shows bytes a → HasFault bytes cause place → ⊥ }
    ensures first { (bytes : List ℕ) (c d : AnyCause) (i j : ℕ)
        → HasFault bytes c i → HasFault bytes d j → (c ≡ d) × (i ≡ j) }
{}

/// What was spoken is read: the stream of some lines shows each terminal its lines in their order.
pub fn spoken_is_read()
    ensures { (lines : List Line) → AllByRecursion IsLine lines
        → Shows (spoken lines) (screens lines) }
{}
