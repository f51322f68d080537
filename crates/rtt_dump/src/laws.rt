//! What the function that contracts cite says of an image.
ghost use Rattle.std.specs.Prelude.{◌≡◌, ℕ, List, Some, None};
ghost use Rattle.rtt_dump.specs.Answers.{refusal};
ghost use Rattle.rtt_dump.specs.Checks.{Holds, IsFirstFault, Passes, fault_of, place};
ghost use Rattle.rtt_dump.specs.declared.fault.DumpFault.{DumpFault};

/// What an image is refused for, as a function of it, is told of the first of its checks that doesn't hold; and it isn't
/// refused only where all checks hold.
pub fn refusals_are_checked()
    ensures first { (file : List ℕ) (base up : ℕ) (fault : DumpFault)
        → refusal file base up ≡ Some fault
        → IsFirstFault place (Holds file base up) (fault_of file base up) fault }
    ensures all { (file : List ℕ) (base up : ℕ)
        → refusal file base up ≡ None → Passes file base up }
{}
