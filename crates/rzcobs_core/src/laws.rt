//! Laws of codes.
ghost use Rattle.std.specs.Prelude.{◌≡◌, ◌≢◌, ◌*◌, ◌<◌, ◌≤◌, ℕ, List, length, ◌++◌, replicate, All};
ghost use Rattle.rzcobs_core.specs.Blocks.{Blocks};
ghost use Rattle.rzcobs_core.specs.Canon.{canon, bound_of};

/// A code stands for one list of bytes.
pub fn one_reading()
    ensures { (code a b : List ℕ) → Blocks code a → Blocks code b → a ≡ b }
{}

/// No byte of a code is zero.
pub fn no_zero_in_code()
    ensures { (code bytes : List ℕ) → Blocks code bytes → All (λ b. b ≢ 0) code }
{}

/// A code stands for at most seven times as many bytes as it has.
pub fn reading_size()
    ensures { (code bytes : List ℕ) → Blocks code bytes → length bytes ≤ 7 * length code }
{}

/// The code that the encoder writes stands for the message and at most six zeros behind it.
pub fn canonical_reading()
    ensures { (message : List ℕ) → (zeros : ℕ) × (zeros ≤ 6)
        × Blocks (canon message) (message ++ replicate zeros 0) }
{}

/// The code that the encoder writes has no zero, has a byte where the message has one, and keeps
/// within the bound.
pub fn canonical_size()
    ensures no_zero { (message : List ℕ) → All (λ b. b ≢ 0) (canon message) }
    ensures some { (message : List ℕ) → 0 < length message → 0 < length (canon message) }
    ensures within { (message : List ℕ) → length (canon message) ≤ bound_of (length message) }
{}
