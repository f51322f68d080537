//! What holds of the digits.

ghost use Rattle.std.specs.Prelude.{◌≡◌, ◌*◌, ◌<◌, ℕ, true};
ghost use Rattle.std.specs.Float.Ieee.{Format, hid, ones};
ghost use Rattle.defmt_floats.specs.Shortest.{reads_back, digits, last_place};

/// The digits of each number but 0 read back as it: up to so many digits as the size has, one of the two decimals next to it does.
pub fn digits_read_back()
    ensures { (f : Format) (bits : ℕ) → 0 < bits → bits < ones f * hid f
        → reads_back f bits (digits f bits) (last_place f bits) ≡ true }
{}
