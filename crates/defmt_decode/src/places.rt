//! Places of lines.
ghost use Rattle.std.specs.Prelude.{◌≡◌, ◌<◌, ◌+◌, ◌%◌, ℕ};
ghost use Rattle.defmt_decode.specs.Gap.{gap_of};

/// How many frames are missing between two lines with these places, of which none stands between them:
/// `next - last - 1` modulo 65,536. Takes no memory.
pub fn gap(last: u16, next: u16) -> u16
    ensures told { result ≡ gap_of last next }
    ensures on { (last + 1 + result) % 65536 ≡ next }
{
    next.wrapping_sub(last).wrapping_sub(1)
}

/// Between the places of two marks a gap counts the marks that stand between them, where these are fewer than 65,536.
pub fn gaps_count()
    ensures { (n missing : ℕ) → missing < 65536
        → gap_of (n % 65536) ((n + (1 + missing)) % 65536) ≡ missing }
{}
