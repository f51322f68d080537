//! How many statements each writer has.
ghost use Rattle.std.specs.Prelude.{◌≡◌, [], ◌∷◌};
ghost use Rattle.defmt_frames.specs.Frames.{count};

use defmt_script::Script;

/// How many statements the writers 0 to 7 have, in their order. Takes no memory.
pub fn totals_of(script: &Script) -> [u32; 8]
    ensures { result ≡ count script.now 0 ∷ count script.now 1 ∷ count script.now 2
        ∷ count script.now 3 ∷ count script.now 4 ∷ count script.now 5
        ∷ count script.now 6 ∷ count script.now 7 ∷ [] }
{
    [
        script.count(0),
        script.count(1),
        script.count(2),
        script.count(3),
        script.count(4),
        script.count(5),
        script.count(6),
        script.count(7),
    ]
}
