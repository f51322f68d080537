//! How many whole frames came.
ghost use Rattle.std.specs.Prelude.{◌≡◌, ℕ, ◌+◌, ◌^◌, ◌<◌, ◌≤◌, List, [], ◌∷◌, ◌++◌, length};
ghost use Rattle.defmt_steer.specs.Steers.{Counts};

// Hears the bytes of a stream, and counts the whole frames: what lies between two zeros, and isn't empty.
#[derive(Drop)]
pub(crate) struct FrameCount {
    pub(crate) frames: u64,
    pub(crate) zeros: bool,
    pub(crate) begun: bool,
}

impl FrameCount {
    // A count of a stream that has no byte yet.
    pub(crate) fn new() -> FrameCount
        ensures counts { Counts result.frames result.zeros result.begun [] }
        ensures none { result.frames ≡ 0 }
    {
        FrameCount {
            frames: 0,
            zeros: false,
            begun: false,
        }
    }

    // One byte more.
    fn hear(&mut self, byte: u8)
        requires { self.old.frames + 1 < 2 ^ 64 }
        ensures most { self.new.frames ≤ self.old.frames + 1 }
        ensures more { self.old.frames ≤ self.new.frames }
        ensures counts { (stream : List ℕ)
            → Counts self.old.frames self.old.zeros self.old.begun stream
            → Counts self.new.frames self.new.zeros self.new.begun (stream ++ byte ∷ []) }
    {
        if byte != 0 {
            self.begun = self.zeros;
            return;
        }
        if self.begun {
            self.frames += 1;
        }
        self.zeros = true;
        self.begun = false;
    }

    // More bytes.
    pub(crate) fn hear_all(&mut self, bytes: &[u8])
        requires { self.old.frames + length bytes.now < 2 ^ 64 }
        ensures more { self.old.frames ≤ self.new.frames }
        ensures counts { (stream : List ℕ)
            → Counts self.old.frames self.old.zeros self.old.begun stream
            → Counts self.new.frames self.new.zeros self.new.begun (stream ++ bytes.now) }
    {
        for byte in bytes {
            self.hear(*byte);
        }
    }
}
