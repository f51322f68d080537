//! Laws of streams of frames, whole and cut.
ghost use Rattle.std.specs.Prelude.{◌≡◌, ◌<◌, ◌≤◌, ◌+◌, ◌++◌, ◌∷◌, [], List, ℕ, length, map, take, drop, true, false};
ghost use Rattle.rzcobs_core.specs.Canon.{canon};
ghost use Rattle.defmt_framing.specs.Cut.{has_zero, front, gaps, pieces, tail, nonempty};
ghost use Rattle.defmt_framing.specs.Places.{ended, LackZeros};
ghost use Rattle.defmt_framing.specs.Told.{Tells, of_piece, of_front, of_tail, cut_off, events, begun};
ghost use Rattle.defmt_framing.specs.Frames.{frames, AreCodes, AreSome, beginning_from, ending_by};
ghost use Rattle.defmt_framing.specs.Framing.{Framing, Stands};
ghost use Rattle.defmt_framing.specs.Calls.{Calls};

/// The parts of a stream that is laid out by its zeros: what comes before the first, what lies
/// between two that follow one another and isn't empty, and what comes after the last.
pub fn cut_by_places()
    ensures { (first last : List ℕ) (between : List (List ℕ))
        → has_zero first ≡ false → has_zero last ≡ false → LackZeros between
        → let stream = first ++ (0 ∷ (ended between ++ last)) in
        (front stream ≡ first) × (pieces stream ≡ nonempty between) × (tail stream ≡ last) }
{}

/// Every stream with a zero is laid out so.
pub fn always_laid_out()
    ensures { (stream : List ℕ) → has_zero stream ≡ true
        → stream ≡ front stream ++ (0 ∷ (ended (gaps stream) ++ tail stream)) }
{}

/// A frame whose bytes and both zeros stand in a stream tells what its code tells, in its place.
pub fn intact_frames<E>()
    ensures { (tells : Tells E) (p c q : List ℕ) → has_zero c ≡ false → 0 < length c
        → events tells (p ++ (0 ∷ (c ++ (0 ∷ q))))
        ≡ events tells (p ++ 0 ∷ []) ++ (of_piece tells c ∷ events tells (0 ∷ q)) }
{}

/// A stream of frames without its first bytes: something of the rest of the frame that the cut
/// falls in, and then what the frames tell that begin at or after the cut.
pub fn without_front<E>()
    ensures { (tells : Tells E) (place : ℕ) (codes : List (List ℕ)) → AreCodes codes
        → let left = drop place (frames codes) in
        events tells left
        ≡ cut_off (of_front tells) (front left) ++ map (of_piece tells) (beginning_from place 0 codes) }
{}

/// The first bytes of a stream of frames: what the frames tell that end at or before the cut, and
/// then something of the front of the frame that the cut falls in.
pub fn without_end<E>()
    ensures { (tells : Tells E) (place : ℕ) (codes : List (List ℕ)) → AreCodes codes
        → let left = take place (frames codes) in
        events tells left
        ≡ map (of_piece tells) (ending_by place 0 codes) ++ cut_off (of_tail tells) (tail left) }
{}

/// A stream of frames that is cut between two frames, or at one of its ends: behind the cut stand the frames that begin
/// at or after it, and in front of it those that end at or before it.
pub fn cut_between_frames<E>()
    ensures rest { (tells : Tells E) (before after : List (List ℕ)) → AreCodes (before ++ after)
        → events tells (drop (length (frames before)) (frames (before ++ after))) ≡ map (of_piece tells) after }
    ensures start { (tells : Tells E) (before after : List (List ℕ)) → AreCodes (before ++ after)
        → events tells (take (length (frames before)) (frames (before ++ after))) ≡ map (of_piece tells) before }
    ensures from { (before after : List (List ℕ))
        → beginning_from (length (frames before)) 0 (before ++ after) ≡ after }
    ensures by { (before after : List (List ℕ))
        → ending_by (length (frames before)) 0 (before ++ after) ≡ before }
{}

/// A stream of frames that is cut within one of them, `n` bytes into its code: behind the cut stand what is left of the
/// code, as a front, and the frames behind that one, and in front of it the frames before that one and the first `n` bytes
/// of the code, as a tail.
pub fn cut_within_a_frame<E>()
    ensures rest { (tells : Tells E) (n : ℕ) (before after : List (List ℕ)) (c : List ℕ)
        → AreCodes (before ++ c ∷ after) → n ≤ length c
        → events tells (drop (length (frames before) + 1 + n) (frames (before ++ c ∷ after)))
        ≡ cut_off (of_front tells) (drop n c) ++ map (of_piece tells) after }
    ensures start { (tells : Tells E) (n : ℕ) (before after : List (List ℕ)) (c : List ℕ)
        → AreCodes (before ++ c ∷ after) → n ≤ length c
        → events tells (take (length (frames before) + 1 + n) (frames (before ++ c ∷ after)))
        ≡ map (of_piece tells) before ++ cut_off (of_tail tells) (take n c) }
    ensures from { (n : ℕ) (before after : List (List ℕ)) (c : List ℕ) → n ≤ length c
        → beginning_from (length (frames before) + 1 + n) 0 (before ++ c ∷ after) ≡ after }
    ensures by { (n : ℕ) (before after : List (List ℕ)) (c : List ℕ) → n ≤ length c
        → ending_by (length (frames before) + 1 + n) 0 (before ++ c ∷ after) ≡ before }
{}

/// However a stream is cut into the bytes of the calls, a new framer tells over them all what is
/// begun in the bytes that they took.
pub fn any_cutting<E>()
    ensures { (tells : Tells E) (before after : Framing) (taken : List ℕ) (told : List E)
        → Stands before [] → Calls tells before after taken told
        → Stands after taken × (begun tells taken ≡ told) }
{}

/// The codes that the encoder writes of messages that aren't empty are codes of frames: none is
/// empty or has a zero.
pub fn messages_have_codes()
    ensures { (messages : List (List ℕ)) → AreSome messages → AreCodes (map canon messages) }
{}
