//! What holds of the events of streams.

ghost use Rattle.std.specs.Prelude.{◌≡◌, ◌<◌, ◌≤◌, ◌+◌, ◌++◌, ◌∷◌, [], List, ℕ, length, map, take, drop, false, All, Option};
ghost use Rattle.defmt_framing.specs.Calls.{Calls};
ghost use Rattle.defmt_framing.specs.Cut.{has_zero, front, pieces, tail};
ghost use Rattle.defmt_framing.specs.Framing.{Framing, Stands};
ghost use Rattle.defmt_intern.specs.Catalog.{Catalog};
ghost use Rattle.rzcobs_core.specs.Blocks.{Blocks};
ghost use Rattle.defmt_eager.specs.Line.{eager_line, IsWide};
ghost use Rattle.defmt_encode.specs.Carry.{message_of};
ghost use Rattle.defmt_encode.specs.Heard.{IsHeard};
ghost use Rattle.defmt_values.specs.Plain.{Vals};
ghost use Rattle.defmt_plan.specs.Told.{parts_of};
ghost use Rattle.defmt_decode.specs.declared.event.Event.TheVariants.{Line};
ghost use Rattle.defmt_decode.specs.Event.{IsEventOf, PlaceSuits, event_of, events_of, begun_of, tells};
ghost use Rattle.defmt_decode.specs.Sent.{Sent, IsSent, AreSent, code_of, line_of, stream_of, sent_from, sent_by, front_event, tail_event};
ghost use Rattle.defmt_decode.specs.declared.event.Event.{Event as AnyEvent};

/// Each piece of bytes has one event: where it is a code of at most 65,536 bytes, the line of the stamp and
/// the statement that are heard in what it stands for, unless their texts are too wide, or the
/// cause that is met; else that it is no code or too long. A line has a place exactly in profile Two.
pub fn one_event()
    ensures is { (t : Catalog) (piece : List ℕ) → All (λ b. b < 256) piece
        → IsEventOf t piece (event_of t piece) }
    ensures only { (t : Catalog) (piece : List ℕ) (event : AnyEvent) → IsEventOf t piece event
        → event_of t piece ≡ event }
    ensures placed { (t : Catalog) (piece : List ℕ) (event : AnyEvent) → IsEventOf t piece event
        → PlaceSuits t.profile event }
{}

/// The events of a stream are that of its front, those of its pieces and that of its tail, in this
/// order, none for a front or a tail that is empty.
pub fn events_by_parts()
    ensures { (t : Catalog) (stream : List ℕ) → events_of t stream
        ≡ front_event (front stream)
        ++ (map (event_of t) (pieces stream) ++ tail_event (tail stream)) }
{}

/// The code of a statement's message is read back as its line. It has at most 65,536 bytes where
/// the message has at most 2,000.
pub fn frames_read_back()
    ensures line { (t : Catalog) (s : Sent) → IsSent t s → event_of t (code_of t s) ≡ line_of t s }
    ensures short { (t : Catalog) (s : Sent)
        → length (message_of t.entries s.place s.stamp s.index s.args) ≤ 2000
        → length (code_of t s) ≤ 65536 }
{}

/// However a stream is cut into the bytes of the calls of a new host, the events that they answer
/// are those that are begun in the bytes that they took.
pub fn any_cutting()
    ensures { (t : Catalog) (before after : Framing) (taken : List ℕ) (told : List AnyEvent)
        → Stands before [] → Calls (tells t) before after taken told
        → Stands after taken × (begun_of t taken ≡ told) }
{}

/// A frame whose bytes and both zeros stand in a stream gives its event in its place, whatever
/// stands in front and behind: its line where its piece has at most 65,536 bytes and is a code in
/// which a stamp and a statement are heard whose texts aren't too wide. So it is of each statement
/// that is sent.
pub fn intact_frames()
    ensures piece { (t : Catalog) (p c q : List ℕ) → has_zero c ≡ false → 0 < length c
        → events_of t (p ++ (0 ∷ (c ++ (0 ∷ q))))
        ≡ events_of t (p ++ 0 ∷ []) ++ (event_of t c ∷ events_of t (0 ∷ q)) }
    ensures heard { (t : Catalog) (p c q bytes : List ℕ) (place : Option ℕ) (stamp : Vals)
        (index : ℕ) (vs : Vals)
        → length c ≤ 65536 → Blocks c bytes → IsHeard t bytes place stamp index vs
        → (IsWide t.entries stamp index vs → ⊥)
        → events_of t (p ++ (0 ∷ (c ++ (0 ∷ q))))
        ≡ events_of t (p ++ 0 ∷ [])
        ++ (Line index place (parts_of t.entries (length c) stamp index)
        (eager_line t.entries stamp index vs) ∷ events_of t (0 ∷ q)) }
    ensures sent { (t : Catalog) (p q : List ℕ) (s : Sent) → IsSent t s
        → events_of t (p ++ (0 ∷ (code_of t s ++ (0 ∷ q))))
        ≡ events_of t (p ++ 0 ∷ []) ++ (line_of t s ∷ events_of t (0 ∷ q)) }
{}

/// A stream of frames without its first bytes: a cut front with the number of bytes before the
/// next zero, where that isn't 0, and then the lines of the frames that begin at or after the cut.
pub fn without_front()
    ensures { (t : Catalog) (place : ℕ) (sent : List Sent) → AreSent t sent
        → let left = drop place (stream_of t sent) in
        events_of t left ≡ front_event (front left) ++ map (line_of t) (sent_from t place 0 sent) }
{}

/// The first bytes of a stream of frames: the lines of the frames that end at or before the cut,
/// and then a cut tail with the number of bytes behind the last zero, where that isn't 0.
pub fn without_end()
    ensures { (t : Catalog) (place : ℕ) (sent : List Sent) → AreSent t sent
        → let left = take place (stream_of t sent) in
        events_of t left ≡ map (line_of t) (sent_by t place 0 sent) ++ tail_event (tail left) }
{}

/// A stream of frames that is cut between two frames, or at one of its ends: behind the cut stand the frames that begin
/// at or after it, and give their lines, and in front of it those that end at or before it, and give theirs.
pub fn cut_between_frames()
    ensures rest { (t : Catalog) (before after : List Sent) → AreSent t (before ++ after)
        → events_of t (drop (length (stream_of t before)) (stream_of t (before ++ after)))
        ≡ map (line_of t) after }
    ensures start { (t : Catalog) (before after : List Sent) → AreSent t (before ++ after)
        → events_of t (take (length (stream_of t before)) (stream_of t (before ++ after)))
        ≡ map (line_of t) before }
    ensures from { (t : Catalog) (before after : List Sent)
        → sent_from t (length (stream_of t before)) 0 (before ++ after) ≡ after }
    ensures by { (t : Catalog) (before after : List Sent)
        → sent_by t (length (stream_of t before)) 0 (before ++ after) ≡ before }
{}

/// A stream of frames that is cut within one of them, `n` bytes into its code. Behind the cut what is left of the code gives
/// a cut front, where something is left, and the frames behind that one give their lines. In front of the cut the frames
/// before that one give their lines, and the first `n` bytes of the code a cut tail, where `n` isn't 0.
pub fn cut_within_a_frame()
    ensures rest { (t : Catalog) (n : ℕ) (before after : List Sent) (s : Sent)
        → AreSent t (before ++ s ∷ after) → n ≤ length (code_of t s)
        → events_of t
        (drop (length (stream_of t before) + 1 + n) (stream_of t (before ++ s ∷ after)))
        ≡ front_event (drop n (code_of t s)) ++ map (line_of t) after }
    ensures start { (t : Catalog) (n : ℕ) (before after : List Sent) (s : Sent)
        → AreSent t (before ++ s ∷ after) → n ≤ length (code_of t s)
        → events_of t
        (take (length (stream_of t before) + 1 + n) (stream_of t (before ++ s ∷ after)))
        ≡ map (line_of t) before ++ tail_event (take n (code_of t s)) }
    ensures from { (t : Catalog) (n : ℕ) (before after : List Sent) (s : Sent)
        → n ≤ length (code_of t s)
        → sent_from t (length (stream_of t before) + 1 + n) 0 (before ++ s ∷ after) ≡ after }
    ensures by { (t : Catalog) (n : ℕ) (before after : List Sent) (s : Sent)
        → n ≤ length (code_of t s)
        → sent_by t (length (stream_of t before) + 1 + n) 0 (before ++ s ∷ after) ≡ before }
{}
