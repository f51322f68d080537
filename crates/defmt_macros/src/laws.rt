//! What the macros put, argument by argument.
ghost use Rattle.std.specs.Prelude.{◌≡◌, ℕ, List, [], Option, take};
ghost use Rattle.defmt_encode.specs.Carry.{bytes_val, message_of, stamp_args};
ghost use Rattle.defmt_grammar.specs.declared.slot.Slot.{Slot as AnySlot};
ghost use Rattle.defmt_intern.specs.Table.{Map as AnyTable};
ghost use Rattle.defmt_intern.specs.declared.entry.Tag.{Tag as AnyTag};
ghost use Rattle.defmt_values.specs.Plain.{Val, Vals, no_vals, snoc};
ghost use Rattle.defmt_macros.specs.Frames.{Grows, Holds, buffer_of, bytes_put, count_put, head_of, slots_left};
ghost use Rattle.defmt_macros.specs.Sites.{IsSite};
ghost use Rattle.defmt_macros.specs.Stamps.{StampSuits};
ghost use Rattle.defmt_macros.specs.declared.frame.Frame.{Frame as AnyFrame};

/// A frame holds the values that were put to it, in their order: none where it begins, and one more behind each call that puts
/// one. Where no slot is to come its bytes are the message of these values. So a macro with its arguments one by one puts their
/// message.
pub fn value_by_value()
    ensures begins { (t : AnyTable) (index : ℕ) (slots : List AnySlot) (place stamp : Option ℕ)
        (frame : AnyFrame) → bytes_put frame ≡ head_of index place stamp
        → slots_left frame ≡ slots → Holds t index slots place stamp no_vals frame }
    ensures holds { (t : AnyTable) (index : ℕ) (slots : List AnySlot) (place stamp : Option ℕ)
        (vs : Vals) (v : Val) (old new : AnyFrame) (slot : AnySlot)
        → Holds t index slots place stamp vs old → Grows old new slot (bytes_val t slot v)
        → Holds t index slots place stamp (snoc vs v) new }
    ensures ends { (t : AnyTable) (index : ℕ) (slots : List AnySlot) (place stamp : Option ℕ)
        (tag : AnyTag) (vs : Vals) (frame : AnyFrame) → IsSite t index tag slots
        → StampSuits t stamp → Holds t index slots place stamp vs frame
        → slots_left frame ≡ []
        → take (count_put frame) (buffer_of frame) ≡ message_of t place (stamp_args stamp) index vs }
{}
