//! Laws of messages.
ghost use Rattle.std.specs.Prelude.{◌≡◌, ◌<◌, ◌^◌, ℕ, List, length, Option, Some};
ghost use Rattle.rzcobs_core.specs.Blocks.{Blocks};
ghost use Rattle.rzcobs_core.specs.Canon.{canon};
ghost use Rattle.defmt_intern.specs.Catalog.{Catalog};
ghost use Rattle.defmt_intern.specs.Table.{Map};
ghost use Rattle.defmt_intern.specs.declared.table.Profile.{Profile as AnyProfile};
ghost use Rattle.defmt_values.specs.Fits.{Fits, FitsStamp, IsLogged};
ghost use Rattle.defmt_values.specs.Plain.{Vals};
ghost use Rattle.defmt_encode.specs.Carry.{message_of, stamp_args};
ghost use Rattle.defmt_encode.specs.Heard.{IsHeard, SameStatement};
ghost use Rattle.defmt_encode.specs.Lengths.{MessageLengthsFit};
ghost use Rattle.defmt_encode.specs.Met.{IsMet};
ghost use Rattle.defmt_encode.specs.Placed.{HasPlace, place_in};
ghost use Rattle.defmt_values.specs.Sound.{AreSound};
ghost use Rattle.defmt_intern.specs.Stamp.{stamp_of};

/// In given bytes at most one place, stamp and statement is heard, and at most one cause is met; never both.
pub fn one_answer()
    ensures one_heard { (t : Catalog) (bytes : List ℕ) (k l : Option ℕ) (a b : Vals) (i j : ℕ)
        (vs ws : Vals) → IsHeard t bytes k a i vs → IsHeard t bytes l b j ws
        → SameStatement k l a b i j vs ws }
    ensures one_met { (t : Catalog) (bytes : List ℕ) (m n : ℕ) → IsMet t bytes m → IsMet t bytes n
        → m ≡ n }
    ensures never_both { (t : Catalog) (bytes : List ℕ) (place : Option ℕ) (stamp : Vals)
        (index : ℕ) (vs : Vals) (number : ℕ) → IsHeard t bytes place stamp index vs
        → IsMet t bytes number → ⊥ }
{}

/// What the code of a message stands for is heard as the place, the stamp and the statement of the message, where the place
/// suits the profile and the lengths of its texts and bytes fit in the four bytes that tell them.
pub fn reads_back()
    ensures { (t : Catalog) (place : Option ℕ) (stamp : Vals) (index : ℕ) (vs : Vals)
        (bytes : List ℕ) → HasPlace t.profile place → FitsStamp t.entries (stamp_of t.entries) stamp
        → Fits t.entries index vs → IsLogged t.entries index → AreSound stamp → AreSound vs
        → MessageLengthsFit t.entries stamp index vs
        → Blocks (canon (message_of t.entries place stamp index vs)) bytes
        → IsHeard t bytes place stamp index vs }
{}

/// In a message of fewer than 4,294,967,296 bytes the lengths of texts and bytes fit in the four bytes that tell them.
pub fn lengths_fit()
    ensures { (t : Map) (place : Option ℕ) (stamp : Vals) (index : ℕ) (vs : Vals)
        → length (message_of t place stamp index vs) < 2 ^ 32 → MessageLengthsFit t stamp index vs }
{}

/// How many bytes a message has doesn't depend on the number of its stamp.
pub fn stamp_length()
    ensures { (t : Map) (place : Option ℕ) (m n index : ℕ) (vs : Vals)
        → length (message_of t place (stamp_args (Some m)) index vs)
        ≡ length (message_of t place (stamp_args (Some n)) index vs) }
{}

/// And not on the number of its mark.
pub fn place_length()
    ensures { (t : Map) (p : AnyProfile) (m n : ℕ) (stamp : Vals) (index : ℕ) (vs : Vals)
        → length (message_of t (place_in p m) stamp index vs)
        ≡ length (message_of t (place_in p n) stamp index vs) }
{}

/// The place of each mark suits the profile.
pub fn places_suit()
    ensures { (p : AnyProfile) (n : ℕ) → HasPlace p (place_in p n) }
{}
