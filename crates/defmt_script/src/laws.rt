//! Laws of scripts.

ghost use Rattle.std.specs.Prelude.{◌≡◌, ◌+◌, ◌<◌, ◌≤◌, ◌^◌, ℕ, List, Ok, Option, Some, length};
ghost use Rattle.defmt_eager.specs.Line.{IsWide};
ghost use Rattle.defmt_encode.specs.Carry.{message_of, stamp_args};
ghost use Rattle.defmt_intern.specs.Stamp.{stamp_of};
ghost use Rattle.defmt_intern.specs.Table.{Map};
ghost use Rattle.defmt_script.specs.Lawful.{IsLawful, IsSound, stamp_in};
ghost use Rattle.defmt_script.specs.Reads.{Reads};
ghost use Rattle.defmt_script.specs.Script.{Script as Read, statements_by};
ghost use Rattle.defmt_script.specs.Texts.{CountsTexts};
ghost use Rattle.defmt_script.specs.Turns.{logs_in, steps_of, texts_in};
ghost use Rattle.defmt_values.specs.Fits.{FitsStamp};
ghost use Rattle.defmt_values.specs.Plain.{Vals};
ghost use Rattle.defmt_values.specs.declared.value.Statement.{Statement as AnyStatement};
ghost use Rattle.rtt_terminal.specs.Speech.{count_said};

/// The message of a statement has as many bytes with each stamp as with any other.
pub fn stamps_are_alike()
    ensures { (table : Map) (place : Option ℕ) (index : ℕ) (args : Vals) (one other : ℕ)
        → length (message_of table place (stamp_args (Some one)) index args)
        ≡ length (message_of table place (stamp_args (Some other)) index args) }
{}

/// A text reads only as lawful scripts.
pub fn scripts_are_lawful()
    ensures { (text : List ℕ) (script : Read) → Reads text (Ok script) → IsLawful script }
{}

/// Each stamp below 2^64 fits the timestamp's entry of a lawful script's table, where there are stamps, and no statement of
/// the script has too wide a line with it.
pub fn stamps_fit()
    ensures fits { (script : Read) (n : ℕ) → IsLawful script → n < 2 ^ 64
        → FitsStamp script.table (stamp_of script.table)
        (stamp_args (stamp_in script.settings.stamp n)) }
    ensures narrow { (script : Read) (n : ℕ) (stm : AnyStatement) → IsLawful script → n < 2 ^ 64
        → IsSound script.table script.settings stm
        → IsWide script.table (stamp_args (stamp_in script.settings.stamp n)) stm.index stm.args
        → ⊥ }
{}

/// The texts of a script's table have at most 1,048,576 bytes more than the script was read from.
pub fn texts_are_few()
    ensures { (count : Map → ℕ) (text : List ℕ) (script : Read)
        → CountsTexts count → Reads text (Ok script)
        → count script.table ≤ length text + 2 ^ 20 }
{}

/// Each writer of a lawful script has a step for each of its statements and for each of its texts.
pub fn steps_are_counted()
    ensures { (script : Read) (writer : ℕ) → IsLawful script
        → (logs_in (steps_of script writer) ≡ length (statements_by script writer))
        × (texts_in (steps_of script writer) ≡ count_said script.said writer) }
{}
