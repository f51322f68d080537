//! What holds of said words.

ghost use Rattle.std.specs.Prelude.{◌≡◌, ◌≤◌, ◌*◌, List, length};
ghost use Rattle.rtt_booth.specs.Said.{IsLawful, lines_of, screens_by, spoken_by};
ghost use Rattle.rtt_booth.specs.declared.said.Word.{Word as AnyWord};
ghost use Rattle.rtt_terminal.specs.Speech.{IsSpeech, Speech as ByWriter, count_texts};
ghost use Rattle.rtt_terminal.specs.Stream.{Shows};

/// What words speak shows each terminal their texts in order, and lawful words have a line each.
pub fn words_are_shown()
    ensures shown { (speech : ByWriter) (words : List AnyWord)
        → IsSpeech speech → Shows (spoken_by speech words) (screens_by speech words) }
    ensures all { (speech : ByWriter) (words : List AnyWord)
        → IsLawful speech words → length (lines_of speech words) ≡ length words }
{}

/// What lawful words speak has at most 2,003 bytes for each text that there is.
pub fn spoken_is_short()
    ensures { (speech : ByWriter) (words : List AnyWord) → IsSpeech speech → IsLawful speech words
        → length (spoken_by speech words) ≤ count_texts speech * 2003 }
{}
