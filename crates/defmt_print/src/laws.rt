//! What the gaps in an output tell.
ghost use Rattle.std.specs.Prelude.{◌≡◌, ◌++◌, ◌∷◌, ℕ, List, Option, Some, None, flat_map, length};
ghost use Rattle.defmt_decode.specs.Gap.{gap_of};
ghost use Rattle.defmt_decode.specs.declared.event.Event.{Event};
ghost use Rattle.defmt_hooks.specs.declared.rules.Rules.{Rules};
ghost use Rattle.defmt_intern.specs.Table.{Map};
ghost use Rattle.defmt_logger.specs.Tape.{mark_line};
ghost use Rattle.defmt_logger.specs.declared.mark.Mark.{Mark};
ghost use Rattle.defmt_plan.specs.declared.message.Parts.{Parts};
ghost use Rattle.defmt_print.specs.Heard.{AreNoLines, HaveNoPlaces, IsWhole, WereDropped, line_at};
ghost use Rattle.defmt_recording.specs.Output.{gap_line};
ghost use Rattle.defmt_recording.specs.Shown.{event_lines_by, event_lines_from, kept_event};
ghost use Rattle.defmt_print.specs.Shown.{kept_line, shows_index, shows_mark, tape_lines};
ghost use Rattle.defmt_script.specs.Script.{Script};

/// In front of a line with a place stands how many frames are missing since the line before, by both places, whatever faults
/// stand between the two, and also where rules don't show the line or the one before; lines without places stand alone. In front
/// of the line of a frame that was sent whole stands how many were dropped since the one before that was.
pub fn gaps_are_told()
    ensures lines { (only : Option Rules) (table : Map) (front between rest : List Event)
        (first second a b : ℕ) (p q : Parts) (one two : List ℕ) → AreNoLines between
        → event_lines_by only table
        (front ++ line_at first a p one ∷ between ++ line_at second b q two ∷ rest)
        ≡ event_lines_by only table (front ++ line_at first a p one ∷ between)
        ++ (gap_line (gap_of a b) ++ kept_line (shows_index only table second) two)
        ++ event_lines_from only table (Some b) rest }
    ensures none { (only : Option Rules) (table : Map) (events : List Event) → HaveNoPlaces events
        → event_lines_by only table events ≡ flat_map (kept_event only table) events }
    ensures marks { (only : Option Rules) (s : Script) (before between after : List Mark)
        (a b : Mark) → IsWhole a → IsWhole b → WereDropped between
        → tape_lines only s None (before ++ a ∷ between ++ b ∷ after)
        ≡ tape_lines only s None (before ++ a ∷ between)
        ++ (gap_line (length between) ++ kept_line (shows_mark only s b) (mark_line s b))
        ++ tape_lines only s (Some 0) after }
{}
