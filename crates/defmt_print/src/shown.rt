//! Which lines of a tape are printed by rules.
ghost use Rattle.std.specs.Prelude.{◌≡◌, ◌<◌, List, Option, None, length};
ghost use Rattle.defmt_hooks.specs.declared.rules.Rules.{Rules as AnyRules};
ghost use Rattle.defmt_intern.specs.declared.table.Profile.TheVariants.{One, Two};
ghost use Rattle.defmt_logger.specs.declared.mark.Mark.{Mark as AnyMark};
ghost use Rattle.defmt_print.specs.Heard.{whole_events};
ghost use Rattle.defmt_print.specs.Printed.{ArePlaced, mark_statement};
ghost use Rattle.defmt_print.specs.Shown.{shown_mark_lines, shows_mark, shows_statement, tape_lines};
ghost use Rattle.defmt_recording.specs.Shown.{event_lines_by};
ghost use Rattle.defmt_script.specs.Script.{Script as AnyScript};

use defmt_decode::{gaps_count, shows_line};
use defmt_hooks::Rules;
use defmt_logger::Mark;
use defmt_script::Script;

// Whether rules show the statement of a mark.
fn shows_statement(rules: &Rules, script: &Script, mark: &Mark) -> bool
    ensures { result ≡ shows_statement rules.now script.now.table
        (mark_statement script.now mark.now) }
{
    match script.statement(mark.writer, mark.place) {
        Some(statement) => shows_line(rules, script.table(), statement.index),
        None => true,
    }
}

/// Whether the statement of a mark is shown, by rules where there are some.
pub fn shows_mark(only: &Option<Rules>, script: &Script, mark: &Mark) -> bool
    ensures { result ≡ shows_mark only.now script.now mark.now }
{
    match only {
        None => true,
        Some(rules) => shows_statement(rules, script, mark),
    }
}

/// Rules leave lines out and change nothing else: of the events of the frames that were sent whole, which are what the host tells
/// in blocking and skip mode, the eager lines of the statements are printed that are shown, in the tape's order. In profile Two
/// the gaps between them are how many frames were dropped there, whether lines are shown or not.
pub fn only_lines_are_left_out()
    ensures lines { (only : Option AnyRules) (s : AnyScript) (tape : List AnyMark)
        → s.settings.profile ≡ One
        → event_lines_by only s.table (whole_events s tape) ≡ shown_mark_lines only s tape }
    ensures gaps { (only : Option AnyRules) (s : AnyScript) (tape : List AnyMark)
        → s.settings.profile ≡ Two → ArePlaced s tape → length tape < 65536
        → event_lines_by only s.table (whole_events s tape) ≡ tape_lines only s None tape }
{
    gaps_count();
}
