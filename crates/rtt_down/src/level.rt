//! The levels of statements.
ghost use Rattle.std.specs.Prelude.{◌≡◌};
ghost use Rattle.rtt_down.specs.Levels.{is_sent, level_at};

use defmt_hooks::{Floor, Level, level_of};
use defmt_script::Script;

// The level of a writer's statement.
#[tactic(auto, unfolding(crate::specs::Levels::level_at))]
pub(crate) fn level_at(script: &Script, writer: u8, place: u32) -> Option<Level>
    ensures { result ≡ level_at script.now writer place }
{
    let Some(statement) = script.statement(writer, place) else {
        return None;
    };
    match script.table().get(statement.index) {
        Some(entry) => level_of(&entry.tag),
        None => None,
    }
}

// Whether a message of this level, or of none, is sent where this is the least level that is.
pub(crate) fn is_sent(level: Option<Level>, floor: Level) -> bool
    ensures { result ≡ is_sent level floor }
{
    match level {
        Some(level) => Floor::At(floor).passes(level),
        None => true,
    }
}
