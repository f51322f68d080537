//! The words that settings have.

ghost use Rattle.std.specs.Prelude.{◌≡◌};
ghost use Rattle.defmt_lines.specs.Settings.{language_of, late_of, mode_of, profile_of};

use crate::settings::RingMode;
use defmt_grammar::Language;
use defmt_intern::Profile;

// A script that doesn't name its language has the other one.
pub(crate) fn language_of(word: &str) -> Option<Language>
    ensures { result ≡ language_of word.now }
{
    match word {
        "full" => Some(Language::Full),
        _ => None,
    }
}

pub(crate) fn mode_of(word: &str) -> Option<RingMode>
    ensures { result ≡ mode_of word.now }
{
    match word {
        "block" => Some(RingMode::Block),
        "skip" => Some(RingMode::Skip),
        "trim" => Some(RingMode::Trim),
        _ => None,
    }
}

pub(crate) fn late_of(word: &str) -> Option<bool>
    ensures { result ≡ late_of word.now }
{
    match word {
        "live" => Some(false),
        "late" => Some(true),
        _ => None,
    }
}

pub(crate) fn profile_of(word: &str) -> Option<Profile>
    ensures { result ≡ profile_of word.now }
{
    match word {
        "1" => Some(Profile::One),
        "2" => Some(Profile::Two),
        _ => None,
    }
}
