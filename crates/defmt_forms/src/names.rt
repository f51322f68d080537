//! The names of levels.
ghost use Rattle.std.specs.Prelude.{◌≡◌};
ghost use Rattle.defmt_forms.specs.Names.{level_name};

use defmt_hooks::Level;

/// The name of a level in printed lines: `TRACE`, `DEBUG`, `INFO`, `WARN` or `ERROR`.
pub fn level_name(level: Level) -> &'static str
    ensures { result.now ≡ level_name level }
{
    match level {
        Level::Trace => "TRACE",
        Level::Debug => "DEBUG",
        Level::Info => "INFO",
        Level::Warn => "WARN",
        Level::Error => "ERROR",
    }
}
