//! Which messages are kept.
ghost use Rattle.std.specs.Prelude.{◌≡◌};
ghost use Rattle.defmt_hooks.specs.Kept.{keeps};

use crate::floors::Floors;
use crate::level::{Floor, Level};

/// Which messages are kept, by their level and the package that they come from.
#[derive(Drop)]
pub struct Rules {
    /// The floor of each package that has none of its own.
    pub rest: Floor,
    /// The packages with a floor of their own. Of several for one package the first counts.
    pub packages: Floors,
}

/// Whether the rules keep a message: by the floor of the first pair that has its package, or else by `rest`, its level is
/// the floor's or a later one. Takes no memory.
pub fn keeps(rules: &Rules, level: Level, name: &str) -> bool
    ensures { result ≡ keeps rules.now level name.now }
{
    let floor = rules.packages.get(name).unwrap_or(rules.rest);
    floor.passes(level)
}
